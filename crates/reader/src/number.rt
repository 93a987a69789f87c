// Decimal numbers without leading zeros: the digits are found, then counted up, then judged.
// A number above 65,535 is never held: the count sticks at 65,536.
ghost use Rattle.std.specs.Prelude.{◌≡◌, min, length};
ghost use Rattle.sheet.specs.Number.{AllDigits, digit_run, digits_in, value_of, number_of};
ghost use Rattle.reader.specs.Part.{part_said};
ghost use Rattle.reader.specs.Parts.{itself};
ghost use Rattle.reader.specs.Piece.{piece_by};

use super::Part;
use super::piece::Piece;
use refusal::{Refusal, Rule};

// How many digits stand at the front.
fn digit_run(w: &[u8]) -> usize
    ensures { result ≡ length (digit_run w.now) }
{
    w.iter().take_while(|b| b.is_ascii_digit()).count()
}

// How many digits can stand in the number: one that begins with 0 has that digit alone.
#[tactic(auto, using(crate::proofs::Digits::digits_zero, crate::proofs::Digits::digits_all))]
fn digits_in(w: &[u8]) -> usize
    ensures { result ≡ length (digits_in w.now) }
{
    if w.first() == Some(&b'0') {
        1
    } else {
        digit_run(w)
    }
}

// The number that digits say, or 65,536 where it is more.
#[tactic(auto, using(crate::proofs::Digits::valued_next, crate::proofs::Digits::valued_end))]
fn value(digits: &[u8]) -> u32
    requires { AllDigits digits.now }
    ensures { result ≡ min 65536 (value_of digits.now) }
{
    let mut v: u32 = 0;
    for &b in digits {
        v = (v * 10 + u32::from(b - b'0')).min(65536);
    }
    v
}

// Reads the number that fills w; there is room for numbers below `room`.
#[tactic(auto, using(crate::proofs::Judged::judged))]
pub(crate) fn number_in(w: Piece, room: usize) -> Result<Part, Refusal>
    ensures { part_said result ≡ piece_by itself (number_of room) w.entry }
{
    let n = digits_in(w.bytes);
    if n == 0 {
        return Err(Refusal::at(Rule::Form, w.at));
    }
    let v = value(&w.bytes[..n]);
    if v > 65535 {
        return Err(Refusal::at(Rule::LargeNumber, w.at));
    }
    if v as usize >= room {
        return Err(Refusal::at(Rule::TablesRoom, w.at));
    }
    if n < w.bytes.len() {
        return Err(Refusal::at(Rule::Form, w.at + n));
    }
    Ok(Part {
        value: v as u16,
        next: w.end(),
    })
}
