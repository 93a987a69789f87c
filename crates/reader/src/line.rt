// A line of a key and a number, and what every line has: its key, and its end.
ghost use Rattle.std.specs.Prelude.{◌≡◌, ◌≤◌, length};
ghost use Rattle.sheet.specs.Number.{number_of};
ghost use Rattle.sheet.specs.Reading.{behind};
ghost use Rattle.reader.specs.Part.{part_said};
ghost use Rattle.reader.specs.Parts.{line_by, itself, part_ended, matched_by, number_line};
ghost use Rattle.reader.specs.Piece.{piece_by};

use super::Part;
use super::cut::line_from;
use super::number::number_in;
use super::piece::Piece;
use refusal::{Refusal, Rule};

// How many bytes of the key stand at the line's front.
pub(crate) fn matched(key: &[u8], l: &[u8]) -> usize
    ensures { (result ≡ matched_by key.now l.now) × (result ≤ length l.now) }
{
    key.iter().zip(l).take_while(|(x, b)| b == x).count()
}

// Reads a line that is a key and a number.
#[tactic(auto, using(crate::proofs::Keys::number_broken, crate::proofs::Keys::number_follows))]
fn number_behind(l: Piece, key: &[u8], room: usize) -> Result<Part, Refusal>
    ensures { part_said result ≡ piece_by itself (behind key.now (number_of room)) l.entry }
{
    let m = matched(key, l.bytes);
    if m < key.len() {
        return Err(Refusal::at(Rule::Form, l.at + m));
    }
    number_in(l.behind(m), room)
}

// Steps over the byte 10 behind the text of a line that was read: 9 there at the sheet's end, if none stands there.
#[tactic(auto, using(crate::proofs::Ends::ended_none, crate::proofs::Ends::ended_next))]
pub(crate) fn line_end(reading: Result<Part, Refusal>, end: usize) -> Result<Part, Refusal>
    ensures { part_said result ≡ part_ended end (part_said reading) }
{
    let Ok(Part { value, next }) = reading else {
        return reading;
    };
    if next >= end {
        return Err(Refusal::at(Rule::Form, next));
    }
    Ok(Part {
        value,
        next: next + 1,
    })
}

// Reads the line at `at`, a key and a number.
#[tactic(auto, using(crate::proofs::Ends::line_over))]
pub(crate) fn number_line_from(
    sheet: &[u8],
    at: usize,
    key: &[u8],
    room: usize,
) -> Result<Part, Refusal>
    requires { at ≤ length sheet.now }
    ensures { part_said result ≡ line_by itself (number_line key.now room at sheet.now) }
{
    let l = Piece {
        bytes: line_from(sheet, at),
        at,
    };
    line_end(number_behind(l, key, room), sheet.len())
}
