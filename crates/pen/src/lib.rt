// The pen: writes lines into the rest of a lent text. Its place and the room left are one small record, moved on by each line.
// A line is measured before a byte of it is written, so a line without room changes nothing.

#![tactic(auto)]

ghost use Rattle.std.specs.Prelude.{◌≡◌, ◌++◌, ◌+◌, ◌≤◌, leb, length, drop};
ghost use Rattle.sheet.specs.Number.{digits_of};
ghost use Rattle.sheet.specs.Text.{codes_text, line_text};
ghost use Rattle.pen.specs.Pieces.{Wrote, next_text};
ghost use Rattle.pen.specs.Lines.{Fits, Lined, LinedTwice};
ghost use Rattle.pen.specs.Added.{LinedIf};

// Where the next line begins, and how many bytes are left behind that.
#[derive(Clone, Copy, Debug, PartialEq, Eq)]
pub struct Pen {
    pub place: usize,
    pub room: usize,
}

// Where a pen stood between two lines, and the pen behind both.
#[derive(Clone, Copy, Debug, PartialEq, Eq)]
pub struct Twice {
    pub between: usize,
    pub pen: Pen,
}

// How many digits n has.
#[tactic(auto, using(sheet::proofs::Digits::length_more, sheet::proofs::Digits::length_most, sheet::proofs::Digits::length_one))]
fn digit_count(n: u16) -> usize
    ensures { result ≡ length (digits_of n) }
{
    if n < 10 { 1 } else { digit_count(n / 10) + 1 }
}

// Writes the digits of n, for which there is room.
#[tactic(auto, using(crate::proofs::Written::writing))]
fn write_digits(text: &mut [u8], n: u16) -> usize
    requires { length (digits_of n) ≤ length text.old }
    ensures value { result ≡ length (digits_of n) }
    ensures text_after { text.new ≡ digits_of n ++ drop (length (digits_of n)) text.old }
{
    if n < 10 {
        text[0] = b'0' + n as u8;
        return 1;
    }
    let r = write_digits(text, n / 10);
    text[r] = b'0' + (n % 10) as u8;
    r + 1
}

// Writes a number at `at`, and answers where it ends.
fn number_at(rest: &mut [u8], at: usize, n: u16) -> usize
    requires { at + length (digits_of n) ≤ length rest.old }
    ensures { Wrote (digits_of n) at rest.old rest.new result }
{
    let more = write_digits(&mut rest[at..], n);
    at + more
}

// Writes bytes as they are at `at`, and answers where they end.
fn bytes_at(rest: &mut [u8], at: usize, bs: &[u8]) -> usize
    requires { at + length bs.now ≤ length rest.old }
    ensures { Wrote bs.now at rest.old rest.new result }
{
    let end = at + bs.len();
    rest[at..end].copy_from_slice(bs);
    end
}

// How many bytes the number i of a line takes: its digits, and a space before them unless it is the first.
#[tactic(auto, using(sheet::proofs::Digits::length_most, crate::proofs::Numbers::first_length, crate::proofs::Numbers::later_length))]
fn next_len(i: usize, n: u16) -> usize
    ensures { result ≡ length (next_text i n) }
{
    let digits = digit_count(n);
    if i == 0 { digits } else { digits + 1 }
}

// Writes the number i of a line at `at`, and answers where it ends.
#[tactic(auto, using(crate::proofs::Numbers::first_length, crate::proofs::Numbers::later_length))]
fn next_at(rest: &mut [u8], at: usize, i: usize, n: u16) -> usize
    requires { at + length (next_text i n) ≤ length rest.old }
    ensures { Wrote (next_text i n) at rest.old rest.new result }
{
    if i == 0 {
        return number_at(rest, at, n);
    }
    let digits = bytes_at(rest, at, b" ");
    number_at(rest, digits, n)
}

// Whether numbers with one space between fit the room.
#[tactic(auto, using(crate::proofs::Numbers::measured_next))]
fn numbers_fit(room: usize, numbers: &[u16]) -> bool
    ensures { result ≡ leb (length (codes_text numbers.now)) room }
{
    let mut left = room;
    for (i, &n) in numbers.iter().enumerate() {
        let need = next_len(i, n);
        if left < need {
            return false;
        }
        left -= need;
    }
    true
}

// Writes numbers with one space between at `at`, and answers where they end.
fn numbers_at(rest: &mut [u8], at: usize, numbers: &[u16]) -> usize
    requires { at + length (codes_text numbers.now) ≤ length rest.old }
    ensures { Wrote (codes_text numbers.now) at rest.old rest.new result }
{
    let mut to = at;
    for (i, &n) in numbers.iter().enumerate() {
        to = next_at(rest, to, i, n);
    }
    to
}

// Whether a line of a key and numbers fits the room.
#[tactic(auto, using(crate::proofs::Lined::key_full, crate::proofs::Lined::line_measured))]
fn line_fits(room: usize, key: &[u8], numbers: &[u16]) -> bool
    ensures { result ≡ leb (length (line_text key.now numbers.now)) room }
{
    room > key.len() && numbers_fit(room - key.len() - 1, numbers)
}

// Writes a line at the front of the rest of the text, and answers where it ends.
#[tactic(auto, using(crate::proofs::Lined::line_length))]
fn line_in(rest: &mut [u8], key: &[u8], numbers: &[u16]) -> usize
    requires { length (line_text key.now numbers.now) ≤ length rest.old }
    ensures { Wrote (line_text key.now numbers.now) 0 rest.old rest.new result }
{
    let at = bytes_at(rest, 0, key);
    let to = numbers_at(rest, at, numbers);
    bytes_at(rest, to, b"\n")
}

// Lends the rest of the text from the pen's place to a line, if it fits the room, and answers the pen moved on behind it.
pub fn line_at(text: &mut [u8], pen: Pen, key: &[u8], numbers: &[u16]) -> Pen
    requires { Fits pen text.old }
    ensures { Lined (line_text key.now numbers.now) text.old text.new pen result }
{
    if !line_fits(pen.room, key, numbers) {
        return pen;
    }
    let more = line_in(&mut text[pen.place..], key, numbers);
    Pen {
        place: pen.place + more,
        room: pen.room - more,
    }
}

// The same with the pen lent: it is read, and stored anew behind the line. Thin.
pub fn line(text: &mut [u8], pen: &mut Pen, key: &[u8], numbers: &[u16])
    requires { Fits pen.old text.old }
    ensures { Lined (line_text key.now numbers.now) text.old text.new
        pen.old pen.new }
{
    *pen = line_at(text, *pen, key, numbers);
}

// Lends a pen of its own to `line`, and answers it moved on. Thin.
pub fn line_by(text: &mut [u8], pen: Pen, key: &[u8], numbers: &[u16]) -> Pen
    requires { Fits pen text.old }
    ensures { Lined (line_text key.now numbers.now) text.old text.new pen result }
{
    let mut lent = pen;
    line(text, &mut lent, key, numbers);
    lent
}

// The line if it fits, and the pen behind it. A pen that has not moved says that the line has no room.
pub fn line_if(text: &mut [u8], pen: Pen, key: &[u8], numbers: &[u16]) -> Option<Pen>
    requires { Fits pen text.old }
    ensures { LinedIf (line_text key.now numbers.now) text.old text.new pen result }
{
    let next = line_by(text, pen, key, numbers);
    if next.place == pen.place {
        None
    } else {
        Some(next)
    }
}

// Lends one pen to two lines in turn. A line without room leaves text and pen as they were, and the next one is written from there:
// `between` tells whether the first had room. Thin.
pub fn two_lines(
    text: &mut [u8],
    pen: Pen,
    first: &[u8],
    ones: &[u16],
    second: &[u8],
    others: &[u16],
) -> Twice
    requires { Fits pen text.old }
    ensures { LinedTwice (line_text first.now ones.now) (line_text second.now others.now)
        text.old text.new pen result }
{
    let mut lent = pen;
    line(text, &mut lent, first, ones);
    let between = lent.place;
    line(text, &mut lent, second, others);
    Twice { between, pen: lent }
}
