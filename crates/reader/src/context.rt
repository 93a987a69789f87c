// The `c=` lines: each code is stored as it is read, and each line's end is an offset.
// What was stored before a refusal is left to the caller.
ghost use Rattle.std.specs.Prelude.{◌≡◌, ◌+◌, ◌≤◌, ◌<◌, min, length};
ghost use Rattle.sheet.specs.Reading.{room_after};
ghost use Rattle.reader.specs.Part.{part_said};
ghost use Rattle.reader.specs.Parts.{words_lent, part_by, line_by, itself, codes_after, line_at, word_end};
ghost use Rattle.reader.specs.Parts.{code_from, words_of, context_in, context_line, lines_from};
ghost use Rattle.reader.specs.Piece.{piece_by, piece_read};
ghost use Rattle.reader.specs.Fronts.{Stored, Held};

use super::Part;
use super::cut::{line_from, piece_from};
use super::line::{line_end, matched};
use super::number::number_in;
use super::piece::Piece;
use refusal::{Refusal, Rule};

// Room for any number while there is room for a code, and then for none.
fn room_after(lent: usize, used: usize) -> usize
    ensures { result ≡ room_after (min 4096 lent) used }
{
    if used < lent.min(4096) { 65536 } else { 0 }
}

// Reads the code at the index `from` of l, with so many code words lent and used.
fn code_from(l: Piece, from: usize, lent: usize, used: usize) -> Result<Part, Refusal>
    requires { from ≤ length l.bytes.now }
    ensures { part_said result ≡ part_by itself (word_end l.entry.at from l.entry.bytes.now)
        (code_from lent used l.entry.at from l.entry.bytes.now) }
{
    let w = Piece {
        bytes: piece_from(l.bytes, from, b' '),
        at: l.at + from,
    };
    number_in(w, room_after(lent, used))
}

// Reads the codes that fill l, and stores them behind the first `used` codes.
fn codes_in(l: Piece, codes: &mut [u16], used: u16) -> Result<Part, Refusal>
    requires { used ≤ min 4096 (length codes.old) }
    ensures value { part_said result ≡ piece_by (codes_after used) (words_of (words_lent codes) used) l.entry }
    ensures stored { Stored (piece_read (words_of (words_lent codes) used) l.entry) used codes.old codes.new }
{
    let mut from = 0;
    let mut n = usize::from(used);
    loop {
        let r = code_from(l, from, codes.len(), n);
        let Ok(Part { value, next }) = r else {
            return r;
        };
        codes[n] = value;
        n += 1;
        if next == l.end() {
            return Ok(Part {
                value: n as u16,
                next,
            });
        }
        from = next - l.at + 1;
    }
}

// Reads a `c=` line: nothing behind the key is an empty context.
fn context_in(l: Piece, codes: &mut [u16], used: u16) -> Result<Part, Refusal>
    requires { used ≤ min 4096 (length codes.old) }
    ensures value { part_said result ≡ piece_by (codes_after used) (context_in (words_lent codes) used) l.entry }
    ensures stored { Stored (piece_read (context_in (words_lent codes) used) l.entry) used codes.old codes.new }
{
    let m = matched(b"c=", l.bytes);
    if m < 2 {
        return Err(Refusal::at(Rule::Form, l.at + m));
    }
    if m == l.bytes.len() {
        return Ok(Part {
            value: used,
            next: l.end(),
        });
    }
    codes_in(l.behind(m), codes, used)
}

// Reads the `c=` line at `at`.
fn context_line_from(sheet: &[u8], at: usize, codes: &mut [u16], used: u16) -> Result<Part, Refusal>
    requires at_in_bounds { at ≤ length sheet.now }
    requires used_bound { used ≤ min 4096 (length codes.old) }
    ensures value { part_said result ≡ line_by (codes_after used) (context_line (words_lent codes) used at sheet.now) }
    ensures stored { Stored (context_in (words_lent codes) used at (line_at at sheet.now)) used
        codes.old codes.new }
{
    let l = Piece {
        bytes: line_from(sheet, at),
        at,
    };
    line_end(context_in(l, codes, used), sheet.len())
}

// Reads n `c=` lines from `at` on, and then the sheet's end.
pub(crate) fn context_lines(
    sheet: &[u8],
    at: usize,
    n: usize,
    offsets: &mut [u16],
    codes: &mut [u16],
) -> Result<Part, Refusal>
    requires at_in_bounds { at ≤ length sheet.now }
    requires n_bound { n < min 257 (length offsets.old) }
    ensures { Held (lines_from (words_lent codes) n at sheet.now) (length sheet.now)
        offsets.new codes.new (part_said result) }
{
    offsets[0] = 0;
    let mut used = 0;
    let mut from = at;
    for i in 0..n {
        let r = context_line_from(sheet, from, codes, used);
        let Ok(Part { value, next }) = r else {
            return r;
        };
        used = value;
        from = next;
        offsets[i + 1] = used;
    }
    if from < sheet.len() {
        return Err(Refusal::at(Rule::Form, from));
    }
    Ok(Part {
        value: used,
        next: from,
    })
}
