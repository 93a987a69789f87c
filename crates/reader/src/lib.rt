// The reader of site sheets: it checks form and room, and nothing else.
// A sheet is cut into lines and a line into words. Each is read from the left; the first refusal goes up as it is.

#![tactic(auto)]

ghost use Rattle.std.specs.Prelude.{◌≡◌, ◌≤◌, length};
ghost use Rattle.sheet.specs.Reading.{read_sheet};
ghost use Rattle.reader.specs.Part.{part_said};
ghost use Rattle.reader.specs.Parts.{words_lent, read_rest, whole_by};
ghost use Rattle.reader.specs.Reading.{reading_said};
ghost use Rattle.reader.specs.Fronts.{Taken, offsets_used, codes_used};
ghost use Rattle.reader.specs.Calls.{Reads};

mod cut; // the part of a sheet that a line fills, and of a line that a word fills
mod piece; // a part of a sheet, with its place
mod number; // a number's digits
mod line; // a key and a number, and a line's end
mod context; // the `c=` lines

use refusal::Refusal;

// A sheet that was read: its k, and how many contexts and codes it has.
#[derive(Clone, Copy, Debug, PartialEq, Eq)]
pub struct Sheet {
    pub k: u16,
    pub contexts: u16,
    pub codes: u16,
}

// A number or a line that was read: its value with the place behind it.
#[derive(Clone, Copy)]
pub(crate) struct Part {
    value: u16,
    next: usize,
}

// The sheet of k and so many contexts, once its `c=` lines are read; or the refusal of a part, which tells neither.
#[tactic(auto, unfolding(crate::specs::Parts::whole_by))]
fn whole(k: u16, contexts: u16, last: Result<Part, Refusal>) -> Result<Sheet, Refusal>
    ensures { reading_said result ≡ whole_by k contexts (part_said last) }
{
    last.map(|part| Sheet {
        k,
        contexts,
        codes: part.value,
    })
}

// Reads the rest of the sheet, behind its `k=` line from `at` on, into the front of the tables.
fn read_rest(
    sheet: &[u8],
    at: usize,
    k: u16,
    offsets: &mut [u16],
    codes: &mut [u16],
) -> Result<Sheet, Refusal>
    requires { at ≤ length sheet.now }
    ensures { Taken (read_rest (words_lent offsets) (words_lent codes) k at sheet.now)
        offsets.new codes.new (reading_said result) }
{
    let line = line::number_line_from(sheet, at, b"contexts=", offsets.len().min(257));
    let Ok(Part { value: n, next }) = line else {
        return whole(k, 0, line);
    };
    let last = context::context_lines(sheet, next, usize::from(n), offsets, codes);
    whole(k, n, last)
}

// Reads the sheet into the front of the tables.
fn read_into(sheet: &[u8], offsets: &mut [u16], codes: &mut [u16]) -> Result<Sheet, Refusal>
    ensures { Taken (read_sheet (words_lent offsets) (words_lent codes) sheet.now)
        offsets.new codes.new (reading_said result) }
{
    let line = line::number_line_from(sheet, 0, b"k=", 65536);
    let Ok(Part { value: k, next }) = line else {
        return whole(0, 0, line);
    };
    read_rest(sheet, next, k, offsets, codes)
}

// How many words of the offsets and of the codes hold data.
#[tactic(auto, unfolding(crate::specs::Fronts::offsets_used, crate::specs::Fronts::codes_used))]
fn words_used(r: Result<Sheet, Refusal>) -> (usize, usize)
    ensures offsets { result.0 ≡ offsets_used (reading_said r) }
    ensures codes { result.1 ≡ codes_used (reading_said r) }
{
    r.map_or((0, 0), |sheet| {
        (usize::from(sheet.contexts) + 1, usize::from(sheet.codes))
    })
}

// Reads a sheet into the lent tables. Behind the data, and everywhere after a refusal, stand zeros.
pub fn read(sheet: &[u8], offsets: &mut [u16], codes: &mut [u16]) -> Result<Sheet, Refusal>
    ensures { Reads sheet.now offsets.old codes.old (reading_said result) offsets.new codes.new }
{
    let r = read_into(sheet, offsets, codes);
    let (offsets_used, codes_used) = words_used(r);
    words::zero_from(offsets, offsets_used);
    words::zero_from(codes, codes_used);
    r
}
