// The writer of site sheets. The pen writes line after line into the rest of the lent text; what it leaves behind them is made zero at the end.

#![tactic(auto)]

ghost use Rattle.std.specs.Prelude.{length};
ghost use Rattle.sheet.specs.Text.{lines_text, sheet_text};
ghost use Rattle.tables.specs.Accepted.{the_site};
ghost use Rattle.pen.specs.Lines.{Fits, front_pen};
ghost use Rattle.pen.specs.Added.{Added};
ghost use Rattle.writer.specs.Writes.{writing_said};
ghost use Rattle.writer.specs.Calls.{Writes};

use pen::Pen;
use refusal::{Refusal, Rule};
use site::Context;
use tables::Tables;

// A `c=` line for each context.
fn context_lines(text: &mut [u8], pen: Pen, tables: Tables) -> Option<Pen>
    requires { Fits pen text.old }
    ensures { Added (lines_text (the_site tables.entry)) text.old text.new pen result }
{
    let mut pen = pen;
    for i in 0..tables.contexts() {
        pen = pen::line_if(text, pen, b"c=", tables.context(Context(i as u16)))?;
    }
    Some(pen)
}

// The whole sheet from the text's first byte on: one pen is lent to the `k=` line and then to the `contexts=` line.
fn sheet_lines(text: &mut [u8], k: u16, tables: Tables) -> Option<Pen>
    ensures { Added (sheet_text k (the_site tables.entry)) text.old text.new
        (front_pen text.old) result }
{
    let front = Pen {
        place: 0,
        room: text.len(),
    };
    let contexts = [tables.contexts() as u16];
    let heads = pen::two_lines(text, front, b"k=", &[k], b"contexts=", &contexts);
    if heads.between == 0 || heads.pen.place == heads.between {
        return None;
    }
    context_lines(text, heads.pen, tables)
}

// Writes the sheet of k and the tables. Behind the text, and everywhere after 12, stand zeros; after 1 to 5 nothing has changed.
pub fn write(k: u16, offsets: &[u16], codes: &[u16], text: &mut [u8]) -> Result<usize, Refusal>
    ensures { Writes k offsets.now codes.now text.old (writing_said result) text.new }
{
    let tables = tables::accept(k, offsets, codes)?;
    let Some(pen) = sheet_lines(text, k, tables) else {
        words::zero_from(text, 0);
        return Err(Refusal::at(Rule::TextRoom, 0));
    };
    words::zero_from(text, pen.place);
    Ok(pen.place)
}
