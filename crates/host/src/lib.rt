// The calls for programs in C. For the desktop host: the bytes of a sheet come in, and its listing goes into the
// caller's buffer. For the viewer: one cell of the heat map. host/sazamkhri.h says the same to a reader of C.

#![tactic(auto)]

ghost use Rattle.std.specs.Prelude.{◌≡◌, ◌+◌};
ghost use Rattle.refusal.specs.Numbers.{rule_number};
ghost use Rattle.heat.specs.CellAnswer.{cell_said};
ghost use Rattle.host.specs.Call.{Hosts, host_cell, HostsCell};

use heat::{Cell, cell_of, value_of};
use listing::list_sheet;
use refusal::Refusal;
use site::Context;

// What a refusal's number is added to.
const REFUSED: u64 = 1_000_000;

// 1,000,000 plus the number of a refusal.
fn refused(refusal: Refusal) -> u64
    ensures { result ≡ 1000000 + rule_number refusal.rule }
{
    REFUSED + u64::from(refusal.number())
}

// Lists a sheet. Gives the text's length, or 1,000,000 plus the number of the refusal; then the buffer is zero.
#[unsafe(no_mangle)]
pub extern "C" fn sazamkhri_listing(sheet: &[u8], text: &mut [u8]) -> u64
    ensures { Hosts sheet.now text.old result text.new }
{
    match list_sheet(sheet, text) {
        Ok(length) => length as u64,
        Err(refusal) => refused(refusal),
    }
}

// 0 for a blank cell, 1 for one with a value, or 1,000,000 plus the number of the refusal.
#[tactic(auto, unfolding(crate::specs::Call::host_cell))]
fn kind_of(r: Result<Cell, Refusal>) -> u64
    ensures { result ≡ host_cell (cell_said r) }
{
    match r {
        Ok(Cell::Blank) => 0,
        Ok(Cell::Value(_)) => 1,
        Err(refusal) => refused(refusal),
    }
}

// One cell of the heat map. Gives what kind it is, and its value, which is 0.0 where there is none.
#[unsafe(no_mangle)]
pub extern "C" fn sazamkhri_cell(
    contexts: u16,
    list: &[u16],
    entries: usize,
    first: u16,
    second: u16,
    value: &mut f64,
) -> u64
    ensures { HostsCell contexts list.now entries first second result value.new }
{
    let r = cell_of(contexts, list, entries, Context(first), Context(second));
    *value = value_of(r);
    kind_of(r)
}
