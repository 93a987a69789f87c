// The heat map: one call answers one cell, for two contexts in either order, from a list buffer and the number of its entries.
// A cell is blank, or shared divided by union as an f64, rounded once. Nothing is changed.

#![tactic(auto)]

ghost use Rattle.std.specs.Prelude.{◌≡◌, ◌*◌, ◌≤◌, ◌<◌, length, IfOk};
ghost use Rattle.refusal.specs.Numbers.{rule_said};
ghost use Rattle.tables.specs.Check.{check_said};
ghost use Rattle.entries.specs.Entries.{width, entries as entries_listed};
ghost use Rattle.heat.specs.Cells.{quotient as quotient_of, pair, names as names_pair, entry_for, cell_for, cell_in};
ghost use Rattle.heat.specs.Checks.{numbers_check, count_check, entry_rule, entries_check, cell_check, Positive};
ghost use Rattle.heat.specs.CellAnswer.{cell_said};
ghost use Rattle.heat.specs.Answers.{cell_of, value_shown};

use entries::{Entry, WIDTH, entry_at};
use refusal::{Refusal, Rule};
use site::Context;
use std::cmp::Ordering;

// A cell of the map: blank, or shared / union of two contexts.
#[derive(Clone, Copy)]
pub enum Cell {
    Blank,
    Value(f64),
}

// The counted entries of a list that pass the checks: they stand in it, and each has a union.
#[derive(Clone, Copy)]
struct Listed<'a> {
    list: &'a [u16],
    entries: usize,
    ghost room: { width * entries ≤ length list.now },
    ghost positive: { Positive list.now entries },
}

// 13: a context number that is not below the contexts, the first at place 0, the second at place 1.
#[tactic(auto, unfolding(crate::specs::Checks::numbers_check))]
fn check_numbers(contexts: u16, first: Context, second: Context) -> Result<(), Refusal>
    ensures { check_said result ≡ numbers_check contexts first.0 second.0 }
{
    if first.0 >= contexts {
        return Err(Refusal::at(Rule::ContextNumber, 0));
    }
    if second.0 >= contexts {
        return Err(Refusal::at(Rule::ContextNumber, 1));
    }
    Ok(())
}

// 17 at 0: more entries than so many words hold.
#[tactic(auto, unfolding(crate::specs::Checks::count_check))]
fn check_count(words: usize, entries: usize) -> Result<(), Refusal>
    ensures { check_said result ≡ count_check words entries }
{
    if words / WIDTH < entries {
        return Err(Refusal::at(Rule::ListedEntry, 0));
    }
    Ok(())
}

// 17 for an entry whose contexts are not rising and below the contexts, or whose shared is 0 or above its union.
#[tactic(auto, unfolding(crate::specs::Checks::entry_rule))]
fn entry_rule(contexts: u16, e: Entry) -> Option<Rule>
    ensures { rule_said result ≡ entry_rule contexts e }
{
    if e.lower >= e.higher || e.higher.0 >= contexts || e.shared == 0 || e.union < e.shared {
        return Some(Rule::ListedEntry);
    }
    None
}

// 17 at the earliest entry that breaks its rule.
#[tactic(auto, using(crate::proofs::Rules::entry_kept, crate::proofs::Rules::entry_broken, tables::proofs::Checked::all_kept))]
fn check_entries(contexts: u16, list: &[u16], entries: usize) -> Result<(), Refusal>
    requires { width * entries ≤ length list.now }
    ensures { check_said result ≡ entries_check contexts list.now entries }
{
    for i in 0..entries {
        if let Some(rule) = entry_rule(contexts, entry_at(list, i)) {
            return Err(Refusal { rule, place: i });
        }
    }
    Ok(())
}

// The checks in their order: 13, then 17 for the count, then 17 for the entries.
fn check_cell<'a>(
    contexts: u16,
    list: &'a [u16],
    entries: usize,
    first: Context,
    second: Context,
) -> Result<Listed<'a>, Refusal>
    ensures value { check_said result ≡ cell_check contexts list.now entries first.0 second.0 }
    ensures listed { IfOk result (λ l. (l.list.now ≡ list.now) × (l.entries ≡ entries)) }
{
    check_numbers(contexts, first, second)?;
    check_count(list.len(), entries)?;
    check_entries(contexts, list, entries)?;
    Ok(Listed { list, entries })
}

// shared / union, rounded once: an f64 holds both counts as they are.
#[tactic(auto, using(crate::proofs::Rounded::divided))]
fn quotient(shared: u16, union: u16) -> f64
    requires { 0 < union }
    ensures { result ≡ quotient_of shared union }
{
    f64::from(shared) / f64::from(union)
}

// Whether an entry names a pair.
#[tactic(auto, unfolding(crate::specs::Cells::names))]
fn names(e: Entry, lower: Context, higher: Context) -> bool
    ensures { result ≡ names_pair (pair lower higher) e }
{
    (e.lower, e.higher) == (lower, higher)
}

impl Listed<'_> {
    // The cell of a pair: that of the earliest entry that names it, or blank.
    #[tactic(auto, using(crate::proofs::Sought::sought_here, crate::proofs::Sought::sought_next, crate::proofs::Sought::not_listed))]
    fn cell_for(self, lower: Context, higher: Context) -> Cell
        ensures { result ≡ cell_for (entry_for (pair lower higher) (entries_listed self.entry.entries self.entry.list.now)) }
    {
        for i in 0..self.entries {
            let e = entry_at(self.list, i);
            if names(e, lower, higher) {
                return Cell::Value(quotient(e.shared, e.union));
            }
        }
        Cell::Blank
    }

    // The cell of two contexts in either order: blank for a context against itself.
    #[tactic(auto, using(crate::proofs::Accepting::rising, crate::proofs::Accepting::falling, crate::proofs::Accepting::itself))]
    fn cell_in(self, first: Context, second: Context) -> Cell
        ensures { result ≡ cell_in first.0 second.0 (entries_listed self.entry.entries self.entry.list.now) }
    {
        match first.cmp(&second) {
            Ordering::Less => self.cell_for(first, second),
            Ordering::Equal => Cell::Blank,
            Ordering::Greater => self.cell_for(second, first),
        }
    }
}

// The cell of two contexts, or the refusal.
pub fn cell_of(
    contexts: u16,
    list: &[u16],
    entries: usize,
    first: Context,
    second: Context,
) -> Result<Cell, Refusal>
    ensures { cell_said result ≡ cell_of contexts list.now entries first.0 second.0 }
{
    let listed = check_cell(contexts, list, entries, first, second)?;
    Ok(listed.cell_in(first, second))
}

// The value of an answer, and 0.0 where it has none, whatever it refuses with.
#[tactic(auto, using(crate::proofs::Rounded::zero_is), unfolding(crate::specs::Answers::cell_value))]
pub fn value_of<E: Drop>(r: Result<Cell, E>) -> f64
    ensures { result ≡ value_shown r }
{
    match r {
        Ok(Cell::Value(v)) => v,
        Ok(Cell::Blank) => 0.0,
        Err(_) => 0.0,
    }
}
