// The join: checks 1 to 7 in their order, then the search over tables that are accepted.
// Its contract is one equation with `join_of`. specs/Join.antt says the same as the record `Joins`, in the paper's words, and
// proofs/Demands.antt draws demands 1, 2 and 3 from the contract.

#![tactic(auto)]

ghost use Rattle.std.specs.Prelude.{◌≡◌};
ghost use Rattle.tables.specs.Check.{check_said};
ghost use Rattle.search.specs.Outcome.{answer_said, outcome};
ghost use Rattle.join.specs.Join.{rooms_check, join_of};

use entries::WIDTH;
use refusal::{Refusal, Rule};
pub use search::Counted;
use search::search;
use tables::accept;

// The least work area.
const WORK: usize = 10240;

// 6 and 7: the room of the list, and of the work area.
#[tactic(auto, unfolding(crate::specs::Join::rooms_check))]
fn check_rooms(k: u16, list: usize, work: usize) -> Result<(), Refusal>
    ensures { check_said result ≡ rooms_check k list work }
{
    if list < WIDTH * usize::from(k) {
        return Err(Refusal::at(Rule::ListRoom, 0));
    }
    if work < WORK {
        return Err(Refusal::at(Rule::WorkRoom, 0));
    }
    Ok(())
}

// The k most alike pairs of contexts on the list, and on the trail the pairs met; it counts them and the events done, or refuses.
pub fn join(
    k: u16,
    offsets: &[u16],
    codes: &[u16],
    list: &mut [u16],
    work: &mut [u16],
    trail: &mut [u16],
) -> Result<Counted, Refusal>
    ensures { outcome (answer_said result) list.new work.new trail.new
        ≡ join_of k offsets.now codes.now list.old work.old trail.old }
{
    let tables = accept(k, offsets, codes)?;
    check_rooms(k, list.len(), work.len())?;
    search(usize::from(k), tables, list, work, trail)
}
