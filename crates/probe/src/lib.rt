// The join, the reader, the writer and the heat map on plain words, for tests and benchmarks from outside.
// Each answer is four words at the front of `answer`; where that has fewer, nothing is done. The value returned is always 0.

#![tactic(auto)]

ghost use Rattle.std.specs.Prelude.{List, [], ◌∷◌, ◌≡◌, refl, ℕ, ◌≤◌, Result, Ok, Err, length};
ghost use Rattle.refusal.specs.Numbers.{rule_number};
ghost use Rattle.refusal.specs.declared.Refusal.{Refusal};
ghost use Rattle.search.specs.Outcome.{answer_said, answer_number, answer_values};
ghost use Rattle.reader.specs.Reading.{reading_said};
ghost use Rattle.reader.specs.Answers.{reading_number, reading_values};
ghost use Rattle.writer.specs.Writes.{writing_said, writing_number, writing_values};
ghost use Rattle.heat.specs.CellAnswer.{cell_said};
ghost use Rattle.heat.specs.Answers.{cell_number, cell_values};
ghost use Rattle.probe.specs.Probe.{four_words, at_front, after_join, probe_join, after_read, probe_read, after_write, probe_write};
ghost use Rattle.probe.specs.Probe.{after_cell, probe_cell};

use heat::{Cell, cell_of, value_of};
use join::{Counted, join};
use reader::{Sheet, read};
use refusal::Refusal;
use site::Context;
use writer::write;

// What a call answers where it refuses nothing: what its results tell, as four words, and those of a refusal its number and its place.
trait Accepted: Copy {
    ghost told: { Result Self Refusal → List ℕ };

    // The four words of what is accepted.
    fn words(self) -> [u64; 4]
        ensures { result ≡ told (Ok self) };

    ghost refused: { (e : Refusal) → told (Err e) ≡ four_words (rule_number e.rule) (e.place ∷ []) };
}

// What a join counts.
impl Accepted for Counted {
    ghost told = { λ r. four_words (answer_number (answer_said r)) (answer_values (answer_said r)) };

    ghost refused = { λ e. refl };

    #[tactic(auto, unfolding(crate::specs::Probe::four_words, words::specs::Words::padded))]
    fn words(self) -> [u64; 4] {
        [0, self.found as u64, self.events as u64, self.met as u64]
    }
}

// What is read of a sheet.
impl Accepted for Sheet {
    ghost told = { λ r. four_words (reading_number (reading_said r)) (reading_values (reading_said r)) };

    ghost refused = { λ e. refl };

    #[tactic(auto, unfolding(crate::specs::Probe::four_words, words::specs::Words::padded))]
    fn words(self) -> [u64; 4] {
        [
            0,
            u64::from(self.k),
            u64::from(self.contexts),
            u64::from(self.codes),
        ]
    }
}

// The length of a text that was written.
impl Accepted for usize {
    ghost told = { λ r. four_words (writing_number (writing_said r)) (writing_values (writing_said r)) };

    ghost refused = { λ e. refl };

    #[tactic(auto, unfolding(crate::specs::Probe::four_words, words::specs::Words::padded))]
    fn words(self) -> [u64; 4] {
        [0, self as u64, 0, 0]
    }
}

// A cell of the heat map: 0 for a blank one, 1 for one with a value.
impl Accepted for Cell {
    ghost told = { λ r. four_words (cell_number (cell_said r)) (cell_values (cell_said r)) };

    ghost refused = { λ e. refl };

    #[tactic(auto, unfolding(crate::specs::Probe::four_words, words::specs::Words::padded))]
    fn words(self) -> [u64; 4] {
        match self {
            Cell::Blank => [0, 0, 0, 0],
            Cell::Value(_) => [0, 1, 0, 0],
        }
    }
}

// The words of a call's answer: those of what is accepted, or the number and the place of the refusal.
#[tactic(auto, unfolding(crate::specs::Probe::four_words, words::specs::Words::padded))]
fn words_of<T: Accepted>(r: Result<T, Refusal>) -> [u64; 4]
    ensures { result ≡ T.told r }
{
    match r {
        Ok(accepted) => accepted.words(),
        Err(refusal) => [u64::from(refusal.number()), refusal.place as u64, 0, 0],
    }
}

// Writes them at the front.
fn put<T: Accepted>(answer: &mut [u64], r: Result<T, Refusal>)
    requires { 4 ≤ length answer.old }
    ensures { answer.new ≡ at_front (T.told r) answer.old }
{
    answer[..4].copy_from_slice(&words_of(r));
}

// The join.
#[unsafe(no_mangle)]
#[tactic(auto, using(crate::proofs::Probed::join_left_lem))]
pub extern "C" fn probe_join(
    k: u16,
    offsets: &[u16],
    codes: &[u16],
    list: &mut [u16],
    work: &mut [u16],
    trail: &mut [u16],
    answer: &mut [u64],
) -> u64
    ensures value { result ≡ 0 }
    ensures answer_after { after_join list.new work.new trail.new answer.new
        ≡ probe_join k offsets.now codes.now
        list.old work.old trail.old answer.old }
{
    if answer.len() < 4 {
        return 0;
    }
    put(answer, join(k, offsets, codes, list, work, trail));
    0
}

// The reader.
#[unsafe(no_mangle)]
#[tactic(auto, using(crate::proofs::Probed::read_left))]
pub extern "C" fn probe_read(
    sheet: &[u8],
    offsets: &mut [u16],
    codes: &mut [u16],
    answer: &mut [u64],
) -> u64
    ensures value { result ≡ 0 }
    ensures answer_after { after_read offsets.new codes.new answer.new
        ≡ probe_read sheet.now offsets.old codes.old answer.old }
{
    if answer.len() < 4 {
        return 0;
    }
    put(answer, read(sheet, offsets, codes));
    0
}

// The writer.
#[unsafe(no_mangle)]
#[tactic(auto, using(crate::proofs::Probed::write_left))]
pub extern "C" fn probe_write(
    k: u16,
    offsets: &[u16],
    codes: &[u16],
    text: &mut [u8],
    answer: &mut [u64],
) -> u64
    ensures value { result ≡ 0 }
    ensures answer_after { after_write text.new answer.new
        ≡ probe_write k offsets.now codes.now text.old answer.old }
{
    if answer.len() < 4 {
        return 0;
    }
    put(answer, write(k, offsets, codes, text));
    0
}

// One cell of the heat map. Its value stands at the front of `value`; where that has no word, nothing is done either.
#[unsafe(no_mangle)]
#[tactic(auto, using(crate::proofs::Probed::cell_left, crate::proofs::Probed::no_word))]
pub extern "C" fn probe_cell(
    contexts: u16,
    list: &[u16],
    entries: usize,
    first: u16,
    second: u16,
    value: &mut [f64],
    answer: &mut [u64],
) -> u64
    ensures value { result ≡ 0 }
    ensures answer_after { after_cell value.new answer.new
        ≡ probe_cell contexts list.now entries first second value.old answer.old }
{
    if answer.len() < 4 || value.is_empty() {
        return 0;
    }
    let r = cell_of(contexts, list, entries, Context(first), Context(second));
    value[0] = value_of(r);
    put(answer, r);
    0
}
