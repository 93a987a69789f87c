// The lent tables, offsets and codes as words: refusals 1 to 5, each with the earliest place at which its rule is broken,
// and a context's codes as a part of the lent codes.

#![tactic(auto)]

ghost use Rattle.std.specs.Prelude.{◌≡◌, ◌+◌, ◌≤◌, ◌<◌, length, IfOk};
ghost use Rattle.refusal.specs.Numbers.{rule_said};
ghost use Rattle.tables.specs.Check.{Fine, check_said};
ghost use Rattle.tables.specs.Earliest.{earliest};
ghost use Rattle.tables.specs.Checks.{sizes_check, offsets_check, codes_check, tables_check};
ghost use Rattle.tables.specs.Rules.{end_rule, offset_rule, part_rule};

use refusal::{Refusal, Rule};

mod accepted; // tables that pass

pub use accepted::Tables;

// 3 where the offset i is the last and not the codes' length.
#[tactic(auto, unfolding(crate::specs::Rules::end_rule))]
fn end_rule(offsets: &[u16], codes_len: usize, i: usize) -> Option<Rule>
    requires { i < length offsets.now }
    ensures { rule_said result ≡ end_rule offsets.now codes_len i }
{
    if i + 1 == offsets.len() && offsets[i] as usize != codes_len {
        return Some(Rule::Offset);
    }
    None
}

// 3 where the offset i is the first and not 0, below the one before, or the last and not the codes' length.
#[tactic(auto, unfolding(crate::specs::Rules::offset_rule))]
fn offset_rule(offsets: &[u16], codes_len: usize, i: usize) -> Option<Rule>
    requires { i < length offsets.now }
    ensures { rule_said result ≡ offset_rule offsets.now codes_len i }
{
    let o = offsets[i];
    let wrong = if i == 0 { o != 0 } else { o < offsets[i - 1] };
    if wrong {
        return Some(Rule::Offset);
    }
    end_rule(offsets, codes_len, i)
}

// 3, at the earliest offset that breaks its rule.
#[tactic(auto, using(crate::proofs::Checked::none_next, crate::proofs::Checked::some_here, crate::proofs::Checked::all_kept))]
fn check_offsets(offsets: &[u16], codes_len: usize) -> Result<(), Refusal>
    ensures { check_said result ≡ offsets_check offsets.now codes_len }
{
    for i in 0..offsets.len() {
        if let Some(rule) = offset_rule(offsets, codes_len, i) {
            return Err(Refusal { rule, place: i });
        }
    }
    Ok(())
}

// 4 where the code i is above 4,095, 5 where it is not above the one before it in the part that begins at `from`.
#[tactic(auto, unfolding(crate::specs::Rules::part_rule, crate::specs::Rules::code_rule_by))]
fn code_rule(codes: &[u16], from: usize, i: usize) -> Option<Rule>
    requires { (from ≤ i) × (i < length codes.now) }
    ensures { rule_said result ≡ part_rule from codes.now i }
{
    let x = codes[i];
    if x > 4095 {
        Some(Rule::LargeCode)
    } else if i == from || codes[i - 1] < x {
        None
    } else {
        Some(Rule::FallingCode)
    }
}

// 4 or 5, at the earliest code of a part that breaks its rule.
#[tactic(auto, using(crate::proofs::Checked::none_next, crate::proofs::Checked::some_here, crate::proofs::Checked::all_kept))]
fn check_part(codes: &[u16], from: usize, to: usize) -> Result<(), Refusal>
    requires { (from ≤ to) × (to ≤ length codes.now) }
    ensures { check_said result ≡ earliest (part_rule from codes.now) from to }
{
    for i in from..to {
        if let Some(rule) = code_rule(codes, from, i) {
            return Err(Refusal { rule, place: i });
        }
    }
    Ok(())
}

// 4 or 5, at the earliest code that breaks its rule: context after context.
fn check_codes(offsets: &[u16], codes: &[u16]) -> Result<(), Refusal>
    requires offsets_nonzero { 0 < length offsets.now }
    requires codes_value { offsets_check offsets.now (length codes.now) ≡ Fine }
    ensures { check_said result ≡ codes_check offsets.now codes.now }
{
    for i in 0..offsets.len() - 1 {
        check_part(codes, offsets[i] as usize, offsets[i + 1] as usize)?;
    }
    Ok(())
}

// 1 where k is 0 or above 64, 2 where the tables have too few or too many words.
#[tactic(auto, unfolding(crate::specs::Checks::sizes_check))]
fn check_sizes(k: u16, offsets_len: usize, codes_len: usize) -> Result<(), Refusal>
    ensures { check_said result ≡ sizes_check k offsets_len codes_len }
{
    if k == 0 || k > 64 {
        return Err(Refusal::at(Rule::Asked, 0));
    }
    if offsets_len == 0 || offsets_len > 257 || codes_len > 4096 {
        return Err(Refusal::at(Rule::Sizes, 0));
    }
    Ok(())
}

// The checks of k and the tables in their order: 1, 2, 3, then 4 and 5 together.
pub fn check_tables(k: u16, offsets: &[u16], codes: &[u16]) -> Result<(), Refusal>
    ensures { check_said result ≡ tables_check k offsets.now codes.now }
{
    check_sizes(k, offsets.len(), codes.len())?;
    check_offsets(offsets, codes.len())?;
    check_codes(offsets, codes)
}

// The tables that pass these checks, lent as long as their parts are in use; or what refuses them.
pub fn accept<'o, 'c>(
    k: u16,
    offsets: &'o [u16],
    codes: &'c [u16],
) -> Result<Tables<'o, 'c>, Refusal>
    ensures value { check_said result ≡ tables_check k offsets.now codes.now }
    ensures accepted { IfOk result (λ tables. (tables.offsets.now ≡ offsets.now) × (tables.codes.now ≡ codes.now)) }
{
    check_tables(k, offsets, codes)?;
    Ok(Tables { offsets, codes })
}
