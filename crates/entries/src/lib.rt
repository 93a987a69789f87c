// The list buffer: entries, the most alike first, flat in a slice of words, and zeros behind them.
// Entries are compared by their similarities and then by their numbers; an insertion keeps the best k.

#![tactic(auto)]

ghost use Rattle.std.specs.Prelude.{◌≡◌, ◌++◌, ◌+◌, ◌-◌, ◌*◌, ◌≤◌, ◌<◌, min, length, take, drop};
ghost use Rattle.order.specs.Order.{kth};
ghost use Rattle.site.specs.Site.{numbers_before};
ghost use Rattle.order.specs.Order.{rank_of};
ghost use Rattle.entries.specs.Entries.{width, words, entry_pair, entry_at, entries, similarity_of, entry_before, Ordered};
ghost use Rattle.entries.specs.Entries.{inserted_words, Inserts, below_entry};

use site::Context;
use walk::{Fraction, below};

// How many words an entry has.
pub const WIDTH: usize = 5;

// A pair on the list: its two contexts, how many codes they share, how many they have in all, and the first code that they share.
#[derive(Clone, Copy, Debug, PartialEq, Eq)]
pub struct Entry {
    pub lower: Context,
    pub higher: Context,
    pub shared: u16,
    pub union: u16,
    pub code: u16,
}

// How alike the pair is.
fn similarity(e: Entry) -> Fraction
    ensures { result ≡ similarity_of e }
{
    Fraction {
        num: e.shared,
        den: e.union,
    }
}

// Whether e's numbers come first: the smaller lower context, then the smaller higher one.
fn numbers_before(e: Entry, f: Entry) -> bool
    ensures { result ≡ numbers_before (entry_pair e) (entry_pair f) }
{
    (e.lower, e.higher) < (f.lower, f.higher)
}

// Whether e comes before f on the list: by similarity, then by their numbers.
#[tactic(auto, using(crate::proofs::Alike::ranks))]
pub fn rank_before(e: Entry, f: Entry) -> bool
    ensures { result ≡ entry_before e f }
{
    let s = similarity(e);
    let t = similarity(f);
    below(t, s) || (!below(s, t) && numbers_before(e, f))
}

// The entry i of the list, counted from 0.
pub fn entry_at(list: &[u16], i: usize) -> Entry
    requires { width * i + width ≤ length list.now }
    ensures { result ≡ entry_at list.now (width * i) }
{
    let at = WIDTH * i;
    Entry {
        lower: Context(list[at]),
        higher: Context(list[at + 1]),
        shared: list[at + 2],
        union: list[at + 3],
        code: list[at + 4],
    }
}

// How many of the listed entries stay before e, which comes before the last one: by halving.
fn halve(list: &[u16], found: usize, e: Entry) -> usize
    requires found_in_bounds { (width * found ≤ length list.now) × (found ≤ 64) }
    requires ordered { Ordered list.now found × (0 < e.union) }
    requires list_bound { rank_of entry_before e (entries found list.now) < found }
    ensures { result ≡ rank_of entry_before e (entries found list.now) }
{
    let mut lo = 0;
    let mut hi = found - 1;
    while lo < hi {
        let mid = (lo + hi) / 2;
        if rank_before(e, entry_at(list, mid)) {
            hi = mid;
        } else {
            lo = mid + 1;
        }
    }
    lo
}

// How many of the listed entries stay before e: all where it does not come before the last one.
#[tactic(auto, using(crate::proofs::Ranked::looks))]
fn find_rank(list: &[u16], found: usize, e: Entry) -> usize
    requires found_in_bounds { (width * found ≤ length list.now) × (found ≤ 64) }
    requires ordered { Ordered list.now found × (0 < e.union) }
    ensures { result ≡ rank_of entry_before e (entries found list.now) }
{
    if found == 0 || !rank_before(e, entry_at(list, found - 1)) {
        return found;
    }
    halve(list, found, e)
}

// Moves the words from a up to b up by an entry.
fn shift(list: &mut [u16], a: usize, b: usize)
    requires { (a ≤ b) × (b + width ≤ length list.old) }
    ensures { list.new
        ≡ take (a + width) list.old ++ take (b - a) (drop a list.old) ++ drop (b + width) list.old }
{
    list.copy_within(a..b, a + WIDTH);
}

// Writes e's words from `at`.
fn put_entry(list: &mut [u16], at: usize, e: Entry)
    requires { at + width ≤ length list.old }
    ensures { list.new ≡ take at list.old ++ words e ++ drop (at + width) list.old }
{
    list[at] = e.lower.0;
    list[at + 1] = e.higher.0;
    list[at + 2] = e.shared;
    list[at + 3] = e.union;
    list[at + 4] = e.code;
}

// Lists e among the first `found` entries, and keeps the best k. It answers how many are listed.
// Where k are listed, one look at the k-th turns an entry away that comes behind it.
pub fn insert(list: &mut [u16], found: usize, k: usize, e: Entry) -> usize
    requires found_le_k { (found ≤ k) × (k ≤ 64) }
    requires k_in_bounds { width * k ≤ length list.old }
    requires ordered { Ordered list.old found × (0 < e.union) }
    ensures value { result ≡ min k (found + 1) }
    ensures list_after { list.new ≡ inserted_words k e found list.old }
    ensures inserts { Inserts k e found list.old list.new }
    ensures ordered_2 { Ordered list.new result }
{
    let p = find_rank(list, found, e);
    if p >= k {
        return k;
    }
    let keep = found.min(k - 1);
    shift(list, WIDTH * p, WIDTH * keep);
    put_entry(list, WIDTH * p, e);
    keep + 1
}

// Whether k are listed and a ceiling is below the similarity of the k-th: only below.
#[tactic(auto, using(crate::proofs::Listed::not_full, crate::proofs::Listed::below_told))]
pub fn below_last(list: &[u16], found: usize, k: usize, ceiling: Fraction) -> bool
    requires k_nonzero { (0 < k) × (k ≤ 64) }
    requires k_in_bounds { width * k ≤ length list.now }
    ensures { result ≡ below_entry ceiling (kth k (entries found list.now)) }
{
    found >= k && below(ceiling, similarity(entry_at(list, k - 1)))
}
