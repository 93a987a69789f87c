// Runs the leaves on both sides of their borders. A line is a name and what is answered: of a check its number and place,
// of two contexts the places of their first shared code, shared and union, of two fractions or entries whether each comes first,
// of an insertion how many are listed and the list's words.

#![tactic(auto)]

ghost use Rattle.std.specs.Prelude.{◌≡◌, ◌<◌, IfOk};
ghost use Rattle.entries.specs.Entries.{Ordered};
ghost use Rattle.tables.specs.Check.{check_said};
ghost use Rattle.tables.specs.Checks.{check_number, check_place};

use entries::{Entry, WIDTH, insert, rank_before};
use refusal::Refusal;
use site::Context;
use std::io;
use tables::{accept, check_tables};
use walk::{Fraction, below, meet, shared_count, union_count};

// The paper's number of an answer and the place of its refusal; 0 and 0 where nothing is refused.
fn number_and_place(told: Result<(), Refusal>) -> (u16, usize)
    ensures number { result.0 ≡ check_number (check_said told) }
    ensures place { result.1 ≡ check_place (check_said told) }
{
    match told {
        Ok(()) => (0, 0),
        Err(refusal) => (refusal.number(), refusal.place),
    }
}

fn say_words(rt: &impl Print, name: &str, found: usize, list: &[u16]) -> io::Result<()> {
    print!(rt; "{name} {found}:")?;
    for &word in list {
        print!(rt; " {word}")?;
    }
    println!(rt)
}

fn say_check(
    rt: &impl Print,
    name: &str,
    k: u16,
    offsets: &[u16],
    codes: &[u16],
) -> io::Result<()> {
    let (number, place) = number_and_place(check_tables(k, offsets, codes));
    println!(rt; "{name} {number} {place}")
}

// The first two contexts of some tables: the places of their first shared code (0 where there is none), shared, union.
fn say_pair(rt: &impl Print, name: &str, offsets: &[u16], codes: &[u16]) -> io::Result<()> {
    let Ok(tables) = accept(1, offsets, codes) else {
        return Ok(());
    };
    if tables.contexts() < 2 {
        return Ok(());
    }
    let xs = tables.context(Context(0));
    let ys = tables.context(Context(1));
    let shared = shared_count(xs, ys);
    let union = union_count(xs, ys, shared);
    let (p, q) = meet(xs, ys).map_or((0, 0), |(p, q)| (p.0, q.0));
    println!(rt; "{name} {p} {q} {shared} {union}")
}

fn say_below(rt: &impl Print, name: &str, n: u16, d: u16, m: u16, e: u16) -> io::Result<()> {
    let a = Fraction { num: n, den: d };
    let b = Fraction { num: m, den: e };
    println!(rt;
        "{name} {} {}",
        u8::from(below(a, b)),
        u8::from(below(b, a))
    )
}

fn entry(lower: u16, higher: u16, shared: u16, union: u16, code: u16) -> Entry
    ensures { result.union ≡ union }
{
    Entry {
        lower: Context(lower),
        higher: Context(higher),
        shared,
        union,
        code,
    }
}

fn say_rank(rt: &impl Print, name: &str, e: Entry, f: Entry) -> io::Result<()> {
    println!(rt;
        "{name} {} {}",
        u8::from(rank_before(e, f)),
        u8::from(rank_before(f, e))
    )
}

// Lists an entry among the best 3, and tells how many are listed.
fn say_insert(
    rt: &impl Print,
    name: &str,
    list: &mut [u16],
    found: usize,
    e: Entry,
) -> io::Result<usize>
    requires { Ordered list.old found × (0 < e.union) }
    ensures { IfOk result (Ordered list.new) }
{
    if found > 3 || list.len() < 3 * WIDTH {
        return Ok(found);
    }
    let more = insert(list, found, 3, e);
    say_words(rt, name, more, list)?;
    Ok(more)
}

// The codes 0, 1, 2 and on.
fn count_up(codes: &mut [u16]) {
    for (code, stored) in (0..=u16::MAX).zip(codes) {
        *stored = code;
    }
}

fn sizes(rt: &impl Print) -> io::Result<()> {
    let none = [0; 1];
    let blank = [0; 1];
    say_check(rt, "k_0", 0, &none, &blank[..0])?;
    say_check(rt, "k_64", 64, &none, &blank[..0])?;
    say_check(rt, "k_65", 65, &none, &blank[..0])?;
    say_check(rt, "no_offsets", 1, &none[..0], &blank[..0])?;
    let offsets = [0; 258];
    say_check(rt, "contexts_256", 1, &offsets[..257], &blank[..0])?;
    say_check(rt, "contexts_257", 1, &offsets, &blank[..0])?;
    let mut most = [0; 4096];
    count_up(&mut most);
    say_check(rt, "codes_4096", 1, &[0, 4096], &most)?;
    let mut more = [0; 4097];
    count_up(&mut more);
    say_check(rt, "codes_4097", 1, &[0, 4097], &more)
}

fn offsets(rt: &impl Print) -> io::Result<()> {
    let codes = [5, 6, 7];
    say_check(rt, "offsets_start_above_0", 1, &[1, 3], &codes)?;
    say_check(rt, "offsets_fall", 1, &[0, 2, 1, 3], &codes)?;
    say_check(rt, "offsets_beyond_then_fall", 1, &[0, 9, 3], &codes)?;
    say_check(rt, "offsets_end_short", 1, &[0, 2], &codes)?;
    say_check(rt, "offsets_end_long", 1, &[0, 4], &codes)?;
    say_check(rt, "offsets_one_and_codes", 1, &[0], &codes)?;
    say_check(rt, "empty_contexts", 1, &[0, 0, 3, 3], &codes)
}

fn codes(rt: &impl Print) -> io::Result<()> {
    say_check(rt, "code_4095", 1, &[0, 1], &[4095])?;
    say_check(rt, "code_4096", 1, &[0, 1], &[4096])?;
    say_check(rt, "code_twice", 1, &[0, 2], &[5, 5])?;
    say_check(rt, "border", 1, &[0, 1, 2], &[9, 3])?;
    say_check(rt, "fall_then_large", 1, &[0, 3], &[5, 4, 4096])?;
    say_check(rt, "large_then_fall", 1, &[0, 3], &[5, 4096, 4])
}

fn pairs(rt: &impl Print) -> io::Result<()> {
    say_pair(rt, "P1", &[0, 4, 8], &[1, 2, 3, 4, 2, 3, 4, 5])?;
    say_pair(rt, "P2_empty", &[0, 0, 0], &[])?;
    say_pair(rt, "P2_one_empty", &[0, 0, 1], &[7])?;
    say_pair(rt, "P3", &[0, 1, 2], &[7, 7])?;
    say_pair(rt, "P4", &[0, 2, 4], &[1, 2, 2, 3])?;
    say_pair(rt, "P11", &[0, 1, 2], &[9, 3])?;
    say_pair(rt, "last_codes_meet", &[0, 3, 5], &[1, 3, 4095, 2, 4095])
}

// The rows of docs/TWO-FINGERS.md, and other walks of two fingers.
fn walks(rt: &impl Print) -> io::Result<()> {
    say_pair(
        rt,
        "walk_of_the_page",
        &[0, 4, 8],
        &[2, 3, 5, 8, 3, 4, 5, 9],
    )?;
    say_pair(
        rt,
        "graves_6_and_9",
        &[0, 5, 10],
        &[103, 105, 201, 401, 509, 103, 105, 401, 503, 509],
    )?;
    say_pair(rt, "one_in_the_other", &[0, 2, 7], &[2, 4, 1, 2, 3, 4, 5])?;
    say_pair(rt, "in_turns", &[0, 3, 6], &[0, 2, 4, 1, 3, 5])?;
    let mut long = [0; 4096];
    count_up(&mut long);
    say_pair(rt, "2048_codes_each", &[0, 2048, 4096], &long)
}

fn orders(rt: &impl Print) -> io::Result<()> {
    say_below(rt, "99/100_and_100/101", 99, 100, 100, 101)?;
    say_below(rt, "1/2_and_2/4", 1, 2, 2, 4)?;
    say_below(
        rt,
        "65534/65535_and_65535/65535",
        65534,
        65535,
        65535,
        65535,
    )?;
    say_rank(
        rt,
        "rank_99/100_and_100/101",
        entry(0, 1, 99, 100, 9),
        entry(2, 3, 100, 101, 9),
    )?;
    say_rank(
        rt,
        "rank_tie_by_lower",
        entry(1, 2, 1, 2, 0),
        entry(0, 3, 2, 4, 9),
    )?;
    say_rank(
        rt,
        "rank_tie_by_higher",
        entry(0, 2, 1, 2, 9),
        entry(0, 3, 2, 4, 0),
    )
}

#[tactic(auto, using(entries::proofs::Ordered::ordered_none))]
fn lists(rt: &impl Print) -> io::Result<()> {
    let mut list = [0; 3 * WIDTH + 2];
    let mut n = say_insert(rt, "insert_into_empty", &mut list, 0, entry(0, 1, 1, 2, 11))?;
    n = say_insert(rt, "insert_at_end", &mut list, n, entry(3, 4, 1, 4, 12))?;
    n = say_insert(rt, "insert_at_front", &mut list, n, entry(0, 2, 2, 3, 13))?;
    n = say_insert(
        rt,
        "insert_in_middle_of_full",
        &mut list,
        n,
        entry(1, 2, 3, 5, 14),
    )?;
    n = say_insert(
        rt,
        "insert_beyond_the_third",
        &mut list,
        n,
        entry(2, 3, 1, 3, 15),
    )?;
    n = say_insert(rt, "insert_tie_behind", &mut list, n, entry(0, 3, 2, 4, 16))?;
    say_insert(
        rt,
        "insert_tie_before",
        &mut list,
        n,
        entry(0, 5, 6, 10, 17),
    )?;
    Ok(())
}

fn main(rt: HostRuntime) -> io::Result<()> {
    sizes(&rt)?;
    offsets(&rt)?;
    codes(&rt)?;
    pairs(&rt)?;
    walks(&rt)?;
    orders(&rt)?;
    lists(&rt)
}
