// The order of the events, over the work area: which event is next, and which are done.
// No other crate knows how the work area is laid out. A context is told by its word, one more than its number, and 0 is none. There
// stand 257 words with what is left of each context, and 257 with its size: together the ceiling of its next place, 0/1 for none; 512
// words with the nodes of the tournament, of which the top has the context that comes next; 4,097 words that say where each code's
// bucket starts; and the buckets, a word for each place of the code, with the context of each event done there.

#![tactic(auto)]

ghost use Rattle.std.specs.Prelude.{◌≡◌, ◌+◌, ◌-◌, ◌/◌, ◌≤◌, ◌<◌, [], length, get_or, set, replicate};
ghost use Rattle.std.proofs.Math.ListN.{get_elem?};
ghost use Rattle.site.specs.Events.{Occurs, code_at};
ghost use Rattle.tables.specs.Accepted.{the_site};
ghost use Rattle.agenda.specs.Layout.{agenda_room};
ghost use Rattle.agenda.specs.Agenda.{posted_of, Agenda, SummedTo, LaidOut};
ghost use Rattle.agenda.specs.Postings.{posted_is, codes_below};
ghost use Rattle.agenda.specs.Tournament.{left_in, leaf_word, contender_of, ahead_by, node_word, contender_at, top_node, NodesPlayed, Moved};
ghost use Rattle.agenda.specs.Next.{At, next_after, event_is};
ghost use Rattle.agenda.specs.Said.{next_said, posted_said};

use site::{Context, Place};
use tables::Tables;
use walk::Fraction;

// How many words of the work area are in use.
pub const WORDS: usize = 9219;

// Where the sizes of the contexts stand.
const SIZES: usize = 257;

// Where the nodes stand.
const NODES: usize = 514;

// The leaf of a word is node 255 + word.
const LEAVES: usize = 769;

// Where the starts of the buckets stand.
const STARTS: usize = 1026;

// A bucket ends where the next one starts.
const ENDS: usize = 1027;

// Where the buckets stand.
const BUCKETS: usize = 5123;

// An event, by its context and its place.
#[derive(Clone, Copy, Debug, PartialEq, Eq)]
pub struct Event {
    pub context: Context,
    pub place: Place,
}

// A word of the tournament, with the ceiling of its context's next place; 0 has none.
#[derive(Clone, Copy)]
struct Contender {
    word: u16,
    left: Fraction,
}

impl Contender {
    // A word, with what is left of its context.
    #[tactic(auto, unfolding(crate::specs::Tournament::contender_of))]
    fn of(work: &[u16], word: u16) -> Contender
        requires room { agenda_room ≤ length work.now }
        requires word_bound { word ≤ 256 }
        ensures { result ≡ contender_of (left_in work.now) word }
    {
        let w = usize::from(word);
        Contender {
            word,
            left: Fraction {
                num: work[w],
                den: work[SIZES + w],
            },
        }
    }

    // Of the two the one with the higher ceiling; at equal ones this one, or the other if the margin is 1.
    #[tactic(auto, unfolding(crate::specs::Tournament::ahead_by))]
    fn ahead(self, other: Contender, margin: u32) -> Contender
        requires { margin ≤ 1 }
        ensures { result ≡ ahead_by margin self other }
    {
        let p = self.left;
        let q = other.left;
        let x = u32::from(p.num) * u32::from(q.den);
        let y = u32::from(q.num) * u32::from(p.den);
        if x < y + margin { other } else { self }
    }
}

// The top of the subtree in which so many contexts play: all their leaves are below it.
#[tactic(auto, unfolding(crate::specs::Tournament::top_node))]
fn top(contexts: usize) -> usize
    ensures value { result ≡ top_node contexts }
    ensures bounds { (0 < result) × (result ≤ 8) }
{
    match contexts {
        0..=32 => 8,
        33..=64 => 4,
        65..=128 => 2,
        _ => 1,
    }
}

// The word of a leaf: that of its context, or 0 where nothing is left of it.
#[tactic(auto, unfolding(crate::specs::Tournament::leaf_word))]
fn leaf_word(left: u16, word: u16) -> u16
    ensures { result ≡ leaf_word left word }
{
    if left == 0 { 0 } else { word }
}

// The word of node t, from those of the two nodes below it.
#[tactic(auto, using(crate::proofs::Ranks::node_inside, crate::proofs::Contenders::playing))]
fn play(work: &[u16], t: usize) -> u16
    requires nodes_played { NodesPlayed t work.now }
    requires t_nonzero { (0 < t) × (t < 256) }
    ensures { result ≡ node_word (left_in work.now) t }
{
    let x = Contender::of(work, work[NODES + 2 * t]);
    let y = Contender::of(work, work[NODES + (2 * t + 1)]);
    x.ahead(y, 0).word
}

// The node above t, from node t and the node beside it.
#[tactic(auto, using(crate::proofs::Ranks::node_inside, crate::proofs::Contenders::playing))]
fn play_on(work: &[u16], t: usize, best: Contender) -> Contender
    requires nodes_played { NodesPlayed (t / 2) work.now }
    requires lt_t { (1 < t) × (t < 512) }
    requires best_value { best ≡ contender_at (left_in work.now) t }
    ensures { result ≡ contender_at (left_in work.now) (t / 2) }
{
    let other = Contender::of(work, work[NODES + (t ^ 1)]);
    best.ahead(other, (t % 2) as u32)
}

// The next event after the first `events`.
#[tactic(auto, using(crate::proofs::Found::finding))]
pub fn next_event(tables: Tables, work: &[u16], events: usize) -> Option<Event>
    requires agenda { Agenda (the_site tables) events work.now }
    ensures { next_said result ≡ next_after (the_site tables.entry) events }
{
    let top = top(tables.contexts());
    let word = work[NODES + top];
    if word == 0 {
        return None;
    }
    let w = usize::from(word);
    let done = work[SIZES + w] - work[w];
    Some(Event {
        context: Context(word - 1),
        place: Place(done + 1),
    })
}

// The context of the n-th event done at a code, in the order of the events.
#[tactic(auto, using(crate::proofs::Marks::posting))]
pub fn posted_at(
    tables: Tables,
    work: &[u16],
    events: usize,
    code: u16,
    n: usize,
) -> Option<Context>
    requires agenda { Agenda (the_site tables) events work.now }
    requires code_bound { code < 4096 }
    ensures { posted_said result ≡ posted_is (get_elem? (posted_of (the_site tables.entry) events code) n) }
{
    let x = usize::from(code);
    let start = usize::from(work[STARTS + x]);
    let end = usize::from(work[ENDS + x]);
    if n >= end - start {
        return None;
    }
    let word = work[BUCKETS + start + n];
    if word == 0 {
        None
    } else {
        Some(Context(word - 1))
    }
}

// Where the bucket of the next event's code starts.
#[tactic(auto, using(crate::proofs::Noted::bucketing))]
fn bucket_start(tables: Tables, work: &[u16], events: usize, event: Event) -> usize
    requires agenda { Agenda (the_site tables) events work.now }
    requires occurs { Occurs (the_site tables) (event_is event.context event.place) }
    ensures { result ≡ codes_below tables.entry.codes.now (code_at (the_site tables.entry) (event_is event.context event.place)) }
{
    let part = tables.context(event.context);
    let code = part[usize::from(event.place.0) - 1];
    usize::from(work[STARTS + usize::from(code)])
}

// One of so many contexts comes one place further: what is left of it, and the nodes from its leaf up to the top.
#[tactic(auto, using(crate::proofs::Climbed::moving))]
fn move_on(work: &mut [u16], contexts: usize, c: Context)
    requires nodes_played { NodesPlayed (top_node contexts - 1) work.old }
    requires c_lt_contexts { (c.0 < contexts) × (contexts ≤ 256) }
    requires nonzero { 0 < get_or work.old (c.0 + 1) 0 }
    ensures { Moved (top_node contexts) (c.0 + 1) work.old work.new }
{
    let top = top(contexts);
    let word = c.0 + 1;
    let w = usize::from(word);
    let left = work[w] - 1;
    work[w] = left;
    let own = leaf_word(left, word);
    work[LEAVES + w] = own;
    let mut best = Contender::of(work, own);
    let mut t = 255 + w;
    while t > top {
        best = play_on(work, t, best);
        t /= 2;
        work[NODES + t] = best.word;
    }
}

// Records the next event behind the n events done at its code: it stands last in its bucket, and its context moves on.
#[tactic(auto, using(crate::proofs::Noted::noting))]
pub fn note_event(tables: Tables, work: &mut [u16], events: usize, event: Event, n: usize)
    requires agenda { Agenda (the_site tables) events work.old }
    requires events_value { next_after (the_site tables) events ≡ At event.context event.place }
    requires n_value { n ≡ length (posted_of (the_site tables) events (code_at (the_site tables) (event_is event.context event.place))) }
    ensures agenda_2 { Agenda (the_site tables.entry) (events + 1) work.new }
    ensures work_len_unchanged { length work.new ≡ length work.old }
{
    let start = bucket_start(tables, work, events, event);
    work[BUCKETS + start + n] = event.context.0 + 1;
    move_on(work, tables.contexts(), event.context);
}

// Counts the codes: how often each stands, one word behind the code's start.
#[tactic(auto, using(crate::proofs::Prepared::tallying))]
fn count_codes(tables: Tables, work: &mut [u16])
    requires { SummedTo 0 [] work.old }
    ensures { SummedTo 0 tables.entry.codes.now work.new }
{
    for &code in tables.codes {
        work[ENDS + usize::from(code)] += 1;
    }
}

// Sums up the counts, so that each code's start stands in its place.
#[tactic(auto, using(crate::proofs::Prepared::summing))]
fn sum_starts(tables: Tables, work: &mut [u16])
    requires { SummedTo 0 tables.codes.now work.old }
    ensures { SummedTo 4096 tables.entry.codes.now work.new }
{
    for x in 0..4096 {
        work[ENDS + x] += work[STARTS + x];
    }
}

// The context of a word, with all its places left.
fn lay_context(work: &mut [u16], word: u16, size: u16)
    requires { (agenda_room ≤ length work.old) × (word ≤ 256) }
    ensures { work.new ≡ set (set (set work.old word size) (257 + word) size) (769 + word) (leaf_word size word) }
{
    let w = usize::from(word);
    work[w] = size;
    work[SIZES + w] = size;
    work[LEAVES + w] = leaf_word(size, word);
}

// All contexts, with all their places left.
#[tactic(auto, using(crate::proofs::Laying::layings))]
fn lay_contexts(tables: Tables, work: &mut [u16])
    requires { SummedTo 4096 tables.codes.now work.old }
    ensures { LaidOut (the_site tables.entry) tables.entry.codes.now work.new }
{
    let offsets = tables.offsets;
    work[SIZES] = 1;
    for i in 1..offsets.len() {
        lay_context(work, i as u16, offsets[i] - offsets[i - 1]);
    }
}

// Finds the word of every node above the leaves, from the last to the top, with no event done.
#[tactic(auto, using(crate::proofs::Built::building))]
fn build_nodes(tables: Tables, work: &mut [u16])
    requires { LaidOut (the_site tables) tables.codes.now work.old }
    ensures { Agenda (the_site tables.entry) 0 work.new }
{
    let top = top(tables.contexts());
    for t in (top..256).rev() {
        work[NODES + t] = play(work, t);
    }
}

// Lays out the work area, with no event done, whatever it held.
#[tactic(auto, using(crate::proofs::Prepared::none_counted))]
pub fn prepare(tables: Tables, work: &mut [u16])
    requires { agenda_room ≤ length work.old }
    ensures agenda { Agenda (the_site tables.entry) 0 work.new }
    ensures work_len_unchanged { length work.new ≡ length work.old }
{
    work.fill(0);
    count_codes(tables, work);
    sum_starts(tables, work);
    lay_contexts(tables, work);
    build_nodes(tables, work);
}
