// The search over tables that are accepted: events in order, the pairs that meet at each, and where it stops.
// `search` answers for every word of the three buffers (specs/Outcome.antt); the functions above it keep the records of
// specs/Search.antt. It rests on the agenda for the order of the events, on the marks for what two contexts share, and on the
// entries for the list. Of the work area it knows that the agenda's words come first and the marks behind them.

#![tactic(auto)]

ghost use Rattle.std.specs.Prelude.{◌≡◌, not, true, false, List, [], ◌+◌, ◌*◌, ◌≤◌, ◌<◌, length};
ghost use Rattle.std.proofs.Math.ListN.{get_elem?};
ghost use Rattle.site.specs.Measure.{in_use};
ghost use Rattle.site.specs.Ratio.{reaches};
ghost use Rattle.site.specs.Site.{codes_of, Pair};
ghost use Rattle.site.specs.Events.{Occurs, code_at, ceiling_at, cut_of, met_after};
ghost use Rattle.tables.specs.Accepted.{the_site};
ghost use Rattle.marks.specs.Marks.{code_words, marks_of};
ghost use Rattle.entries.specs.Entries.{entry_of, Ordered};
ghost use Rattle.entries.specs.Listed.{Listed, Proper};
ghost use Rattle.agenda.specs.Agenda.{posted_of, Agenda};
ghost use Rattle.agenda.specs.Postings.{posted_is};
ghost use Rattle.agenda.specs.Next.{At, next_is, next_after, event_is};
ghost use Rattle.agenda.specs.Said.{next_said, posted_said};
ghost use Rattle.search.specs.Search.{most, pair_words, pair_is, IsContext, Beside};
ghost use Rattle.search.specs.Search.{Wide, RoomFor, agenda_part, marks_part, pairs_part, AgendaIn, Remarked, Laid, pair_number};
ghost use Rattle.search.specs.Search.{MetBefore, Noted, with_contexts, due_of, AfterEvents, Meets, TakesEntry, Searched};
ghost use Rattle.search.specs.Outcome.{answer_said, outcome, zeros, search_of};

use agenda::{Event, next_event, note_event, posted_at, prepare};
use entries::{Entry, below_last, insert};
use marks::{is_marked, mark, marked_from, put_mark};
use refusal::{Refusal, Rule};
use site::Context;
use tables::Tables;
use walk::{Fraction, meet, union_count};
use words::zero_from;

// The work area: up to here the words of the agenda, then the marks of codes, then those of the pairs that were met.
const AGENDA_END: usize = agenda::WORDS;

const MARKS_END: usize = AGENDA_END + marks::WORDS;

const PAIRS_END: usize = MARKS_END + 757;

// The pairs of so many contexts have marks.
const MOST: usize = 110;

// Among more contexts one of at most so many codes is marked before its pairs are looked at, a longer one at the first that meets.
const SHORT: usize = 48;

// What the join counts: the pairs listed, the events done, and the pairs met.
#[derive(Clone, Copy, Debug, PartialEq, Eq)]
pub struct Counted {
    pub found: usize,
    pub events: usize,
    pub met: usize,
}

// How many pairs are listed, and how many were met.
#[derive(Clone, Copy)]
pub struct Counts {
    pub found: usize,
    pub met: usize,
}

// An event's turn so far: the counts, and whether the codes of its context are marked.
#[derive(Clone, Copy)]
struct Progress {
    counts: Counts,
    marked: bool,
}

// Two contexts, the one with the smaller number first.
#[derive(Clone, Copy)]
pub struct TwoContexts {
    pub lower: Context,
    pub higher: Context,
}

// An event, and another context that has its code.
#[derive(Clone, Copy)]
struct Crossing<'o, 'c> {
    tables: Tables<'o, 'c>,
    event: Event,
    code: u16,
    other: Context,
    ghost beside: { ∥ Beside (the_site tables) event.context event.place other ∥₁ },
    ghost code_value: { code ≡ code_at (the_site tables) (event_is event.context event.place) },
}

// Writes a pair's contexts behind the `met` pairs of the trail, if there is room; else nothing.
fn put_pair(trail: &mut [u16], met: usize, e: Entry)
    requires { met ≤ 16777216 }
    ensures trail_unchanged { length trail.old < 2 * met + 2 → trail.new ≡ trail.old }
    ensures trail_after { 2 * met + 2 ≤ length trail.old → trail.new ≡ with_contexts trail.old met e }
{
    let at = 2 * met;
    if at + 2 <= trail.len() {
        trail[at] = e.lower.0;
        trail[at + 1] = e.higher.0;
    }
}

// Takes up a pair: on the trail, and into the list.
fn enter(k: usize, list: &mut [u16], trail: &mut [u16], counts: Counts, e: Entry) -> Counts
    requires room { RoomFor k list.old }
    requires found_le_k { (counts.found ≤ k) × (counts.met ≤ 16777216) }
    requires ordered { Ordered list.old counts.found × (0 < e.union) }
    ensures { TakesEntry k e list.old trail.old counts list.new trail.new result }
{
    put_pair(trail, counts.met, e);
    Counts {
        found: insert(list, counts.found, k, e),
        met: counts.met + 1,
    }
}

// Marks the codes of context c, in their part of the work area.
fn lay_marks(tables: Tables, work: &mut [u16], c: Context)
    requires inside { IsContext tables c }
    requires wide { Wide work.old }
    ensures remarked { Remarked work.old work.new }
    ensures work_after { marks_part work.new ≡ marks_of code_words (codes_of (the_site tables.entry) c.0) }
{
    mark(&mut work[AGENDA_END..MARKS_END], tables.context(c));
}

impl Crossing<'_, '_> {
    ghost use Rattle.search.specs.Crossings.{the_pair, meets, shares, met_pair};

    // The pair of its contexts.
    #[tactic(auto, using(crate::proofs::Steps::event_inside, crate::proofs::Steps::beside_inside), unfolding(site::specs::Events::pair_of))]
    fn pair(self) -> TwoContexts
        ensures value { pair_is result ≡ the_pair self.entry }
        ensures inside { IsContext self.entry.tables result.lower × IsContext self.entry.tables result.higher }
    {
        TwoContexts {
            lower: self.event.context.min(self.other),
            higher: self.event.context.max(self.other),
        }
    }

    // The number of its pair, where pairs have marks.
    #[tactic(auto, using(tables::proofs::Sound::contexts_are))]
    fn number(self) -> u16
        requires { length (the_site self.tables) ≤ most }
        ensures value { result ≡ pair_number (the_pair self.entry) }
        ensures small { result < 16 * pair_words }
    {
        let TwoContexts { lower, higher } = self.pair();
        (MOST as u16) * lower.0 + higher.0
    }

    // The entry of its pair, where the two meet here and share so many codes.
    fn entry_here(self, shared: u16) -> Entry
        requires { (shared ≡ shares self) × (0 < shared) }
        ensures { result ≡ entry_of (the_site self.entry.tables) (the_pair self.entry) }
    {
        let TwoContexts { lower, higher } = self.pair();
        let union = union_count(
            self.tables.context(lower),
            self.tables.context(higher),
            shared,
        );
        Entry {
            lower,
            higher,
            shared,
            union,
            code: self.code,
        }
    }

    // Whether the first code that its contexts share stands at the event's place: by a walk.
    fn meets_here(self) -> bool
        ensures { result ≡ meets self.entry }
    {
        let Some((here, _)) = meet(
            self.tables.context(self.event.context),
            self.tables.context(self.other),
        ) else {
            return false;
        };
        self.event.place == here
    }

    // Marks the codes of the event's context where they are not. Among many contexts only if the two meet here: by a walk.
    // It answers whether they are marked now.
    #[tactic(auto, using(crate::proofs::Steps::event_inside))]
    fn ready_marks(self, work: &mut [u16], marked: bool) -> bool
        requires wide { Wide work.old }
        requires laid_before { Laid (the_site self.tables) self.event.context marked work.old }
        ensures remarked { Remarked work.old work.new }
        ensures laid { Laid (the_site self.entry.tables) self.entry.event.context result work.new }
        ensures apart { result ≡ false → meets self.entry ≡ false }
    {
        if marked {
            return true;
        }
        if self.tables.contexts() <= MOST || self.meets_here() {
            lay_marks(self.tables, work, self.event.context);
            return true;
        }
        false
    }

    // How many codes the other context shares with the event's, whose codes are marked, if the first of them is the event's; else 0.
    fn shared_marked(self, work: &[u16]) -> u16
        requires wide { Wide work.now }
        requires laid { marks_part work.now ≡ marks_of code_words (codes_of (the_site self.tables) self.event.context.0) }
        ensures { result ≡ shares self.entry }
    {
        marked_from(
            &work[AGENDA_END..MARKS_END],
            self.tables.context(self.other),
            self.code,
        )
    }

    // Whether its pair is marked as met; among many contexts none is.
    fn met_before(self, work: &[u16]) -> bool
        requires { Wide work.now }
        ensures { result ≡ true → MetBefore (the_site self.entry.tables) (the_pair self.entry) work.now }
    {
        self.tables.contexts() <= MOST && is_marked(&work[MARKS_END..PAIRS_END], self.number())
    }

    // Marks its pair as met, where pairs have marks.
    fn note_pair(self, work: &mut [u16])
        requires { Wide work.old }
        ensures work_unchanged { agenda_part work.new ≡ agenda_part work.old }
        ensures work_unchanged_2 { marks_part work.new ≡ marks_part work.old }
        ensures noted { Noted (the_site self.entry.tables) (the_pair self.entry) work.old work.new }
    {
        if self.tables.contexts() <= MOST {
            put_mark(&mut work[MARKS_END..PAIRS_END], self.number());
        }
    }

    // Takes up its pair, if the two meet here.
    fn step(
        self,
        k: usize,
        list: &mut [u16],
        work: &mut [u16],
        trail: &mut [u16],
        progress: Progress,
    ) -> Progress
        requires room { RoomFor k list.old }
        requires found_le_k { (progress.counts.found ≤ k) × (progress.counts.met ≤ 16777216) }
        requires ordered { Ordered list.old progress.counts.found }
        requires wide { Wide work.old }
        requires laid_before { Laid (the_site self.tables) self.event.context progress.marked work.old }
        ensures meets { Meets (the_site self.entry.tables) k (met_pair self.entry)
            list.old work.old trail.old progress.counts
            list.new work.new trail.new result.counts }
        ensures work_unchanged { agenda_part work.new ≡ agenda_part work.old }
        ensures laid { Laid (the_site self.entry.tables) self.entry.event.context result.marked work.new }
    {
        if self.met_before(work) {
            return progress;
        }
        let counts = progress.counts;
        let marked = self.ready_marks(work, progress.marked);
        if !marked {
            return Progress { counts, marked };
        }
        let shared = self.shared_marked(work);
        if shared == 0 {
            return Progress { counts, marked };
        }
        self.note_pair(work);
        Progress {
            counts: enter(k, list, trail, counts, self.entry_here(shared)),
            marked,
        }
    }
}

// The context of the n-th event done at a code, from the agenda's part of the work area.
fn earlier_at(tables: Tables, work: &[u16], events: usize, code: u16, n: usize) -> Option<Context>
    requires agenda_in { AgendaIn (the_site tables) events work.now }
    requires code_bound { code < 4096 }
    ensures { posted_said result ≡ posted_is (get_elem? (posted_of (the_site tables.entry) events code) n) }
{
    posted_at(tables, &work[..AGENDA_END], events, code, n)
}

// Among many contexts marks the codes of a short one, if an event is done at the code. It answers whether they are marked.
fn mark_short(tables: Tables, work: &mut [u16], events: usize, c: Context, code: u16) -> bool
    requires agenda_in { AgendaIn (the_site tables) events work.old }
    requires inside { IsContext tables c }
    requires code_bound { code < 4096 }
    ensures remarked { Remarked work.old work.new }
    ensures laid { Laid (the_site tables.entry) c result work.new }
{
    if tables.contexts() <= MOST
        || tables.context(c).len() > SHORT
        || earlier_at(tables, work, events, code, 0).is_none()
    {
        return false;
    }
    lay_marks(tables, work, c);
    true
}

// Records the next event behind the n done before it at its code, in the agenda's part of the work area.
fn record_event(tables: Tables, work: &mut [u16], events: usize, event: Event, n: usize)
    requires agenda_in { AgendaIn (the_site tables) events work.old }
    requires event_value { next_after (the_site tables) events ≡ At event.context event.place }
    requires n_value { n ≡ length (posted_of (the_site tables) events (code_at (the_site tables) (event_is event.context event.place))) }
    ensures agenda { Agenda (the_site tables.entry) (events + 1) (agenda_part work.new) }
    ensures work_unchanged { pairs_part work.new ≡ pairs_part work.old }
{
    note_event(tables, &mut work[..AGENDA_END], events, event, n);
}

// Does one event: the pairs that meet there, one for each earlier event at its code that meets it, and its record on the agenda.
fn turn(
    k: usize,
    tables: Tables,
    list: &mut [u16],
    work: &mut [u16],
    trail: &mut [u16],
    counts: Counts,
    events: usize,
    event: Event,
) -> Counts
    requires agenda_in { AgendaIn (the_site tables) events work.old }
    requires event_value { next_after (the_site tables) events ≡ At event.context event.place }
    requires room { RoomFor k list.old }
    requires after_events { AfterEvents (the_site tables) k events list.old work.old trail.old counts }
    ensures after_events_2 { AfterEvents (the_site tables.entry) k (events + 1) list.new work.new trail.new result }
    ensures agenda { Agenda (the_site tables.entry) (events + 1) (agenda_part work.new) }
{
    let place = usize::from(event.place.0);
    let code = tables.context(event.context)[place - 1];
    let marked = mark_short(tables, work, events, event.context, code);
    let mut so_far = Progress { counts, marked };
    let mut n = 0;
    'earlier: while let Some(other) = earlier_at(tables, work, events, code, n) {
        let crossing = Crossing {
            tables,
            event,
            code,
            other,
        };
        so_far = crossing.step(k, list, work, trail, so_far);
        n += 1;
    }
    record_event(tables, work, events, event, n);
    so_far.counts
}

// Whether k are listed and the event's ceiling is below the similarity of the k-th: only below.
fn stops(k: usize, tables: Tables, list: &[u16], found: usize, event: Event) -> bool
    requires occurs { Occurs (the_site tables) (event_is event.context event.place) }
    requires room { RoomFor k list.now }
    ensures { (pairs : List Pair) → Proper (the_site tables.entry) pairs
        → Listed (the_site tables.entry) k pairs list.now found
        → result ≡ not (reaches (cut_of in_use (the_site tables.entry) k pairs)
        (ceiling_at in_use (the_site tables.entry) (event_is event.context event.place))) }
{
    let size = tables.context(event.context).len() as u16;
    let ceiling = Fraction {
        num: size - event.place.0 + 1,
        den: size,
    };
    below_last(list, found, k, ceiling)
}

// The next event, from the agenda's part of the work area, if the search goes on to it.
fn event_due(
    k: usize,
    tables: Tables,
    list: &[u16],
    work: &[u16],
    found: usize,
    events: usize,
) -> Option<Event>
    requires agenda_in { AgendaIn (the_site tables) events work.now }
    requires room { RoomFor k list.now }
    requires listed { Listed (the_site tables) k (met_after in_use (the_site tables) events) list.now found }
    ensures { next_said result ≡ next_is (due_of (the_site tables.entry) k events) }
{
    let event = next_event(tables, &work[..AGENDA_END], events)?;
    if stops(k, tables, list, found, event) {
        return None;
    }
    Some(event)
}

// Lays out the work area, whatever it held: no pair is marked, and no event is done.
fn lay_work(tables: Tables, work: &mut [u16])
    requires { Wide work.old }
    ensures agenda { Agenda (the_site tables.entry) 0 (agenda_part work.new) }
    ensures work_after { pairs_part work.new ≡ marks_of pair_words [] }
{
    work[MARKS_END..PAIRS_END].fill(0);
    prepare(tables, &mut work[..AGENDA_END]);
}

// The events in order, over a list of zeros, until the search stops or the trail has no room: what is met begins the trail.
fn run(
    k: usize,
    tables: Tables,
    list: &mut [u16],
    work: &mut [u16],
    trail: &mut [u16],
) -> Result<Counted, Refusal>
    requires room { RoomFor k list.old }
    requires wide { Wide work.old }
    requires list_value { list.old ≡ zeros list.old }
    ensures { Searched (the_site tables.entry) k list.new trail.new (answer_said result) }
{
    lay_work(tables, work);
    let mut counts = Counts { found: 0, met: 0 };
    let mut events = 0;
    'events: while let Some(event) = event_due(k, tables, list, work, counts.found, events) {
        counts = turn(k, tables, list, work, trail, counts, events, event);
        events += 1;
        if trail.len() / 2 < counts.met {
            return Err(Refusal::at(Rule::TrailRoom, 0));
        }
    }
    Ok(Counted {
        found: counts.found,
        events,
        met: counts.met,
    })
}

// The whole search: what it counts or refuses, and every word of the buffers.
pub fn search(
    k: usize,
    tables: Tables,
    list: &mut [u16],
    work: &mut [u16],
    trail: &mut [u16],
) -> Result<Counted, Refusal>
    requires room { RoomFor k list.old }
    requires wide { Wide work.old }
    ensures { outcome (answer_said result) list.new work.new trail.new
        ≡ search_of k (the_site tables.entry) list.old work.old trail.old }
{
    list.fill(0);
    let told = run(k, tables, list, work, trail);
    work.fill(0);
    let Ok(counted) = told else {
        list.fill(0);
        trail.fill(0);
        return told;
    };
    zero_from(trail, 2 * counted.met);
    told
}
