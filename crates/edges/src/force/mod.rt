// The forced edges, round by round, drawn into rows and closed.
ghost use Rattle.std.specs.Prelude.{◌≡◌, not, ◌&&◌, ◌↔◌, ℕ, ◌<◌, ◌≤◌, ltb, length};
ghost use Rattle.std.proofs.Math.Bool.{So};
ghost use Rattle.trace.specs.Bounds.{RECORDS};
ghost use Rattle.trace.specs.WellFormed.{well_formed};
ghost use Rattle.trace.specs.Meaning.{frame_of};
ghost use Rattle.rows.specs.Bounds.{CELLS};
ghost use Rattle.rows.specs.Rows.{Edges, Words};
ghost use Rattle.rows.specs.Lent.{lent_of};
ghost use Rattle.rules.specs.RuleTests.{writer?};
ghost use Rattle.edges.specs.Supposed.{supposed_of};
ghost use Rattle.edges.specs.inner.PairSets.{Only, Union, Cover};
ghost use Rattle.rows.specs.inner.AddedPairs.{Added};
ghost use Rattle.pairs.specs.SourceOf.{source_of};
ghost use Rattle.edges.specs.inner.DrawnEdges.{Spared, SparedFrom, paired, Stored, Passed, PassedBy, ValuedFor, Settled, SettledBy, SettledFor, Loaded};
ghost use Rattle.edges.specs.inner.RoundStep.{FirstRound, Closed, Advanced};
ghost use Rattle.edges.specs.LastRound.{Ends};
ghost use Rattle.edges.specs.inner.ClosedTables.{Inside};
ghost use Rattle.edges.specs.inner.Settling.{Grew};
ghost use Rattle.edges.specs.inner.Takes.{Waiting, Takes, AskWritten, AskNoted};
ghost use Rattle.edges.specs.ForcedPairs.{RoundedBy, Rounded, ForcesBy, Forces};
ghost use Rattle.edges.specs.RoundBefore.{PriorTo, PriorRound};

use crate::Forced;
use crate::closed::{close_both_ways, take_row};
use crate::kept::kept_rows;
use crate::sources::{lay_sources, note_stores};
use pairs::modelled;
use trace::form::well_formed;
use trace::{RECORDS, Trace, first};

// Where the rounds end: the number of the round, and whether it has a circle.
// The flag is no Option: a round has its number with a circle and without.
#[derive(Clone, Copy)]
pub struct End {
    pub number: usize,
    pub circle: bool,
}

// The round at which the rounds end: its number, whether it has a circle, the chains before it, its edges and its chains, as rows.
// The flag is no Option: all five stand in either case.
#[derive(Clone, Copy)]
pub struct Round {
    pub number: usize,
    pub circle: bool,
    pub before: [u64; rows::CELLS],
    pub edges: [u64; rows::CELLS],
    pub chains: [u64; rows::CELLS],
}

// A round before another one: its number, its edges and its chains, as rows.
#[derive(Clone, Copy)]
pub struct Prior {
    pub number: usize,
    pub edges: [u64; rows::CELLS],
    pub chains: [u64; rows::CELLS],
}

// Notes in row 0 the numbers that are no operations of a trace.
fn note_others(t: Trace, others: &mut [u64])
    requires { (t.len ≤ RECORDS) × (length others.old ≡ CELLS) }
    ensures { Added others.old (Union RECORDS (λ y. Only (not ((frame_of t).operation y)) 0 y)) others.new }
{
    let n = t.len;
    for y in 0..RECORDS {
        let op = t.records[y].op;
        rows::put_if(others, (n <= y) | op.fence(), 0, y);
    }
}

// Draws the pairs of row x of lent rows, a row at a time, but none to what is no operation.
fn draw_lent_from(lent: &[u64], others: &[u64], x: usize, edges: &mut [u64])
    requires { (x < RECORDS) × (length edges.old ≡ CELLS) }
    ensures { Added edges.old (Spared lent.now others.now x) edges.new }
{
    let mut row = [0u64; rows::WORDS];
    rows::add_row(lent, x, &mut row, 0);
    rows::drop_row(others, 0, &mut row, 0);
    rows::add_row(&row, 0, edges, x);
}

// Draws the pairs of lent rows below n, but none with what is no operation.
fn draw_lent(n: usize, lent: &[u64], others: &[u64], edges: &mut [u64])
    requires { (n ≤ RECORDS) × (length edges.old ≡ CELLS) }
    ensures { Added edges.old (Union n (SparedFrom lent.now others.now)) edges.new }
{
    for x in 0..n {
        if !rows::test(others, 0, x) {
            draw_lent_from(lent, others, x, edges);
        }
    }
}

// Draws rules 1 and 8.
fn draw_pairs(t: Trace, kept: &[u64], supposed: &[u64], edges: &mut [u64])
    requires { (t.len ≤ RECORDS) × (length edges.old ≡ CELLS) }
    ensures { Added edges.old (Cover t.len (λ x y. Only (paired t kept.now supposed.now x y) x y)) edges.new }
{
    let mut others = [0u64; rows::CELLS];
    note_others(t, &mut others);
    draw_lent(t.len, kept, &others, edges);
    draw_lent(t.len, supposed, &others, edges);
}

// Draws what x, an earlier writer of a load's address in its program order, gives the load by rules 3 and 5, told whether the load reads the first
// value of the address.
fn draw_value(early: bool, source: usize, x: usize, load: usize, edges: &mut [u64])
    requires { (x < RECORDS) × (load < RECORDS) × (length edges.old ≡ CELLS) }
    ensures { Added edges.old (Passed early source x load) edges.new }
{
    rows::put_if(edges, (source < RECORDS) & (x != source), x, source);
    rows::put_if(edges, early, x, load);
}

// Draws what the earlier ones in its program order, of the writers of its address that a row has, give one load by rules 3 and 5.
fn draw_values_from(
    t: Trace,
    others: &[u64],
    early: bool,
    source: usize,
    load: usize,
    edges: &mut [u64],
)
    requires { (load < t.len) × (t.len ≤ RECORDS) × (length edges.old ≡ CELLS) }
    ensures { Added edges.old (Union load (PassedBy (frame_of t) others.now early source load)) edges.new }
{
    let b = t.records[load].op;
    let mut x = rows::next(others, 0, 0);
    while x < load {
        let a = t.records[x].op;
        if a.thread() == b.thread() {
            draw_value(early, source, x, load, edges);
        }
        x = rows::next(others, 0, x + 1);
    }
}

// Draws the source of a load before it, unless it is earlier in its program order: rule 2.
fn draw_source(t: Trace, source: usize, load: usize, edges: &mut [u64])
    requires { (load < t.len) × (t.len ≤ RECORDS) × (length edges.old ≡ CELLS) }
    ensures { Added edges.old (Only (ltb source RECORDS && not ((frame_of t).earlier source load)) source load) edges.new }
{
    if RECORDS <= source {
        return;
    }
    let a = t.records[source].op;
    let b = t.records[load].op;
    let earlier = (source < load) & (a.thread() == b.thread());
    rows::put_if(edges, !earlier, source, load);
}

// Draws a load that reads the first value of its address before the other writers, which a row has: rule 4.
fn draw_early(early: bool, others: &[u64], load: usize, edges: &mut [u64])
    requires { (load < RECORDS) × (length edges.old ≡ CELLS) }
    ensures { Added edges.old (λ i j. So early × (i ≡ load) × Edges others.now 0 j) edges.new }
{
    if early {
        rows::add_row(others, 0, edges, load);
    }
}

// What a row has but for the load, as a row.
fn others_in(stores: &[u64], addr: usize, load: usize) -> [u64; rows::WORDS]
    requires { load < RECORDS }
    ensures { Words result × ((y : ℕ) → Edges result 0 y ↔ (Edges stores.now addr y × (y ≡ load → ⊥))) }
{
    let mut own = [0u64; rows::WORDS];
    rows::put(&mut own, 0, load);
    let mut others = [0u64; rows::WORDS];
    rows::add_row(stores, addr, &mut others, 0);
    rows::drop_row(&own, 0, &mut others, 0);
    others
}

// Draws what every writer of its address gives one record as a load, by rules 2 to 5, and notes these writers.
fn draw_values_for(
    t: Trace,
    stores: &[u64],
    load: usize,
    source: usize,
    writers: &mut [u64],
    edges: &mut [u64],
)
    requires below { (load < t.len) × (t.len ≤ RECORDS) × (source ≡ source_of (frame_of t) load) }
    requires stored { Stored (frame_of t) stores.now ((frame_of t).address load) }
    requires lengths { (length writers.old ≡ CELLS) × (length edges.old ≡ CELLS) }
    ensures noted { Added writers.old (Union t.len (λ x. Only (writer? (frame_of t) x load) load x)) writers.new }
    ensures drawn { Added edges.old (Union t.len (ValuedFor (frame_of t) load)) edges.new }
{
    let op = t.records[load].op;
    let addr = op.address();
    let early = op.reads() & (op.read() == first(t, addr));
    let others = others_in(stores, addr as usize, load);
    rows::add_row(&others, 0, writers, load);
    draw_source(t, source, load, edges);
    draw_early(early, &others, load, edges);
    draw_values_from(t, &others, early, source, load, edges);
}

// Draws rules 2 to 5, and notes each record's source and the writers of each address that is read.
fn draw_values(t: Trace, sources: &mut [usize], writers: &mut [u64], edges: &mut [u64])
    requires { (t.len ≤ RECORDS) × (length sources.old ≡ RECORDS) × (length writers.old ≡ CELLS) × (length edges.old ≡ CELLS) }
    ensures { Loaded (frame_of t) t.len t.len sources.new writers.old writers.new edges.old edges.new }
{
    let n = t.len;
    let mut stores = [0u64; rows::CELLS];
    note_stores(t, &mut stores);
    lay_sources(t, &stores, sources);
    for load in 0..n {
        let op = t.records[load].op;
        if op.reads() {
            let source = sources[load];
            draw_values_for(t, &stores, load, source, writers, edges);
        }
    }
}

// Draws what x, a writer of a load's address other than the load's source, gives by rules 6 and 7.
fn draw_settled_by(chains: &[u64], source: usize, load: usize, x: usize, edges: &mut [u64])
    requires { (x < RECORDS) × (source < RECORDS) × (load < RECORDS) × (length edges.old ≡ CELLS) }
    ensures { Added edges.old (Settled chains.now source load x) edges.new }
{
    rows::put_if(edges, rows::test(chains, x, load), x, source);
    rows::put_if(edges, rows::test(chains, source, x), load, x);
}

// Draws what the chains give one load with a source, by rules 6 and 7.
fn draw_settled_for(
    n: usize,
    writers: &[u64],
    chains: &[u64],
    source: usize,
    load: usize,
    edges: &mut [u64],
)
    requires { (n ≤ RECORDS) × (source < RECORDS) × (load < RECORDS) × (length edges.old ≡ CELLS) }
    ensures { Added edges.old (Union n (SettledBy writers.now chains.now source load)) edges.new }
{
    let mut x = rows::next(writers, load, 0);
    while x < n {
        if x != source {
            draw_settled_by(chains, source, load, x, edges);
        }
        x = rows::next(writers, load, x + 1);
    }
}

// Draws rules 6 and 7 from the chains of a round.
fn draw_settled(n: usize, sources: &[usize], writers: &[u64], chains: &[u64], edges: &mut [u64])
    requires { (n ≤ RECORDS) × (length sources.now ≡ RECORDS) × (length edges.old ≡ CELLS) }
    ensures { Added edges.old (Union n (SettledFor n sources.now writers.now chains.now)) edges.new }
{
    for load in 0..n {
        let source = sources[load];
        if source < RECORDS {
            draw_settled_for(n, writers, chains, source, load, edges);
        }
    }
}

// The writers of a load's address but its source that row x has and row y has not.
fn waiting(
    rows: &[u64],
    x: usize,
    y: usize,
    writers: &[u64],
    load: usize,
    source: usize,
) -> [u64; rows::WORDS]
    requires { source < RECORDS }
    ensures { Waiting rows.now x y writers.now load source result }
{
    let mut own = [0u64; rows::WORDS];
    rows::put(&mut own, 0, source);
    let elsewhere = rows::rest(rows, x, writers, load);
    let there = rows::rest(rows, x, &elsewhere, 0);
    let fresh = rows::rest(&there, 0, rows, y);
    rows::rest(&fresh, 0, &own, 0)
}

// Takes in what one load with a source is given by rules 6 and 7, each a row at a time: what comes after the source comes after the load, and what
// comes before the load comes before the source.
fn settle_for(writers: &[u64], source: usize, load: usize, edges: &mut [u64], turned: &mut [u64])
    requires { (source < RECORDS) × (load < RECORDS) × (length edges.old ≡ CELLS) × (length turned.old ≡ CELLS) }
    ensures { Takes (AskWritten writers.now source load) edges.old turned.old (Union RECORDS (SettledBy writers.now edges.old source load)) edges.new turned.new }
{
    let late = waiting(edges, source, load, writers, load, source);
    take_row(edges, turned, load, &late);
    let early = waiting(turned, load, source, writers, load, source);
    take_row(turned, edges, source, &early);
}

// Takes in what rules 6 and 7 give, load by load.
fn settle(n: usize, sources: &[usize], writers: &[u64], edges: &mut [u64], turned: &mut [u64])
    requires { (n ≤ RECORDS) × (length sources.now ≡ RECORDS) × (length edges.old ≡ CELLS) × (length turned.old ≡ CELLS) }
    ensures { Takes (AskNoted n sources.now writers.now) edges.old turned.old (Union n (SettledFor n sources.now writers.now edges.old)) edges.new turned.new }
{
    for load in 0..n {
        let source = sources[load];
        if source < RECORDS {
            settle_for(writers, source, load, edges, turned);
        }
    }
}

// Draws round 0, and notes each record's source and the writers of its address.
fn draw_first(
    t: Trace,
    kept: &[u64],
    supposed: &[u64],
    sources: &mut [usize],
    writers: &mut [u64],
    edges: &mut [u64],
)
    requires { (So (well_formed t)) × (length sources.old ≡ RECORDS) × (length writers.old ≡ CELLS) × (length edges.old ≡ CELLS) }
    ensures { FirstRound (frame_of t) (lent_of t kept.now) (supposed_of t supposed.now) sources.new writers.new edges.new }
{
    rows::clear(writers);
    rows::clear(edges);
    draw_pairs(t, kept, supposed, edges);
    draw_values(t, sources, writers, edges);
}

// Makes `chains` the chains of edges between numbers below n, and tells whether one leads from a number to itself.
fn close(n: usize, edges: &[u64], chains: &mut [u64]) -> bool
    requires { (n ≤ RECORDS) × Inside n edges.now × (length chains.old ≡ CELLS) }
    ensures { Closed edges.now chains.new result }
{
    let mut turned = [0u64; rows::CELLS];
    close_both_ways(n, edges, chains, &mut turned)
}

// Goes to the next round, from the chains of this one, where that adds an edge.
fn advance(
    n: usize,
    sources: &[usize],
    writers: &[u64],
    chains: &[u64],
    before: &mut [u64],
    edges: &mut [u64],
) -> bool
    requires { (n ≤ RECORDS) × (length sources.now ≡ RECORDS) × (length chains.now ≡ CELLS) × (length before.old ≡ CELLS) × (length edges.old ≡ CELLS) }
    ensures { Advanced n sources.now writers.now chains.now before.old edges.old before.new edges.new result }
{
    let mut next = [0u64; rows::CELLS];
    rows::copy(edges, &mut next);
    draw_settled(n, sources, writers, chains, &mut next);
    if rows::equal(edges, &next) {
        return false;
    }
    rows::copy(chains, before);
    rows::copy(&next, edges);
    true
}

// One pass over the loads, and whether it changed nothing.
fn settle_all(
    n: usize,
    sources: &[usize],
    writers: &[u64],
    edges: &mut [u64],
    turned: &mut [u64],
) -> bool
    requires { (n ≤ RECORDS) × (length sources.now ≡ RECORDS) × (length edges.old ≡ CELLS) × (length turned.old ≡ CELLS) }
    ensures takes { Takes (AskNoted n sources.now writers.now) edges.old turned.old (Union n (SettledFor n sources.now writers.now edges.old)) edges.new turned.new }
    ensures settled { So result ↔ (edges.old ≡ edges.new) }
{
    let mut before = [0u64; rows::CELLS];
    rows::copy(edges, &mut before);
    settle(n, sources, writers, edges, turned);
    rows::equal(&before, edges)
}

// What the rules force, taken in pass by pass; with a circle no pair, and true.
// A `loop` and no `for`: the passes end where nothing is added.
fn grow(t: Trace, kept: &[u64], supposed: &[u64], edges: &mut [u64]) -> bool
    requires { (So (well_formed t)) × (length edges.old ≡ CELLS) }
    ensures { Grew (frame_of t) (lent_of t kept.now) (supposed_of t supposed.now) result edges.new }
{
    let mut sources = [RECORDS; RECORDS];
    let mut writers = [0u64; rows::CELLS];
    let mut first = [0u64; rows::CELLS];
    let mut turned = [0u64; rows::CELLS];
    draw_first(t, kept, supposed, &mut sources, &mut writers, &mut first);
    close_both_ways(t.len, &first, edges, &mut turned);
    loop {
        if rows::reflexive(edges) {
            rows::clear(edges);
            return true;
        }
        if settle_all(t.len, &sources, &writers, edges, &mut turned) {
            return false;
        }
    }
}

// Goes from round to round until one has a circle or adds nothing, and tells which one that is. What is left are the chains before that round,
// its edges and its chains.
// A `loop` and no `for`: the rounds end where nothing is added.
fn run(
    t: Trace,
    kept: &[u64],
    supposed: &[u64],
    before: &mut [u64],
    edges: &mut [u64],
    chains: &mut [u64],
) -> End
    requires { (So (well_formed t)) × (length before.old ≡ CELLS) × (length edges.old ≡ CELLS) × (length chains.old ≡ CELLS) }
    ensures { Ends (frame_of t) (lent_of t kept.now) (supposed_of t supposed.now) result.number result.circle before.new edges.new chains.new }
{
    let mut sources = [RECORDS; RECORDS];
    let mut writers = [0u64; rows::CELLS];
    draw_first(t, kept, supposed, &mut sources, &mut writers, edges);
    rows::clear(before);
    let mut number: usize = 0;
    loop {
        if close(t.len, edges, chains) {
            return End {
                number,
                circle: true,
            };
        }
        if !advance(t.len, &sources, &writers, chains, before, edges) {
            return End {
                number,
                circle: false,
            };
        }
        number += 1;
    }
}

// Goes from round to round until the next one is round k or has the edge x, y, and tells which one that is. What is left are its edges and its
// chains. Once nothing is added any more, round k - 1 is as this one.
// A `loop` and no `for`: the rounds end where nothing is added, before round k too.
fn run_before(
    t: Trace,
    kept: &[u64],
    supposed: &[u64],
    k: usize,
    x: usize,
    y: usize,
    edges: &mut [u64],
    chains: &mut [u64],
) -> usize
    requires { (So (well_formed t)) × (length edges.old ≡ CELLS) × (length chains.old ≡ CELLS) }
    ensures { PriorTo (frame_of t) (lent_of t kept.now) (supposed_of t supposed.now) k x y result edges.new chains.new }
{
    let mut sources = [RECORDS; RECORDS];
    let mut writers = [0u64; rows::CELLS];
    let mut before = [0u64; rows::CELLS];
    let mut next = [0u64; rows::CELLS];
    draw_first(t, kept, supposed, &mut sources, &mut writers, &mut next);
    let mut number: usize = 0;
    loop {
        rows::copy(&next, edges);
        close(t.len, edges, chains);
        if k <= number + 1 {
            return number;
        }
        let grew = advance(t.len, &sources, &writers, chains, &mut before, &mut next);
        if rows::test(&next, x, y) {
            return number;
        }
        if !grew {
            return k - 1;
        }
        number += 1;
    }
}

// The round at which the rounds end, from lent kept pairs and the supposed ones. For a trace that is not well formed, round 0, no circle and
// no pairs.
pub fn last_round_by(t: Trace, kept: &[u64], supposed: &[u64]) -> Round
    ensures { RoundedBy t (lent_of t kept.now) supposed.now result }
{
    let mut before = [0u64; rows::CELLS];
    let mut edges = [0u64; rows::CELLS];
    let mut chains = [0u64; rows::CELLS];
    if well_formed(t) {
        let end = run(t, kept, supposed, &mut before, &mut edges, &mut chains);
        return Round {
            number: end.number,
            circle: end.circle,
            before,
            edges,
            chains,
        };
    }
    Round {
        number: 0,
        circle: false,
        before,
        edges,
        chains,
    }
}

// The round at which the rounds end, from a model's kept pairs and the supposed ones. For a trace that is not well formed, or a model that
// does not exist, round 0, no circle and no pairs.
pub fn last_round(t: Trace, model: u8, supposed: &[u64]) -> Round
    ensures { Rounded t model supposed.now result }
{
    if modelled(model) {
        let kept = kept_rows(t, model);
        return last_round_by(t, &kept, supposed);
    }
    let none = [0u64; rows::CELLS];
    Round {
        number: 0,
        circle: false,
        before: none,
        edges: none,
        chains: none,
    }
}

// The first round that is followed by round k, or by one that has the edge x, y, from a model's kept pairs and the supposed ones. For a trace that
// is not well formed, or a model that does not exist, round 0 and no pairs.
pub fn round_before(t: Trace, model: u8, supposed: &[u64], k: usize, x: usize, y: usize) -> Prior
    ensures { PriorRound t model supposed.now k x y result }
{
    let mut edges = [0u64; rows::CELLS];
    let mut chains = [0u64; rows::CELLS];
    if well_formed(t) && modelled(model) {
        let kept = kept_rows(t, model);
        let number = run_before(t, &kept, supposed, k, x, y, &mut edges, &mut chains);
        return Prior {
            number,
            edges,
            chains,
        };
    }
    Prior {
        number: 0,
        edges,
        chains,
    }
}

// What the rules force from lent kept pairs and the supposed ones. For a trace that is not well formed, nothing is contradicted and nothing
// held.
pub fn forced_by(t: Trace, kept: &[u64], supposed: &[u64]) -> Forced
    ensures { ForcesBy t (lent_of t kept.now) supposed.now result }
{
    let mut held = [0u64; rows::CELLS];
    if well_formed(t) {
        let contradicted = grow(t, kept, supposed, &mut held);
        return Forced { contradicted, held };
    }
    Forced {
        contradicted: false,
        held,
    }
}

// What the rules force from a model's kept pairs and the supposed ones. For a trace that is not well formed, or a model that does not exist,
// nothing is contradicted and nothing held.
pub fn forced(t: Trace, model: u8, supposed: &[u64]) -> Forced
    ensures { Forces t model supposed.now result }
{
    if modelled(model) {
        let kept = kept_rows(t, model);
        return forced_by(t, &kept, supposed);
    }
    Forced {
        contradicted: false,
        held: [0u64; rows::CELLS],
    }
}
