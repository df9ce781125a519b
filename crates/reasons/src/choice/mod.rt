// The pair that the writer splits on.
ghost use Rattle.std.specs.Prelude.{◌≡◌, not, ◌&&◌, ◌||◌, List, ℕ, ◌+◌, ◌<◌, ◌≤◌, length};
ghost use Rattle.std.proofs.Math.Bool.{So};
ghost use Rattle.trace.specs.Bounds.{RECORDS};
ghost use Rattle.trace.specs.Meaning.{frame_of};
ghost use Rattle.trace.specs.WellFormed.{well_formed};
ghost use Rattle.rows.specs.Bounds.{CELLS, WORDS};
ghost use Rattle.rows.specs.Rows.{bit};
ghost use Rattle.rules.specs.RuleTests.{writer?};
ghost use Rattle.pairs.specs.Kept.{modelled, kept_of};
ghost use Rattle.papers.specs.Paper.{Claim, named};
ghost use Rattle.reasons.specs.Writing.{fallen, choose};
ghost use Rattle.reasons.specs.inner.Choice.{BOTH, rank_of, ReadRow, SupposedIn, Known, Higher, Best, ChosenPair, NextIn};

use edges::force::forced;
use pairs::frame::writer;
use pairs::{op_at, source_of};
use trace::{RECORDS, Trace};

// The rank of a pair of which both sides fall: no rank is higher.
const BOTH: usize = 3;

// A pair that may be split on, and how much that is worth: its rank is 0 where there is none, otherwise 1, and 1 more for each side that falls.
#[derive(Clone, Copy)]
pub(crate) struct Choice {
    pub(crate) rank: usize,
    pub(crate) x: usize,
    pub(crate) y: usize,
}

// What comes next in a branch: its circle, or a split on two operations.
// Not an `Option`: the circle is a thing that comes, and no lack of a split.
#[derive(Clone, Copy)]
pub(crate) enum Next {
    Circle,
    Split(usize, usize),
}

// Notes who is read from, as a set.
pub(crate) fn note_read(t: Trace, read: &mut [u64])
    requires { length read.old ≡ WORDS }
    ensures { ReadRow (frame_of t) read.new }
{
    rows::clear(read);
    for load in 0..RECORDS {
        let source = source_of(t, load);
        rows::put(read, 0, source);
    }
}

// Whether x and y write one address.
fn rivals(t: Trace, x: usize, y: usize) -> bool
    ensures { result ≡ ((frame_of t).writes x && writer? (frame_of t) y x) }
{
    (x < t.len) & op_at(t, x).writes() & writer(t, y, x)
}

// Whether x and y write one address, one of them is read from, and they are held neither way.
fn open(t: Trace, read: &[u64], held: &[u64], x: usize, y: usize) -> bool
    ensures { result ≡ ((frame_of t).writes x && writer? (frame_of t) y x && (bit read.now 0 x || bit read.now 0 y) && not (bit held.now x y) && not (bit held.now y x)) }
{
    if !rivals(t, x, y) {
        return false;
    }
    if rows::test(held, x, y) | rows::test(held, y, x) {
        return false;
    }
    rows::test(read, 0, x) | rows::test(read, 0, y)
}

// Whether what a branch names is contradicted once it names x before y as well.
fn fallen(t: Trace, model: u8, supposed: &[u64], x: usize, y: usize) -> bool
    requires { So (well_formed t) × So (modelled model) × So ((frame_of t).operation x) × So ((frame_of t).operation y) }
    ensures { (E : List Claim) → length supposed.now ≡ CELLS → SupposedIn t supposed.now E → result ≡ fallen (frame_of t) (kept_of model t) (named E x y) }
{
    let mut more = [0u64; rows::CELLS];
    rows::copy(supposed, &mut more);
    rows::put(&mut more, x, y);
    let closed = forced(t, model, &more);
    closed.contradicted
}

// The higher of two ranks.
fn higher(a: usize, b: usize) -> usize
    ensures { Higher a b result }
{
    if a < b {
        return b;
    }
    a
}

// The rank of the pair x, y, or the best one so far where that is higher. A second side is asked only where that can make it higher.
fn better(
    t: Trace,
    model: u8,
    supposed: &[u64],
    read: &[u64],
    held: &[u64],
    x: usize,
    y: usize,
    best: usize,
) -> usize
    requires { So (well_formed t) × So (modelled model) × (x < RECORDS) × (y < RECORDS) × (best ≤ BOTH) }
    ensures { ((E : List Claim) → Known t model E supposed.now read.now held.now → Higher best (rank_of (frame_of t) (kept_of model t) E x y) result) × (result ≤ BOTH) }
{
    if !open(t, read, held, x, y) {
        return best;
    }
    let one = fallen(t, model, supposed, x, y);
    if (BOTH <= best + 1) & !one {
        return best;
    }
    let other = fallen(t, model, supposed, y, x);
    if one & other {
        return BOTH;
    }
    if one | other {
        return higher(best, 2);
    }
    higher(best, 1)
}

// The best pair so far, once the pairs of x with those after it are looked at too.
fn choose_from(
    t: Trace,
    model: u8,
    supposed: &[u64],
    read: &[u64],
    held: &[u64],
    x: usize,
    start: Choice,
) -> Choice
    requires { So (well_formed t) × So (modelled model) × (x < t.len) × (start.rank ≤ BOTH) }
    ensures { ((E : List Claim) → Known t model E supposed.now read.now held.now → Best t.len (rank_of (frame_of t) (kept_of model t) E) x 0 start → Best t.len (rank_of (frame_of t) (kept_of model t) E) (x + 1) 0 result) × (result.rank ≤ BOTH) }
{
    let n = t.len;
    let mut best = start;
    for y in x + 1..n {
        if BOTH <= best.rank {
            return best;
        }
        let rank = better(t, model, supposed, read, held, x, y, best.rank);
        if best.rank < rank {
            best = Choice { rank, x, y };
        }
    }
    best
}

// The pair to split on: the first open one of which both sides fall, or else the first of which one does, or else the first.
fn choose(t: Trace, model: u8, supposed: &[u64], read: &[u64], held: &[u64]) -> Choice
    requires { So (well_formed t) × So (modelled model) }
    ensures { (E : List Claim) → Known t model E supposed.now read.now held.now → ChosenPair (choose (frame_of t) (kept_of model t) E) result }
{
    let n = t.len;
    let mut best = Choice {
        rank: 0,
        x: 0,
        y: 0,
    };
    for x in 0..n {
        best = choose_from(t, model, supposed, read, held, x, best);
    }
    best
}

// What comes next in the branch whose pairs the rows have.
pub(crate) fn next_of(t: Trace, model: u8, read: &[u64], supposed: &[u64]) -> Next
    requires { So (well_formed t) × So (modelled model) × (length supposed.now ≡ CELLS) × ReadRow (frame_of t) read.now }
    ensures { (E : List Claim) → SupposedIn t supposed.now E → NextIn (frame_of t) (kept_of model t) E result }
{
    let closed = forced(t, model, supposed);
    if closed.contradicted {
        return Next::Circle;
    }
    let held = closed.held;
    let pair = choose(t, model, supposed, read, &held);
    Next::Split(pair.x, pair.y)
}
