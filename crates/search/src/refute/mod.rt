// What the third stop draws: with all that is placed before all that is not, rules 6 and 7 may close a circle. Of the trace only the tables are looked
// at, and where no circle is found nothing is promised: over which numbers it goes, and how many rounds, is a matter of time alone.
// What is held is closed, and so is what of it is not placed; what is added is added with all that follows from it, to whole rows at once, so that
// nothing is closed anew. What is held obeys rules 6 and 7, so that only rows that took something new can give something new.
ghost use Rattle.std.specs.Prelude.{◌≡◌, ℕ, ◌<◌, ◌≤◌, length};
ghost use Rattle.std.proofs.Math.Bool.{So};
ghost use Rattle.trace.specs.Bounds.{RECORDS};
ghost use Rattle.rows.specs.Bounds.{CELLS, WORDS};
ghost use Rattle.rows.specs.Rows.{bit};
ghost use Rattle.search.specs.inner.Refutation.{Below, Parted, Leads, Sixth, Settling, Ranking, Grown, Partly, Unranked};

use crate::sets::rest;
use trace::RECORDS;

// Lets all that `ahead` has come before y, and notes y where that is something new.
fn take(ahead: &[u64], y: usize, led: &mut [u64], changed: &mut [u64])
    requires { (y < RECORDS) × (length led.old ≡ CELLS) }
    ensures { Grown (Below ahead.now y) led.old led.new }
{
    if !rows::within(ahead, 0, led, y) {
        rows::add_row(ahead, 0, led, y);
        rows::put(changed, 0, y);
    }
}

// Lets all that `ahead` has come before all that `heads` has, and so before what comes after one of those.
fn lead(left: &[u64], ahead: &[u64], heads: &[u64], led: &mut [u64], changed: &mut [u64])
    requires { length led.old ≡ CELLS }
    ensures { Grown (Parted ahead.now heads.now) led.old led.new }
{
    let mut y = rows::next(left, 0, 0);
    while y < RECORDS {
        if rows::test(heads, 0, y) | rows::meets(led, y, heads, 0) {
            take(ahead, y, led, changed);
        }
        y = rows::next(left, 0, y + 1);
    }
}

// Lets x come before all that `heads` has, and with it what is before x.
pub(crate) fn lead_all(left: &[u64], x: usize, heads: &[u64], led: &mut [u64], changed: &mut [u64])
    requires { length led.old ≡ CELLS }
    ensures { Grown (Leads x heads.now) led.old led.new }
{
    if RECORDS <= rows::next(heads, 0, 0) {
        return;
    }
    let mut ahead = [0u64; rows::WORDS];
    rows::add_row(led, x, &mut ahead, 0);
    rows::put(&mut ahead, 0, x);
    lead(left, &ahead, heads, led, changed);
}

// Of the others, those that come after the source, and not yet after the load.
fn late(others: &[u64], source: usize, load: usize, led: &[u64]) -> [u64; rows::WORDS]
    ensures { (z : ℕ) → So (bit result 0 z) → So (bit others.now 0 z) × So (bit led.now z source) }
{
    let mut heads = [0u64; rows::WORDS];
    let mut z = rows::next(others, 0, 0);
    while z < RECORDS {
        let after = rows::test(led, z, source) & !rows::test(led, z, load);
        rows::put_if(&mut heads, after, 0, z);
        z = rows::next(others, 0, z + 1);
    }
    heads
}

// Lets the others, but the source, come before the source.
fn early(left: &[u64], others: &[u64], source: usize, led: &mut [u64], changed: &mut [u64])
    requires { (source < RECORDS) × (length led.old ≡ CELLS) }
    ensures { Grown (Sixth others.now source) led.old led.new }
{
    let mut own = [0u64; rows::WORDS];
    rows::put(&mut own, 0, source);
    let mut z = rows::next(others, 0, 0);
    while z < RECORDS {
        if (z != source) & !rows::test(led, source, z) {
            lead_all(left, z, &own, led, changed);
        }
        z = rows::next(others, 0, z + 1);
    }
}

// Draws what rules 6 and 7 give a load with a source by other writers of its address, as far as rows that changed give something.
fn settle_for(
    left: &[u64],
    was: &[u64],
    others: &[u64],
    source: usize,
    load: usize,
    led: &mut [u64],
    changed: &mut [u64],
)
    requires { (source < RECORDS) × (length led.old ≡ CELLS) }
    ensures { Grown (Settling others.now source load) led.old led.new }
{
    let old = rest(others, 0, was, 0);
    let fresh = rest(others, 0, &old, 0);
    let heads = late(&fresh, source, load, led);
    lead_all(left, load, &heads, led, changed);
    if rows::test(was, 0, load) {
        let apart = rest(others, 0, led, load);
        let ahead = rest(others, 0, &apart, 0);
        early(left, &ahead, source, led, changed);
    }
}

// Draws what the writers that are not placed give every load whose source is placed: the placed come before the others.
pub(crate) fn part(
    left: &[u64],
    writers: &[u64],
    sources: &[usize],
    placed: &[u64],
    led: &mut [u64],
    changed: &mut [u64],
)
    requires { (length sources.now ≤ RECORDS) × (length led.old ≡ CELLS) }
    ensures { Grown (Ranking (length sources.now) writers.now sources.now placed.now) led.old led.new }
{
    let mut load = rows::next(left, 0, 0);
    while load < sources.len() {
        if rows::test(placed, 0, sources[load]) {
            let others = rest(writers, load, placed, 0);
            lead_all(left, load, &others, led, changed);
        }
        load = rows::next(left, 0, load + 1);
    }
}

// Draws what the writers that are not placed give every load whose source is not.
fn settle(
    left: &[u64],
    was: &[u64],
    writers: &[u64],
    sources: &[usize],
    placed: &[u64],
    led: &mut [u64],
    changed: &mut [u64],
)
    requires { (length sources.now ≤ RECORDS) × (length led.old ≡ CELLS) }
    ensures { Grown (Ranking (length sources.now) writers.now sources.now placed.now) led.old led.new }
{
    let mut load = rows::next(left, 0, 0);
    while load < sources.len() {
        let source = sources[load];
        if (source < RECORDS) & !rows::test(placed, 0, source) {
            let others = rest(writers, load, placed, 0);
            settle_for(left, was, &others, source, load, led, changed);
        }
        load = rows::next(left, 0, load + 1);
    }
}

// Adds to row y what is before y and not placed.
fn leave_row(before: &[u64], placed: &[u64], y: usize, led: &mut [u64])
    requires { (y < RECORDS) × (length led.old ≡ CELLS) }
    ensures { Partly before.now led.old led.new }
{
    rows::add_row(before, y, led, y);
    rows::drop_row(placed, 0, led, y);
}

// Adds what is before each number of a row, but for what is placed: that comes before all the others anyway, so no circle leads through it.
pub(crate) fn leave(left: &[u64], before: &[u64], placed: &[u64], led: &mut [u64])
    requires { length led.old ≡ CELLS }
    ensures { Partly before.now led.old led.new }
{
    let mut y = rows::next(left, 0, 0);
    while y < RECORDS {
        leave_row(before, placed, y, led);
        y = rows::next(left, 0, y + 1);
    }
}

// Draws what rules 6 and 7 give, round after round, and tells whether they close a circle. What changed before is told, and what changed last.
pub(crate) fn circular(
    left: &[u64],
    writers: &[u64],
    sources: &[usize],
    placed: &[u64],
    led: &mut [u64],
    changed: &mut [u64],
) -> bool
    requires { (length sources.now ≤ RECORDS) × (length led.old ≡ CELLS) × (length changed.old ≡ WORDS) }
    ensures grown { Grown (Ranking (length sources.now) writers.now sources.now placed.now) led.old led.new }
    ensures unranked { So result → Unranked led.new }
{
    for round in 0..sources.len() {
        if rows::reflexive(led) {
            return true;
        }
        if RECORDS <= rows::next(changed, 0, 0) {
            return false;
        }
        let mut was = [0u64; rows::WORDS];
        rows::copy(changed, &mut was);
        rows::clear(changed);
        settle(left, &was, writers, sources, placed, led, changed);
    }
    false
}
