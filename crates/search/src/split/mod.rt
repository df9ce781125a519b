// The third stop: what is placed comes before what is not, and rules 6 and 7 close a circle; or they do so either way round for some pair of writers of
// one address that they leave open. How often it is asked, and of how many pairs, is a matter of time alone.
ghost use Rattle.std.specs.Prelude.{◌≡◌, ◌<◌, ◌≤◌, length};
ghost use Rattle.std.proofs.Math.Bool.{So};
ghost use Rattle.trace.specs.Bounds.{RECORDS};
ghost use Rattle.rows.specs.Bounds.{CELLS};
ghost use Rattle.rows.specs.Rows.{bit};
ghost use Rattle.search.specs.inner.Refutation.{Falls, Refuted};

use crate::refute::{circular, lead_all, leave, part};
use crate::sets::rest;
use trace::RECORDS;

// How many pairs are tried: a set that has an order is asked about too, and there every try is in vain.
const TRIES: usize = 8;

// Whether rules 6 and 7 close a circle once x comes before y.
fn falls(
    left: &[u64],
    writers: &[u64],
    sources: &[usize],
    placed: &[u64],
    led: &[u64],
    x: usize,
    y: usize,
) -> bool
    requires { (length sources.now ≤ RECORDS) × (length led.now ≡ CELLS) × (y < RECORDS) }
    ensures { So result → Falls (length sources.now) led.now writers.now sources.now placed.now x y }
{
    let mut side = [0u64; rows::CELLS];
    let mut changed = [0u64; rows::WORDS];
    let mut own = [0u64; rows::WORDS];
    rows::copy(led, &mut side);
    rows::put(&mut own, 0, y);
    lead_all(left, x, &own, &mut side, &mut changed);
    circular(left, writers, sources, placed, &mut side, &mut changed)
}

// Notes the sources of what is left to place: a pair of which neither is read from decides little.
fn note_sources(left: &[u64], sources: &[usize], read: &mut [u64])
    requires { length sources.now ≤ RECORDS }
    ensures { length read.new ≡ length read.old }
{
    let mut load = rows::next(left, 0, 0);
    while load < sources.len() {
        rows::put(read, 0, sources[load]);
        load = rows::next(left, 0, load + 1);
    }
}

// A writer behind x of x's address that is not placed, where x writes too, one of the two is read from and neither leads the other; RECORDS where there
// is none.
fn partner(writers: &[u64], placed: &[u64], read: &[u64], led: &[u64], x: usize) -> usize
    requires { x < RECORDS }
    ensures { result < RECORDS → So (bit writers.now x result) }
{
    let others = rest(writers, x, placed, 0);
    let mut y = rows::next(&others, 0, x + 1);
    while y < RECORDS {
        let ordered = rows::test(led, x, y) | rows::test(led, y, x);
        let told = rows::test(read, 0, x) | rows::test(read, 0, y);
        if rows::test(writers, y, x) & told & !ordered {
            return y;
        }
        y = rows::next(&others, 0, y + 1);
    }
    RECORDS
}

// Whether both sides of a pair fall, of the first few that are open.
fn divided(
    left: &[u64],
    writers: &[u64],
    sources: &[usize],
    placed: &[u64],
    read: &[u64],
    led: &[u64],
) -> bool
    requires { (length sources.now ≤ RECORDS) × (length led.now ≡ CELLS) }
    ensures { So result → Refuted (length sources.now) led.now writers.now sources.now placed.now }
{
    let mut tries: usize = 0;
    let mut x = rows::next(left, 0, 0);
    while x < sources.len() {
        let y = partner(writers, placed, read, led, x);
        if y < RECORDS {
            if falls(left, writers, sources, placed, led, x, y)
                && falls(left, writers, sources, placed, led, y, x)
            {
                return true;
            }
            tries += 1;
        }
        if TRIES <= tries {
            return false;
        }
        x = rows::next(left, 0, x + 1);
    }
    false
}

// Whether no list with this set can go on to a valid order, as far as the rules show it, told what is left to place.
pub(crate) fn refuted(
    left: &[u64],
    before: &[u64],
    writers: &[u64],
    sources: &[usize],
    placed: &[u64],
) -> bool
    requires { length sources.now ≤ RECORDS }
    ensures { So result → Refuted (length sources.now) before.now writers.now sources.now placed.now }
{
    let mut led = [0u64; rows::CELLS];
    let mut changed = [0u64; rows::WORDS];
    let mut read = [0u64; rows::WORDS];
    leave(left, before, placed, &mut led);
    part(left, writers, sources, placed, &mut led, &mut changed);
    if circular(left, writers, sources, placed, &mut led, &mut changed) {
        return true;
    }
    note_sources(left, sources, &mut read);
    divided(left, writers, sources, placed, &read, &led)
}
