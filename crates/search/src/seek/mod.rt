// The search below a list of placed operations: which may come next, when the loop may stop, and which sets are dead. Of what is placed only
// the set is looked at.
ghost use Rattle.std.proofs.Math.Bool.{So};
ghost use Rattle.std.specs.Prelude.{◌≡◌, ◌↔◌, ◌*◌, ◌<◌, ◌≤◌, eqb, length};
ghost use Rattle.trace.specs.Bounds.{RECORDS};
ghost use Rattle.rows.specs.Bounds.{WORDS};
ghost use Rattle.search.specs.inner.Bounds.{SLOTS};
ghost use Rattle.search.specs.inner.SearchTables.{tables};
ghost use Rattle.search.specs.inner.Candidates.{Quiet, MayCome, Unread, Covered, Stops};
ghost use Rattle.search.specs.inner.DeadSets.{Recalls, Noted};
ghost use Rattle.search.specs.inner.SearchBelow.{Room, Sought};

use crate::sets::{join, rest};
use crate::split::refuted;
use trace::RECORDS;

// How many sets the memory has room for.
const SLOTS: usize = 4093;

// The words of the memory.
pub(crate) const MEMORY: usize = SLOTS * rows::WORDS;

// From how many placements on a search that found nothing has cost as much as asking whether its set is refuted.
const PATIENCE: usize = 64;

// Whether nobody waits at the address that c writes: one whose source is placed while it is not.
fn quiet(readers: &[u64], sources: &[usize], placed: &[u64], c: usize) -> bool
    requires { length sources.now ≤ RECORDS }
    ensures { So result ↔ Quiet (length sources.now) readers.now sources.now placed.now c }
{
    let waiting = rest(readers, c, placed, 0);
    let mut load = rows::next(&waiting, 0, 0);
    while load < sources.len() {
        if rows::test(placed, 0, sources[load]) {
            return false;
        }
        load = rows::next(&waiting, 0, load + 1);
    }
    true
}

// Whether c, an operation that is not placed, may be placed next.
fn ready(before: &[u64], readers: &[u64], sources: &[usize], placed: &[u64], c: usize) -> bool
    requires { length sources.now ≤ RECORDS }
    ensures { So result ↔ MayCome (length sources.now) before.now readers.now sources.now placed.now c }
{
    rows::within(before, c, placed, 0) && quiet(readers, sources, placed, c)
}

// Whether everybody who reads from y is placed.
fn unread(readers: &[u64], sources: &[usize], placed: &[u64], y: usize) -> bool
    requires { length sources.now ≤ RECORDS }
    ensures { So result → Unread (length sources.now) readers.now sources.now placed.now y }
{
    let waiting = rest(readers, y, placed, 0);
    let mut load = rows::next(&waiting, 0, 0);
    while load < sources.len() {
        if sources[load] == y {
            return false;
        }
        load = rows::next(&waiting, 0, load + 1);
    }
    true
}

// Whether each other writer of y's address that is neither placed nor failed has an unplaced one before it.
fn covered(before: &[u64], writers: &[u64], placed: &[u64], failed: &[u64], y: usize) -> bool
    ensures { So result → Covered before.now writers.now placed.now failed.now y }
{
    let unplaced = rest(writers, y, placed, 0);
    let others = rest(&unplaced, 0, failed, 0);
    let mut z = rows::next(&others, 0, 0);
    while z < RECORDS {
        let ahead = rest(before, z, placed, 0);
        if !rows::meets(&ahead, 0, writers, z) {
            return false;
        }
        z = rows::next(&others, 0, z + 1);
    }
    true
}

// What two searches that found nothing cost together, and one placement; past PATIENCE nobody counts.
fn more(a: usize, b: usize) -> usize
    ensures { 0 < result }
{
    if a < PATIENCE && b < PATIENCE {
        return a + b + 1;
    }
    PATIENCE
}

// Whether the loop may stop after y, which was ready and failed. What the set itself refutes is asked only where that is worth its time.
fn stops(
    left: &[u64],
    before: &[u64],
    writers: &[u64],
    readers: &[u64],
    sources: &[usize],
    placed: &[u64],
    failed: &[u64],
    y: usize,
    asks: bool,
) -> bool
    requires { length sources.now ≤ RECORDS }
    ensures { So result → Stops (length sources.now) before.now writers.now readers.now sources.now placed.now failed.now y }
{
    if unread(readers, sources, placed, y) {
        return true;
    }
    if covered(before, writers, placed, failed, y) {
        return true;
    }
    if !asks {
        return false;
    }
    refuted(left, before, writers, sources, placed)
}

// Which slot of the memory a set has. Any would do: what it holds counts.
fn slot(set: &[u64]) -> usize
    ensures { result < SLOTS }
{
    let mut fold: u64 = 0;
    for i in 0..set.len() {
        fold = (fold % (SLOTS as u64)) * 31 + set[i] % (SLOTS as u64);
    }
    (fold % (SLOTS as u64)) as usize
}

// Whether the memory has a set.
fn known(dead: &[u64], set: &[u64]) -> bool
    requires { length dead.now ≡ SLOTS * WORDS }
    ensures { So result → Recalls dead.now set.now }
{
    let from = slot(set) * rows::WORDS;
    let to = from + rows::WORDS;
    rows::equal(&dead[from..to], set)
}

// Puts a set into the memory, in the place of what its slot had.
fn note(dead: &mut [u64], set: &[u64])
    requires { (length dead.old ≡ SLOTS * WORDS) × (length set.now ≡ WORDS) }
    ensures { Noted dead.old set.now dead.new }
{
    let from = slot(set) * rows::WORDS;
    let to = from + rows::WORDS;
    rows::copy(set, &mut dead[from..to]);
}

// Looks for the first valid order that begins with the first k places of the list, whose set is `placed`: 0 where it is found, and otherwise what the search
// cost, which only says when to ask more: once for a set, when it has cost as much as asking. Below a dead set there is none.
pub(crate) fn find(
    operations: &[u64],
    before: &[u64],
    writers: &[u64],
    readers: &[u64],
    sources: &[usize],
    list: &mut [u16],
    k: usize,
    placed: &[u64],
    dead: &mut [u64],
) -> usize
    requires { Room (tables (length sources.now) (length list.old) operations.now before.now writers.now readers.now sources.now) k list.old placed.now dead.old }
    ensures { Sought (tables (length sources.now) (length list.old) operations.now before.now writers.now readers.now sources.now) list.old k placed.now dead.old list.new dead.new (eqb result 0) }
{
    if k == list.len() {
        return 0;
    }
    if (0 < k) & known(dead, placed) {
        return 1;
    }
    let left = rest(operations, 0, placed, 0);
    let mut failed = [0u64; rows::WORDS];
    let mut cost: usize = 1;
    let mut y = rows::next(&left, 0, 0);
    while y < sources.len() {
        if ready(before, readers, sources, placed, y) {
            list[k] = y as u16;
            let next = join(placed, y);
            let below = find(
                operations,
                before,
                writers,
                readers,
                sources,
                list,
                k + 1,
                &next,
                dead,
            );
            if below == 0 {
                return 0;
            }
            rows::put(&mut failed, 0, y);
            let patient = cost < PATIENCE;
            cost = more(cost, below);
            if stops(
                &left,
                before,
                writers,
                readers,
                sources,
                placed,
                &failed,
                y,
                patient & (PATIENCE <= cost),
            ) {
                note(dead, placed);
                return cost;
            }
        }
        y = rows::next(&left, 0, y + 1);
    }
    note(dead, placed);
    cost
}
