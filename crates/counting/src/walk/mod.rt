// The plain search within a budget of steps: which operation may be next, what is remembered, and the recursion. Of what is placed two sets are
// looked at: what is placed, and which of the other reads are served by the latest placed writers.
ghost use Rattle.std.specs.Prelude.{◌≡◌, ◌↔◌, ◌*◌, ◌<◌, ◌≤◌, length};
ghost use Rattle.std.proofs.Math.Bool.{So};
ghost use Rattle.trace.specs.Bounds.{RECORDS};
ghost use Rattle.rows.specs.Bounds.{WORDS};
ghost use Rattle.rows.specs.inner.Sets.{More};
ghost use Rattle.counting.specs.inner.NextTests.{last_waiting, RightBy, Nexts, Fed};
ghost use Rattle.counting.specs.inner.FailedLists.{LISTS, list_slot, Put};
ghost use Rattle.counting.specs.inner.CountedWalk.{counting_tables, CountingRoom, Counts, recalled_of};

use crate::Walked;
use trace::RECORDS;

// How many lists that failed the memory has room for.
pub(crate) const SLOTS: usize = 4093;

// The words of the sets in the memory.
pub(crate) const MEMORY: usize = SLOTS * rows::WORDS;

// The last writer of c's address, earlier in its program order, that is not placed; RECORDS where there is none.
fn last_waiting(n: usize, own: &[u64], placed: &[u64], c: usize) -> usize
    requires { n ≤ RECORDS }
    ensures { result ≡ last_waiting n own.now placed.now c }
{
    let mut last = RECORDS;
    for s in 0..n {
        if rows::test(own, c, s) & !rows::test(placed, 0, s) {
            last = s;
        }
    }
    last
}

// Whether the read of c is right: where own writers wait, it reads from the last of them; otherwise it is served.
fn right(n: usize, own: &[u64], fed: &[u64], placed: &[u64], served: &[u64], c: usize) -> bool
    requires { n ≤ RECORDS }
    ensures { So result ↔ RightBy n own.now fed.now placed.now served.now c }
{
    if rows::within(own, c, placed, 0) {
        return rows::test(served, 0, c);
    }
    let last = last_waiting(n, own, placed, c);
    rows::test(fed, last, c)
}

// Whether c may be placed next.
fn next(
    n: usize,
    operations: &[u64],
    reads: &[u64],
    partners: &[u64],
    own: &[u64],
    fed: &[u64],
    placed: &[u64],
    served: &[u64],
    c: usize,
) -> bool
    requires { n ≤ RECORDS }
    ensures { So result ↔ Nexts n operations.now reads.now partners.now own.now fed.now placed.now served.now c }
{
    rows::test(operations, 0, c)
        && !rows::test(placed, 0, c)
        && rows::within(partners, c, placed, 0)
        && (!rows::test(reads, 0, c) || right(n, own, fed, placed, served, c))
}

// Makes `next` the set with y in it.
fn join(set: &[u64], y: usize, next: &mut [u64])
    requires { (y < RECORDS) × (length set.now ≡ WORDS) × (length next.old ≡ WORDS) }
    ensures { More set.now y next.new }
{
    rows::copy(set, next);
    rows::put(next, 0, y);
}

// Makes `next` the reads that are served once y is placed: who reads from it; at other addresses, who was. `placed` has y already.
fn serve(fed: &[u64], rivals: &[u64], placed: &[u64], served: &[u64], y: usize, next: &mut [u64])
    requires { (length served.now ≡ WORDS) × (length next.old ≡ WORDS) }
    ensures { Fed fed.now rivals.now placed.now served.now y next.new }
{
    rows::copy(served, next);
    rows::drop_row(rivals, y, next, 0);
    rows::add_row(fed, y, next, 0);
    rows::drop_row(placed, 0, next, 0);
}

// Mixes a set into a number below SLOTS. Any would do: what a slot holds counts.
fn mix(seed: u64, set: &[u64]) -> u64
    ensures { result < LISTS }
{
    let mut fold = seed % (SLOTS as u64);
    for x in set {
        fold = (fold % (SLOTS as u64)) * 31 + *x % (SLOTS as u64);
    }
    fold % (SLOTS as u64)
}

// Whether a slot has a set.
fn same_at(memory: &[u64], h: usize, set: &[u64]) -> bool
    requires { (h < LISTS) × (length memory.now ≡ LISTS * WORDS) }
    ensures { So result → list_slot memory.now h ≡ set.now }
{
    let from = h * rows::WORDS;
    let to = from + rows::WORDS;
    rows::equal(&memory[from..to], set)
}

// Puts a set into a slot.
fn put_at(memory: &mut [u64], h: usize, set: &[u64])
    requires { (h < LISTS) × (length memory.old ≡ LISTS * WORDS) × (length set.now ≡ WORDS) }
    ensures { Put memory.old h set.now memory.new }
{
    let from = h * rows::WORDS;
    let to = from + rows::WORDS;
    rows::copy(set, &mut memory[from..to]);
}

// What is brought back where the steps below a list are remembered.
fn recalled(steps: u64, left: u64) -> Walked
    ensures { result ≡ recalled_of steps left }
{
    if steps <= left {
        return Walked::End(steps);
    }
    Walked::Over
}

// Runs the search below the first k places of the list, where `placed` is their set and `served` the reads that they serve, and `left` steps may
// be made.
pub(crate) fn count(
    n: usize,
    total: usize,
    operations: &[u64],
    reads: &[u64],
    partners: &[u64],
    own: &[u64],
    fed: &[u64],
    rivals: &[u64],
    list: &mut [u16],
    k: usize,
    placed: &[u64],
    served: &[u64],
    left: u64,
    sets: &mut [u64],
    serves: &mut [u64],
    counts: &mut [u64],
) -> Walked
    requires { CountingRoom (counting_tables n total operations.now reads.now partners.now own.now fed.now rivals.now) k list.old placed.now served.now sets.old serves.old counts.old }
    ensures { Counts (counting_tables n total operations.now reads.now partners.now own.now fed.now rivals.now) list.old k placed.now served.now left sets.old serves.old counts.old list.new sets.new serves.new counts.new result }
{
    if k == total {
        return Walked::Order(0);
    }
    let h = mix(mix(0, placed), served) as usize;
    if 0 < k && same_at(sets, h, placed) && same_at(serves, h, served) {
        return recalled(counts[h], left);
    }
    let mut used: u64 = 0;
    for y in 0..n {
        if next(n, operations, reads, partners, own, fed, placed, served, y) {
            if used == left {
                return Walked::Over;
            }
            list[k] = y as u16;
            let mut with = [0u64; rows::WORDS];
            let mut after = [0u64; rows::WORDS];
            join(placed, y, &mut with);
            serve(fed, rivals, &with, served, y, &mut after);
            let below = count(
                n,
                total,
                operations,
                reads,
                partners,
                own,
                fed,
                rivals,
                list,
                k + 1,
                &with,
                &after,
                left - used - 1,
                sets,
                serves,
                counts,
            );
            match below {
                Walked::Order(c) => {
                    return Walked::Order(used + 1 + c);
                }
                Walked::Over => {
                    return Walked::Over;
                }
                Walked::End(c) => {
                    used = used + 1 + c;
                }
            }
        }
    }
    put_at(sets, h, placed);
    put_at(serves, h, served);
    counts[h] = used;
    Walked::End(used)
}
