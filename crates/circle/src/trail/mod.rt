// The circle that is shown, found by walks: the least length of a closed walk, the lowest operation on one, and from there the lowest
// steps that still lead back in time.
ghost use Rattle.std.specs.Prelude.{◌≡◌, ◌+◌, ◌<◌, ◌≤◌, length, replicate};
ghost use Rattle.trace.specs.Bounds.{RECORDS};
ghost use Rattle.rows.specs.Bounds.{CELLS};
ghost use Rattle.rows.specs.Rows.{Edges};
ghost use Rattle.circle.specs.inner.WalkRows.{Exactly, Widened, StepThen};
ghost use Rattle.circle.specs.inner.LeastWalk.{LeastWalk, LowestBelow};
ghost use Rattle.circle.specs.inner.BackSteps.{StepBack, Reach, Followed, LaidWay};
ghost use Rattle.circle.specs.inner.Ring.{Others, RingOf};
ghost use Rattle.circle.specs.ShownIn.{ShownIn};

// Adds to row x of `next` what row m of `walks` has.
fn add_row(walks: &[u64], m: usize, next: &mut [u64], x: usize)
    requires { (x < RECORDS) × (length next.old ≡ CELLS) }
    ensures { Widened next.old (λ i j. (i ≡ x) × Edges walks.now m j) next.new }
{
    rows::add_row(walks, m, next, x);
}

// Adds to row x of `next` where an edge from x and then a walk leads, edge by edge along row x.
fn add_rows(edges: &[u64], walks: &[u64], next: &mut [u64], x: usize)
    requires { (x < RECORDS) × (length next.old ≡ CELLS) }
    ensures { Widened next.old (λ i j. (i ≡ x) × StepThen (Edges edges.now) (Edges walks.now) x j) next.new }
{
    let mut m = rows::next(edges, x, 0);
    while m < trace::RECORDS {
        add_row(walks, m, next, x);
        m = rows::next(edges, x, m + 1);
    }
}

// The records that are in no pair with themselves: of chains, those on no circle.
fn off_circles(chains: &[u64]) -> [u64; rows::WORDS]
    ensures { Others chains.now result }
{
    let mut others = [0u64; rows::WORDS];
    for x in 0..trace::RECORDS {
        rows::put_if(&mut others, !rows::test(chains, x, x), 0, x);
    }
    others
}

// Makes `ring` the edges that join records on circles; no other edge lies on a closed walk.
pub(crate) fn lay_ring(edges: &[u64], chains: &[u64], ring: &mut [u64])
    requires { length ring.old ≡ CELLS }
    ensures { RingOf edges.now chains.now ring.new }
{
    let others = off_circles(chains);
    rows::clear(ring);
    for x in 0..trace::RECORDS {
        if rows::test(chains, x, x) {
            add_row(edges, x, ring, x);
            rows::drop_row(&others, 0, ring, x);
        }
    }
}

// Makes `next` the walks that are an edge longer.
fn further(edges: &[u64], walks: &[u64], next: &mut [u64])
    requires { length next.old ≡ CELLS }
    ensures { Exactly next.new (StepThen (Edges edges.now) (Edges walks.now)) }
{
    rows::clear(next);
    for x in 0..trace::RECORDS {
        add_rows(edges, walks, next, x);
    }
}

// The least length of a closed walk, with the walks of that length left in `walks`; 0 where there is none. A circle has no number twice,
// so lengths past RECORDS need no look.
fn least(edges: &[u64], walks: &mut [u64], next: &mut [u64]) -> usize
    requires { (length edges.now ≡ CELLS) × (length walks.old ≡ CELLS) × (length next.old ≡ CELLS) }
    ensures { LeastWalk (Edges edges.now) result walks.new }
{
    rows::copy(edges, walks);
    for k in 1..=trace::RECORDS {
        if rows::reflexive(walks) {
            return k;
        }
        further(edges, walks, next);
        rows::copy(next, walks);
    }
    0
}

// The lowest number in a pair with itself; RECORDS where there is none.
fn closed_at(walks: &[u64]) -> usize
    ensures { LowestBelow RECORDS (λ x. Edges walks.now x x) result }
{
    for s in 0..trace::RECORDS {
        if rows::test(walks, s, s) {
            return s;
        }
    }
    trace::RECORDS
}

// The lowest number that x has an edge to and that row j has; RECORDS where there is none.
fn step_to(edges: &[u64], reach: &[u64], x: usize, j: usize) -> usize
    ensures { LowestBelow RECORDS (λ y. Edges edges.now x y × Edges reach.now j y) result }
{
    let mut to = rows::next(edges, x, 0);
    while to < trace::RECORDS {
        if rows::test(reach, j, to) {
            return to;
        }
        to = rows::next(edges, x, to + 1);
    }
    to
}

// Adds to row j + 1 the operations that have an edge to one of row j.
fn back(edges: &[u64], reach: &mut [u64], j: usize)
    requires { (j + 1 < RECORDS) × (length reach.old ≡ CELLS) }
    ensures { Widened reach.old (StepBack (Edges edges.now) (Edges reach.old) j) reach.new }
{
    for x in 0..trace::RECORDS {
        if rows::meets(edges, x, reach, j) {
            rows::put(reach, j + 1, x);
        }
    }
}

// Makes row j the operations from which s is reached in exactly j steps, for each j below k.
fn reach(edges: &[u64], s: usize, k: usize, rows: &mut [u64])
    requires { (s < RECORDS) × (0 < k) × (k ≤ RECORDS) × (length rows.old ≡ CELLS) }
    ensures { Reach (Edges edges.now) s k rows.new }
{
    rows::clear(rows);
    rows::put(rows, 0, s);
    for j in 0..k - 1 {
        back(edges, rows, j);
    }
}

// Lays the way round into `out`: s, and then by the lowest steps that still lead back to s in time.
fn follow(edges: &[u64], reach: &[u64], s: usize, k: usize, out: &mut [u16])
    requires { Followed (Edges edges.now) reach.now s k (length out.old) }
    ensures { LaidWay (Edges edges.now) s k out.old out.new }
{
    out[0] = s as u16;
    let mut x = s;
    for i in 1..k {
        x = step_to(edges, reach, x, k - i);
        out[i] = x as u16;
    }
}

// Makes every number 0.
fn wipe(out: &mut [u16])
    ensures { out.new ≡ replicate (length out.old) 0 }
{
    out.fill(0);
}

// The circle that is shown of these edges, laid into `out`, and its length: 0 where there is none. Rows that are not of the full length
// and a buffer without exactly one place for each record have none.
pub fn shown(edges: &[u64], out: &mut [u16]) -> usize
    ensures { ShownIn edges.now (length out.old) result out.new }
{
    wipe(out);
    if edges.len() != rows::CELLS || out.len() != trace::RECORDS {
        return 0;
    }
    let mut walks = [0u64; rows::CELLS];
    let mut next = [0u64; rows::CELLS];
    let k = least(edges, &mut walks, &mut next);
    if k == 0 {
        return 0;
    }
    let s = closed_at(&walks);
    reach(edges, s, k, &mut next);
    follow(edges, &next, s, k, out);
    k
}
