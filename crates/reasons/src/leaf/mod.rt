// The end of a branch: its circle told edge by edge, and the entry that closes it.
ghost use Rattle.std.specs.Prelude.{◌≡◌, ◌+◌, ◌<◌, ◌≤◌, length, take};
ghost use Rattle.std.proofs.Math.Bool.{So};
ghost use Rattle.trace.specs.Bounds.{RECORDS};
ghost use Rattle.trace.specs.WellFormed.{well_formed};
ghost use Rattle.trace.specs.Meaning.{frame_of};
ghost use Rattle.pairs.specs.Kept.{modelled, kept_of};
ghost use Rattle.edges.specs.Supposed.{supposed_of};
ghost use Rattle.papers.specs.Paper.{BRANCH, spell};
ghost use Rattle.papers.specs.inner.ReaderBranch.{branch_of};
ghost use Rattle.reasons.specs.inner.Fair.{Fair};
ghost use Rattle.reasons.specs.Telling.{inside, along, tell};
ghost use Rattle.reasons.specs.Writing.{fallen, closing, leaf_of};
ghost use Rattle.reasons.specs.inner.Laid.{EntriesTold};
ghost use Rattle.reasons.specs.inner.PutKept.{PutKept};

use crate::naming::{lay_entry, number_all};
use crate::story::tell;
use circle::trail::shown;
use edges::force::last_round;
use trace::{RECORDS, Trace};

// How an entry that closes a branch begins.
const CLOSE: u16 = 0;

// Tells the edges of round k from a by the steps to b, one after the other: how many entries the branch then has and the place after them, if there is room.
fn tell_all(
    t: Trace,
    model: u8,
    supposed: &[u64],
    k: usize,
    a: u16,
    steps: &[u16],
    len: usize,
    b: u16,
    from: &mut [u16],
    to: &mut [u16],
    count: usize,
    out: &mut [u16],
    limit: usize,
    at: usize,
) -> Option<(usize, usize)>
    requires { So (well_formed t) × So (modelled model) × (len ≤ length steps.now) × (at ≤ limit) × (count ≤ BRANCH) × (length from.old ≡ BRANCH) × (length to.old ≡ BRANCH) }
    ensures { EntriesTold limit from.old to.old out.old count at (along (tell (frame_of t) (kept_of model t) (supposed_of t supposed.now) k) (branch_of from.old to.old count) a (take len steps.now) b) from.new to.new out.new result }
{
    let mut x = a;
    let mut n = count;
    let mut p = at;
    for i in 0..len {
        let z = steps[i];
        let (m, q) = tell(
            t, model, supposed, k, x as usize, z as usize, from, to, n, out, limit, p,
        )?;
        n = m;
        p = q;
        x = z;
    }
    tell(
        t, model, supposed, k, x as usize, b as usize, from, to, n, out, limit, p,
    )
}

// Tells the circle of round k from s by the steps back to s, and closes the branch by it: the place after it, if there is room.
fn close(
    t: Trace,
    model: u8,
    supposed: &[u64],
    k: usize,
    s: u16,
    steps: &[u16],
    len: usize,
    from: &mut [u16],
    to: &mut [u16],
    count: usize,
    out: &mut [u16],
    limit: usize,
    at: usize,
) -> Option<usize>
    requires lengths { So (well_formed t) × So (modelled model) × (len ≤ length steps.now) × (len < RECORDS) × (at ≤ limit) × (length from.old ≡ BRANCH) × (length to.old ≡ BRANCH) }
    requires branch { (supposed_of t supposed.now ≡ inside (branch_of from.old to.old count)) × (count + length (along (tell (frame_of t) (kept_of model t) (inside (branch_of from.old to.old count)) k) (branch_of from.old to.old count) s (take len steps.now) s) ≤ BRANCH) }
    ensures { PutKept limit from.old to.old count out.old at (spell (closing (frame_of t) (kept_of model t) k (branch_of from.old to.old count) s (take len steps.now))) from.new to.new out.new result }
{
    let (m, p) = tell_all(
        t, model, supposed, k, s, steps, len, s, from, to, count, out, limit, at,
    )?;
    let mut rests = [0u16; RECORDS];
    number_all(from, to, m, s, steps, len, s, &mut rests);
    lay_entry(CLOSE, s, s, len + 1, &rests, out, limit, p)
}

// Closes a branch that is contradicted: tells the circle shown of the first round that has one, and lays the entry of it. What comes
// back is the place after it, if there is room.
pub(crate) fn leaf(
    t: Trace,
    model: u8,
    supposed: &[u64],
    from: &mut [u16],
    to: &mut [u16],
    count: usize,
    out: &mut [u16],
    limit: usize,
    at: usize,
) -> Option<usize>
    requires { So (well_formed t) × So (modelled model) × (supposed_of t supposed.now ≡ inside (branch_of from.old to.old count)) × So (fallen (frame_of t) (kept_of model t) (branch_of from.old to.old count)) × Fair (frame_of t).records (branch_of from.old to.old count) × (at ≤ limit) × (length from.old ≡ BRANCH) × (length to.old ≡ BRANCH) }
    ensures { PutKept limit from.old to.old count out.old at (spell (leaf_of (frame_of t) (kept_of model t) (branch_of from.old to.old count))) from.new to.new out.new result }
{
    let last = last_round(t, model, supposed);
    let edges = last.edges;
    let mut circle = [0u16; RECORDS];
    let n = shown(&edges, &mut circle);
    if n == 0 {
        return Some(at);
    }
    let s = circle[0];
    close(
        t,
        model,
        supposed,
        last.number,
        s,
        &circle[1..],
        n - 1,
        from,
        to,
        count,
        out,
        limit,
        at,
    )
}
