// What the writer tells of an edge: the edge itself, and before it what it rests on.
ghost use Rattle.std.specs.Prelude.{◌≡◌, cond, [], ◌∷◌, ◌<◌, ◌≤◌, eqb, length, take, None};
ghost use Rattle.std.proofs.Math.Bool.{So};
ghost use Rattle.trace.specs.Bounds.{RECORDS};
ghost use Rattle.trace.specs.WellFormed.{well_formed};
ghost use Rattle.trace.specs.Meaning.{frame_of};
ghost use Rattle.pairs.specs.Kept.{kept_of, modelled};
ghost use Rattle.pairs.specs.SourceOf.{source_of};
ghost use Rattle.rows.specs.Rows.{bit};
ghost use Rattle.edges.specs.Supposed.{supposed_of};
ghost use Rattle.papers.specs.Paper.{BRANCH};
ghost use Rattle.papers.specs.inner.ReaderBranch.{branch_of};
ghost use Rattle.reasons.specs.Telling.{numbers, rest_load, tell};
ghost use Rattle.reasons.specs.inner.Rests.{RestsOn};
ghost use Rattle.reasons.specs.inner.Laid.{EntriesTold};

use crate::naming::{name, number_all, place};
use crate::paths::{load_of, way};
use edges::force::round_before;
use pairs::source_of;
use ruling::lowest_rule;
use trace::{RECORDS, Trace};

// A chain of the round of a number, from one record to another by so many steps.
#[derive(Clone, Copy)]
pub(crate) struct Chain {
    pub(crate) number: usize,
    pub(crate) from: usize,
    pub(crate) to: usize,
    pub(crate) len: usize,
}

// The rule that gives an edge, and the chain that the edge rests on, if it rests on any.
#[derive(Clone, Copy)]
pub(crate) struct Rest {
    pub(crate) rule: u16,
    pub(crate) chain: Option<Chain>,
}

// An edge that rests on nothing.
fn alone(rule: u8) -> Rest
    ensures { (result.rule ≡ rule) × (result.chain ≡ None) }
{
    Rest {
        rule: rule as u16,
        chain: None,
    }
}

// Where the chain begins that a rule asks for: at x by rule 6, at the source of x by rule 7.
fn rest_from(t: Trace, rule: u8, x: usize) -> usize
    requires { x < 65536 }
    ensures { (result ≡ cond (eqb rule 6) x (source_of (frame_of t) x)) × (result < 65536) }
{
    if rule == 6 {
        return x;
    }
    source_of(t, x)
}

// Where it ends: at a load that reads from y by rule 6, at y by rule 7.
fn rest_to(t: Trace, chains: &[u64], rule: u8, x: usize, y: usize) -> usize
    requires { y < 65536 }
    ensures { (result ≡ cond (eqb rule 6) (rest_load (frame_of t) (bit chains.now) x y) y) × (result < 65536) }
{
    if rule == 6 {
        return load_of(t, chains, x, y);
    }
    y
}

// What the edge x, y of round k rests on, and the steps of the chain.
fn rests_on(
    t: Trace,
    model: u8,
    supposed: &[u64],
    k: usize,
    x: usize,
    y: usize,
    steps: &mut [u16],
) -> Rest
    requires { So (well_formed t) × So (modelled model) × (x < 65536) × (y < 65536) × (length steps.old ≡ RECORDS) }
    ensures { RestsOn (frame_of t) (kept_of model t) (supposed_of t supposed.now) k x y steps.new result.rule result.chain }
{
    let rule = lowest_rule(t, model, &[0u64; rows::WORDS], x, y);
    if rule != 0 {
        return alone(rule);
    }
    let last = round_before(t, model, supposed, k, x, y);
    let edges = last.edges;
    let chains = last.chains;
    if (k == 0) | rows::test(&edges, x, y) {
        return alone(0);
    }
    let rule = lowest_rule(t, model, &chains, x, y);
    let from = rest_from(t, rule, x);
    let to = rest_to(t, &chains, rule, x, y);
    let len = way(&edges, &chains, from, to, steps);
    Rest {
        rule: rule as u16,
        chain: Some(Chain {
            number: last.number,
            from,
            to,
            len,
        }),
    }
}

// Names an edge with the numbers of the edges of the chain that it rests on, and tells how many entries the branch then has and the place after them.
fn name_resting(
    rule: u16,
    chain: Chain,
    x: u16,
    y: u16,
    steps: &[u16],
    from: &mut [u16],
    to: &mut [u16],
    count: usize,
    out: &mut [u16],
    limit: usize,
    at: usize,
) -> Option<(usize, usize)>
    requires { (chain.from < 65536) × (chain.to < 65536) × (chain.len ≤ RECORDS) × (length steps.now ≡ RECORDS) × (at ≤ limit) × (count ≤ BRANCH) × (length from.old ≡ BRANCH) × (length to.old ≡ BRANCH) }
    ensures { EntriesTold limit from.old to.old out.old count at (record { rule = rule; from = x; to = y; rests = numbers (branch_of from.old to.old count) chain.from (take chain.len steps.now) chain.to } ∷ []) from.new to.new out.new result }
{
    let a = chain.from as u16;
    let b = chain.to as u16;
    let len = chain.len;
    let mut rests = [0u16; RECORDS + 1];
    number_all(from, to, count, a, steps, len, b, &mut rests);
    name(rule, x, y, len + 1, &rests, from, to, count, out, limit, at)
}

// Tells an edge x, y of round k: nothing where the branch names it; otherwise first what it rests on, and then the edge. What comes back is how
// many entries the branch then has and the place after them, if there is room.
pub(crate) fn tell(
    t: Trace,
    model: u8,
    supposed: &[u64],
    k: usize,
    x: usize,
    y: usize,
    from: &mut [u16],
    to: &mut [u16],
    count: usize,
    out: &mut [u16],
    limit: usize,
    at: usize,
) -> Option<(usize, usize)>
    requires { So (well_formed t) × So (modelled model) × (x < 65536) × (y < 65536) × (at ≤ limit) × (count ≤ BRANCH) × (length from.old ≡ BRANCH) × (length to.old ≡ BRANCH) }
    ensures { EntriesTold limit from.old to.old out.old count at (tell (frame_of t) (kept_of model t) (supposed_of t supposed.now) k (branch_of from.old to.old count) x y) from.new to.new out.new result }
{
    let p = x as u16;
    let q = y as u16;
    if place(from, to, count, p, q) < count {
        return Some((count, at));
    }
    let mut steps = [0u16; RECORDS];
    let rest = rests_on(t, model, supposed, k, x, y, &mut steps);
    let Some(chain) = rest.chain else {
        return name(rest.rule, p, q, 0, &steps, from, to, count, out, limit, at);
    };
    let mut z = chain.from;
    let mut n = count;
    let mut w = at;
    for i in 0..chain.len {
        let next = steps[i] as usize;
        let (m, v) = tell(
            t,
            model,
            supposed,
            chain.number,
            z,
            next,
            from,
            to,
            n,
            out,
            limit,
            w,
        )?;
        n = m;
        w = v;
        z = next;
    }
    let (m, v) = tell(
        t,
        model,
        supposed,
        chain.number,
        z,
        chain.to,
        from,
        to,
        n,
        out,
        limit,
        w,
    )?;
    name_resting(rest.rule, chain, p, q, &steps, from, to, m, out, limit, v)
}
