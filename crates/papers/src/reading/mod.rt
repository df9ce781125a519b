// Reads a list of reasons from the front, with the entries of the branch it is in.
ghost use Rattle.std.specs.Prelude.{◌≡◌, not, ◌&&◌, ◌↔◌, ◌<◌, ◌≤◌, eqb, length};
ghost use Rattle.std.proofs.Math.Bool.{So};
ghost use Rattle.trace.specs.Bounds.{RECORDS};
ghost use Rattle.trace.specs.Meaning.{frame_of};
ghost use Rattle.pairs.specs.Kept.{kept_of};
ghost use Rattle.rules.specs.Rules.{nothing};
ghost use Rattle.rules.specs.RuleTests.{gives?};
ghost use Rattle.papers.specs.Paper.{BRANCH, may_rest};
ghost use Rattle.papers.specs.inner.ReaderBranch.{branch_of, link_of, link_joins, linked, latest_of, others_of, stack_of, Taken};
ghost use Rattle.papers.specs.Accepts.{Paper, Accepts};

use crate::BRANCH;
use pairs::frame::operation;
use pairs::modelled;
use ruling::gives;
use trace::Trace;
use trace::form::well_formed;

// Why the question is turned back: there is no such model, or the trace is not well formed.
#[derive(Clone, Copy)]
pub enum Refusal {
    NoModel,
    NotWellFormed,
}

// A number of the list as a place.
fn wide(x: u16) -> usize
    ensures { result ≡ x }
{
    usize::from(x)
}

// Where the entries of these numbers lead, each from where the one before it led: from one record to another, or nowhere.
fn lead(rests: &[u16], from: &[u16], to: &[u16], count: usize) -> Option<(u16, u16)>
    requires { (count ≤ length from.now) × (count ≤ length to.now) }
    ensures { result ≡ link_of (branch_of from.now to.now count) rests.now }
{
    if rests.len() == 0 {
        return None;
    }
    let first = wide(rests[0]);
    if count <= first {
        return None;
    }
    let start = from[first];
    let mut x = start;
    for i in 0..rests.len() {
        let e = wide(rests[i]);
        if count <= e {
            return None;
        }
        if from[e] != x {
            return None;
        }
        x = to[e];
    }
    Some((start, x))
}

// Whether an entry that rests on k entries, which only one by rule 6 or 7 may, may name x before y by its rule, where the link is the only chain.
fn fits(
    t: Trace,
    model: u8,
    rule: usize,
    x: usize,
    y: usize,
    k: usize,
    l: Option<(u16, u16)>,
) -> bool
    ensures { result ≡ (may_rest rule k && gives? (frame_of t) (kept_of model t) nothing (link_joins l) x y rule) }
{
    let may = (6 <= rule) | (k == 0);
    if !may {
        return false;
    }
    let mut chain = rows::empty();
    let Some((a, b)) = l else {
        return gives(t, model, &chain, x, y, rule);
    };
    rows::put(&mut chain, wide(a), wide(b));
    gives(t, model, &chain, x, y, rule)
}

// One past the latest split that has its other side left; 0 where none has.
fn latest(other: &[u8], count: usize) -> usize
    requires { count ≤ length other.now }
    ensures { (result ≡ latest_of other.now count) × (result ≤ count) }
{
    for i in (0..count).rev() {
        if other[i] == 1 {
            return i + 1;
        }
    }
    0
}

// Goes on to the other side of the latest split that has one left: its entry is turned round, and how many entries the branch then has comes
// back; 0 where no split is left.
fn other_side(from: &mut [u16], to: &mut [u16], other: &mut [u8], count: usize) -> usize
    requires { (count ≤ length from.old) × (count ≤ length to.old) × (count ≤ length other.old) }
    ensures { (stack_of from.new to.new other.new result ≡ others_of from.old to.old other.old count) × (result ≤ count) }
{
    let n = latest(other, count);
    if n == 0 {
        return 0;
    }
    let x = from[n - 1];
    from[n - 1] = to[n - 1];
    to[n - 1] = x;
    other[n - 1] = 0;
    n
}

// Whether the link leads from x, which is y, back to it.
fn closes(l: Option<(u16, u16)>, x: u16, y: u16) -> bool
    ensures { result ≡ (eqb x y && linked l x y) }
{
    match l {
        Some((a, b)) => (x == y) & ((a == x) & (b == y)),
        None => false,
    }
}

// Whether an entry that rests on k entries may be a split on x and y.
fn divides(t: Trace, x: usize, y: usize, k: usize) -> bool
    ensures { result ≡ ((frame_of t).operation x && (frame_of t).operation y && not (eqb x y) && eqb k 0) }
{
    operation(t, x) & operation(t, y) & (x != y) & (k == 0)
}

// What an entry does: the branch goes on with so many entries, all branches are closed, or the entry may not stand there.
#[derive(Clone, Copy)]
pub enum Turn {
    Goes(usize),
    Closed,
    Wrong,
}

// Takes an entry into the branch that the arrays hold, or closes the branch with it.
fn take_entry(
    t: Trace,
    model: u8,
    rule: usize,
    x: u16,
    y: u16,
    rests: &[u16],
    from: &mut [u16],
    to: &mut [u16],
    other: &mut [u8],
    count: usize,
) -> Turn
    requires { (t.len ≤ RECORDS) × (count ≤ BRANCH) × (length from.old ≡ BRANCH) × (length to.old ≡ BRANCH) × (length other.old ≡ BRANCH) }
    ensures { Taken (frame_of t) (kept_of model t) from.old to.old other.old count (record { rule = rule; from = x; to = y; rests = rests.now }) result from.new to.new other.new }
{
    let l = lead(rests, from, to, count);
    if rule == 0 {
        if !closes(l, x, y) {
            return Turn::Wrong;
        }
        let next = other_side(from, to, other, count);
        if next == 0 {
            return Turn::Closed;
        }
        return Turn::Goes(next);
    }
    if BRANCH <= count {
        return Turn::Wrong;
    }
    if rule == 8 {
        if !divides(t, wide(x), wide(y), rests.len()) {
            return Turn::Wrong;
        }
        from[count] = x;
        to[count] = y;
        other[count] = 1;
        return Turn::Goes(count + 1);
    }
    if !fits(t, model, rule, wide(x), wide(y), rests.len(), l) {
        return Turn::Wrong;
    }
    from[count] = x;
    to[count] = y;
    other[count] = 0;
    Turn::Goes(count + 1)
}

// Whether the list closes the one branch that holds nothing. The arrays have a place for each entry of the longest branch.
fn closing(
    t: Trace,
    model: u8,
    list: &[u16],
    from: &mut [u16],
    to: &mut [u16],
    other: &mut [u8],
) -> bool
    requires { (t.len ≤ RECORDS) × (length from.old ≡ BRANCH) × (length to.old ≡ BRANCH) × (length other.old ≡ BRANCH) }
    ensures { So result ↔ Paper (frame_of t) (kept_of model t) list.now }
{
    let n = list.len();
    let mut count: usize = 0;
    let mut at: usize = 0;
    // Not a `for`: an entry ends where it says.
    while 4 <= n - at {
        let k = wide(list[at + 3]);
        if n - at - 4 < k {
            return false;
        }
        let end = at + 4 + k;
        let turn = take_entry(
            t,
            model,
            wide(list[at]),
            list[at + 1],
            list[at + 2],
            &list[at + 4..end],
            from,
            to,
            other,
            count,
        );
        match turn {
            Turn::Goes(next) => count = next,
            Turn::Closed => return end == n,
            Turn::Wrong => return false,
        }
        at = end;
    }
    false
}

// Whether the list is a paper that is accepted: reasons, from anyone, why the trace has no valid order under the model. A model that does not exist is
// told first, then a trace that is not well formed.
pub fn accepts(t: Trace, model: u8, list: &[u16]) -> Result<bool, Refusal>
    ensures { Accepts t model list.now result }
{
    if !modelled(model) {
        return Err(Refusal::NoModel);
    }
    if !well_formed(t) {
        return Err(Refusal::NotWellFormed);
    }
    let mut from = [0u16; BRANCH];
    let mut to = [0u16; BRANCH];
    let mut other = [0u8; BRANCH];
    let closed = closing(t, model, list, &mut from, &mut to, &mut other);
    Ok(closed)
}
