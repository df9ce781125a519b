// Steps from an order: each operation of a valid order reaches memory in its turn, and before it its core runs what stands before it.
ghost use Rattle.std.specs.Prelude.{◌≡◌, ℕ, ◌<◌, ◌≤◌, length, get_or};
ghost use Rattle.std.proofs.Math.Bool.{So};
ghost use Rattle.trace.specs.Bounds.{RECORDS, THREADS};
ghost use Rattle.trace.specs.Op.{thread};
ghost use Rattle.trace.specs.Trace.{at};
ghost use Rattle.trace.specs.WellFormed.{well_formed};
ghost use Rattle.machine.specs.Replay.{put, swept, placed_next, built_of, yes?, no_steps, steps_of};

use crate::cores::lands;
use crate::running::machined;
use crate::{Built, Given, STEPS, Steps};
use judge::judging::{Broken, judge};
use pairs::op_at;
use trace::form::well_formed;
use trace::{RECORDS, THREADS, Trace};

// One step more; a full list stays as it is.
fn put(b: Built, s: u8) -> Built
    ensures { result ≡ put b s }
{
    let len = b.len;
    if len < STEPS {
        let mut after = b;
        after.steps[len] = s;
        after.len = len + 1;
        return after;
    }
    b
}

// Of the first n records those of a core, or of every core, run that did not.
fn swept(t: Trace, every: bool, core: u8, b: Built, n: usize) -> Built
    requires { n ≤ RECORDS }
    ensures { result ≡ swept t every core b n }
{
    let mut after = b;
    for k in 0..n {
        let own = t.records[k].op.thread();
        if !after.ran[k] & (every | (own == core)) {
            after.ran[k] = true;
            after = put(after, own);
        }
    }
    after
}

// An operation reaches memory: its core runs up to it, and then empties where it did not land.
fn placed(t: Trace, model: u8, b: Built, c: usize) -> Built
    requires { (c < RECORDS) × (thread (at t c) < THREADS) }
    ensures { result ≡ placed_next t model b c }
{
    let op = op_at(t, c);
    let own = op.thread();
    let after = swept(t, false, own, b, c + 1);
    if lands(model, op) {
        return after;
    }
    put(after, THREADS + own)
}

// The operations of a list reach memory in turn, and then the fences that are left run.
fn built(t: Trace, model: u8, order: &[u16]) -> Built
    requires { So (well_formed t) × ((i : ℕ) → i < length order.now → get_or order.now i 0 < t.len) }
    ensures { result ≡ built_of t model order.now }
{
    let mut b = Built {
        ran: [false; RECORDS],
        steps: [0; STEPS],
        len: 0,
    };
    for i in 0..order.len() {
        let c = order[i] as usize;
        b = placed(t, model, b, c);
    }
    swept(t, true, 0, b, t.len)
}

// Whether the judge says yes.
fn yes(judgement: Result<(), Broken>) -> bool
    ensures { result ≡ yes? judgement }
{
    judgement.is_ok()
}

// No steps, and why.
fn nothing(given: Given) -> Steps
    ensures { result ≡ no_steps given }
{
    Steps {
        given,
        len: 0,
        steps: [0; STEPS],
    }
}

// The steps by which the machine runs a trace through in a valid order of its operations. A model without a machine, then a trace that is not well
// formed, then a list that is no valid order has none.
pub fn steps_of(t: Trace, model: u8, order: &[u16]) -> Steps
    ensures { result ≡ steps_of t model order.now }
{
    if !machined(model) {
        return nothing(Given::NoModel);
    }
    if !well_formed(t) {
        return nothing(Given::NotWellFormed);
    }
    if !yes(judge(t, model, order)) {
        return nothing(Given::NoOrder);
    }
    let b = built(t, model, order);
    let steps = b.steps;
    Steps {
        given: Given::List,
        len: b.len,
        steps,
    }
}
