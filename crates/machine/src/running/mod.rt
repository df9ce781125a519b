// The machine's steps, and the entry: a run by a list of steps.
ghost use Rattle.std.specs.Prelude.{◌≡◌, ◌<◌, ◌≤◌};
ghost use Rattle.std.proofs.Math.Bool.{So};
ghost use Rattle.trace.specs.Bounds.{RECORDS, ADDRESSES};
ghost use Rattle.trace.specs.Op.{address};
ghost use Rattle.trace.specs.Trace.{at};
ghost use Rattle.trace.specs.WellFormed.{well_formed};
ghost use Rattle.machine.specs.Machine.{machined, machine_start, ran_as, emptied, stepped, step, finished, answer};

use crate::cores::{lands, may, next, oldest};
use crate::{ADDRESSED, Machine, Refusal};
use pairs::{TSO, op_at};
use trace::form::well_formed;
use trace::{ADDRESSES, RECORDS, THREADS, Trace, first};

// Whether a model has a machine.
pub fn machined(model: u8) -> bool
    ensures { result ≡ machined model }
{
    (0 < model) & (model <= TSO)
}

// The machine before the first step.
fn start(t: Trace) -> Machine
    ensures { result ≡ machine_start t }
{
    let mut memory: [u16; ADDRESSED] = [0; ADDRESSED];
    for addr in 0..ADDRESSES {
        memory[addr as usize] = first(t, addr);
    }
    Machine {
        ran: [false; RECORDS],
        waits: [false; RECORDS],
        memory,
    }
}

// The machine after a record has run.
fn ran_as(t: Trace, model: u8, m: Machine, x: usize) -> Machine
    requires { (x < RECORDS) × (address (at t x) < ADDRESSES) }
    ensures { result ≡ ran_as t model m x }
{
    let op = op_at(t, x);
    let mut after = m;
    after.ran[x] = true;
    if op.writes() {
        if lands(model, op) {
            let cell = op.address() as usize;
            after.memory[cell] = op.written();
        } else {
            after.waits[x] = true;
        }
    }
    after
}

// The machine after an entry has reached memory.
fn emptied(t: Trace, m: Machine, x: usize) -> Machine
    requires { (x < RECORDS) × (address (at t x) < ADDRESSES) }
    ensures { result ≡ emptied t m x }
{
    let op = op_at(t, x);
    let cell = op.address() as usize;
    let mut after = m;
    after.waits[x] = false;
    after.memory[cell] = op.written();
    after
}

// The machine after a step, if that is possible. A step stays a number: lent lists hold bytes, and only here one is told apart, so that an enum would be
// made and matched in one place. A byte of twice THREADS or more is impossible by itself: it empties the buffer of a core that no record has.
fn step(t: Trace, model: u8, m: Machine, s: u8) -> Option<Machine>
    requires { So (well_formed t) }
    ensures { result ≡ stepped (step t model m s) }
{
    if s < THREADS {
        let due = next(t, m, s)?;
        if may(t, m, due) {
            return Some(ran_as(t, model, m, due));
        }
        return None;
    }
    let entry = oldest(t, m, s - THREADS)?;
    Some(emptied(t, m, entry))
}

// Whether all records ran and nothing waits.
fn finished(t: Trace, m: Machine) -> bool
    requires { t.len ≤ RECORDS }
    ensures { result ≡ finished t m }
{
    let n = t.len;
    for i in 0..n {
        if !(m.ran[i] & !m.waits[i]) {
            return false;
        }
    }
    true
}

// Runs a trace by a list of steps: one below THREADS runs the next record of that core, THREADS more empties the oldest entry of its buffer. Where all
// steps are done, it tells whether all records ran and the buffers are empty.
pub fn run(t: Trace, model: u8, steps: &[u8]) -> Result<bool, Refusal>
    ensures { result ≡ answer t model steps.now }
{
    if !machined(model) {
        return Err(Refusal::NoModel);
    }
    if !well_formed(t) {
        return Err(Refusal::NotWellFormed);
    }
    let mut m = start(t);
    for i in 0..steps.len() {
        m = step(t, model, m, steps[i]).ok_or(Refusal::Stuck(i))?;
    }
    Ok(finished(t, m))
}
