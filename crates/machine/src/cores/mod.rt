// What a core sees of the machine: its next record, its buffer, and whether that record may run.
ghost use Rattle.std.specs.Prelude.{◌≡◌, ◌<◌, ◌≤◌};
ghost use Rattle.laws.specs.Tests.{any};
ghost use Rattle.laws.specs.Lowest.{lowest};
ghost use Rattle.trace.specs.Bounds.{RECORDS, ADDRESSES};
ghost use Rattle.trace.specs.Op.{address};
ghost use Rattle.trace.specs.Trace.{at};
ghost use Rattle.pairs.specs.MissingOf.{as_found};
ghost use Rattle.machine.specs.Machine.{lands, alone, due, waiting, got, may};

use crate::Machine;
use pairs::{SC, op_at};
use trace::{Op, Trace};

// Whether a record reaches memory as it runs.
pub(crate) fn lands(model: u8, op: Op) -> bool
    ensures { result ≡ lands model op }
{
    !op.fence() & (op.reads() | (model == SC))
}

// Whether a record asks for an empty buffer.
fn alone(op: Op) -> bool
    ensures { result ≡ alone op }
{
    op.fence() | (op.reads() & op.writes())
}

// The next record of a core.
pub(crate) fn next(t: Trace, m: Machine, core: u8) -> Option<usize>
    requires { t.len ≤ RECORDS }
    ensures { result ≡ as_found (lowest (due t m core) t.len 0) }
{
    let n = t.len;
    for i in 0..n {
        let op = t.records[i].op;
        if !m.ran[i] & (op.thread() == core) {
            return Some(i);
        }
    }
    None
}

// The oldest entry of a core's buffer.
pub(crate) fn oldest(t: Trace, m: Machine, core: u8) -> Option<usize>
    requires { t.len ≤ RECORDS }
    ensures { result ≡ as_found (lowest (waiting t m core) t.len 0) }
{
    let n = t.len;
    for i in 0..n {
        let op = t.records[i].op;
        if m.waits[i] & (op.thread() == core) {
            return Some(i);
        }
    }
    None
}

// Whether a core's buffer has an entry.
fn any_waits(t: Trace, m: Machine, core: u8) -> bool
    requires { t.len ≤ RECORDS }
    ensures { result ≡ any t.len (waiting t m core) }
{
    let n = t.len;
    for i in 0..n {
        let op = t.records[i].op;
        if m.waits[i] & (op.thread() == core) {
            return true;
        }
    }
    false
}

// What a record gets: from the newest own entry for its address, or else from memory.
fn got(t: Trace, m: Machine, x: usize) -> u16
    requires { (t.len ≤ RECORDS) × (address (at t x) < ADDRESSES) }
    ensures { result ≡ got t m x }
{
    let n = t.len;
    let reader = op_at(t, x);
    let core = reader.thread();
    let addr = reader.address();
    let cell = addr as usize;
    let mut value = m.memory[cell];
    for i in 0..n {
        let op = t.records[i].op;
        if m.waits[i] & (op.thread() == core) & (op.address() == addr) {
            value = op.written();
        }
    }
    value
}

// Whether a record may run now.
pub(crate) fn may(t: Trace, m: Machine, x: usize) -> bool
    requires { (t.len ≤ RECORDS) × (address (at t x) < ADDRESSES) }
    ensures { result ≡ may t m x }
{
    let op = op_at(t, x);
    let free = !alone(op) | !any_waits(t, m, op.thread());
    let right = !op.reads() | (got(t, m, x) == op.read());
    free & right
}
