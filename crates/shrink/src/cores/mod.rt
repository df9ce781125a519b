// The cores of what is left, numbered without gaps: a text that skips a core would be turned back.
ghost use Rattle.std.specs.Prelude.{◌≤◌};

use trace::{Op, Trace};

// Whether a core has a record.
pub fn used(t: Trace, core: u8) -> bool {
    t.records
        .iter()
        .take(t.len)
        .any(|record| record.op.thread() == core)
}

// The new number of a core: how many lower ones have records.
pub fn numbered(t: Trace, core: u8) -> u8
    ensures { result ≤ core }
{
    let mut count: u8 = 0;
    for lower in 0..core {
        if used(t, lower) {
            count += 1;
        }
    }
    count
}

// A record of another core.
fn moved(op: Op, thread: u8) -> Op {
    match op {
        Op::Load { addr, read, .. } => Op::Load { thread, addr, read },
        Op::Store { addr, written, .. } => Op::Store {
            thread,
            addr,
            written,
        },
        Op::Swap {
            addr,
            read,
            written,
            ..
        } => Op::Swap {
            thread,
            addr,
            read,
            written,
        },
        Op::Fence { .. } => Op::Fence { thread },
    }
}

// The trace with its cores renumbered; its unused places stay.
pub fn closed_up(t: Trace) -> Trace {
    let mut u = t;
    for record in u.records.iter_mut().take(t.len) {
        record.op = moved(record.op, numbered(t, record.op.thread()));
    }
    u
}
