// Which record a step is about.
ghost use Rattle.std.specs.Prelude.{◌<◌, IfSome};

use trace::{Op, RECORDS, THREADS, Trace};

// Whether a step can be about a record: below THREADS about any of that core, from there on about its stores.
fn concerns(step: u8, op: Op) -> bool {
    if step < THREADS {
        op.thread() == step
    } else {
        op.writes() && !op.reads() && op.thread() == step - THREADS
    }
}

// The first record from a place on that a step can be about, if there is one.
pub fn first_from(t: Trace, step: u8, from: usize) -> Option<usize>
    ensures { IfSome result (λ x. x < RECORDS) }
{
    for (i, record) in t.records.iter().enumerate() {
        if from <= i && i < t.len && concerns(step, record.op) {
            return Some(i);
        }
    }
    None
}

// Whether a store of a record's core to its address stands before it, from a place on.
pub fn own(t: Trace, x: usize, from: usize) -> bool {
    let reader = pairs::op_at(t, x);
    t.records.iter().take(x).skip(from).any(|record| {
        let op = record.op;
        concerns(reader.thread(), op)
            && op.writes()
            && !op.reads()
            && op.address() == reader.address()
    })
}
