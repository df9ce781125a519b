// Whether a recorder dropped a core.
ghost use Rattle.std.specs.Prelude.{◌≡◌, eqb};
ghost use Rattle.trace.specs.Op.{thread};
ghost use Rattle.trace.specs.Cores.{shows, lost};

use crate::{Op, RECORDS, THREADS, Trace};

// Whether a record is of a core: a fence is, as any other.
fn is_of(op: Op, core: u8) -> bool
    ensures { result ≡ eqb (thread op) core }
{
    op.thread() == core
}

// Whether some record is of a thread. Past the array stands what is of thread 0.
fn shows(t: Trace, thread: u8) -> bool
    ensures { result ≡ shows t thread }
{
    for i in 0..t.len {
        if RECORDS <= i {
            return thread == 0;
        }
        if is_of(t.records[i].op, thread) {
            return true;
        }
    }
    false
}

// Whether a thread appears and a lower one does not. From the lowest on: the first that is missing leaves a gap for all that come after.
pub fn lost(t: Trace) -> bool
    ensures { result ≡ lost t }
{
    let mut whole = true;
    for i in 0..THREADS {
        let seen = shows(t, i);
        if seen & !whole {
            return true;
        }
        whole = whole & seen;
    }
    false
}
