// What the rules ask of a trace's records: one test for each field of its frame. Those by records take both with their numbers, so that a loop that
// holds them hands no trace on.
ghost use Rattle.std.specs.Prelude.{◌≡◌};
ghost use Rattle.trace.specs.Meaning.{frame_of};
ghost use Rattle.rules.specs.RuleTests.{writer?, source?, first?};
ghost use Rattle.pairs.specs.RecordTests.{earlier_by, writer_by};

use crate::op_at;
use trace::{Op, Trace, first};

// Whether a number is an operation's.
pub fn operation(t: Trace, x: usize) -> bool
    ensures { result ≡ (frame_of t).operation x }
{
    (x < t.len) & !op_at(t, x).fence()
}

// Whether record x is before record y in program order, told both.
pub fn earlier_by(a: Op, x: usize, b: Op, y: usize) -> bool
    ensures { result ≡ earlier_by a x b y }
{
    (x < y) & (a.thread() == b.thread())
}

// Whether x is before y in program order.
pub fn earlier(t: Trace, x: usize, y: usize) -> bool
    ensures { result ≡ (frame_of t).earlier x y }
{
    earlier_by(op_at(t, x), x, op_at(t, y), y)
}

// Whether record x of n writes the address of another, told both.
pub fn writer_by(n: usize, a: Op, x: usize, b: Op, load: usize) -> bool
    ensures { result ≡ writer_by n a x b load }
{
    (x < n) & a.writes() & (a.address() == b.address()) & (x != load)
}

// Whether a record writes the address of another.
pub fn writer(t: Trace, x: usize, load: usize) -> bool
    ensures { result ≡ writer? (frame_of t) x load }
{
    writer_by(t.len, op_at(t, x), x, op_at(t, load), load)
}

// Whether a record is the source of another.
pub fn source(t: Trace, x: usize, load: usize) -> bool
    ensures { result ≡ source? (frame_of t) x load }
{
    let n = t.len;
    let a = op_at(t, x);
    let b = op_at(t, load);
    let reads = (load < n) & b.reads();
    writer_by(n, a, x, b, load)
        & reads
        & (b.read() == a.written())
        & (b.read() != first(t, b.address()))
}

// Whether a record reads what its address begins with, and another writes that address.
pub fn begins(t: Trace, x: usize, load: usize) -> bool
    ensures { result ≡ first? (frame_of t) x load }
{
    let n = t.len;
    let b = op_at(t, load);
    let writes = writer_by(n, op_at(t, x), x, b, load);
    writes & ((load < n) & b.reads()) & (b.read() == first(t, b.address()))
}
