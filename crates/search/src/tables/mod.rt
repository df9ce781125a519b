// The tables of the search, laid once: relations on records as rows, the set of the operations.
ghost use Rattle.std.specs.Prelude.{◌≡◌, true, false, ◌<◌, ◌≤◌, length};
ghost use Rattle.trace.specs.Bounds.{RECORDS};
ghost use Rattle.trace.specs.Meaning.{frame_of};
ghost use Rattle.rows.specs.Bounds.{CELLS, WORDS};
ghost use Rattle.rows.specs.Rows.{bit, Edges};
ghost use Rattle.rules.specs.RuleTests.{writer?};
ghost use Rattle.search.specs.inner.TablesLaid.{Filled, reader?, Addressed, Rowed, Filling, Counted};

use trace::{RECORDS, Trace};

// Lays, for each address, the row of those that write there, or of all records.
fn lay_addresses(t: Trace, all: bool, by: &mut [u64])
    requires { (t.len ≤ RECORDS) × (length by.old ≡ CELLS) }
    ensures { Addressed t all t.len by.new }
{
    rows::clear(by);
    let n = t.len;
    for x in 0..n {
        let op = t.records[x].op;
        let addr = op.address() as usize;
        rows::put_if(by, op.writes() | all, addr, x);
    }
}

// Lays row y: what the row of an address has, but y.
fn lay_others(by: &[u64], addr: usize, y: usize, writers: &mut [u64])
    requires { (y < RECORDS) × (length writers.old ≡ CELLS) }
    ensures { Rowed y (Edges by.now addr) (λ x. x ≡ y) writers.old writers.new }
{
    let mut own = [0u64; rows::WORDS];
    rows::put(&mut own, 0, y);
    rows::add_row(by, addr, writers, y);
    rows::drop_row(&own, 0, writers, y);
}

// Lays the writers of each record's address but the record, a whole row at a time.
fn lay_writers(t: Trace, by: &[u64], writers: &mut [u64])
    requires { (t.len ≤ RECORDS) × (length writers.old ≡ CELLS) × Addressed t false t.len by.now }
    ensures { Filling t.len t.len (writer? (frame_of t)) writers.new }
{
    rows::clear(writers);
    let n = t.len;
    for y in 0..n {
        let op = t.records[y].op;
        let addr = op.address() as usize;
        lay_others(by, addr, y, writers);
    }
}

// Lays the other records of the address that each record writes.
fn lay_readers(t: Trace, by: &[u64], readers: &mut [u64])
    requires { (t.len ≤ RECORDS) × (length readers.old ≡ CELLS) × Addressed t true t.len by.now }
    ensures { Filling t.len t.len (reader? (frame_of t)) readers.new }
{
    rows::clear(readers);
    let n = t.len;
    for y in 0..n {
        let op = t.records[y].op;
        if op.writes() {
            let addr = op.address() as usize;
            lay_others(by, addr, y, readers);
        }
    }
}

// Lays the three relations: what is held turned round, and those of the trace.
pub(crate) fn lay(
    t: Trace,
    held: &[u64],
    before: &mut [u64],
    writers: &mut [u64],
    readers: &mut [u64],
)
    requires { (t.len ≤ RECORDS) × (length before.old ≡ CELLS) × (length writers.old ≡ CELLS) × (length readers.old ≡ CELLS) }
    ensures filled { Filled t.len (bit held.now) before.new }
    ensures filled_2 { Filled t.len (writer? (frame_of t)) writers.new }
    ensures filled_3 { Filled t.len (reader? (frame_of t)) readers.new }
{
    let n = t.len;
    let mut by = [0u64; rows::CELLS];
    lay_addresses(t, false, &mut by);
    lay_writers(t, &by, writers);
    lay_addresses(t, true, &mut by);
    lay_readers(t, &by, readers);
    rows::turn(held, n, before);
}

// Lays the set of the operations, and counts them.
pub(crate) fn lay_operations(t: Trace, operations: &mut [u64]) -> usize
    requires { (t.len ≤ RECORDS) × (length operations.old ≡ WORDS) }
    ensures { Counted (frame_of t) operations.new result }
{
    rows::clear(operations);
    let n = t.len;
    let mut total: usize = 0;
    for x in 0..n {
        let op = t.records[x].op;
        if !op.fence() {
            rows::put(operations, 0, x);
            total += 1;
        }
    }
    total
}
