// What a load or swap may have read, by digit.
ghost use Rattle.std.specs.Prelude.{◌≡◌, not, ◌&&◌, suc, ◌+◌, ◌<◌, ◌≤◌, eqb};
ghost use Rattle.laws.specs.Tests.{any};
ghost use Rattle.trace.specs.Bounds.{RECORDS, ADDRESSES};
ghost use Rattle.trace.specs.Op.{address, writes, reads, thread};
ghost use Rattle.trace.specs.Trace.{at};
ghost use Rattle.signature.specs.Reads.{range_of, digit_of, value_of, reader};
ghost use Rattle.signature.specs.inner.ValuesLaid.{ValuesLaid, AllValues};

use crate::WrittenValues;
use trace::{ADDRESSES, FIRSTS, Op, RECORDS, Trace, first};

// Whether an operation writes an address, and is not the one that is asked about.
fn other(op: Op, addr: u8, own: bool) -> bool
    ensures { result ≡ (writes op && eqb (address op) addr && not own) }
{
    op.writes() & (op.address() == addr) & !own
}

// How many values a load may have read: the first value, and one for each other writer.
pub(crate) fn range_of(t: Trace, load: usize) -> u64
    requires { (t.len ≤ RECORDS) × (load < t.len) }
    ensures { (result ≡ range_of t load) × (result ≤ suc RECORDS) }
{
    let addr = t.records[load].op.address();
    let mut r: u64 = 1;
    for i in 0..t.len {
        if other(t.records[i].op, addr, i == load) {
            r += 1;
        }
    }
    r
}

// The digit of a value; as many as there are where it is none of them.
pub(crate) fn digit_of(t: Trace, load: usize, value: u16) -> u64
    requires { (t.len ≤ RECORDS) × (load < t.len) }
    ensures { result ≡ digit_of t load value }
{
    let addr = t.records[load].op.address();
    if value == first(t, addr) {
        return 0;
    }
    let mut d: u64 = 1;
    for i in 0..t.len {
        let op = t.records[i].op;
        let another = other(op, addr, i == load);
        if another & (op.written() == value) {
            return d;
        }
        if another {
            d += 1;
        }
    }
    d
}

// What was written to an address, laid behind what was written to those below it.
fn address_values(t: Trace, addr: u8, x: WrittenValues) -> WrittenValues
    requires { (t.len ≤ RECORDS) × (addr < ADDRESSES) × ValuesLaid t addr x }
    ensures { ValuesLaid t (addr + 1) result }
{
    let mut of = x.of;
    let mut own = x.own;
    let mut start = x.start;
    let mut count = x.count;
    let a = addr as usize;
    start[a] = count;
    for i in 0..t.len {
        let op = t.records[i].op;
        if op.writes() & (op.address() == addr) {
            of[count] = op.written();
            own[i] = count;
            count += 1;
        }
    }
    WrittenValues {
        of,
        count,
        start,
        own,
    }
}

// What was written to all addresses; it does not look at words.
pub(crate) fn all_values(t: Trace) -> WrittenValues
    requires { t.len ≤ RECORDS }
    ensures { AllValues t result }
{
    let mut built = WrittenValues {
        of: [0; RECORDS],
        count: 0,
        start: [0; FIRSTS],
        own: [RECORDS; RECORDS],
    };
    for addr in 0..ADDRESSES {
        built = address_values(t, addr, built);
    }
    built
}

// The value of a digit: the first value, or what was written to the address, the load's own value passed over.
pub(crate) fn value_of(t: Trace, x: WrittenValues, load: usize, digit: u64) -> u16
    requires { (t.len ≤ RECORDS) × (load < t.len) × (address (at t load) < ADDRESSES) × AllValues t x × (digit < range_of t load) }
    ensures { result ≡ value_of t load digit }
{
    let addr = t.records[load].op.address();
    if digit == 0 {
        return first(t, addr);
    }
    let a = addr as usize;
    let place = x.start[a] + (digit as usize - 1);
    if x.own[load] <= place {
        return x.of[place + 1];
    }
    x.of[place]
}

// Whether an operation is a load or swap of a thread.
pub(crate) fn of_thread(op: Op, core: u8) -> bool
    ensures { result ≡ (reads op && eqb (thread op) core) }
{
    op.reads() & (op.thread() == core)
}

// Whether a thread has loads or swaps.
pub(crate) fn has_loads(t: Trace, core: u8) -> bool
    requires { t.len ≤ RECORDS }
    ensures { result ≡ any t.len (reader t core) }
{
    for i in 0..t.len {
        if of_thread(t.records[i].op, core) {
            return true;
        }
    }
    false
}
