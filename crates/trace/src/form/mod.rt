// When a trace is well formed, and what may stand next in one.
ghost use Rattle.std.specs.Prelude.{◌≡◌, ◌<◌, ◌≤◌, ltb, leb};
ghost use Rattle.std.proofs.Math.Bool.{So};
ghost use Rattle.laws.specs.Tests.{◌⇒◌, all};
ghost use Rattle.trace.specs.Bounds.{RECORDS, ADDRESSES, VALUES};
ghost use Rattle.trace.specs.Op.{writes_to};
ghost use Rattle.trace.specs.Trace.{at};
ghost use Rattle.trace.specs.Fault.{fault_of};
ghost use Rattle.trace.specs.WellFormed.{bounded, written_before, fresh, follows, is_idle, well_formed};
ghost use Rattle.trace.specs.inner.Marks.{mark_place, has_mark, with_mark, note_of, Marks};

use crate::{ADDRESSES, Fault, Op, RECORDS, THREADS, Trace, VALUES, first};

// The bits of a word of marks.
const MARK_WIDTH: usize = 64;

// The words of marks that an address has.
const MARK_WORDS: usize = 4;

// The words of the marks of all addresses.
const MARKS: usize = ADDRESSES as usize * MARK_WORDS;

// Whether this operation writes the value to the address.
fn writes_to(op: Op, addr: u8, value: u16) -> bool
    ensures { result ≡ writes_to op addr value }
{
    op.writes() && op.address() == addr && op.written() == value
}

// Whether one of the first n records writes the value to the address. Past the array stands nothing that writes.
pub fn written_before(t: Trace, n: usize, addr: u8, value: u16) -> bool
    ensures { result ≡ written_before t n addr value }
{
    for i in 0..n {
        if RECORDS <= i {
            return false;
        }
        if writes_to(t.records[i].op, addr, value) {
            return true;
        }
    }
    false
}

// Whether a value keeps its bound. Every u16 does today; the bound is a number of its own.
fn value_bounded(value: u16) -> bool
    ensures { result ≡ ltb value VALUES }
{
    (value as u32) < VALUES
}

// Whether the numbers of an operation keep their bounds.
pub fn bounded(op: Op) -> bool
    ensures { result ≡ bounded op }
{
    if THREADS <= op.thread() {
        return false;
    }
    if ADDRESSES <= op.address() {
        return false;
    }
    if value_bounded(op.read()) {
        return value_bounded(op.written());
    }
    false
}

// Whether an operation writes neither its address's first value nor one that the first n records wrote there.
pub fn fresh(t: Trace, n: usize, op: Op) -> bool
    ensures { result ≡ fresh t n op }
{
    if op.writes() {
        let addr = op.address();
        let value = op.written();
        if value == first(t, addr) {
            return false;
        }
        return !written_before(t, n, addr, value);
    }
    true
}

// Whether an operation may stand after the first n records.
#[tactic(auto, unfolding(crate::specs::WellFormed::follows))]
pub fn follows(t: Trace, n: usize, op: Op) -> bool
    ensures { result ≡ follows t n op }
{
    bounded(op) && fresh(t, n, op)
}

// What is wrong with one record more: the lowest number that applies.
pub fn fault_of(t: Trace, op: Op) -> Option<Fault>
    ensures { result ≡ fault_of t op }
{
    if !bounded(op) {
        return Some(Fault::PastBound);
    }
    let writes = op.writes();
    let addr = op.address();
    let written = op.written();
    let start = first(t, addr);
    if writes & (written == start) {
        return Some(Fault::FirstValue);
    }
    let len = t.len;
    if RECORDS <= len {
        return Some(Fault::TooMany);
    }
    if writes {
        if written_before(t, len, addr, written) {
            return Some(Fault::Twice);
        }
    }
    None
}

// Whether an operation is what an unused place holds.
#[tactic(auto, unfolding(crate::specs::WellFormed::is_idle))]
fn is_idle(op: Op) -> bool
    ensures { result ≡ is_idle op }
{
    op.fence() && op.thread() == 0
}

// Which word has the mark of a value at an address. Values share marks: a mark tells only that some such value was written there.
fn place(addr: u8, value: u16) -> usize
    requires { addr < ADDRESSES }
    ensures { result ≡ mark_place addr value }
{
    (addr as usize) * MARK_WORDS + (value as usize) / MARK_WIDTH % MARK_WORDS
}

// Whether the mark of a value at an address is set.
fn marked(marks: &[u64; MARKS], addr: u8, value: u16) -> bool
    requires { addr < ADDRESSES }
    ensures { result ≡ has_mark marks.now addr value }
{
    let i = place(addr, value);
    let word = marks[i] >> ((value as usize) % MARK_WIDTH);
    word % 2 == 1
}

// Sets the mark of a value at an address.
fn mark(marks: &mut [u64; MARKS], addr: u8, value: u16)
    requires { addr < ADDRESSES }
    ensures { marks.new ≡ with_mark marks.old addr value }
{
    let i = place(addr, value);
    let word = marks[i];
    marks[i] = word | (1u64 << ((value as usize) % MARK_WIDTH));
}

// Marks what an operation writes.
fn note(marks: &mut [u64; MARKS], op: Op)
    requires { So (bounded op) }
    ensures { marks.new ≡ note_of marks.old op }
{
    if op.writes() {
        mark(marks, op.address(), op.written());
    }
}

// Whether an operation may stand after the first n records, told their marks: a value without a mark none of them wrote, so that they are looked
// through only for one that has it.
fn follows_marks(t: Trace, n: usize, op: Op, marks: &[u64; MARKS]) -> bool
    requires { Marks t n marks.now }
    ensures { result ≡ follows t n op }
{
    if !bounded(op) {
        return false;
    }
    if op.writes() {
        let addr = op.address();
        let value = op.written();
        if marked(marks, addr, value) {
            return fresh(t, n, op);
        }
        return value != first(t, addr);
    }
    true
}

// Whether each used record may stand after those before it.
fn used_follow(t: Trace) -> bool
    requires { t.len ≤ RECORDS }
    ensures { result ≡ all t.len (λ i. follows t i (at t i)) }
{
    let n = t.len;
    let mut marks = [0u64; MARKS];
    for i in 0..n {
        let op = t.records[i].op;
        if !follows_marks(t, i, op, &marks) {
            return false;
        }
        note(&mut marks, op);
    }
    true
}

// Whether each unused place is idle.
fn rest_idle(t: Trace) -> bool
    ensures { result ≡ all RECORDS (λ i. leb t.len i ⇒ is_idle (at t i)) }
{
    for i in t.len..RECORDS {
        if !is_idle(t.records[i].op) {
            return false;
        }
    }
    true
}

// Whether a trace is well formed.
pub fn well_formed(t: Trace) -> bool
    ensures { result ≡ well_formed t }
{
    let n = t.len;
    if RECORDS < n {
        return false;
    }
    used_follow(t) && rest_idle(t)
}
