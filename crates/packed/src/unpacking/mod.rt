// The entries of a file, read from the top.
ghost use Rattle.std.specs.Prelude.{◌≡◌, ◌+◌, ◌*◌, ◌≤◌, ◌<◌, length, drop, replicate};
ghost use Rattle.trace.specs.Bounds.{ADDRESSES, RECORDS};
ghost use Rattle.packed.specs.Layout.{BYTE, HEAD, FIRST, RECORD, size_of};
ghost use Rattle.packed.specs.FileRead.{entry_turn, turned_bytes, back, read_firsts, read_records, read_entries, marked, read_file};
ghost use Rattle.packed.specs.WholeFile.{read_whole_file};
ghost use Rattle.trace.specs.Fault.{fault_of};

use crate::entries::{entry_at, two_at};
use crate::{Answer, FIRST, HEAD, RECORD, Reading, Reason, VERSION};
use trace::cores::lost;
use trace::form::fault_of;
use trace::{FIRSTS, Fault, Op, RECORDS, Record, Trace, empty};

// The answer to a refused file: the empty trace beside it.
fn back(reason: Reason, line: usize) -> Reading
    ensures { result ≡ back reason line }
{
    Reading {
        answer: Answer::Refused { reason, line },
        trace: empty(),
    }
}

// A record behind the trace so far, as it was read.
fn joined(t: Trace, op: Op) -> Result<Op, Reason>
    ensures { result ≡ entry_turn op (fault_of t op) }
{
    match fault_of(t, op) {
        None => Ok(op),
        Some(Fault::PastBound) => Err(Reason::PastBound),
        Some(Fault::FirstValue) => Err(Reason::FirstValue),
        Some(Fault::TooMany) => Err(Reason::TooMany),
        Some(Fault::Twice) => Err(Reason::Twice),
    }
}

// The eight bytes at a place, behind the trace so far.
fn turned(t: Trace, bytes: &[u8], at: usize) -> Result<Op, Reason>
    requires { at + RECORD ≤ length bytes.now }
    ensures { result ≡ turned_bytes t (drop at bytes.now) }
{
    match entry_at(bytes, at) {
        Some(op) => joined(t, op),
        None => Err(Reason::NoEntry),
    }
}

// The first values: the trace of no records that has them, or why not.
fn firsts_in(bytes: &[u8], count: usize) -> Reading
    requires { HEAD + FIRST * count ≤ length bytes.now }
    ensures { result ≡ read_firsts count 0 (replicate ADDRESSES 0) (drop HEAD bytes.now) }
{
    let mut trace = empty();
    let mut low: usize = 0;
    for i in 0..count {
        let at = HEAD + FIRST * i;
        let addr = bytes[at] as usize;
        let value = two_at(bytes, at + 1);
        if value == 0 || addr < low {
            return back(Reason::NoEntry, 0);
        }
        if FIRSTS <= addr {
            return back(Reason::PastBound, 0);
        }
        trace.firsts[addr] = value;
        low = addr + 1;
    }
    Reading {
        answer: Answer::Good,
        trace,
    }
}

// Records from a place on, behind a trace.
fn records_in(t: Trace, bytes: &[u8], from: usize, count: usize) -> Reading
    requires { (from + RECORD * count ≤ length bytes.now) × (t.len ≤ RECORDS) }
    ensures { result ≡ read_records t (drop from bytes.now) count }
{
    let mut trace = t;
    for i in 0..count {
        match turned(trace, bytes, from + RECORD * i) {
            Ok(op) => {
                let n = trace.len;
                if n < RECORDS {
                    trace.records[n] = Record { op };
                    trace.len = n + 1;
                }
            }
            Err(reason) => {
                return back(reason, trace.len + 1);
            }
        }
    }
    Reading {
        answer: Answer::Good,
        trace,
    }
}

// First values and records in turn, where the file has room for them.
fn entries_in(bytes: &[u8], firsts: usize, records: usize) -> Reading
    requires { size_of firsts records ≤ length bytes.now }
    ensures { result ≡ read_entries bytes.now firsts records }
{
    let opened = firsts_in(bytes, firsts);
    match opened.answer {
        Answer::Good => records_in(opened.trace, bytes, HEAD + FIRST * firsts, records),
        Answer::Refused { .. } => opened,
    }
}

// A byte as a count.
fn counted(b: u8) -> usize
    ensures { (result ≡ b) × (result < BYTE) }
{
    b as usize
}

// A number of two bytes as a count.
fn numbered(n: u16) -> usize
    ensures { (result ≡ n) × (result < BYTE * BYTE) }
{
    n as usize
}

// Whether a file has the mark, and is long enough for mark and version.
fn marked(bytes: &[u8]) -> bool
    ensures { result ≡ marked bytes.now }
{
    5 <= bytes.len() && bytes[0] == 0x50 && bytes[1] == 0x59 && bytes[2] == 0x52
}

// The trace that a file packs, or why it is turned back.
pub fn read(bytes: &[u8]) -> Reading
    ensures { result ≡ read_file bytes.now }
{
    if !marked(bytes) {
        return back(Reason::NoFile, 0);
    }
    if two_at(bytes, 3) != VERSION {
        return back(Reason::OtherVersion, 0);
    }
    if bytes.len() < HEAD {
        return back(Reason::NoFile, 0);
    }
    let firsts = counted(bytes[5]);
    let records = numbered(two_at(bytes, 6));
    if bytes.len() != HEAD + FIRST * firsts + RECORD * records {
        return back(Reason::NoFile, 0);
    }
    if RECORDS < records {
        return back(Reason::TooMany, RECORDS + 1);
    }
    entries_in(bytes, firsts, records)
}

// The same as `read`, but where every record is good no core may be lost.
#[tactic(auto, unfolding(crate::specs::WholeFile::read_whole_file))]
pub fn read_whole(bytes: &[u8]) -> Reading
    ensures { result ≡ read_whole_file bytes.now }
{
    let reading = read(bytes);
    match reading.answer {
        Answer::Good if lost(reading.trace) => back(Reason::Lost, 0),
        _ => reading,
    }
}
