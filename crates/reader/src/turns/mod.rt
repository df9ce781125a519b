// What one line gets: the record that it writes, or the lowest number that turns it back.
ghost use Rattle.std.specs.Prelude.{◌≡◌};
ghost use Rattle.std.proofs.Math.Bool.{So};
ghost use Rattle.reader.specs.Answer.{number_of, in_bounds, one_address, op_of, joined, checked, late, unformed, turned, init_given};
ghost use Rattle.reader.specs.LineForms.{init_of};

use crate::forms::{form, init};
use crate::{Init, LINE, Raw, Reason};
use trace::form::fault_of;
use trace::{ADDRESSES, FIRSTS, Fault, Op, THREADS, Trace, VALUES};

// The documents' number of a reason.
pub fn number(reason: Reason) -> u8
    ensures { result ≡ number_of reason }
{
    match reason {
        Reason::LongText => 1,
        Reason::LongLine => 2,
        Reason::NoForm => 3,
        Reason::PastBound => 4,
        Reason::Addresses => 5,
        Reason::FirstValue => 6,
        Reason::TooMany => 7,
        Reason::Twice => 8,
        Reason::Late => 17,
    }
}

// Whether the numbers of a raw record keep their bounds.
pub fn in_bounds(raw: Raw) -> bool
    ensures { result ≡ in_bounds raw }
{
    let threads = THREADS as u32;
    let addresses = ADDRESSES as u32;
    match raw {
        Raw::Load { thread, addr, read } => (thread < threads)
            & (addr < addresses)
            & (read < VALUES),
        Raw::Store {
            thread,
            addr,
            written,
        } => (thread < threads) & (addr < addresses) & (written < VALUES),
        Raw::Swap {
            thread,
            addr,
            read,
            second,
            written,
        } => {
            (thread < threads)
                & (addr < addresses)
                & (read < VALUES)
                & (second < addresses)
                & (written < VALUES)
        }
        Raw::Fence { thread } => thread < threads,
    }
}

// Whether a swap names one address only.
pub fn one_address(raw: Raw) -> bool
    ensures { result ≡ one_address raw }
{
    match raw {
        Raw::Load { .. } => true,
        Raw::Store { .. } => true,
        Raw::Swap { addr, second, .. } => addr == second,
        Raw::Fence { .. } => true,
    }
}

// The record that a raw one stands for.
fn op_of(raw: Raw) -> Op
    requires { So (in_bounds raw) }
    ensures { result ≡ op_of raw }
{
    match raw {
        Raw::Load { thread, addr, read } => Op::Load {
            thread: thread as u8,
            addr: addr as u8,
            read: read as u16,
        },
        Raw::Store {
            thread,
            addr,
            written,
        } => Op::Store {
            thread: thread as u8,
            addr: addr as u8,
            written: written as u16,
        },
        Raw::Swap {
            thread,
            addr,
            read,
            written,
            ..
        } => {
            Op::Swap {
                thread: thread as u8,
                addr: addr as u8,
                read: read as u16,
                written: written as u16,
            }
        }
        Raw::Fence { thread } => Op::Fence {
            thread: thread as u8,
        },
    }
}

// A record of good numbers behind the trace so far.
pub fn joined(t: Trace, op: Op) -> Result<Op, Reason>
    ensures { result ≡ joined t op }
{
    match fault_of(t, op) {
        None => Ok(op),
        Some(Fault::PastBound) => Err(Reason::PastBound),
        Some(Fault::FirstValue) => Err(Reason::FirstValue),
        Some(Fault::TooMany) => Err(Reason::TooMany),
        Some(Fault::Twice) => Err(Reason::Twice),
    }
}

// A raw record behind the trace so far.
pub fn checked(t: Trace, raw: Raw) -> Result<Op, Reason>
    ensures { result ≡ checked t raw }
{
    if in_bounds(raw) {
        if one_address(raw) {
            return joined(t, op_of(raw));
        }
        return Err(Reason::Addresses);
    }
    Err(Reason::PastBound)
}

// An init line that gives no first value.
fn late(addr: u32, value: u32) -> Result<Op, Reason>
    ensures { result ≡ late addr value }
{
    let addresses = ADDRESSES as u32;
    if (addr < addresses) & (value < VALUES) {
        return Err(Reason::Late);
    }
    Err(Reason::PastBound)
}

// A line that is no record's and gives no first value.
fn unformed(bytes: &[u8]) -> Result<Op, Reason>
    ensures { result ≡ unformed (init_of bytes.now) }
{
    match init(bytes) {
        Some(Init { addr, value }) => late(addr, value),
        None => Err(Reason::NoForm),
    }
}

// A line behind the trace so far that gives no first value.
pub fn turned(t: Trace, bytes: &[u8], ended: bool) -> Result<Op, Reason>
    ensures { result ≡ turned t (record { bytes = bytes.entry.now; ended = ended }) }
{
    if LINE < bytes.len() {
        return Err(Reason::LongLine);
    }
    if !ended {
        return Err(Reason::NoForm);
    }
    match form(bytes) {
        Some(raw) => checked(t, raw),
        None => unformed(bytes),
    }
}

// The address and first value of an init line that gives one: short, ended, in bounds, and no line above gave that address one.
pub fn begin(given: &[bool; FIRSTS], bytes: &[u8], ended: bool) -> Option<Init>
    ensures { result ≡ init_given given.now (record { bytes = bytes.entry.now; ended = ended }) }
{
    if LINE < bytes.len() {
        return None;
    }
    if !ended {
        return None;
    }
    let Init { addr, value } = init(bytes)?;
    let addresses = ADDRESSES as u32;
    if (addr < addresses) & (value < VALUES) {
        let i = addr as usize;
        if !given[i] {
            return Some(Init { addr, value });
        }
    }
    None
}
