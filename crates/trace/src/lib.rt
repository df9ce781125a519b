// What the bench records: a trace is an array of records and how many of them are used.
#![tactic(auto)]

ghost use Rattle.std.specs.Prelude.{◌≡◌};
ghost use Rattle.trace.specs.Op.{thread, address, read, written, reads, writes, fence};
ghost use Rattle.trace.specs.Trace.{empty, started, pushed, first};

pub mod cores;
pub mod form;

// The bounds of document 01, in this one place; specs/Bounds.antt has the same numbers for the definitions.
pub const RECORDS: usize = 256;

pub const THREADS: u8 = 8;

pub const ADDRESSES: u8 = 16;

// As many values does a memory begin with.
pub const FIRSTS: usize = 16;

pub const VALUES: u32 = 65536;

// One recorded step of a core, carrying only its own numbers.
#[derive(Clone, Copy, PartialEq, Eq)]
pub enum Op {
    Load {
        thread: u8,
        addr: u8,
        read: u16,
    },
    Store {
        thread: u8,
        addr: u8,
        written: u16,
    },
    Swap {
        thread: u8,
        addr: u8,
        read: u16,
        written: u16,
    },
    Fence {
        thread: u8,
    },
}

// What an operation carries. A number that it does not carry is 0.
impl Op {
    // Its core.
    pub fn thread(self) -> u8
        ensures { result ≡ thread self }
    {
        match self {
            Op::Load { thread, .. } => thread,
            Op::Store { thread, .. } => thread,
            Op::Swap { thread, .. } => thread,
            Op::Fence { thread } => thread,
        }
    }

    // Where it reads or writes.
    pub fn address(self) -> u8
        ensures { result ≡ address self }
    {
        match self {
            Op::Load { addr, .. } => addr,
            Op::Store { addr, .. } => addr,
            Op::Swap { addr, .. } => addr,
            Op::Fence { .. } => 0,
        }
    }

    // The value it read.
    pub fn read(self) -> u16
        ensures { result ≡ read self }
    {
        match self {
            Op::Load { read, .. } => read,
            Op::Store { .. } => 0,
            Op::Swap { read, .. } => read,
            Op::Fence { .. } => 0,
        }
    }

    // The value it wrote.
    pub fn written(self) -> u16
        ensures { result ≡ written self }
    {
        match self {
            Op::Load { .. } => 0,
            Op::Store { written, .. } => written,
            Op::Swap { written, .. } => written,
            Op::Fence { .. } => 0,
        }
    }

    // Loads and swaps read.
    pub fn reads(self) -> bool
        ensures { result ≡ reads self }
    {
        match self {
            Op::Load { .. } => true,
            Op::Store { .. } => false,
            Op::Swap { .. } => true,
            Op::Fence { .. } => false,
        }
    }

    // Stores and swaps write.
    pub fn writes(self) -> bool
        ensures { result ≡ writes self }
    {
        match self {
            Op::Load { .. } => false,
            Op::Store { .. } => true,
            Op::Swap { .. } => true,
            Op::Fence { .. } => false,
        }
    }

    // A fence is no operation of an order.
    pub fn fence(self) -> bool
        ensures { result ≡ fence self }
    {
        match self {
            Op::Load { .. } => false,
            Op::Store { .. } => false,
            Op::Swap { .. } => false,
            Op::Fence { .. } => true,
        }
    }
}

// One place of a trace. It stands around its operation because arrays hold structs.
#[derive(Clone, Copy, PartialEq, Eq)]
pub struct Record {
    pub op: Op,
}

// What is wrong with one record more, by document 01's numbers 4, 6, 7 and 8, in order.
#[derive(Clone, Copy, PartialEq, Eq)]
pub enum Fault {
    PastBound,
    FirstValue,
    TooMany,
    Twice,
}

// The first len places are used; the others hold a fence of thread 0, so that equal traces are equal throughout. Beside them, the value that each
// address begins with.
// An array and its length: the project has no heap, and its memory is fixed.
#[derive(Clone, Copy, PartialEq, Eq)]
pub struct Trace {
    pub records: [Record; RECORDS],
    pub len: usize,
    pub firsts: [u16; FIRSTS],
}

// The trace of no records.
pub fn empty() -> Trace
    ensures { result ≡ empty }
{
    Trace {
        records: [Record {
            op: Op::Fence { thread: 0 },
        }; RECORDS],
        len: 0,
        firsts: [0; FIRSTS],
    }
}

// The value that an address begins with; 0 past the last address.
pub fn first(t: Trace, addr: u8) -> u16
    ensures { result ≡ first t addr }
{
    let i = addr as usize;
    if i < FIRSTS {
        return t.firsts[i];
    }
    0
}

// The trace with another first value at an address; past the last address it stays as it is.
pub fn started(t: Trace, addr: u8, value: u16) -> Trace
    ensures { result ≡ started t addr value }
{
    let i = addr as usize;
    if i < FIRSTS {
        let mut u = t;
        u.firsts[i] = value;
        return u;
    }
    t
}

// The trace with one record more; a full trace stays as it is.
pub fn pushed(t: Trace, op: Op) -> Trace
    ensures { result ≡ pushed t op }
{
    let at = t.len;
    if at < RECORDS {
        let next = at + 1;
        let mut u = t;
        u.records[at] = Record { op };
        u.len = next;
        return u;
    }
    t
}
