// A trace in a packed file, both ways. Document 02 has the layout; specs/Layout.antt says it again.
#![tactic(auto)]

ghost use Rattle.std.specs.Prelude.{◌≡◌};
ghost use Rattle.packed.specs.FileRead.{file_reason_number};

use trace::{FIRSTS, RECORDS, Trace};

pub mod entries;
pub mod packing;
pub mod unpacking;

// How many bytes stand before the entries, and how many a first value and a record have; specs/Layout.antt has the same numbers.
pub const HEAD: usize = 8;

pub const FIRST: usize = 3;

pub const RECORD: usize = 8;

// The longest file.
pub const FILE: usize = HEAD + FIRST * FIRSTS + RECORD * RECORDS;

// The version of the layout.
pub const VERSION: u16 = 1;

// Why a file is turned back. The first four are a text's too, and so is the last, which only `read_whole` gives: a core is lost.
#[derive(Clone, Copy)]
pub enum Reason {
    PastBound,
    FirstValue,
    TooMany,
    Twice,
    NoFile,
    OtherVersion,
    NoEntry,
    Lost,
}

// What a file gets: the line is a record's number plus 1, and 0 outside a record. Not a `Result` of a trace: document 02 lays down the trace beside a refusal
// too, the empty one, and who reads a file takes answer and trace apart.
#[derive(Clone, Copy)]
pub enum Answer {
    Good,
    Refused { reason: Reason, line: usize },
}

// The answer, and the trace; beside a refusal the empty one.
#[derive(Clone, Copy)]
pub struct Reading {
    pub answer: Answer,
    pub trace: Trace,
}

// Why the writer wrote nothing. Only `write_whole` says that a core is lost.
#[derive(Clone, Copy)]
pub enum Unwritten {
    NotWellFormed,
    NoRoom,
    Lost,
}

// Document 02's number of a reason.
pub fn number(reason: Reason) -> u8
    ensures { result ≡ file_reason_number reason }
{
    match reason {
        Reason::PastBound => 4,
        Reason::FirstValue => 6,
        Reason::TooMany => 7,
        Reason::Twice => 8,
        Reason::NoFile => 18,
        Reason::OtherVersion => 19,
        Reason::NoEntry => 20,
        Reason::Lost => 22,
    }
}
