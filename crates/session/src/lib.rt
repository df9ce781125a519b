// A session on a trace and a model: records are added, pairs are supposed and taken back, and the edges that the rules force from them are held.
#![tactic(auto)]

ghost use Rattle.std.specs.Prelude.{◌≡◌};
ghost use Rattle.session.specs.Numbers.{reason_number};

pub mod calls;

use trace::Trace;

// How many pairs stand at the most; specs/Bounds.antt has the same number.
pub const PAIRS: usize = 16;

// A supposed pair: the first record before the second.
#[derive(Clone, Copy, PartialEq, Eq)]
pub struct Pair {
    pub first: usize,
    pub second: usize,
}

// The pairs that stand, the latest last; unused places hold the pair 0, 0.
// An array and its length: the project has no heap, and its memory is fixed.
#[derive(Clone, Copy, PartialEq, Eq)]
pub struct Stack {
    pub pairs: [Pair; PAIRS],
    pub count: usize,
}

// A session as a whole. The table of held edges is empty while contradicted.
// The flag is no Option: a forged session may be contradicted and have a table too, and comes back as it was.
#[derive(Clone, Copy, PartialEq, Eq)]
pub struct Session {
    pub trace: Trace,
    pub model: u8,
    pub stack: Stack,
    pub contradicted: bool,
    pub held: [u64; rows::CELLS],
}

// Why a call is turned back; specs/Numbers.antt has document 01's numbers. The last four are those of a record to be added.
#[derive(Clone, Copy)]
pub enum Reason {
    NoModel,
    NotWellFormed,
    Unlike,
    NoOperation,
    OneRecord,
    TooManyPairs,
    NoPair,
    PastBound,
    FirstValue,
    TooMany,
    Twice,
}

// Document 01's number of a reason.
impl From<Reason> for u8 {
    ghost from_gives = { λ reason n. n ≡ reason_number reason };

    fn from(reason: Reason) -> u8 {
        match reason {
            Reason::NoModel => 9,
            Reason::NotWellFormed => 10,
            Reason::Unlike => 12,
            Reason::NoOperation => 13,
            Reason::OneRecord => 14,
            Reason::TooManyPairs => 15,
            Reason::NoPair => 16,
            Reason::PastBound => 4,
            Reason::FirstValue => 6,
            Reason::TooMany => 7,
            Reason::Twice => 8,
        }
    }
}

// What a call gets. A load or swap that waits for its source is told by its record.
#[derive(Clone, Copy)]
pub enum Answer {
    Done,
    Held,
    NotHeld,
    Contradicted,
    Waits(usize),
    Refused(Reason),
}

// The answer, and the session after the call.
#[derive(Clone, Copy)]
pub struct Reply {
    pub answer: Answer,
    pub session: Session,
}
