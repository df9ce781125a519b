// A faulty trace cut down to what still shows the fault.
#![tactic(auto)]

pub mod cut;
mod part;

use trace::{RECORDS, Trace};

// What comes of the question. The first two turn it back: a model that does not exist, a trace that is not well formed; and so does a record without a
// source. A trace that has an order has nothing wrong.
#[derive(Clone, Copy)]
pub enum Answer {
    NoModel,
    NotWellFormed,
    NoSource(usize),
    NothingWrong,
    Cut,
}

// The answer; what is left as a trace of its own, and the old number of each of its records. Unused places are 0, and beside any answer but Cut the
// trace is empty.
#[derive(Clone, Copy)]
pub struct Smaller {
    pub answer: Answer,
    pub trace: Trace,
    pub olds: [u16; RECORDS],
}
