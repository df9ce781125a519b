// The verdict on a trace under a model: what a stranger asks for in one call.
#![tactic(auto)]

pub mod tell;

use trace::RECORDS;

// What a verdict comes to. The last two turn the question back: a model that does not exist, a trace that is not well formed.
#[derive(Clone, Copy)]
pub enum Outcome {
    NoSource(usize),
    Circle,
    Order,
    NoneLeft,
    NoModel,
    NotWellFormed,
}

// The outcome with its operations: those of the circle or of the order, and for a circle the rule of each edge. Unused places are 0.
// An array and its length: the project has no heap, and its memory is fixed.
#[derive(Clone, Copy)]
pub struct Verdict {
    pub outcome: Outcome,
    pub len: usize,
    pub operations: [u16; RECORDS],
    pub rules: [u8; RECORDS],
}
