// The verdict on a trace under a model within a limit of steps, and the steps of the plain search that it comes with.
#![tactic(auto)]

pub mod tell;

use trace::RECORDS;
use verdict::Outcome;

// What a limited verdict comes to: the full verdict's outcome, or that the plain search makes more steps than the limit.
#[derive(Clone, Copy)]
pub enum Limited {
    Decided(Outcome),
    Undecided,
}

// The outcome with its operations and rules, as the full verdict has them, and the count. Unused places are 0.
// An array and its length: the project has no heap, and its memory is fixed.
#[derive(Clone, Copy)]
pub struct Limit {
    pub outcome: Limited,
    pub len: usize,
    pub operations: [u16; RECORDS],
    pub rules: [u8; RECORDS],
    pub steps: u64,
}
