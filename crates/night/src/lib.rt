// A night's worth: many runs of one test program, each told by the words of what its loads saw, judged in one call.
#![tactic(auto)]

use trace::RECORDS;

mod blocks;
pub mod runs;
pub mod seeing;

// How many numbers a run's verdict has: its kind, how many operations it tells, the operations' places and those of the rules.
pub const BLOCK: usize = 2 + 2 * RECORDS;

// Why a night's worth of runs is refused: a word that is too large is told with its run and its place among the words of the run.
#[derive(Clone, Copy)]
pub enum Reason {
    NotWellFormed,
    NoModel,
    WrongLength,
    TooLarge(usize, usize),
}
