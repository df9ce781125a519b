// The entries of `desk` for C, under the same names: each hands what it is given to the function of that name, and promises what that one promises.
#![tactic(auto)]

pub mod cuts;
pub mod growing;
pub mod judgements;
pub mod limits;
pub mod nights;
pub mod packs;
pub mod paper;
pub mod runs;
pub mod sessions;
pub mod signatures;
pub mod texts;
pub mod verdicts;
