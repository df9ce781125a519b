// The entries for C and Rust, over numbers and byte slices. Each keeps the promise of the function behind it.
#![tactic(auto)]

mod answers;
pub mod cuts;
mod files;
pub mod growing;
mod heads;
pub mod judgements;
pub mod limits;
pub mod nights;
pub mod packs;
pub mod paper;
pub mod runs;
pub mod sessions;
pub mod signatures;
pub mod texts;
pub mod verdicts;
