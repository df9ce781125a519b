// The writer of papers: why a trace has no valid order, as a list that the small reader accepts.
#![tactic(auto)]

mod choice;
mod leaf;
pub mod listing;
mod naming;
mod paths;
mod story;
