// The small reader of papers: lists of reasons why a trace has no valid order, whoever wrote them.
#![tactic(auto)]

pub mod reading;

// How many entries a branch has at the most: more than a branch that names no edge twice.
pub const BRANCH: usize = trace::RECORDS * trace::RECORDS;
