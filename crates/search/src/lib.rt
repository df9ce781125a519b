// The first valid order of a trace, by a recursive search over placed operations: what it looks at, the search, and the entry.
#![tactic(auto)]

pub mod first;
mod refute;
mod seek;
mod sets;
mod split;
mod tables;

// The first valid order, where one is found: its first len places; unused places 0.
// An array and its length: the project has no heap, and its memory is fixed.
#[derive(Clone, Copy)]
pub struct Order {
    pub found: bool,
    pub len: usize,
    pub operations: [u16; trace::RECORDS],
}
