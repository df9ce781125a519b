// The plain search of a trace, and how many steps it makes: what it looks at, the search, and the entry.
#![tactic(auto)]

pub mod steps;
mod tables;
mod walk;

// An order after so many steps, the end after so many, or over the budget.
#[derive(Clone, Copy)]
pub enum Walked {
    Order(u64),
    End(u64),
    Over,
}

// What the search came to, with the order where it found one: its first len places; unused places 0.
// An array and its length: the project has no heap, and its memory is fixed.
#[derive(Clone, Copy)]
pub struct Counted {
    pub walked: Walked,
    pub len: usize,
    pub operations: [u16; trace::RECORDS],
}
