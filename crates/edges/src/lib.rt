// The edges that the rules force, and what is held when they are closed round by round.
#![tactic(auto)]

mod closed;
pub mod force;
pub mod kept;
pub mod sources;

// What the rules force from kept and supposed pairs: whether they contradict each other, and the held edges as rows, none while contradicted.
#[derive(Clone, Copy)]
pub struct Forced {
    pub contradicted: bool,
    pub held: [u64; rows::CELLS],
}
