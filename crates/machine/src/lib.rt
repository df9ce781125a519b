// A plain machine beside the rules: SC with one memory, TSO with a first-in first-out store buffer a core. It runs a trace by a lent list of steps.
#![tactic(auto)]

use trace::{ADDRESSES, RECORDS};

mod cores;
pub mod replaying;
pub mod running;

// How many addresses memory has.
const ADDRESSED: usize = ADDRESSES as usize;

// How many steps a list of possible ones has at the most: a record runs, and an entry is emptied, once.
pub const STEPS: usize = 2 * RECORDS;

// Which records ran, which stores wait in their core's buffer, and what memory holds. A core's entries stand in the order of its records, which is
// the order in which they went in.
#[derive(Clone, Copy)]
struct Machine {
    ran: [bool; RECORDS],
    waits: [bool; RECORDS],
    memory: [u16; ADDRESSED],
}

// Why a run does not end with all steps done: a model without a machine, a trace that is not well formed, or an impossible step and its place.
#[derive(Clone, Copy)]
pub enum Refusal {
    NoModel,
    NotWellFormed,
    Stuck(usize),
}

// Steps on their way: which records ran, and the first len places of the list.
#[derive(Clone, Copy)]
struct Built {
    ran: [bool; RECORDS],
    steps: [u8; STEPS],
    len: usize,
}

// What comes of an order: no such model, a trace that is not well formed, a list that is no valid order, or steps. It stands beside the steps, and no
// Result has them under Ok: a refusal tells a length and a list too, none and all 0, and who lays them into a buffer does so whatever comes of the order.
#[derive(Clone, Copy)]
pub enum Given {
    NoModel,
    NotWellFormed,
    NoOrder,
    List,
}

// Steps from an order: the first len places of the list; unused places 0.
// An array and its length: the project has no heap, and its memory is fixed.
#[derive(Clone, Copy)]
pub struct Steps {
    pub given: Given,
    pub len: usize,
    pub steps: [u8; STEPS],
}
