// What the loads of a test program saw, packed into numbers. A test program is a trace whose recorded reads are not looked at.
#![tactic(auto)]

use trace::{FIRSTS, RECORDS};

mod choices;
pub mod packing;
mod products;
pub mod runs;
pub mod unpacking;

// Why packing and unpacking are refused: a read that is not in its list is told with its record, a word that is too large with its place.
#[derive(Clone, Copy)]
pub enum Reason {
    NotWellFormed,
    WrongLength,
    NotListed(usize),
    TooLarge(usize),
}

// Words laid down so far, and the open one: the product of its ranges is q + 1, which may be 2 to the 64th.
#[derive(Clone, Copy)]
struct Open {
    of: [u64; RECORDS],
    count: usize,
    q: u64,
    word: u64,
}

// Where the digits of the loads stand, by record: the place of a digit's word, the product of the ranges below it there, less 1, and its range. And the
// word that is open while they are laid out: its place, and the product of its ranges, less 1.
#[derive(Clone, Copy)]
struct Places {
    word: [usize; RECORDS],
    below: [u64; RECORDS],
    range: [u64; RECORDS],
    at: usize,
    q: u64,
}

// What was written, by address: the values of one address stand behind those of the addresses below it, each in the order of its records. Beside them how many they are, where those of an address begin, and, by
// record, the place of its own value; for a record that does not write it is RECORDS.
#[derive(Clone, Copy)]
struct WrittenValues {
    of: [u16; RECORDS],
    count: usize,
    start: [usize; FIRSTS],
    own: [usize; RECORDS],
}
