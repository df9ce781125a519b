// Bytes of a lent text: its lines, its decimal numbers, and templates that a line is held against; and bytes put into a lent buffer.
#![tactic(auto)]

pub mod digits;
pub mod room;
pub mod templates;
pub mod walk;

// What a byte of a line is.
#[derive(Clone, Copy)]
pub enum Class {
    Digit,
    Space,
    Mark,
    Letter,
    Other,
}

// A place in a lent text.
#[derive(Clone, Copy)]
pub struct Cursor {
    pub at: usize,
}

// The digits at a place: their value, cut at the first number past every bound, and where they end.
#[derive(Clone, Copy)]
pub struct Run {
    pub value: u32,
    pub end: usize,
}
