// What the entries answer beside document 01's numbers: 21 ranks behind all that is wrong with what was given, and 64 and up are no refusals.

// The lent buffer is too short.
pub const NO_ROOM: u8 = 21;

// A verdict that hands back an order.
pub const ORDER: u8 = 64;

// One that shows a circle.
pub const CIRCLE: u8 = 65;

// One that leaves no order.
pub const NONE_LEFT: u8 = 66;

// A session that was asked: the pair is held, is not, or the session is contradicted.
pub const HELD: u8 = 67;

pub const NOT_HELD: u8 = 68;

pub const CONTRADICTED: u8 = 69;

// The judge of a list: a valid order, or the condition that it fails first.
pub const VALID: u8 = 70;

pub const WRONG_LENGTH: u8 = 71;

pub const BAD_NUMBER: u8 = 72;

pub const REPEAT: u8 = 73;

pub const OUT_OF_TURN: u8 = 74;

pub const WRONG_VALUE: u8 = 75;

// A limited verdict: the plain search makes more steps than the limit.
pub const UNDECIDED: u8 = 76;

// A trace that is to be cut down: nothing is wrong with it, or it was.
pub const NOTHING_WRONG: u8 = 77;

pub const CUT: u8 = 78;

// The machine: an impossible step (document 02's number), all steps done, and whether the trace ran through; steps that run an order through, or a
// list that is none.
pub const STUCK: u8 = 25;

pub const THROUGH: u8 = 79;

pub const NOT_THROUGH: u8 = 80;

pub const REPLAYED: u8 = 81;

pub const NO_ORDER: u8 = 82;

// The small reader of papers: a list is accepted, or not.
pub const ACCEPTED: u8 = 90;

pub const NOT_ACCEPTED: u8 = 91;

// A session: a load or swap waits for its source.
pub const WAITS: u8 = 92;

// A paper that is asked for: there is nothing to show, or it was written.
pub const NOTHING_TO_SHOW: u8 = 93;

pub const SHOWN: u8 = 94;
