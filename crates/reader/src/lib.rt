// Text to trace: any text whatever gets the trace that it writes, or the number of what is wrong with it and the line.
#![tactic(auto)]

ghost use Rattle.std.specs.Prelude.{◌≡◌, ◌+◌, ◌<◌, ◌≤◌, length, drop};
ghost use Rattle.trace.specs.Trace.{empty};
ghost use Rattle.text.specs.Lines.{lines};
ghost use Rattle.text.specs.Part.{PartOf};
ghost use Rattle.reader.specs.Read.{none, read_lines, read_inits, read_text};
ghost use Rattle.reader.specs.BadLine.{line_in, line_start, line_end, start_of, end_of, place_of};
ghost use Rattle.reader.specs.Whole.{read_whole};

pub mod forms;
pub mod turns;

use text::walk::line_end;
use trace::cores::lost;
use trace::{FIRSTS, RECORDS, Record, Trace, empty};
use turns::{begin, turned};

// How many bytes a text has at the most, and a line without its feed; specs/Bounds.antt has the same numbers.
const TEXT: usize = 32768;

const LINE: usize = 80;

// Document 02's number of a lost core; specs/Whole.antt has the same.
pub const LOST: u8 = 22;

// A line of one of the four forms, its numbers not yet held to their bounds.
#[derive(Clone, Copy)]
pub enum Raw {
    Load {
        thread: u32,
        addr: u32,
        read: u32,
    },
    Store {
        thread: u32,
        addr: u32,
        written: u32,
    },
    Swap {
        thread: u32,
        addr: u32,
        read: u32,
        second: u32,
        written: u32,
    },
    Fence {
        thread: u32,
    },
}

// The address and the value of an init line, not yet held to their bounds.
#[derive(Clone, Copy)]
pub struct Init {
    pub addr: u32,
    pub value: u32,
}

// Why a text is turned back: the numbers 1 to 8 in order, and 17.
#[derive(Clone, Copy)]
pub enum Reason {
    LongText,
    LongLine,
    NoForm,
    PastBound,
    Addresses,
    FirstValue,
    TooMany,
    Twice,
    Late,
}

// What a text gets: lines are counted from 1, and number 1 comes with line 0. Only `read_whole` says that a core is lost, number 22.
#[derive(Clone, Copy)]
pub enum Answer {
    Good,
    Refused { reason: Reason, line: usize },
    Lost,
}

// The answer, and the trace; beside a refusal the empty one, which is promised and for which a `Result` has no place.
#[derive(Clone, Copy)]
pub struct Reading {
    pub answer: Answer,
    pub trace: Trace,
}

// Where the bad line of a text starts, and where it ends, before its feed; both 0 where no line is to blame.
#[derive(Clone, Copy)]
pub struct Place {
    pub start: usize,
    pub end: usize,
}

// A reading, and where the line starts and ends, before its feed, that it is about; both 0 where it is about none.
#[derive(Clone, Copy)]
struct Stand {
    reading: Reading,
    start: usize,
    end: usize,
}

// Where the init lines at the top end: the trace of their first values, the place behind them, and the number of the line there.
#[derive(Clone, Copy)]
struct Opening {
    trace: Trace,
    at: usize,
    line: usize,
}

// Reads the init lines at the top, up to the first line that gives no first value.
fn opened(text: &[u8]) -> Opening
    ensures { (result.line ≤ result.at + 1) × (0 < result.line) × (result.at < length text.now → result.at ≡ line_start text.now result.line) × (read_lines result.line result.trace (lines (drop result.at text.now)) ≡ read_inits 1 none empty (lines text.now)) }
{
    let mut trace = empty();
    let mut given = [false; FIRSTS];
    let mut at: usize = 0;
    let mut line: usize = 1;
    // Not a `for`: each step ends where the line does.
    while at < text.len() {
        let end = line_end(text, at);
        let ended = end < text.len();
        let Some(Init { addr, value }) = begin(&given, &text[at..end], ended) else {
            return Opening { trace, at, line };
        };
        let i = addr as usize;
        given[i] = true;
        trace.firsts[i] = value as u16;
        at = end + 1;
        line += 1;
    }
    Opening { trace, at, line }
}

// Reads line by line, up to the first bad line: the init lines at the top, then the records.
fn walked(text: &[u8]) -> Stand
    ensures { (result.reading ≡ read_inits 1 none empty (lines text.now)) × (result.start ≡ line_start text.now (line_in result.reading.answer)) × (result.end ≡ line_end text.now (line_in result.reading.answer)) }
{
    let opening = opened(text);
    let mut trace = opening.trace;
    let mut at = opening.at;
    let mut line = opening.line;
    // Not a `for`: each step ends where the line does.
    while at < text.len() {
        let end = line_end(text, at);
        let ended = end < text.len();
        match turned(trace, &text[at..end], ended) {
            Ok(op) => {
                let n = trace.len;
                if n < RECORDS {
                    trace.records[n] = Record { op };
                    trace.len = n + 1;
                }
            }
            Err(reason) => {
                let answer = Answer::Refused { reason, line };
                let trace = empty();
                let reading = Reading { answer, trace };
                return Stand {
                    reading,
                    start: at,
                    end,
                };
            }
        }
        at = end + 1;
        line += 1;
    }
    let answer = Answer::Good;
    let reading = Reading { answer, trace };
    Stand {
        reading,
        start: 0,
        end: 0,
    }
}

// The trace that a text writes, or why it is turned back.
pub fn read(text: &[u8]) -> Reading
    ensures { result ≡ read_text text.now }
{
    if TEXT < text.len() {
        let answer = Answer::Refused {
            reason: Reason::LongText,
            line: 0,
        };
        let trace = empty();
        return Reading { answer, trace };
    }
    walked(text).reading
}

// Where the line lies that `read` turns back; the top of the text where no line is to blame.
pub fn bad_place(text: &[u8]) -> Place
    ensures { result ≡ place_of text.now }
{
    if TEXT < text.len() {
        return Place { start: 0, end: 0 };
    }
    let stand = walked(text);
    Place {
        start: stand.start,
        end: stand.end,
    }
}

// The line that `read` turns back, without its line feed: the lent text's own part, from where that line starts; where no line is to blame, beside
// number 1 and for a good text, the empty part at the top of the text.
pub fn bad_line<'a>(text: &'a [u8]) -> &'a [u8]
    ensures { PartOf text.entry (start_of text.now) (end_of text.now) result }
{
    let place = bad_place(text);
    &text[place.start..place.end]
}

// The same as `read`, but where every line is good no core may be lost.
pub fn read_whole(text: &[u8]) -> Reading
    ensures { result ≡ read_whole text.now }
{
    let reading = read(text);
    let answer = reading.answer;
    match answer {
        Answer::Good => {
            let recorded = reading.trace;
            if lost(recorded) {
                let answer = Answer::Lost;
                let none = empty();
                return Reading {
                    answer,
                    trace: none,
                };
            }
            reading
        }
        Answer::Refused { .. } => reading,
        Answer::Lost => reading,
    }
}
