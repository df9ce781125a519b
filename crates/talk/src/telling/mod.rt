// What a line of a talk is answered, and the talk after it. Whatever is turned back leaves the session as it was.
ghost use Rattle.std.specs.Prelude.{◌≡◌, ◌<◌};
ghost use Rattle.trace.specs.Bounds.{ADDRESSES, VALUES};
ghost use Rattle.session.specs.Opening.{is_done};
ghost use Rattle.session.specs.Closings.{Closings};
ghost use Rattle.talk.specs.LineAnswers.{fresh_of, refused_of, answer_told, waits_told, record_told, supposition_of, question_of, back_of, look_of, model_of, addition_of, turn_said, first_value, beginning_of, line_said, talk_answer};

use crate::asking::{Command, command_of};
use pairs::{SC, modelled};
use reader::Init;
use reader::turns::{begin, turned};
use session::calls::{add, afresh, ask, open, suppose, take_back, waiting};
use session::{Answer, Session};
use std::fmt;
use trace::{FIRSTS, Op, started};

// How many bytes a line has at the most, without its line feed.
const LINE: usize = 80;

// The documents' numbers of a line that is too long, of one of no form, and of a model that is not there.
const LONG_LINE: u8 = 2;

const NO_FORM: u8 = 3;

const NO_MODEL: u8 = 9;

// A session, and which addresses have an init line.
#[derive(Clone, Copy)]
pub struct Talk {
    pub session: Session,
    pub given: [bool; FIRSTS],
}

// What a line is answered: a record that was added has its number, and a refusal the documents' number.
#[derive(Clone, Copy)]
pub enum Told {
    Done,
    Record(usize),
    Held,
    NotHeld,
    Contradicted,
    Waits(usize),
    NoneWaits,
    Refused(u8),
}

// The words of an answer, without its line feed.
impl fmt::Display for Told {
    fn fmt<W: fmt::Write>(&self, f: &mut fmt::Formatter<W>) -> fmt::Result {
        match *self {
            Told::Done => f.write_str("done"),
            Told::Record(x) => write!(f, "record {x}"),
            Told::Held => f.write_str("held"),
            Told::NotHeld => f.write_str("not held"),
            Told::Contradicted => f.write_str("contradicted"),
            Told::Waits(x) => write!(f, "record {x} waits"),
            Told::NoneWaits => f.write_str("none waits"),
            Told::Refused(n) => write!(f, "refused {n}"),
        }
    }
}

// The answer to a line, and the talk after it.
#[derive(Clone, Copy)]
pub struct Said {
    pub told: Told,
    pub talk: Talk,
}

// A talk before its first line: no records, no first values, model 1.
pub fn fresh() -> Talk
    ensures { (C : Closings) → result ≡ fresh_of C }
{
    let reply = open(trace::empty(), SC);
    Talk {
        session: reply.session,
        given: [false; FIRSTS],
    }
}

// What a session's answer is told as.
fn told_of(answer: Answer) -> Told
    ensures { result ≡ answer_told answer }
{
    match answer {
        Answer::Done => Told::Done,
        Answer::Held => Told::Held,
        Answer::NotHeld => Told::NotHeld,
        Answer::Contradicted => Told::Contradicted,
        Answer::Waits(x) => Told::Waits(x),
        Answer::Refused(reason) => Told::Refused(u8::from(reason)),
    }
}

// Whether nothing was turned back.
fn done(answer: Answer) -> bool
    ensures { result ≡ is_done answer }
{
    matches!(answer, Answer::Done)
}

// The same where who waits was asked.
fn waits(answer: Answer) -> Told
    ensures { result ≡ waits_told answer }
{
    if done(answer) {
        return Told::NoneWaits;
    }
    told_of(answer)
}

// The same where a record was to be added under a number.
fn recorded(x: usize, answer: Answer) -> Told
    ensures { result ≡ record_told x answer }
{
    if done(answer) {
        return Told::Record(x);
    }
    told_of(answer)
}

// A pair is supposed.
fn supposition(talk: Talk, x: u32, y: u32) -> Said
    ensures { (C : Closings) → result ≡ supposition_of C talk x y }
{
    let reply = suppose(talk.session, x as usize, y as usize);
    Said {
        told: told_of(reply.answer),
        talk: Talk {
            session: reply.session,
            ..talk
        },
    }
}

// A pair is asked about.
fn question(talk: Talk, x: u32, y: u32) -> Said
    ensures { (C : Closings) → result ≡ question_of C talk x y }
{
    let reply = ask(talk.session, x as usize, y as usize);
    Said {
        told: told_of(reply.answer),
        talk: Talk {
            session: reply.session,
            ..talk
        },
    }
}

// The latest pair is taken back.
fn back(talk: Talk) -> Said
    ensures { (C : Closings) → result ≡ back_of C talk }
{
    let reply = take_back(talk.session);
    Said {
        told: told_of(reply.answer),
        talk: Talk {
            session: reply.session,
            ..talk
        },
    }
}

// The lowest record that waits is looked for.
fn look(talk: Talk) -> Said
    ensures { (C : Closings) → result ≡ look_of C talk }
{
    let reply = waiting(talk.session);
    Said {
        told: waits(reply.answer),
        talk: Talk {
            session: reply.session,
            ..talk
        },
    }
}

// A line that is turned back.
fn refused(talk: Talk, n: u8) -> Said
    ensures { result ≡ refused_of talk n }
{
    Said {
        told: Told::Refused(n),
        talk,
    }
}

// The session is made afresh under another model, with its records and the pairs that stand.
fn model(talk: Talk, n: u32) -> Said
    ensures { (C : Closings) → result ≡ model_of C talk n }
{
    if n < 256 {
        let m = n as u8;
        if modelled(m) {
            let reply = afresh(talk.session.trace, m, talk.session.stack);
            return Said {
                told: told_of(reply.answer),
                talk: Talk {
                    session: reply.session,
                    ..talk
                },
            };
        }
        return refused(talk, NO_MODEL);
    }
    refused(talk, NO_MODEL)
}

// A record is added.
fn addition(talk: Talk, op: Op) -> Said
    ensures { (C : Closings) → result ≡ addition_of C talk op }
{
    let reply = add(talk.session, op);
    Said {
        told: recorded(talk.session.trace.len, reply.answer),
        talk: Talk {
            session: reply.session,
            ..talk
        },
    }
}

// A line behind the records, as the reader has looked at it.
fn turn(talk: Talk, turn: Result<Op, reader::Reason>) -> Said
    ensures { (C : Closings) → result ≡ turn_said C talk turn }
{
    match turn {
        Ok(op) => addition(talk, op),
        Err(reason) => refused(talk, reader::turns::number(reason)),
    }
}

// The address and first value that a line gives, where no record stands yet.
fn first_value(talk: Talk, bytes: &[u8]) -> Option<Init>
    ensures { result ≡ first_value talk bytes.now }
{
    if talk.session.trace.len == 0 {
        return begin(&talk.given, bytes, true);
    }
    None
}

// The session is opened afresh with one first value more.
fn beginning(talk: Talk, addr: u32, value: u32) -> Said
    requires { (addr < ADDRESSES) × (value < VALUES) }
    ensures { (C : Closings) → result ≡ beginning_of C talk addr value }
{
    let t = started(talk.session.trace, addr as u8, value as u16);
    let reply = open(t, talk.session.model);
    let mut given = talk.given;
    given[addr as usize] = true;
    Said {
        told: told_of(reply.answer),
        talk: Talk {
            session: reply.session,
            given,
        },
    }
}

// A line that makes no call: a first value, or a record.
fn line(talk: Talk, bytes: &[u8]) -> Said
    ensures { (C : Closings) → result ≡ line_said C talk bytes.now }
{
    match first_value(talk, bytes) {
        Some(Init { addr, value }) => beginning(talk, addr, value),
        None => turn(talk, turned(talk.session.trace, bytes, true)),
    }
}

// What a line is answered, without its line feed; whether it had one stands beside it.
pub fn answer(talk: Talk, bytes: &[u8], ended: bool) -> Said
    ensures { (C : Closings) → result ≡ talk_answer C talk (record { bytes = bytes.entry.now; ended = ended }) }
{
    if LINE < bytes.len() {
        return refused(talk, LONG_LINE);
    }
    if !ended {
        return refused(talk, NO_FORM);
    }
    match command_of(bytes) {
        Command::Suppose { first, second } => supposition(talk, first, second),
        Command::Ask { first, second } => question(talk, first, second),
        Command::TakeBack => back(talk),
        Command::Waiting => look(talk),
        Command::Model(n) => model(talk, n),
        Command::Nothing => line(talk, bytes),
    }
}
