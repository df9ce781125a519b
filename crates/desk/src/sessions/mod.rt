// The entries for a session in lent bytes: its head, then its trace's packed file. No bytes are believed: whatever opening, adding and supposing do not
// make is turned back as 12, and stays.
ghost use Rattle.std.specs.Prelude.{◌≡◌, false, ◌++◌, ◌≤◌, leb, length, drop};
ghost use Rattle.text.specs.Room.{put_at};
ghost use Rattle.reader.specs.Whole.{read_whole};
ghost use Rattle.session.specs.Closings.{Closings};
ghost use Rattle.session.specs.Session.{blank};
ghost use Rattle.session.specs.Numbers.{supposes, takes_back, asks};
ghost use Rattle.desk.specs.Text.{text_number};
ghost use Rattle.desk.specs.Packs.{whole_number, whole_trace};
ghost use Rattle.desk.specs.SessionHead.{Fit, SESSION-HEAD, session_head, session_bytes};
ghost use Rattle.desk.specs.SessionBytes.{session_of};
ghost use Rattle.desk.specs.SessionCalls.{code_of, answer_in, bytes_in};
ghost use Rattle.desk.specs.OpenedBytes.{open_number, open_session, open_answer, open_bytes};

use crate::answers::{CONTRADICTED, HELD, NO_ROOM, NOT_HELD, WAITS};
use crate::files;
use crate::heads::{HEAD, agrees, lay, stack_in};
use crate::texts::number_in;
use packed::packing::write;
use packed::unpacking;
use pairs::SC;
use reader::read_whole;
use session::calls::{afresh, ask, open, suppose, take_back};
use session::{Answer, Reply, Session};
use trace::Trace;

// Document 01's number of a session that is not one.
pub(crate) const UNLIKE: u8 = 12;

// What lent bytes are: those of a session, or not, and then the session of the empty trace under model 1 stands beside it.
#[derive(Clone, Copy)]
pub(crate) struct Lent {
    pub like: bool,
    pub session: Session,
}

// What opening comes to, before there are bytes to hold it.
#[derive(Clone, Copy)]
struct Opened {
    number: u8,
    session: Session,
}

// An answer as a number.
pub(crate) fn code(a: Answer) -> u8
    ensures { result ≡ code_of a }
{
    match a {
        Answer::Done => 0,
        Answer::Held => HELD,
        Answer::NotHeld => NOT_HELD,
        Answer::Contradicted => CONTRADICTED,
        Answer::Waits(_) => WAITS,
        Answer::Refused(reason) => u8::from(reason),
    }
}

// The session beside a refusal: that of the empty trace under model 1.
fn blank() -> Session
    ensures { (C : Closings) → result ≡ blank C }
{
    let reply = open(trace::empty(), SC);
    reply.session
}

// What bytes are that are those of no session.
fn unlike() -> Lent
    ensures { (result.like ≡ false) × ((C : Closings) → result.session ≡ blank C) }
{
    let session = blank();
    Lent {
        like: false,
        session,
    }
}

// The session that lent bytes are, made afresh from their file, their model and their pairs, and held against them.
pub(crate) fn kept(bytes: &[u8]) -> Lent
    ensures { (C : Closings) → result ≡ session_of C bytes.now }
{
    if bytes.len() < HEAD {
        return unlike();
    }
    let reading = unpacking::read(&bytes[HEAD..]);
    if files::number_in(reading.answer) != 0 {
        return unlike();
    }
    let reply = afresh(reading.trace, bytes[0], stack_in(bytes));
    if code(reply.answer) != 0 {
        return unlike();
    }
    let session = reply.session;
    if !agrees(session, bytes) {
        return unlike();
    }
    Lent {
        like: true,
        session,
    }
}

// The session after a call, laid over the one before it, and the answer.
fn leave(reply: Reply, session: &mut [u8]) -> u8
    requires { Fit reply.session × (SESSION-HEAD ≤ length session.old) }
    ensures { (result ≡ code_of reply.answer) × (session.new ≡ session_head reply.session ++ drop SESSION-HEAD session.old) }
{
    lay(reply.session, session);
    code(reply.answer)
}

// What opening a session on what was read comes to: the number of what is wrong with it first.
fn opening(number: u8, t: Trace, model: u8) -> Opened
    ensures { (result.number ≡ open_number number t model) × ((C : Closings) → result.session ≡ open_session C number t model) }
{
    if number != 0 {
        let session = blank();
        return Opened { number, session };
    }
    let reply = open(t, model);
    let answer = reply.answer;
    let session = reply.session;
    Opened {
        number: code(answer),
        session,
    }
}

// A session's bytes at the front of lent bytes, where there is room for them, and whether there is.
pub(crate) fn placed(s: Session, out: &mut [u8]) -> bool
    requires { Fit s }
    ensures { (result ≡ leb (length (session_bytes s)) (length out.old)) × (out.new ≡ put_at (session_bytes s) out.old 0) }
{
    if out.len() < HEAD {
        return false;
    }
    match write(s.trace, &mut out[HEAD..]) {
        Ok(_) => {
            lay(s, out);
            true
        }
        Err(_) => false,
    }
}

// The bytes of the session that is opened on what was read, where there is room for them; and what is wrong, then whether there was no room.
fn open_on(number: u8, t: Trace, model: u8, session: &mut [u8]) -> u8
    ensures { (result ≡ open_answer number t model session.old) × ((C : Closings) → session.new ≡ open_bytes C number t model session.old) }
{
    let o = opening(number, t, model);
    let room = placed(o.session, session);
    let wrong = o.number;
    if wrong != 0 {
        return wrong;
    }
    if room {
        return 0;
    }
    NO_ROOM
}

// Opens a session with no pairs into lent bytes, on the trace of a text: 0, and its bytes; or why not, and where there is room the bytes of the session
// of the empty trace under model 1. All other bytes stay.
pub fn wheelotter_open(text: &[u8], model: u8, session: &mut [u8]) -> u8
    ensures { (result ≡ open_answer (text_number text.now) (read_whole text.now).trace model session.old) × ((C : Closings) → session.new ≡ open_bytes C (text_number text.now) (read_whole text.now).trace model session.old) }
{
    let reading = read_whole(text);
    let number = number_in(reading.answer);
    open_on(number, reading.trace, model, session)
}

// The same on the trace of a packed file, which may have lost no core either; what a session keeps may.
pub fn wheelotter_open_file(file: &[u8], model: u8, session: &mut [u8]) -> u8
    ensures { (result ≡ open_answer (whole_number file.now) (whole_trace file.now) model session.old) × ((C : Closings) → session.new ≡ open_bytes C (whole_number file.now) (whole_trace file.now) model session.old) }
{
    let reading = unpacking::read_whole(file);
    let number = files::number_in(reading.answer);
    open_on(number, reading.trace, model, session)
}

// Supposes x before y in a session in bytes.
pub fn wheelotter_suppose(session: &mut [u8], x: usize, y: usize) -> u8
    ensures { (C : Closings) → (result ≡ answer_in C session.old (supposes x y)) × (session.new ≡ bytes_in C session.old (supposes x y)) }
{
    let found = kept(session);
    if !found.like {
        return UNLIKE;
    }
    leave(suppose(found.session, x, y), session)
}

// Takes the latest pair back in a session in bytes.
pub fn wheelotter_take_back(session: &mut [u8]) -> u8
    ensures { (C : Closings) → (result ≡ answer_in C session.old takes_back) × (session.new ≡ bytes_in C session.old takes_back) }
{
    let found = kept(session);
    if !found.like {
        return UNLIKE;
    }
    leave(take_back(found.session), session)
}

// Whether x before y is held in a session in bytes.
pub fn wheelotter_ask(session: &[u8], x: usize, y: usize) -> u8
    ensures { (C : Closings) → result ≡ answer_in C session.now (asks x y) }
{
    let found = kept(session);
    if !found.like {
        return UNLIKE;
    }
    let reply = ask(found.session, x, y);
    code(reply.answer)
}
