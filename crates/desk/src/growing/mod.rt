// What makes a session in lent bytes keep up with a recorder: a record more, and the record that waits for its source.
ghost use Rattle.std.specs.Prelude.{◌≡◌, cond, eqb};
ghost use Rattle.text.specs.Room.{put_at};
ghost use Rattle.packed.specs.Entry.{op_in};
ghost use Rattle.session.specs.Closings.{Closings};
ghost use Rattle.session.specs.Session.{Intact};
ghost use Rattle.session.specs.Entries.{add_of};
ghost use Rattle.desk.specs.SessionHead.{session_bytes};
ghost use Rattle.desk.specs.SessionCalls.{code_of};
ghost use Rattle.desk.specs.Grown.{add_answer, add_bytes, record_in, waiting_answer, waiting_bytes};

use crate::answers::NO_ROOM;
use crate::runs::PLACE;
use crate::sessions::{UNLIKE, code, kept, placed};
use crate::verdicts::put_wide;
use packed::RECORD;
use packed::entries::op_in;
use session::calls::{add, waiting};
use session::{Answer, Session};
use trace::Op;

// Document 02's number of fields that are no record.
const NO_ENTRY: u8 = 20;

// A record more on an intact session: its bytes laid down where it is taken, and the answer.
fn taken(s: Session, op: Op, session: &mut [u8]) -> u8
    requires { (C : Closings) → Intact C s }
    ensures { (C : Closings) → (result ≡ code_of (add_of C s op).answer) × (session.new ≡ cond (eqb (code_of (add_of C s op).answer) 0) (put_at (session_bytes (add_of C s op).session) session.old 0) session.old) }
{
    let reply = add(s, op);
    let number = code(reply.answer);
    if number != 0 {
        return number;
    }
    placed(reply.session, session);
    number
}

// Adds a record, given by the numbers of its kind and fields, to the session that stands before the last eight of the lent bytes: 0, and all of them are
// the bytes of the longer session; or why not, and all stay.
pub fn wheelotter_add(
    session: &mut [u8],
    kind: u8,
    thread: u8,
    addr: u8,
    read: u16,
    written: u16,
) -> u8
    ensures { (C : Closings) → (result ≡ add_answer C session.old (op_in kind thread addr 0 read written)) × (session.new ≡ add_bytes C session.old (op_in kind thread addr 0 read written)) }
{
    let n = session.len();
    if n < RECORD {
        return UNLIKE;
    }
    let found = kept(&session[..n - RECORD]);
    if !found.like {
        return UNLIKE;
    }
    match op_in(kind, thread, addr, 0, read, written) {
        Some(op) => taken(found.session, op, session),
        None => NO_ENTRY,
    }
}

// The record that waits; 0 where none does.
fn record_in(a: Answer) -> usize
    ensures { result ≡ record_in a }
{
    match a {
        Answer::Waits(x) => x,
        _ => 0,
    }
}

// The lowest record of a session in bytes that waits for its source: its number is laid into the lent room. 0 where none waits.
pub fn wheelotter_waiting(session: &[u8], out: &mut [u8]) -> u8
    ensures { (C : Closings) → (result ≡ waiting_answer C session.now out.old) × (out.new ≡ waiting_bytes C session.now out.old) }
{
    let found = kept(session);
    if !found.like {
        return UNLIKE;
    }
    if out.len() < PLACE {
        return NO_ROOM;
    }
    let reply = waiting(found.session);
    let answer = reply.answer;
    let record = record_in(answer) as u16;
    let numbers = [record];
    put_wide(&numbers, out, 0);
    code(answer)
}
