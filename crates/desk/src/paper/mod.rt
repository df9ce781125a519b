// Papers, over the trace that a text writes: the small reader, and the writer.
ghost use Rattle.std.specs.Prelude.{◌≡◌, ◌++◌, ◌≤◌, length, drop};
ghost use Rattle.desk.specs.PaperCall.{acceptance_number, Papered};
ghost use Rattle.desk.specs.PaperWritten.{LIST, listed_number, list_shown?, length_of, halves, PaperAsked};

use crate::answers::{ACCEPTED, NO_ROOM, NOT_ACCEPTED, NOTHING_TO_SHOW, SHOWN};
use crate::texts::number_in;
use pairs::modelled;
use papers::reading::{Refusal, accepts};
use reader::read_whole;
use reasons::listing::{Reason, write};

// Where a list begins, behind its length in two numbers.
const LIST: usize = 2;

// The answer to what the small reader says.
fn acceptance_number(a: Result<bool, Refusal>) -> u8
    ensures { result ≡ acceptance_number a }
{
    match a {
        Err(Refusal::NoModel) => 9,
        Err(Refusal::NotWellFormed) => 10,
        Ok(true) => ACCEPTED,
        Ok(false) => NOT_ACCEPTED,
    }
}

// Whether a list, from anyone, is a paper that shows that the trace of a text has no valid order under a model. A text that is turned back is told first,
// then that there is no such model.
pub fn wheelotter_accepts(text: &[u8], model: u8, list: &[u16]) -> u8
    ensures { Papered text.now model list.now result }
{
    let reading = read_whole(text);
    let wrong = number_in(reading.answer);
    if 0 < wrong {
        return wrong;
    }
    let a = accepts(reading.trace, model, list);
    acceptance_number(a)
}

// The answer to what the writer says.
fn listed_number(w: Result<Option<usize>, Reason>) -> u8
    ensures { result ≡ listed_number w }
{
    match w {
        Err(Reason::NoModel) => 9,
        Err(Reason::NotWellFormed) => 10,
        Err(Reason::TooLong) => NO_ROOM,
        Ok(None) => NOTHING_TO_SHOW,
        Ok(Some(_)) => SHOWN,
    }
}

// Whether a list is shown.
fn shown(w: Result<Option<usize>, Reason>) -> bool
    ensures { result ≡ list_shown? w }
{
    matches!(w, Ok(Some(_)))
}

// How many numbers it has; 0 where there is none.
fn length_of(w: Result<Option<usize>, Reason>) -> usize
    ensures { result ≡ length_of w }
{
    match w {
        Ok(Some(n)) => n,
        _ => 0,
    }
}

// Puts a length in front of a list, the low half first.
fn put_length(n: usize, out: &mut [u16])
    requires { LIST ≤ length out.old }
    ensures { out.new ≡ halves n ++ drop LIST out.old }
{
    out[0] = (n % 65536) as u16;
    out[1] = (n / 65536 % 65536) as u16;
}

// Why the trace of a text has no valid order under a model: the length of the list and the list, in lent numbers. A text that is turned back is told first,
// then that there is no such model, then that there is not even room for a length; the numbers stay as they were there, and where there is nothing to
// show or no room for the list.
pub fn wheelotter_paper(text: &[u8], model: u8, out: &mut [u16]) -> u8
    ensures { PaperAsked text.now model out.old out.new result }
{
    let reading = read_whole(text);
    let wrong = number_in(reading.answer);
    if 0 < wrong {
        return wrong;
    }
    if !modelled(model) {
        return 9;
    }
    if out.len() < LIST {
        return NO_ROOM;
    }
    let w = write(reading.trace, model, &mut out[LIST..]);
    if shown(w) {
        put_length(length_of(w), out);
        return SHOWN;
    }
    listed_number(w)
}
