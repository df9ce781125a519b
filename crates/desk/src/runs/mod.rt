// The machine over the trace that a text writes: a run by a list of steps, and the steps that run an order through.
ghost use Rattle.std.specs.Prelude.{◌≡◌, ◌++◌, ◌≤◌, length, drop};
ghost use Rattle.machine.specs.Machine.{stuck_at};
ghost use Rattle.machine.specs.Replay.{STEPS};
ghost use Rattle.desk.specs.Runs.{REPLAY, through_number, ran_number, given_number, spread, RunAnswered, Replayed};

use crate::answers::{NO_ORDER, NO_ROOM, NOT_THROUGH, REPLAYED, STUCK, THROUGH};
use crate::texts::number_in;
use crate::verdicts::put_wide;
use machine::replaying::steps_of;
use machine::running::{machined, run};
use machine::{Given, Refusal, STEPS, Steps};
use reader::read_whole;
use text::room::put;

// How many bytes come with the end of a run: a place of two bytes.
pub(crate) const PLACE: usize = 2;

// How many bytes steps from an order have: how many there are, two bytes, and the list's places.
const REPLAY: usize = 2 + STEPS;

// The answer to a run whose steps are all done.
fn through_number(all: bool) -> u8
    ensures { result ≡ through_number all }
{
    if all {
        return THROUGH;
    }
    NOT_THROUGH
}

// The answer to a run.
fn ran_number(ran: Result<bool, Refusal>) -> u8
    ensures { result ≡ ran_number ran }
{
    match ran {
        Err(Refusal::NoModel) => 9,
        Err(Refusal::NotWellFormed) => 10,
        Err(Refusal::Stuck(_)) => STUCK,
        Ok(all) => through_number(all),
    }
}

// The place that comes with the end of a run.
fn place_of(ran: Result<bool, Refusal>) -> usize
    ensures { result ≡ stuck_at ran }
{
    match ran {
        Err(Refusal::Stuck(i)) => i,
        _ => 0,
    }
}

// The answer to what comes of an order.
fn given_number(given: Given) -> u8
    ensures { result ≡ given_number given }
{
    match given {
        Given::NoModel => 9,
        Given::NotWellFormed => 10,
        Given::NoOrder => NO_ORDER,
        Given::List => REPLAYED,
    }
}

// Runs the trace that a text writes by a list of steps; the place of the first impossible one stands in the lent buffer. The buffer stays as it was
// where the text is turned back, where the model has no machine, and where it is too short, told in this order.
pub fn wheelotter_run(text: &[u8], model: u8, steps: &[u8], out: &mut [u8]) -> u8
    ensures { RunAnswered text.now model steps.now out.old out.new result }
{
    let reading = read_whole(text);
    let wrong = number_in(reading.answer);
    if 0 < wrong {
        return wrong;
    }
    if !machined(model) {
        return 9;
    }
    if out.len() < PLACE {
        return NO_ROOM;
    }
    let ran = run(reading.trace, model, steps);
    let place = place_of(ran) as u16;
    let numbers = [place];
    put_wide(&numbers, out, 0);
    ran_number(ran)
}

// Steps at the front of a buffer that has room for them.
fn lay(s: Steps, out: &mut [u8])
    requires { (s.len ≤ STEPS) × (REPLAY ≤ length out.old) }
    ensures { out.new ≡ spread s ++ drop REPLAY out.old }
{
    let len = s.len as u16;
    let count = [len];
    let steps = s.steps;
    put_wide(&count, out, 0);
    put(&steps, out, 2);
}

// The steps by which the machine runs the trace that a text writes through in an order, in a lent buffer. The buffer stays as it was where the text is
// turned back, where the model has no machine, and where it is too short, told in this order; a list that is no valid order leaves no steps.
pub fn wheelotter_steps(text: &[u8], model: u8, order: &[u16], out: &mut [u8]) -> u8
    ensures { Replayed text.now model order.now out.old out.new result }
{
    let reading = read_whole(text);
    let wrong = number_in(reading.answer);
    if 0 < wrong {
        return wrong;
    }
    if !machined(model) {
        return 9;
    }
    if out.len() < REPLAY {
        return NO_ROOM;
    }
    let s = steps_of(reading.trace, model, order);
    let given = s.given;
    lay(s, out);
    given_number(given)
}
