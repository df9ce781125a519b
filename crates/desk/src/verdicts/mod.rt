// What is said of the trace that a text writes.
ghost use Rattle.std.specs.Prelude.{◌≡◌, ◌++◌, ◌+◌, ◌*◌, ◌≤◌, ◌<◌, length, drop};
ghost use Rattle.trace.specs.Bounds.{RECORDS};
ghost use Rattle.desk.specs.AnswerNumbers.{outcome_number};
ghost use Rattle.text.specs.Room.{put_at};
ghost use Rattle.desk.specs.VerdictBytes.{VERDICT, wide, VerdictAnswered};
ghost use Rattle.desk.specs.inner.SpelledVerdict.{lacking, spelled, laid_out};

use crate::answers::{CIRCLE, NO_ROOM, NONE_LEFT, ORDER};
use crate::texts::number_in;
use pairs::modelled;
use reader::read_whole;
use text::room::put;
use trace::RECORDS;
use verdict::tell::verdict_of;
use verdict::{Outcome, Verdict};

// How many bytes a verdict has: how many operations it tells and the operations, two bytes each, and the rules.
pub(crate) const VERDICT: usize = 2 + 3 * RECORDS;

// The answer to a verdict, by its outcome.
pub(crate) fn outcome_number(outcome: Outcome) -> u8
    ensures { result ≡ outcome_number outcome }
{
    match outcome {
        Outcome::NoSource(_) => 11,
        Outcome::Circle => CIRCLE,
        Outcome::Order => ORDER,
        Outcome::NoneLeft => NONE_LEFT,
        Outcome::NoModel => 9,
        Outcome::NotWellFormed => 10,
    }
}

// A verdict as it is told: a record that lacks a source is its one operation.
pub(crate) fn spelled(v: Verdict) -> Verdict
    requires { lacking v.outcome < RECORDS }
    ensures { result ≡ spelled v }
{
    let outcome = v.outcome;
    match outcome {
        Outcome::NoSource(x) => {
            let mut operations = [0u16; RECORDS];
            operations[0] = x as u16;
            Verdict {
                outcome,
                len: 1,
                operations,
                rules: [0; RECORDS],
            }
        }
        Outcome::Circle => v,
        Outcome::Order => v,
        Outcome::NoneLeft => v,
        Outcome::NoModel => v,
        Outcome::NotWellFormed => v,
    }
}

// Numbers in two bytes each, the low byte first, from a place on where they have room.
pub(crate) fn put_wide(numbers: &[u16], out: &mut [u8], at: usize)
    requires { at + 2 * length numbers.now ≤ length out.old }
    ensures { out.new ≡ put_at (wide numbers.now) out.old at }
{
    for i in 0..numbers.len() {
        let n = numbers[i];
        let low = (n % 256) as u8;
        let high = (n / 256) as u8;
        let bytes = [low, high];
        put(&bytes, out, at + 2 * i);
    }
}

// The bytes of a verdict at the front of a buffer that has room for them.
pub(crate) fn lay(v: Verdict, out: &mut [u8])
    requires { (v.len ≤ RECORDS) × (VERDICT ≤ length out.old) }
    ensures { out.new ≡ laid_out v ++ drop VERDICT out.old }
{
    let len = v.len as u16;
    let count = [len];
    let operations = v.operations;
    let rules = v.rules;
    put_wide(&count, out, 0);
    put_wide(&operations, out, 2);
    put(&rules, out, 2 + 2 * RECORDS);
}

// The verdict on a text under a model: its outcome as a number, its operations and rules in a lent buffer. The buffer stays as it was where the
// text is turned back, where there is no such model, and where the buffer is too short, told in this order.
pub fn wheelotter_verdict(text: &[u8], model: u8, out: &mut [u8]) -> u8
    ensures { VerdictAnswered text.now model out.old out.new result }
{
    let reading = read_whole(text);
    let wrong = number_in(reading.answer);
    if 0 < wrong {
        return wrong;
    }
    if !modelled(model) {
        return 9;
    }
    if out.len() < VERDICT {
        return NO_ROOM;
    }
    let verdict = verdict_of(reading.trace, model);
    let outcome = verdict.outcome;
    lay(spelled(verdict), out);
    outcome_number(outcome)
}
