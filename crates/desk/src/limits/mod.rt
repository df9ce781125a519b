// What is said of the trace that a text writes within a limit of steps.
ghost use Rattle.std.specs.Prelude.{◌≡◌, ◌≤◌, length};
ghost use Rattle.text.specs.Room.{put_at};
ghost use Rattle.desk.specs.VerdictBytes.{VERDICT};
ghost use Rattle.desk.specs.Limits.{LIMITED, eight, limit_number, shown_as, shown, LimitAnswered};

use crate::answers::{NO_ROOM, UNDECIDED};
use crate::texts::number_in;
use crate::verdicts::{VERDICT, lay, outcome_number, put_wide, spelled};
use limited::tell::limited_verdict;
use limited::{Limit, Limited};
use pairs::modelled;
use reader::read_whole;
use verdict::{Outcome, Verdict};

// How many bytes a limited verdict has: a verdict's, and the count of steps.
const LIMITED: usize = VERDICT + 8;

// The answer to a limited verdict, by its outcome.
fn limit_number(outcome: Limited) -> u8
    ensures { result ≡ limit_number outcome }
{
    match outcome {
        Limited::Decided(o) => outcome_number(o),
        Limited::Undecided => UNDECIDED,
    }
}

// The outcome whose bytes are laid: undecided names nothing, as where none is left.
fn shown_as(outcome: Limited) -> Outcome
    ensures { result ≡ shown_as outcome }
{
    match outcome {
        Limited::Decided(o) => o,
        Limited::Undecided => Outcome::NoneLeft,
    }
}

// The verdict whose bytes are laid.
fn shown(r: Limit) -> Verdict
    ensures { result ≡ shown r }
{
    let outcome = r.outcome;
    let operations = r.operations;
    let rules = r.rules;
    Verdict {
        outcome: shown_as(outcome),
        len: r.len,
        operations,
        rules,
    }
}

// A count behind the bytes of a verdict, in a buffer that has room for both.
fn lay_steps(steps: u64, out: &mut [u8])
    requires { LIMITED ≤ length out.old }
    ensures { out.new ≡ put_at (eight steps) out.old VERDICT }
{
    let parts = [
        (steps % 65536) as u16,
        (steps / 65536 % 65536) as u16,
        (steps / 4294967296 % 65536) as u16,
        (steps / 281474976710656) as u16,
    ];
    put_wide(&parts, out, VERDICT);
}

// The verdict on a text under a model within a limit of steps: its outcome as a number, its operations, rules and count in a lent buffer. The buffer
// stays as it was where the text is turned back, where there is no such model, and where the buffer is too short, told in this order.
pub fn wheelotter_limited(text: &[u8], model: u8, limit: u64, out: &mut [u8]) -> u8
    ensures { LimitAnswered text.now model limit out.old out.new result }
{
    let reading = read_whole(text);
    let wrong = number_in(reading.answer);
    if 0 < wrong {
        return wrong;
    }
    if !modelled(model) {
        return 9;
    }
    if out.len() < LIMITED {
        return NO_ROOM;
    }
    let limited = limited_verdict(reading.trace, model, limit);
    let outcome = limited.outcome;
    let steps = limited.steps;
    lay(spelled(shown(limited)), out);
    lay_steps(steps, out);
    limit_number(outcome)
}
