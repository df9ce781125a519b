// What is left of a faulty trace that a text writes.
ghost use Rattle.std.specs.Prelude.{◌≡◌, cond, ◌∷◌, ◌++◌, ◌+◌, ◌≤◌, ◌<◌, length};
ghost use Rattle.trace.specs.Bounds.{RECORDS, VALUES};
ghost use Rattle.text.specs.Room.{has_room, put_at};
ghost use Rattle.desk.specs.AnswerNumbers.{NO-ROOM};
ghost use Rattle.desk.specs.VerdictBytes.{wide};
ghost use Rattle.desk.specs.Cuts.{LEFT, smaller_number, heading, left_bytes, CutAnswered};

use crate::answers::{CUT, NO_ROOM, NOTHING_WRONG};
use crate::texts::number_in;
use crate::verdicts::put_wide;
use pairs::modelled;
use reader::read_whole;
use report::render::{RENDER, render};
use smaller::cut::smaller;
use smaller::{Answer, Smaller};
use text::room::put;
use trace::RECORDS;

// How many bytes stand before the text of what is left: two numbers, and the old numbers' places, two bytes each.
const LEFT: usize = 4 + 2 * RECORDS;

// The answer.
fn smaller_number(answer: Answer) -> u8
    ensures { result ≡ smaller_number answer }
{
    match answer {
        Answer::NoModel => 9,
        Answer::NotWellFormed => 10,
        Answer::NoSource(_) => 11,
        Answer::NothingWrong => NOTHING_WRONG,
        Answer::Cut => CUT,
    }
}

// The number in front: how many records are left; beside a missing source the record that lacks it.
fn heading(answer: Answer, left: usize) -> usize
    ensures { result ≡ heading answer left }
{
    match answer {
        Answer::NoSource(x) => x,
        _ => left,
    }
}

// A number and how many bytes a text has, old numbers and the text at the front of a buffer that has room for them.
fn lay(front: usize, olds: &[u16], lines: &[u8], out: &mut [u8])
    requires { (front < VALUES) × (length lines.now < VALUES) × (length olds.now ≡ RECORDS) × (LEFT + length lines.now ≤ length out.old) }
    ensures { out.new ≡ put_at (wide (front ∷ length lines.now ∷ olds.now) ++ lines.now) out.old 0 }
{
    let size = lines.len() as u16;
    let numbers = [front as u16, size];
    put_wide(&numbers, out, 0);
    put_wide(olds, out, 4);
    put(lines, out, LEFT);
}

// An answer in lent bytes, where they have room for it.
fn hand_over(s: Smaller, out: &mut [u8]) -> u8
    requires { heading s.answer s.trace.len ≤ RECORDS }
    ensures { (result ≡ cond (has_room (left_bytes s) out.old 0) (smaller_number s.answer) NO-ROOM) × (out.new ≡ put_at (left_bytes s) out.old 0) }
{
    let answer = s.answer;
    let part = s.trace;
    let olds = s.olds;
    let mut lines = [0u8; RENDER];
    let n = render(part, &mut lines);
    if out.len() < LEFT + n {
        return NO_ROOM;
    }
    lay(heading(answer, part.len), &olds, &lines[..n], out);
    smaller_number(answer)
}

// What is left of the trace that a text writes, where it is faulty under a model: how many records, their old numbers and their text, in lent bytes.
// These stay as they were where the text is turned back, where there is no such model, and where they are too short, told in this order.
pub fn wheelotter_smaller(text: &[u8], model: u8, out: &mut [u8]) -> u8
    ensures { CutAnswered text.now model out.old out.new result }
{
    let reading = read_whole(text);
    let wrong = number_in(reading.answer);
    if 0 < wrong {
        return wrong;
    }
    if !modelled(model) {
        return 9;
    }
    hand_over(smaller(reading.trace, model), out)
}
