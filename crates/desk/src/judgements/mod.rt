// What the judge says of a proposed list, over the trace that a text writes.
ghost use Rattle.std.specs.Prelude.{◌≡◌};
ghost use Rattle.desk.specs.JudgeCall.{judgement_number, concerns, second, Judged};

use crate::answers::{BAD_NUMBER, NO_ROOM, OUT_OF_TURN, REPEAT, VALID, WRONG_LENGTH, WRONG_VALUE};
use crate::texts::number_in;
use crate::verdicts::put_wide;
use judge::judging::{Broken, judge};
use pairs::modelled;
use reader::read_whole;

// How many bytes come with an answer: two numbers of two bytes each.
const JUDGEMENT: usize = 4;

// The answer to a judgement.
fn judgement_number(j: Result<(), Broken>) -> u8
    ensures { result ≡ judgement_number j }
{
    match j {
        Ok(_) => VALID,
        Err(Broken::NoModel) => 9,
        Err(Broken::NotWellFormed) => 10,
        Err(Broken::WrongLength) => WRONG_LENGTH,
        Err(Broken::BadNumber(_)) => BAD_NUMBER,
        Err(Broken::Repeat(_)) => REPEAT,
        Err(Broken::OutOfTurn(_, _)) => OUT_OF_TURN,
        Err(Broken::WrongValue(_)) => WRONG_VALUE,
    }
}

// The place or the record that comes with a judgement, of a pair the first.
fn concerns(j: Result<(), Broken>) -> usize
    ensures { result ≡ concerns j }
{
    match j {
        Err(Broken::BadNumber(i)) => i,
        Err(Broken::Repeat(x)) => x,
        Err(Broken::OutOfTurn(x, _)) => x,
        Err(Broken::WrongValue(x)) => x,
        Err(Broken::WrongLength) => 0,
        Err(Broken::NotWellFormed) => 0,
        Err(Broken::NoModel) => 0,
        Ok(_) => 0,
    }
}

// The second record of a pair that is out of turn.
fn second(j: Result<(), Broken>) -> usize
    ensures { result ≡ second j }
{
    match j {
        Err(Broken::OutOfTurn(_, y)) => y,
        _ => 0,
    }
}

// Whether a list is a valid order of the trace that a text writes, or which condition it fails first; the place or the records concerned stand in the
// lent buffer. The buffer stays as it was where the text is turned back, where there is no such model, and where it is too short, told in this order.
pub fn wheelotter_judge(text: &[u8], model: u8, list: &[u16], out: &mut [u8]) -> u8
    ensures { Judged text.now model list.now out.old out.new result }
{
    let reading = read_whole(text);
    let wrong = number_in(reading.answer);
    if 0 < wrong {
        return wrong;
    }
    if !modelled(model) {
        return 9;
    }
    if out.len() < JUDGEMENT {
        return NO_ROOM;
    }
    let j = judge(reading.trace, model, list);
    let one = concerns(j) as u16;
    let other = second(j) as u16;
    let numbers = [one, other];
    put_wide(&numbers, out, 0);
    judgement_number(j)
}
