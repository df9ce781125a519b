// A night's worth of runs of the test program that a text writes, told by their words: the verdict on each, in one call.
ghost use Rattle.std.specs.Prelude.{◌≡◌, ◌<◌};
ghost use Rattle.desk.specs.Nights.{PLACES, with_run, night_code, Nighted};

use crate::signatures::with_place;
use crate::texts::number_in;
use night::Reason;
use night::runs::night;
use reader::read_whole;

// Runs are told below this; no memory has as many.
const RUNS: usize = 4294967296;

// A number with a run above it; the number alone where the run is past the last that is told.
fn with_run(number: usize, run: usize) -> usize
    requires { number < PLACES }
    ensures { result ≡ with_run number run }
{
    if run < RUNS {
        return number + 65536 * run;
    }
    number
}

// An answer in one number: 0, or the documents' number, and above 24 the word, and above it the run.
fn night_code(answer: Result<(), Reason>) -> usize
    ensures { result ≡ night_code answer }
{
    match answer {
        Ok(()) => 0,
        Err(Reason::NotWellFormed) => 10,
        Err(Reason::NoModel) => 9,
        Err(Reason::WrongLength) => 26,
        Err(Reason::TooLarge(run, word)) => with_run(with_place(24, word), run),
    }
}

// The verdicts on the runs of a text's program, a block of numbers each; beside what is wrong with the text and beside a refusal the lent memory stays as it
// was.
pub fn wheelotter_night(text: &[u8], model: u8, words: &[u64], out: &mut [u16]) -> usize
    ensures { Nighted text.now model words.now out.old out.new result }
{
    let reading = read_whole(text);
    let wrong = number_in(reading.answer);
    if 0 < wrong {
        return wrong as usize;
    }
    night_code(night(reading.trace, model, words, out))
}
