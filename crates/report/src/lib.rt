// The text of an answer: what the program prints, made byte by byte in a lent buffer.
#![tactic(auto)]

ghost use Rattle.std.specs.Prelude.{◌≡◌, length};
ghost use Rattle.report.specs.Bounds.{REPORT};
ghost use Rattle.pairs.specs.Kept.{MODELS};
ghost use Rattle.report.specs.Wrote.{WroteLines, Written, Reported};

mod lines;
mod pieces;
pub mod render;

use lines::{put_line, put_refusal};
use pairs::MODELS;
use pieces::wide;
use reader::turns::number;
use reader::{Answer, LOST, read_whole};
use text::room::put;
use trace::{RECORDS, Trace};
use verdict::tell::verdict_of;

// How many digits a record's number has at the most.
const DIGITS: usize = 3;

// How many bytes an answer has at the most: a line for each model, with its words and two lists of numbers, a space before each.
pub const REPORT: usize = (MODELS as usize) * (46 + 2 * (1 + DIGITS) * RECORDS);

// The lines of a trace, one for each model, in a buffer that has room for them.
fn put_models(t: Trace, out: &mut [u8]) -> usize
    requires { length out.old ≡ REPORT }
    ensures { WroteLines t MODELS out.old out.new result }
{
    let mut at: usize = 0;
    for model in 1..=MODELS {
        at = put_line(model, verdict_of(t, model), out, at);
    }
    at
}

// The answer to a text, in a buffer that has room for any.
fn written(text: &[u8], out: &mut [u8]) -> usize
    requires { length out.old ≡ REPORT }
    ensures { Written text.now out.old out.new result }
{
    let reading = read_whole(text);
    match reading.answer {
        Answer::Good => put_models(reading.trace, out),
        Answer::Refused { reason, line } => put_refusal(wide(number(reason)), line, out, 0),
        Answer::Lost => put_refusal(wide(LOST), 0, out, 0),
    }
}

// The whole answer to a text, one line for each model or the line of a refusal, and how many bytes it has. A buffer that is too short stays as it
// is, and 0 comes back; one of REPORT bytes is always long enough.
pub fn report(text: &[u8], out: &mut [u8]) -> usize
    ensures { Reported text.now out.old out.new result }
{
    let mut whole = [0u8; REPORT];
    let n = written(text, &mut whole);
    put(&whole[..n], out, 0)
}
