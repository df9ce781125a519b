// What is said of a text: the whole answer, and what is wrong with it.
ghost use Rattle.std.specs.Prelude.{◌≡◌};
ghost use Rattle.report.specs.Wrote.{Reported};
ghost use Rattle.reader.specs.BadLine.{line_in, bad_line_number, start_of, end_of};
ghost use Rattle.desk.specs.Text.{number_in, text_number};

use reader::turns::number;
use reader::{Answer, LOST, bad_place, read, read_whole};

// The whole answer to a text, in a lent buffer, and how many bytes it has; 0, and the buffer as it was, where it is too short.
pub fn wheelotter_report(text: &[u8], out: &mut [u8]) -> usize
    ensures { Reported text.now out.old out.new result }
{
    report::report(text, out)
}

// The number in a reader's answer.
pub(crate) fn number_in(a: Answer) -> u8
    ensures { result ≡ number_in a }
{
    match a {
        Answer::Good => 0,
        Answer::Refused { reason, line: _ } => number(reason),
        Answer::Lost => LOST,
    }
}

// The line in a reader's answer.
fn line_in(a: Answer) -> usize
    ensures { result ≡ line_in a }
{
    match a {
        Answer::Good => 0,
        Answer::Refused { reason: _, line } => line,
        Answer::Lost => 0,
    }
}

// The documents' number of what is wrong with a text, 1 to 8, 17 or 22; 0 for a good one.
pub fn wheelotter_number(text: &[u8]) -> u8
    ensures { result ≡ text_number text.now }
{
    let reading = read_whole(text);
    number_in(reading.answer)
}

// The line that a text is turned back for, counted from 1; 0 where no line is to blame.
pub fn wheelotter_line(text: &[u8]) -> usize
    ensures { result ≡ bad_line_number text.now }
{
    let reading = read(text);
    line_in(reading.answer)
}

// Where the line starts that a text is turned back for; 0 where no line is to blame.
pub fn wheelotter_start(text: &[u8]) -> usize
    ensures { result ≡ start_of text.now }
{
    let place = bad_place(text);
    place.start
}

// Where that line ends, before its line feed; 0 where no line is to blame.
pub fn wheelotter_end(text: &[u8]) -> usize
    ensures { result ≡ end_of text.now }
{
    let place = bad_place(text);
    place.end
}
