// What is said of a packed file.
ghost use Rattle.std.specs.Prelude.{◌≡◌};
ghost use Rattle.desk.specs.File.{file_number_in};
ghost use Rattle.desk.specs.Packs.{file_line_in};

use packed::{Answer, number};

// The number in the packed reader's answer.
pub(crate) fn number_in(a: Answer) -> u8
    ensures { result ≡ file_number_in a }
{
    match a {
        Answer::Good => 0,
        Answer::Refused { reason, line: _ } => number(reason),
    }
}

// The line in it.
pub(crate) fn line_in(a: Answer) -> usize
    ensures { result ≡ file_line_in a }
{
    match a {
        Answer::Good => 0,
        Answer::Refused { reason: _, line } => line,
    }
}
