// What is said of a text: the whole answer, and what is wrong with it.
ghost use Rattle.std.specs.Prelude.{◌≡◌};
ghost use Rattle.report.specs.Wrote.{Reported};
ghost use Rattle.reader.specs.BadLine.{bad_line_number, start_of, end_of};
ghost use Rattle.desk.specs.Text.{text_number};

// The whole answer to a text, in a lent buffer, and how many bytes it has; 0, and the buffer as it was, where it is too short.
#[unsafe(no_mangle)]
pub extern "C" fn wheelotter_report(text: &[u8], out: &mut [u8]) -> usize
    ensures { Reported text.now out.old out.new result }
{
    desk::texts::wheelotter_report(text, out)
}

// The documents' number of what is wrong with a text, 1 to 8, 17 or 22; 0 for a good one.
#[unsafe(no_mangle)]
pub extern "C" fn wheelotter_number(text: &[u8]) -> u8
    ensures { result ≡ text_number text.now }
{
    desk::texts::wheelotter_number(text)
}

// The line that a text is turned back for, counted from 1; 0 where no line is to blame.
#[unsafe(no_mangle)]
pub extern "C" fn wheelotter_line(text: &[u8]) -> usize
    ensures { result ≡ bad_line_number text.now }
{
    desk::texts::wheelotter_line(text)
}

// Where the line starts that a text is turned back for; 0 where no line is to blame.
#[unsafe(no_mangle)]
pub extern "C" fn wheelotter_start(text: &[u8]) -> usize
    ensures { result ≡ start_of text.now }
{
    desk::texts::wheelotter_start(text)
}

// Where that line ends, before its line feed; 0 where no line is to blame.
#[unsafe(no_mangle)]
pub extern "C" fn wheelotter_end(text: &[u8]) -> usize
    ensures { result ≡ end_of text.now }
{
    desk::texts::wheelotter_end(text)
}
