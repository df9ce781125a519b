// Standard input or a file into lent memory. Where a read fails the input has not ended, and nothing may be said of it.
ghost use Rattle.std.specs.Prelude.{◌≤◌, IfOk, length};

use std::io::{ErrorKind, Read};
use std::rt::Files;
use std::{fs, io};

// How many interrupted reads are tried again before one counts as failed.
const TRIES: usize = 1000;

// Whether a signal came before the call that failed had moved a byte.
pub fn interrupted(why: &io::Error) -> bool {
    why.kind() == ErrorKind::Interrupted
}

// Reads until the memory is full or the input has ended: how many bytes came; an error where a read fails.
pub fn fill(from: &mut impl Read, buf: &mut [u8]) -> io::Result<usize>
    ensures { IfOk result (λ n. n ≤ length buf.new) }
{
    let mut done: usize = 0;
    let mut tries = TRIES;
    // Not a `for`: each turn adds as many bytes as came.
    while done < buf.len() {
        match from.read(&mut buf[done..]) {
            Ok(0) => break,
            Ok(n) => done += n,
            Err(why) if 0 < tries && interrupted(&why) => tries -= 1,
            Err(why) => return Err(why),
        }
    }
    Ok(done)
}

// Opens a file and reads it until the memory is full or the file has ended; an error where it cannot be opened or a read fails.
pub fn fill_file(rt: &impl Files, path: &[u8], buf: &mut [u8]) -> io::Result<usize>
    ensures { IfOk result (λ n. n ≤ length buf.new) }
{
    let Ok(name) = str::from_utf8(path) else {
        return Err(io::Error::from(ErrorKind::InvalidFilename));
    };
    let mut file = fs::open(rt, name)?;
    fill(&mut file, buf)
}
