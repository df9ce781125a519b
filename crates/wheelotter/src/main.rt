// The program at the bench: a text on standard input, one line for each model on standard output, or the line of a refusal. Where it could not read or
// write, or was given words, it says so on standard error.
#![tactic(auto)]

use saying::args::arg_count;
use saying::fail;
use saying::input::fill;
use std::io;
use std::io::{Stderr, Stdin, Stdout};

// One byte more than a text may have, so that a text that is too long shows itself.
const ROOM: usize = 32769;

// Prints the answer to a text.
fn answer(stdout: Stdout, stderr: Stderr, text: &[u8]) -> io::Result<()> {
    let mut out = [0u8; report::REPORT];
    let n = report::report(text, &mut out);
    stdout
        .write_all(&out[..n])
        .or_else(|why| fail(stderr, b"wheelotter: standard output", why))
}

// Reads the text and answers it. Where a read failed nothing is judged: half a trace may be good where the whole one is not.
fn judge(mut stdin: Stdin, stdout: Stdout, stderr: Stderr) -> io::Result<()> {
    let mut text = [0u8; ROOM];
    match fill(&mut stdin, &mut text) {
        Ok(n) => answer(stdout, stderr, &text[..n]),
        Err(why) => fail(stderr, b"wheelotter: standard input", why),
    }
}

fn main(rt: HostRuntime) -> io::Result<()> {
    if arg_count(&rt) > 1 {
        eprintln!(rt; "usage: wheelotter < TRACE (it takes no words)")
    } else {
        judge(rt.stdin(), rt.stdout(), rt.stderr())
    }
}
