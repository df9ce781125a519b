// A packed file on standard input, the text of its trace on standard output. A file that is turned back has the line of its refusal on standard error,
// and nothing is written. Where it could not read or write, or was given words, it says so on standard error.
#![tactic(auto)]

use packed::unpacking::read_whole;
use packed::{Answer, number};
use report::render::{RENDER, render};
use saying::args::arg_count;
use saying::input::fill;
use saying::{fail, front, refuse_at};
use std::io;
use std::io::{Stderr, Stdin, Stdout};
use trace::Trace;

// One byte more than a file whose head says how long it is may have, with 255 first values and 65,535 records: what is longer is left over, however
// much it is.
const ROOM: usize = 525054;

// Prints the first n bytes of a text.
fn show(stdout: Stdout, stderr: Stderr, text: &[u8], n: usize) -> io::Result<()> {
    front(&stdout, text, n).or_else(|why| fail(stderr, b"unpack: standard output", why))
}

// Prints the text of a trace.
fn print(stdout: Stdout, stderr: Stderr, t: Trace) -> io::Result<()> {
    let mut text = [0u8; RENDER];
    let n = render(t, &mut text);
    show(stdout, stderr, &text, n)
}

// Prints the text of a file's trace, or why there is none.
fn answer(stdout: Stdout, stderr: Stderr, file: &[u8]) -> io::Result<()> {
    let reading = read_whole(file);
    match reading.answer {
        Answer::Good => print(stdout, stderr, reading.trace),
        Answer::Refused { reason, line } => refuse_at(stderr, number(reason), b" line ", line),
    }
}

// Reads the file into lent memory and unpacks it. Where a read failed nothing is told: half a file is none.
fn unpack_in(mut stdin: Stdin, stdout: Stdout, stderr: Stderr, file: &mut [u8]) -> io::Result<()> {
    match fill(&mut stdin, file) {
        Ok(n) => answer(stdout, stderr, &file[..n]),
        Err(why) => fail(stderr, b"unpack: standard input", why),
    }
}

// The same with memory for it.
fn unpack(stdin: Stdin, stdout: Stdout, stderr: Stderr) -> io::Result<()> {
    let mut file = [0u8; ROOM];
    unpack_in(stdin, stdout, stderr, &mut file)
}

fn main(rt: HostRuntime) -> io::Result<()> {
    if arg_count(&rt) > 1 {
        eprintln!(rt; "usage: unpack < FILE > TRACE (it takes no words)")
    } else {
        unpack(rt.stdin(), rt.stdout(), rt.stderr())
    }
}
