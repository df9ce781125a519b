// A text on standard input, the packed file of its trace on standard output. A text that is turned back has the line of its refusal on standard error,
// and nothing is written. Where it could not read or write, or was given words, it says so on standard error.
#![tactic(auto)]

use packed::packing::write_whole;
use packed::{FILE, Unwritten};
use reader::turns::number;
use reader::{Answer, LOST};
use saying::args::arg_count;
use saying::input::fill;
use saying::{fail, front, refuse_at};
use std::io;
use std::io::{Stderr, Stdin, Stdout};
use trace::Trace;

// One byte more than a text may have, so that a text that is too long shows itself.
const ROOM: usize = 32769;

// Prints the first n bytes of a file.
fn show(stdout: Stdout, stderr: Stderr, file: &[u8], n: usize) -> io::Result<()> {
    front(&stdout, file, n).or_else(|why| fail(stderr, b"pack: standard output", why))
}

// Prints the file of a trace.
fn store(stdout: Stdout, stderr: Stderr, t: Trace) -> io::Result<()> {
    let mut file = [0u8; FILE];
    match write_whole(t, &mut file) {
        Ok(n) => show(stdout, stderr, &file, n),
        Err(Unwritten::NotWellFormed) => refuse_at(stderr, 10, b" line ", 0),
        Err(Unwritten::NoRoom) => refuse_at(stderr, 21, b" line ", 0),
        Err(Unwritten::Lost) => refuse_at(stderr, LOST, b" line ", 0),
    }
}

// Prints the file of a text's trace, or why there is none.
fn answer(stdout: Stdout, stderr: Stderr, text: &[u8]) -> io::Result<()> {
    let reading = reader::read_whole(text);
    match reading.answer {
        Answer::Good => store(stdout, stderr, reading.trace),
        Answer::Refused { reason, line } => refuse_at(stderr, number(reason), b" line ", line),
        Answer::Lost => refuse_at(stderr, LOST, b" line ", 0),
    }
}

// Reads the text and packs it. Where a read failed nothing is packed: half a trace is another trace.
fn pack(mut stdin: Stdin, stdout: Stdout, stderr: Stderr) -> io::Result<()> {
    let mut text = [0u8; ROOM];
    match fill(&mut stdin, &mut text) {
        Ok(n) => answer(stdout, stderr, &text[..n]),
        Err(why) => fail(stderr, b"pack: standard input", why),
    }
}

fn main(rt: HostRuntime) -> io::Result<()> {
    if arg_count(&rt) > 1 {
        eprintln!(rt; "usage: pack < TRACE > FILE (it takes no words)")
    } else {
        pack(rt.stdin(), rt.stdout(), rt.stderr())
    }
}
