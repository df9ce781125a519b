// The signature of what a text's loads saw: a text on standard input, a line of words for each of the eight threads on standard output. With the word `back`
// the input has an empty line and words behind the text, and what the loads saw with these words is printed, a line each, by record number. What is turned back
// is told on standard error, and nothing is printed; so is what could not be read or written, and how the program is used.
#![tactic(auto)]

mod list;

use list::{empty_line, numbers};
use reader::LOST;
use reader::turns::number;
use saying::args::{arg, arg_count};
use saying::input::fill;
use saying::{fail, refuse, refuse_at};
use signature::packing::{loads_of, pack, words_in, words_of};
use signature::unpacking::unpack;
use std::env::Env;
use std::io;
use std::io::{Stderr, Stdin, Stdout};
use trace::{RECORDS, THREADS, Trace};

// How many bytes are read: a text of the longest, an empty line, and words in plenty; and one more, so that a longer input shows itself.
const ROOM: usize = 65537;

// Prints words with spaces between, and ends the line.
fn print_line(stdout: Stdout, words: &[u64]) -> io::Result<()> {
    for (i, word) in words.iter().enumerate() {
        if 0 < i {
            print!(stdout; " ")?;
        }
        print!(stdout; "{word}")?;
    }
    println!(stdout; "")
}

// Prints the words of each thread, a line each.
fn print_threads(stdout: Stdout, t: Trace, words: &[u64]) -> io::Result<()> {
    let mut rest = words;
    for core in 0..THREADS {
        if let Some((line, others)) = rest.split_at_checked(words_in(t, core)) {
            print_line(stdout, line)?;
            rest = others;
        }
    }
    Ok(())
}

// Prints reads, a line each.
fn print_reads(stdout: Stdout, reads: &[u16]) -> io::Result<()> {
    for read in reads {
        println!(stdout; "{read}")?;
    }
    Ok(())
}

// Tells why nothing is printed.
fn refused(stderr: Stderr, reason: signature::Reason) -> io::Result<()> {
    match reason {
        signature::Reason::NotWellFormed => refuse(stderr, 10),
        signature::Reason::WrongLength => refuse(stderr, 26),
        signature::Reason::NotListed(load) => refuse_at(stderr, 23, b" record ", load),
        signature::Reason::TooLarge(word) => refuse_at(stderr, 24, b" word ", word),
    }
}

// The words of a trace's reads.
fn forth(stdout: Stdout, stderr: Stderr, t: Trace) -> io::Result<()> {
    let mut room = [0u64; RECORDS];
    let Some(words) = room.get_mut(..words_of(t)) else {
        return Ok(());
    };
    match pack(t, words) {
        Ok(()) => print_threads(stdout, t, words),
        Err(reason) => refused(stderr, reason),
    }
}

// The reads that words stand for.
fn back(stdout: Stdout, stderr: Stderr, t: Trace, words: &[u64]) -> io::Result<()> {
    let mut room = [0u16; RECORDS];
    let Some(reads) = room.get_mut(..loads_of(t)) else {
        return Ok(());
    };
    match unpack(t, words, reads) {
        Ok(()) => print_reads(stdout, reads),
        Err(reason) => refused(stderr, reason),
    }
}

// The same where the words are still to be read.
fn back_listed(stdout: Stdout, stderr: Stderr, t: Trace, bytes: &[u8]) -> io::Result<()> {
    let mut list = [0u64; 257];
    match numbers(bytes, &mut list) {
        Some(count) => back(stdout, stderr, t, &list[..count]),
        None => eprintln!(stderr; "no list of words"),
    }
}

// What a text and the words behind it come to, with words or back.
fn answered(
    stdout: Stdout,
    stderr: Stderr,
    text: &[u8],
    bytes: &[u8],
    backwards: bool,
) -> io::Result<()> {
    let reading = reader::read_whole(text);
    match reading.answer {
        reader::Answer::Good => {
            if backwards {
                back_listed(stdout, stderr, reading.trace, bytes)
            } else {
                forth(stdout, stderr, reading.trace)
            }
        }
        reader::Answer::Refused { reason, line } => refuse_at(
            stderr,
            number(reason),
            b" line ",
            line,
        ),
        reader::Answer::Lost => refuse_at(stderr, LOST, b" line ", 0),
    }
}

// What an input comes to: all of it is the text, or backwards what stands before the first empty line.
fn split(stdout: Stdout, stderr: Stderr, input: &[u8], backwards: bool) -> io::Result<()> {
    if !backwards {
        return answered(stdout, stderr, input, b"", false);
    }
    let (text, bytes) = input.split_at(empty_line(input));
    answered(stdout, stderr, text, bytes, true)
}

// Reads the input and answers it. Where a read failed nothing is told: half a text is another one.
fn watch(mut stdin: Stdin, stdout: Stdout, stderr: Stderr, backwards: bool) -> io::Result<()> {
    let mut buffer = [0u8; ROOM];
    match fill(&mut stdin, &mut buffer) {
        Ok(n) => {
            split(stdout, stderr, &buffer[..n], backwards).or_else(|why| fail(
                stderr,
                b"words: standard output",
                why,
            ))
        }
        Err(why) => fail(stderr, b"words: standard input", why),
    }
}

// Whether the one word is `back`.
fn asked_back(rt: &impl Env) -> bool {
    let mut word = [0u8; 5];
    let n = arg(rt, 1, &mut word);
    &word[..n] == b"back".as_slice()
}

fn main(rt: HostRuntime) -> io::Result<()> {
    match arg_count(&rt) {
        1 => watch(rt.stdin(), rt.stdout(), rt.stderr(), false),
        2 if asked_back(&rt) => watch(rt.stdin(), rt.stdout(), rt.stderr(), true),
        _ => eprintln!(rt; "usage: words < TRACE, or words back < TRACE, an empty line and words"),
    }
}
