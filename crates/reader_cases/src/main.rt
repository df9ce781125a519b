// Reads each text that is named as an argument and prints what the reader answers: the records and the first values other than 0, or the number and the
// line; then where the part lies, and its bytes.
#![tactic(auto)]

use reader::{Answer, Place};
use saying::args::{arg, arg_count};
use saying::input::fill_file;
use saying::say;
use std::env::Env;
use std::io;
use std::io::Stdout;
use std::rt::Files;
use trace::{Op, Trace};

// A byte as it is, or its number in hexadecimal where it is no sign of ASCII.
fn say_byte(stdout: Stdout, b: u8) -> io::Result<()> {
    match b {
        b' '..=b'~' => print!(stdout; "{}", char::from(b)),
        _ => print!(stdout; "\\{b:02x}"),
    }
}

fn say_part(stdout: Stdout, part: &[u8]) -> io::Result<()> {
    for b in part {
        say_byte(stdout, *b)?;
    }
    Ok(())
}

// Where the part lies: no program can see that of the part itself, and the reader promises that this is its place.
fn say_place(stdout: Stdout, place: Place) -> io::Result<()> {
    print!(stdout; " {}..{}", place.start, place.end)
}

fn say_record(stdout: Stdout, op: Op) -> io::Result<()> {
    match op {
        Op::Load { thread, addr, read } => print!(stdout; " load {thread} {addr} {read}"),
        Op::Store {
            thread,
            addr,
            written,
        } => print!(stdout; " store {thread} {addr} {written}"),
        Op::Swap {
            thread,
            addr,
            read,
            written,
        } => print!(stdout; " swap {thread} {addr} {read} {written}"),
        Op::Fence { thread } => print!(stdout; " fence {thread}"),
    }
}

// The first values other than 0.
fn say_firsts(stdout: Stdout, t: Trace) -> io::Result<()> {
    for (i, value) in t.firsts.iter().enumerate() {
        if *value != 0 {
            print!(stdout; " first {i} {value}")?;
        }
    }
    Ok(())
}

// The used records; a trace that comes from the reader has no more than its places.
fn say_records(stdout: Stdout, t: Trace) -> io::Result<()> {
    print!(stdout; ": {} records", t.len)?;
    for record in t.records.iter().take(t.len) {
        say_record(stdout, record.op)?;
    }
    Ok(())
}

fn answer(stdout: Stdout, text: &[u8]) -> io::Result<()> {
    let r = reader::read_whole(text);
    match r.answer {
        Answer::Good => {
            say_records(stdout, r.trace)?;
            say_firsts(stdout, r.trace)?;
        }
        Answer::Refused { reason, line } => {
            let number = reader::turns::number(reason);
            print!(stdout; ": refused {number} line {line}")?;
        }
        Answer::Lost => {
            print!(stdout; ": refused {} line 0", reader::LOST)?;
        }
    }
    say_place(stdout, reader::bad_place(text))?;
    print!(stdout; " <")?;
    say_part(stdout, reader::bad_line(text))?;
    println!(stdout; ">")
}

// One text, from the file that word i of the arguments names.
fn case(rt: &(impl Files + Env), stdout: Stdout, i: usize) -> io::Result<()> {
    let mut word = [0u8; 64];
    let n = arg(rt, i, &mut word);
    let name = &word[..n];
    say(stdout, name)?;
    let mut text = [0u8; 32769];
    let got = fill_file(rt, name, &mut text)?;
    answer(stdout, &text[..got])
}

fn main(rt: HostRuntime) -> io::Result<()> {
    for i in 1..arg_count(&rt) {
        case(&rt, rt.stdout(), i)?;
    }
    Ok(())
}
