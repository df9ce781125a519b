// The small reader at the bench: a file with the text of a trace and one with a list of numbers; for each model whether the list is accepted, a line each, or
// the line of a text that is turned back. More than one trace and list may be named, each trace with its list behind it.
#![tactic(auto)]

ghost use Rattle.std.specs.Prelude.{◌≤◌, IfOk, IfSome, length};

use papers::reading::{Refusal, accepts};
use reader::Answer;
use reader::turns::number;
use saying::args::{arg, arg_count};
use saying::input::fill_file;
use std::env::Env;
use std::io;
use std::io::Stdout;
use std::rt::Files;
use trace::Trace;

// How many numbers a list may have here; the library takes any.
const NUMBERS: usize = 65536;

// How many bytes its file may have.
const BYTES: usize = 393216;

// The number that a word is; none where anything but digits stands in it, or it is past 65,535.
fn number_of(word: &[u8]) -> Option<u16> {
    if word.iter().all(|b| b.is_ascii_digit()) {
        str::from_utf8(word).ok()?.parse().ok()
    } else {
        None
    }
}

// Takes the decimal numbers of a file into the list, spaces and line feeds between them: how many; none where there is anything else, or no place is left.
fn numbers(bytes: &[u8], list: &mut [u16]) -> Option<usize>
    ensures { IfSome result (λ n. n ≤ length list.new) }
{
    let mut count: usize = 0;
    for word in bytes.split(|b| matches!(*b, b' ' | b'\n')) {
        if !word.is_empty() {
            let x = number_of(word)?;
            if count == list.len() {
                return None;
            }
            list[count] = x;
            count += 1;
        }
    }
    Some(count)
}

fn say_model(stdout: Stdout, name: &str, t: Trace, model: u8, list: &[u16]) -> io::Result<()> {
    match accepts(t, model, list) {
        Ok(true) => println!(stdout; "{name}: accepted"),
        Ok(false) => println!(stdout; "{name}: not accepted"),
        Err(Refusal::NoModel) => println!(stdout; "{name}: refused 9"),
        Err(Refusal::NotWellFormed) => println!(stdout; "{name}: refused 10"),
    }
}

fn say_models(stdout: Stdout, t: Trace, list: &[u16]) -> io::Result<()> {
    say_model(stdout, "SC", t, pairs::SC, list)?;
    say_model(stdout, "TSO", t, pairs::TSO, list)?;
    say_model(stdout, "PSO", t, pairs::PSO, list)?;
    say_model(stdout, "WMO", t, pairs::WMO, list)
}

fn say_refused(stdout: Stdout, n: u8, line: usize) -> io::Result<()> {
    println!(stdout; "refused {n} line {line}")
}

fn answer(stdout: Stdout, text: &[u8], list: &[u16]) -> io::Result<()> {
    let reading = reader::read_whole(text);
    match reading.answer {
        Answer::Good => say_models(stdout, reading.trace, list),
        Answer::Refused { reason, line } => say_refused(stdout, number(reason), line),
        Answer::Lost => say_refused(stdout, 22, 0),
    }
}

// What the file that word i of the arguments names has, in lent memory.
fn fill(rt: &(impl Files + Env), i: usize, buf: &mut [u8]) -> io::Result<usize>
    ensures { IfOk result (λ n. n ≤ length buf.new) }
{
    let mut name = [0u8; 256];
    let n = arg(rt, i, &mut name);
    fill_file(rt, &name[..n], buf)
}

// One trace and its list, which words i and j of the arguments name, in lent memory.
fn answer_files(
    rt: &(impl Files + Env),
    stdout: Stdout,
    i: usize,
    j: usize,
    text: &mut [u8],
    bytes: &mut [u8],
    room: &mut [u16],
) -> io::Result<()> {
    let got = fill(rt, i, text)?;
    let read = fill(rt, j, bytes)?;
    match numbers(&bytes[..read], room) {
        Some(count) => answer(stdout, &text[..got], &room[..count]),
        None => println!(stdout; "no list of numbers"),
    }
}

// The same with memory for it: a text, and one byte more than it may have; a list.
fn case(rt: &(impl Files + Env), stdout: Stdout, i: usize, j: usize) -> io::Result<()> {
    let mut text = [0u8; 32769];
    let mut bytes = [0u8; BYTES];
    let mut list = [0u16; NUMBERS];
    answer_files(rt, stdout, i, j, &mut text, &mut bytes, &mut list)
}

// The words in twos: a trace, and a list.
fn main(rt: HostRuntime) -> io::Result<()> {
    let count = arg_count(&rt);
    if count < 3 {
        return eprintln!(rt; "usage: paper_reader TRACE LIST ..");
    }
    for k in 0..(count - 1) / 2 {
        case(&rt, rt.stdout(), 2 * k + 1, 2 * k + 2)?;
    }
    Ok(())
}
