// Why a trace has no order, at the bench: a text on standard input, and on standard output the list of reasons, in words or with the word `numbers` in numbers.
// The model is named by a word, `sc`, `tso`, `pso` or `wmo`; without it the first model that has a list is shown. What is turned back is told on
// standard error; so is what could not be read or written, and how the program is used.
#![tactic(auto)]

mod asking;
mod lines;

use asking::{Wanted, asked};
use lines::{OPEN, Split, say_lines, say_numbers};
use reader::turns::number;
use reader::{Answer, LOST};
use reasons::listing::{Reason, write};
use saying::input::fill;
use saying::{fail, refuse_at};
use std::io;
use std::io::{Stderr, Stdin, Stdout};
use trace::Trace;

// One byte more than a text may have, so that a text that is too long shows itself.
const ROOM: usize = 32769;

// How many numbers a list may have here.
const NUMBERS: usize = 65536;

// A list that lies in lent memory: its model, and how many numbers it has.
#[derive(Clone, Copy)]
struct Found {
    model: u8,
    count: usize,
}

// Writes the list for one model into lent memory, if there is one to show.
fn list_under(t: Trace, model: u8, room: &mut [u16]) -> Result<Option<Found>, Reason> {
    match write(t, model, room)? {
        Some(count) => Ok(Some(Found { model, count })),
        None => Ok(None),
    }
}

// The same for the first model under which the trace is faulty.
fn first_list(t: Trace, room: &mut [u16]) -> Result<Option<Found>, Reason> {
    for model in pairs::SC..=pairs::WMO {
        let found = list_under(t, model, room)?;
        if found.is_some() {
            return Ok(found);
        }
    }
    Ok(None)
}

// The line with a model's name.
fn say_model(stdout: Stdout, model: u8) -> io::Result<()> {
    match model {
        1 => println!(stdout; "SC"),
        2 => println!(stdout; "TSO"),
        3 => println!(stdout; "PSO"),
        _ => println!(stdout; "WMO"),
    }
}

// Prints a list in words.
fn say_words(stdout: Stdout, list: &[u16], model: u8) -> io::Result<()> {
    let mut splits = [Split::default(); OPEN];
    say_model(stdout, model)?;
    say_lines(stdout, list, &mut splits)
}

// Prints a list in numbers or in words.
fn say_list(stdout: Stdout, list: &[u16], model: u8, numbers: bool) -> io::Result<()> {
    if numbers {
        say_numbers(stdout, list)
    } else {
        say_words(stdout, list, model)
    }
}

// Prints the list that was found, which is the front of the memory.
fn say_found(stdout: Stdout, room: &[u16], found: Found, numbers: bool) -> io::Result<()> {
    match room.get(..found.count) {
        Some(list) => say_list(stdout, list, found.model, numbers),
        None => println!(stdout; "too long"),
    }
}

// Finds the list that is asked for and prints it.
fn show(stdout: Stdout, t: Trace, what: Wanted) -> io::Result<()> {
    let mut room = [0u16; NUMBERS];
    let found = match what.model {
        Some(model) => list_under(t, model, &mut room),
        None => first_list(t, &mut room),
    };
    match found {
        Ok(Some(found)) => say_found(stdout, &room, found, what.numbers),
        Ok(None) | Err(Reason::NoModel | Reason::NotWellFormed) => {
            println!(stdout; "nothing to show")
        }
        Err(Reason::TooLong) => println!(stdout; "too long"),
    }
}

// Prints what a text comes to, or tells why it is turned back.
fn answered(stdout: Stdout, stderr: Stderr, text: &[u8], what: Wanted) -> io::Result<()> {
    let reading = reader::read_whole(text);
    match reading.answer {
        Answer::Good => show(stdout, reading.trace, what),
        Answer::Refused { reason, line } => refuse_at(stderr, number(reason), b" line ", line),
        Answer::Lost => refuse_at(stderr, LOST, b" line ", 0),
    }
}

// Reads the text and answers it. Where a read failed nothing is told: half a trace may have an order where the whole one has none.
fn watch(mut stdin: Stdin, stdout: Stdout, stderr: Stderr, what: Wanted) -> io::Result<()> {
    let mut text = [0u8; ROOM];
    match fill(&mut stdin, &mut text) {
        Ok(n) => {
            answered(stdout, stderr, &text[..n], what).or_else(|why| fail(
                stderr,
                b"paper: standard output",
                why,
            ))
        }
        Err(why) => fail(stderr, b"paper: standard input", why),
    }
}

fn main(rt: HostRuntime) -> io::Result<()> {
    match asked(&rt) {
        Some(what) => watch(rt.stdin(), rt.stdout(), rt.stderr(), what),
        None => eprintln!(rt; "usage: paper [numbers] [sc, tso, pso or wmo] < TRACE"),
    }
}
