// A faulty trace cut down at the bench: a text on standard input and a model's number as its one word; what is left as a text on standard output, and on
// standard error the old number of each record, each core that was renumbered, and the verdicts on what is left. Whatever else there is to say, that
// nothing is wrong, a missing source or a text that is turned back, is said on standard error too.
#![tactic(auto)]

mod cores;

use cores::{closed_up, numbered, used};
use pairs::modelled;
use reader::Answer;
use report::render::{RENDER, render};
use saying::args::{arg, arg_count};
use saying::input::fill;
use saying::{fail, front};
use smaller::Smaller;
use smaller::cut::smaller;
use std::env::Env;
use std::io;
use std::io::{Stderr, Stdin, Stdout};
use trace::{THREADS, Trace};

// One byte more than a text may have, so that a text that is too long shows itself.
const ROOM: usize = 32769;

// The old number of each record that is left.
fn say_olds(stderr: Stderr, olds: &[u16], left: usize) -> io::Result<()> {
    for (i, old) in olds.iter().enumerate().take(left) {
        eprintln!(stderr; "{i} was {old}")?;
    }
    Ok(())
}

// Each core that gets another number.
fn say_cores(stderr: Stderr, t: Trace) -> io::Result<()> {
    for old in 0..THREADS {
        let new = numbered(t, old);
        if used(t, old) && new < old {
            eprintln!(stderr; "core {new} was {old}")?;
        }
    }
    Ok(())
}

// What the program at the bench answers to a text.
fn say_answer(stderr: Stderr, text: &[u8]) -> io::Result<()> {
    let mut out = [0u8; report::REPORT];
    let n = report::report(text, &mut out);
    front(&stderr, &out, n)
}

// The same for the first bytes of a buffer.
fn say_verdicts(stderr: Stderr, text: &[u8], n: usize) -> io::Result<()> {
    match text.get(..n) {
        Some(part) => say_answer(stderr, part),
        None => Ok(()),
    }
}

// The text of a trace, and its verdicts, also where the text could not be written.
fn hand_over(stdout: Stdout, stderr: Stderr, t: Trace) -> io::Result<()> {
    let mut out = [0u8; RENDER];
    let n = render(t, &mut out);
    let done = front(&stdout, &out, n);
    say_verdicts(stderr, &out, n)?;
    done
}

// What is left.
fn leave(stdout: Stdout, stderr: Stderr, s: Smaller) -> io::Result<()> {
    let part = s.trace;
    say_olds(stderr, &s.olds, part.len)?;
    say_cores(stderr, part)?;
    hand_over(stdout, stderr, closed_up(part))
}

// What came of cutting a trace down.
fn tell(stdout: Stdout, stderr: Stderr, s: Smaller) -> io::Result<()> {
    match s.answer {
        smaller::Answer::Cut => leave(stdout, stderr, s),
        smaller::Answer::NothingWrong => eprintln!(stderr; "nothing wrong"),
        smaller::Answer::NoSource(x) => eprintln!(stderr; "no source {x}"),
        smaller::Answer::NoModel | smaller::Answer::NotWellFormed => Ok(()),
    }
}

// Cuts the trace of a text down.
fn answered(stdout: Stdout, stderr: Stderr, text: &[u8], model: u8) -> io::Result<()> {
    let reading = reader::read_whole(text);
    match reading.answer {
        Answer::Good => tell(stdout, stderr, smaller(reading.trace, model)),
        Answer::Refused { .. } | Answer::Lost => say_answer(stderr, text),
    }
}

// The same, or the line of what failed.
fn answer(stdout: Stdout, stderr: Stderr, text: &[u8], model: u8) -> io::Result<()> {
    answered(stdout, stderr, text, model).or_else(|why| fail(
        stderr,
        b"shrink: standard output",
        why,
    ))
}

// Reads the text and cuts it down. Where a read failed nothing is cut: half a trace may be good where the whole one is not.
fn watch(mut stdin: Stdin, stdout: Stdout, stderr: Stderr, model: u8) -> io::Result<()> {
    let mut text = [0u8; ROOM];
    match fill(&mut stdin, &mut text) {
        Ok(n) => answer(stdout, stderr, &text[..n], model),
        Err(why) => fail(stderr, b"shrink: standard input", why),
    }
}

// The number that a digit names; 0, which is no model's, for any other byte.
fn digit(b: u8) -> u8 {
    match b {
        b'1'..=b'4' => b - b'0',
        _ => 0,
    }
}

// The model that the one word names by its number; 0 where there is none, or it names none.
fn asked(rt: &impl Env) -> u8 {
    if arg_count(rt) != 2 {
        return 0;
    }
    let mut word = [0u8; 2];
    let n = arg(rt, 1, &mut word);
    if n == 1 { digit(word[0]) } else { 0 }
}

fn main(rt: HostRuntime) -> io::Result<()> {
    let model = asked(&rt);
    if modelled(model) {
        watch(rt.stdin(), rt.stdout(), rt.stderr(), model)
    } else {
        eprintln!(rt; "usage: shrink MODEL < TRACE (1 is SC, 2 TSO, 3 PSO, 4 WMO)")
    }
}
