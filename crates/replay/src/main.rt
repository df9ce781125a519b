// A replay at the bench: a text on standard input; for SC and for TSO the verdict's line, and below that of an order the machine's steps, a line each.
// A text that is turned back has its one line. Where it could not read or write, or was given words, it says so on standard error.
#![tactic(auto)]

ghost use Rattle.std.specs.Prelude.{◌<◌};

mod walk;
mod words;

use machine::Steps;
use machine::replaying::steps_of;
use pairs::{SC, TSO};
use reader::Answer;
use saying::args::arg_count;
use saying::input::fill;
use saying::{fail, say};
use std::io;
use std::io::{Stderr, Stdin, Stdout};
use text::Cursor;
use trace::{THREADS, Trace};
use verdict::tell::verdict_of;
use walk::{first_from, own};
use words::{say_empty, say_run};

// One byte more than a text may have, so that a text that is too long shows itself.
const ROOM: usize = 32769;

// How many kinds of steps there are: a record or an entry of each core.
const KINDS: usize = 16;

// Where it is noted what the last step of a step's kind was about.
fn kind_of(step: u8) -> usize
    ensures { result < 16 }
{
    if step < 16 { step as usize } else { 0 }
}

// Where it is noted which store the core of a step emptied last.
fn stores_of(step: u8) -> usize
    ensures { result < 16 }
{
    if step < THREADS {
        (THREADS + step) as usize
    } else {
        0
    }
}

// A step in words, told its record and from where on its core's stores wait.
fn say_step(
    stdout: Stdout,
    t: Trace,
    model: u8,
    step: u8,
    x: usize,
    waiting: usize,
) -> io::Result<()> {
    let op = pairs::op_at(t, x);
    if step < THREADS {
        say_run(stdout, op, model, model == TSO && own(t, x, waiting))
    } else {
        say_empty(stdout, op)
    }
}

// The steps of an order in words. What each is about is looked for behind the last record, or the last store, that a step of its kind was about.
fn say_steps(stdout: Stdout, t: Trace, model: u8, s: Steps) -> io::Result<()> {
    let mut from = [0usize; KINDS];
    for step in s.steps.iter().copied().take(s.len) {
        let kind = kind_of(step);
        if let Some(x) = first_from(t, step, from[kind]) {
            from[kind] = x + 1;
            say_step(stdout, t, model, step, x, from[stores_of(step)])?;
        }
    }
    Ok(())
}

// A part of what is reported.
fn say_part(stdout: Stdout, report: &[u8], from: usize, to: usize) -> io::Result<()> {
    match report.get(from..to) {
        Some(part) => say(stdout, part),
        None => Ok(()),
    }
}

// The steps of the first len operations, where they are an order.
fn say_order(
    stdout: Stdout,
    t: Trace,
    model: u8,
    operations: &[u16],
    len: usize,
) -> io::Result<()> {
    match operations.get(..len) {
        Some(order) => say_steps(stdout, t, model, steps_of(t, model, order)),
        None => Ok(()),
    }
}

// The steps of the verdict's order, if it has one.
fn replay(stdout: Stdout, t: Trace, model: u8) -> io::Result<()> {
    let v = verdict_of(t, model);
    say_order(stdout, t, model, &v.operations, v.len)
}

// The line of each of the two models, which are the first that are reported, and its steps below.
fn say_models(stdout: Stdout, t: Trace, report: &[u8]) -> io::Result<()> {
    let first = Cursor::new().next(report);
    let second = first.next(report);
    say_part(stdout, report, 0, first.at)?;
    replay(stdout, t, SC)?;
    say_part(stdout, report, first.at, second.at)?;
    replay(stdout, t, TSO)
}

// Prints the answer to a text.
fn answered(stdout: Stdout, text: &[u8]) -> io::Result<()> {
    let mut out = [0u8; report::REPORT];
    let n = report::report(text, &mut out);
    let reading = reader::read_whole(text);
    match reading.answer {
        Answer::Good => say_models(stdout, reading.trace, &out),
        Answer::Refused { .. } | Answer::Lost => say_part(stdout, &out, 0, n),
    }
}

// The same, or the line of what failed.
fn answer(stdout: Stdout, stderr: Stderr, text: &[u8]) -> io::Result<()> {
    answered(stdout, text).or_else(|why| fail(stderr, b"replay: standard output", why))
}

// Reads the text and answers it. Where a read failed nothing is replayed: half a trace may be good where the whole one is not.
fn watch(mut stdin: Stdin, stdout: Stdout, stderr: Stderr) -> io::Result<()> {
    let mut text = [0u8; ROOM];
    match fill(&mut stdin, &mut text) {
        Ok(n) => answer(stdout, stderr, &text[..n]),
        Err(why) => fail(stderr, b"replay: standard input", why),
    }
}

fn main(rt: HostRuntime) -> io::Result<()> {
    if arg_count(&rt) > 1 {
        eprintln!(rt; "usage: replay < TRACE (it takes no words)")
    } else {
        watch(rt.stdin(), rt.stdout(), rt.stderr())
    }
}
