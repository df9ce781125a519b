// Prints what the rules force in each trace that is named as an argument, under each model: the round at which the rounds end,
// and the circle that is shown with its rules, or every held pair.
#![tactic(auto)]

use circle::show::Circle;
use edges::Forced;
use saying::args::{arg, arg_count};
use saying::input::fill_file;
use saying::say;
use std::env::Env;
use std::io;
use std::io::Stdout;
use std::rt::Files;
use trace::{RECORDS, Trace};

// The first len of some records.
fn say_numbers(stdout: Stdout, numbers: &[u16], len: usize) -> io::Result<()> {
    for n in numbers.iter().take(len) {
        print!(stdout; " {n}")?;
    }
    Ok(())
}

// The first len of some rules.
fn say_rules(stdout: Stdout, rules: &[u8], len: usize) -> io::Result<()> {
    for n in rules.iter().take(len) {
        print!(stdout; " {n}")?;
    }
    Ok(())
}

fn say_circle(stdout: Stdout, c: Circle) -> io::Result<()> {
    print!(stdout; "circle")?;
    say_numbers(stdout, &c.operations, c.len)?;
    print!(stdout; " by")?;
    say_rules(stdout, &c.rules, c.len)
}

// The pairs of rows that begin with x.
fn say_row(stdout: Stdout, held: &[u64], x: usize) -> io::Result<()> {
    for y in 0..RECORDS {
        if rows::test(held, x, y) {
            print!(stdout; " {x}-{y}")?;
        }
    }
    Ok(())
}

fn say_held(stdout: Stdout, f: Forced) -> io::Result<()> {
    print!(stdout; "held")?;
    for x in 0..RECORDS {
        say_row(stdout, &f.held, x)?;
    }
    Ok(())
}

fn say_model(stdout: Stdout, name: &[u8], word: &str, t: Trace, model: u8) -> io::Result<()> {
    let none = [0u64; rows::CELLS];
    let last = edges::force::last_round(t, model, &none);
    say(stdout, name)?;
    print!(stdout; " {word}: round {}, ", last.number)?;
    let c = circle::show::circle_of(t, model);
    if 0 < c.len {
        say_circle(stdout, c)?;
    } else {
        say_held(stdout, edges::force::forced(t, model, &none))?;
    }
    println!(stdout; "")
}

fn answer(stdout: Stdout, name: &[u8], text: &[u8]) -> io::Result<()> {
    let r = reader::read(text);
    let t = r.trace;
    say_model(stdout, name, "SC", t, pairs::SC)?;
    say_model(stdout, name, "TSO", t, pairs::TSO)?;
    say_model(stdout, name, "PSO", t, pairs::PSO)?;
    say_model(stdout, name, "WMO", t, pairs::WMO)
}

// One trace, from the file that word i of the arguments names.
fn case(rt: &(impl Files + Env), stdout: Stdout, i: usize) -> io::Result<()> {
    let mut word = [0u8; 64];
    let n = arg(rt, i, &mut word);
    let name = &word[..n];
    let mut text = [0u8; 32769];
    let got = fill_file(rt, name, &mut text)?;
    answer(stdout, name, &text[..got])
}

fn main(rt: HostRuntime) -> io::Result<()> {
    for i in 1..arg_count(&rt) {
        case(&rt, rt.stdout(), i)?;
    }
    Ok(())
}
