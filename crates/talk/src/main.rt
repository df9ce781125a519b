// A talk with a session on standard input, line by line as it comes: a trace's line adds its record or its first value, a call is made on the session, and
// each line is answered by one line on standard output before the next is looked at. Where it could not read or write, or was given words, it says so on
// standard error.
#![tactic(auto)]

ghost use Rattle.std.specs.Prelude.{◌≤◌, length};

mod asking;
mod telling;

use saying::args::arg_count;
use saying::fail;
use saying::input::interrupted;
use std::io;
use std::io::{Read, Stderr, Stdin, Stdout};
use telling::{Said, Talk, Told, answer, fresh};

// One byte more than a line may have, so that a line that is too long shows itself.
const ROOM: usize = 81;

// As many bytes are taken at a time at the most; fewer where fewer have come.
const PIECE: usize = 4096;

// How often input is waited for at the most: a loop has to end.
const TURNS: u64 = u64::MAX;

const FEED: u8 = b'\n';

// A talk after a piece of the input: how many bytes of the line that has not ended are kept, and whether all answers could be written; if not, why.
#[derive(Clone, Copy)]
struct Heard {
    talk: Talk,
    count: usize,
    spoke: io::Result<()>,
}

// Whether an answer is one to a change of the session.
fn changed(told: Told) -> bool {
    matches!(told, Told::Done | Told::Record(_))
}

// The line of an answer; behind a change, whether the session is contradicted now.
fn spoken(stdout: Stdout, said: Said) -> io::Result<()> {
    let told = said.told;
    if changed(told) && said.talk.session.contradicted {
        println!(stdout; "{told}, contradicted")
    } else {
        println!(stdout; "{told}")
    }
}

// Takes a piece of the input: each line that ends in it is answered, and what is left is kept for the next piece; of a line that is too long, one byte
// more than a line may have.
fn hear(stdout: Stdout, from: Talk, line: &mut [u8], had: usize, came: &[u8]) -> Heard
    requires { had ≤ length line.old }
    ensures { result.count ≤ length line.new }
{
    let mut talk = from;
    let mut count = had;
    for b in came {
        if *b == FEED {
            let said = answer(talk, &line[..count], true);
            talk = said.talk;
            count = 0;
            if let Err(why) = spoken(stdout, said) {
                return Heard {
                    talk,
                    count,
                    spoke: Err(why),
                };
            }
        } else if count < line.len() {
            line[count] = *b;
            count += 1;
        }
    }
    Heard {
        talk,
        count,
        spoke: Ok(()),
    }
}

// Answers a last line that has no line feed, where there is one.
fn last(stdout: Stdout, stderr: Stderr, talk: Talk, line: &[u8]) -> io::Result<()> {
    if line.is_empty() {
        return Ok(());
    }
    spoken(stdout, answer(talk, line, false)).or_else(|why| fail(
        stderr,
        b"talk: standard output",
        why,
    ))
}

// Waits for input and answers it, until it has ended.
fn listen(mut stdin: Stdin, stdout: Stdout, stderr: Stderr) -> io::Result<()> {
    let mut talk = fresh();
    let mut line = [0u8; ROOM];
    let mut count: usize = 0;
    let mut came = [0u8; PIECE];
    for _ in 0..TURNS {
        match stdin.read(&mut came) {
            Ok(0) => return last(stdout, stderr, talk, &line[..count]),
            Ok(n) => {
                let heard = hear(stdout, talk, &mut line, count, &came[..n]);
                talk = heard.talk;
                count = heard.count;
                if let Err(why) = heard.spoke {
                    return fail(stderr, b"talk: standard output", why);
                }
            }
            Err(why) if interrupted(&why) => {}
            Err(why) => return fail(stderr, b"talk: standard input", why),
        }
    }
    Ok(())
}

fn main(rt: HostRuntime) -> io::Result<()> {
    if arg_count(&rt) > 1 {
        eprintln!(rt; "usage: talk < LINES (it takes no words)")
    } else {
        listen(rt.stdin(), rt.stdout(), rt.stderr())
    }
}
