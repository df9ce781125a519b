// What the programs share: words and numbers on standard output and standard error, the line of a refusal, the words behind a program's name, and all of
// standard input or of a file. No contract can say what is written; each function that writes says whether it could write all of it, and if not, why.
#![tactic(auto)]

pub mod args;
pub mod input;

use std::io;
use std::io::{ErrorKind, Print, Stderr, Stdout};

// A word and a number behind it, to a stream.
fn put(to: &impl Print, word: &[u8], n: u64) -> io::Result<()> {
    to.write_all(word)?;
    to.print(n)
}

// A word on standard output.
pub fn say(stdout: Stdout, word: &[u8]) -> io::Result<()> {
    stdout.write_all(word)
}

// A word and a number behind it on standard output.
pub fn say_number(stdout: Stdout, word: &[u8], n: u64) -> io::Result<()> {
    put(&stdout, word, n)
}

pub fn say_u8(stdout: Stdout, word: &[u8], n: u8) -> io::Result<()> {
    put(&stdout, word, u64::from(n))
}

pub fn say_u16(stdout: Stdout, word: &[u8], n: u16) -> io::Result<()> {
    put(&stdout, word, u64::from(n))
}

pub fn say_usize(stdout: Stdout, word: &[u8], n: usize) -> io::Result<()> {
    put(&stdout, word, n as u64)
}

// A word on standard error.
pub fn tell(stderr: Stderr, word: &[u8]) -> io::Result<()> {
    stderr.write_all(word)
}

// A word and a number behind it on standard error.
pub fn tell_u8(stderr: Stderr, word: &[u8], n: u8) -> io::Result<()> {
    put(&stderr, word, u64::from(n))
}

pub fn tell_u16(stderr: Stderr, word: &[u8], n: u16) -> io::Result<()> {
    put(&stderr, word, u64::from(n))
}

pub fn tell_usize(stderr: Stderr, word: &[u8], n: usize) -> io::Result<()> {
    put(&stderr, word, n as u64)
}

// The line of a refusal that names nothing, on standard error.
pub fn refuse(stderr: Stderr, number: u8) -> io::Result<()> {
    println!(stderr; "refused {number}")
}

// The line of a refusal with the line, the record or the word that is to blame.
pub fn refuse_at(stderr: Stderr, number: u8, word: &[u8], place: usize) -> io::Result<()> {
    print!(stderr; "refused {number}")?;
    stderr.write_all(word)?;
    println!(stderr; "{place}")
}

// The line of what failed, as the caller names it, and why, on standard error.
pub fn fail(stderr: Stderr, what: &[u8], why: io::Error) -> io::Result<()> {
    stderr.write_all(what)?;
    println!(stderr; ": {why}")
}

// The first n bytes of a buffer, to a stream; an error where it has fewer.
pub fn front(to: &impl Print, bytes: &[u8], n: usize) -> io::Result<()> {
    match bytes.get(..n) {
        Some(first) => to.write_all(first),
        None => Err(io::Error::from(ErrorKind::InvalidInput)),
    }
}
