// Talks with a session on a trace: each line of a script is a call, and its answer is printed behind it; a trace's line adds its record. After each call
// the session is compared with one that the library opens afresh on all the records, with the pairs that should still stand supposed in turn; where it is
// another, that is said. A script can also forge the session, and make calls at random.
#![tactic(auto)]

ghost use Rattle.std.specs.Prelude.{◌≤◌, IfOk, length};

use reader::Raw;
use reader::forms::form;
use saying::args::{arg, arg_count};
use saying::input::fill_file;
use saying::say;
use session::calls::{add, ask, open, suppose, take_back, waiting};
use session::{Answer, PAIRS, Pair, Session, Stack};
use std::env::Env;
use std::io;
use std::io::Stdout;
use std::rt::Files;
use text::templates::fit;
use trace::{Op, RECORDS, Trace};

// A talk: the records that should be there, the pairs that should stand, the latest answer and the session. Of a forged session nothing is expected but that
// it comes back as it was.
// The flag is no Option: a forged session is compared by all of it too.
#[derive(Clone, Copy)]
struct Talk {
    trace: Trace,
    model: u8,
    due: Stack,
    answer: Answer,
    session: Session,
    forged: bool,
}

// How many calls were answered how, and how many sessions were as they should be.
#[derive(Clone, Copy, Default)]
struct Counts {
    right: u64,
    done: u64,
    held: u64,
    not_held: u64,
    contradicted: u64,
    refused: u64,
}

// A model's number; what no byte holds is no model either way.
fn model_of(n: u32) -> u8 {
    u8::try_from(n).unwrap_or(u8::MAX)
}

fn say_answer(stdout: Stdout, a: Answer) -> io::Result<()> {
    match a {
        Answer::Done => print!(stdout; ": done"),
        Answer::Held => print!(stdout; ": held"),
        Answer::NotHeld => print!(stdout; ": not held"),
        Answer::Contradicted => print!(stdout; ": contradicted"),
        Answer::Waits(x) => print!(stdout; ": waits record {x}"),
        Answer::Refused(r) => print!(stdout; ": refused {}", u8::from(r)),
    }
}

fn done(a: Answer) -> bool {
    matches!(a, Answer::Done)
}

// The session that the library opens afresh, with the pairs of a stack supposed in turn.
fn afresh(t: Trace, model: u8, k: Stack) -> Session {
    let mut s = open(t, model).session;
    for p in k.pairs.iter().take(k.count) {
        s = suppose(s, p.first, p.second).session;
    }
    s
}

fn none() -> Stack {
    Stack {
        pairs: [Pair {
            first: 0,
            second: 0,
        }; PAIRS],
        count: 0,
    }
}

// One pair more.
fn pushed(k: Stack, x: usize, y: usize) -> Stack {
    let mut more = k;
    if k.count < PAIRS {
        more.pairs[k.count] = Pair {
            first: x,
            second: y,
        };
        more.count += 1;
    }
    more
}

// Without the latest pair.
fn popped(k: Stack) -> Stack {
    let mut rest = k;
    if 0 < k.count && k.count <= PAIRS {
        rest.count -= 1;
        rest.pairs[rest.count] = Pair {
            first: 0,
            second: 0,
        };
    }
    rest
}

// Whether a session is what it should be after a call.
fn right(talk: Talk, before: Session) -> bool {
    if talk.forged {
        return talk.session == before;
    }
    talk.session == afresh(talk.trace, talk.model, talk.due)
}

fn opened(t: Trace, model: u8) -> Talk {
    let r = open(t, model);
    let stands = done(r.answer);
    Talk {
        trace: if stands { t } else { trace::empty() },
        model: if stands { model } else { 1 },
        due: none(),
        answer: r.answer,
        session: r.session,
        forged: false,
    }
}

fn supposed(talk: Talk, x: usize, y: usize) -> Talk {
    let r = suppose(talk.session, x, y);
    let due = if done(r.answer) {
        pushed(talk.due, x, y)
    } else {
        talk.due
    };
    Talk {
        due,
        answer: r.answer,
        session: r.session,
        ..talk
    }
}

fn taken_back(talk: Talk) -> Talk {
    let r = take_back(talk.session);
    let due = if done(r.answer) {
        popped(talk.due)
    } else {
        talk.due
    };
    Talk {
        due,
        answer: r.answer,
        session: r.session,
        ..talk
    }
}

fn asked(talk: Talk, x: usize, y: usize) -> Talk {
    let r = ask(talk.session, x, y);
    Talk {
        answer: r.answer,
        session: r.session,
        ..talk
    }
}

// A number of a line as a byte; what no byte holds is past every bound either way.
fn byte(n: u32) -> u8 {
    u8::try_from(n).unwrap_or(u8::MAX)
}

// A value of a line; there is none past the largest.
fn value(n: u32) -> u16 {
    u16::try_from(n).unwrap_or(u16::MAX)
}

// The record of a line, its numbers within bounds or not.
fn record_of(raw: Raw) -> Op {
    match raw {
        Raw::Load { thread, addr, read } => Op::Load {
            thread: byte(thread),
            addr: byte(addr),
            read: value(read),
        },
        Raw::Store {
            thread,
            addr,
            written,
        } => Op::Store {
            thread: byte(thread),
            addr: byte(addr),
            written: value(written),
        },
        Raw::Swap {
            thread,
            addr,
            read,
            second: _,
            written,
        } => Op::Swap {
            thread: byte(thread),
            addr: byte(addr),
            read: value(read),
            written: value(written),
        },
        Raw::Fence { thread } => Op::Fence {
            thread: byte(thread),
        },
    }
}

fn added(talk: Talk, op: Op) -> Talk {
    let r = add(talk.session, op);
    let trace = if done(r.answer) {
        trace::pushed(talk.trace, op)
    } else {
        talk.trace
    };
    Talk {
        trace,
        answer: r.answer,
        session: r.session,
        ..talk
    }
}

fn looked(talk: Talk) -> Talk {
    let r = waiting(talk.session);
    Talk {
        answer: r.answer,
        session: r.session,
        ..talk
    }
}

// A trace damaged in one of four ways: a length of 4 billion, a value that nobody wrote, an unused place that is used, a thread past its bound.
fn damaged(t: Trace, way: usize) -> Trace {
    let mut d = t;
    match way {
        1 => d.len = 4000000000,
        2 => {
            d.records[0].op = Op::Load {
                thread: 0,
                addr: 15,
                read: 65535,
            };
        }
        3 => d.records[63].op = Op::Fence { thread: 1 },
        4 => d.records[0].op = Op::Fence { thread: 8 },
        _ => {}
    }
    d
}

// A stack damaged in one of four ways: a pair past the count, 17 pairs, a pair of one record, a pair past the end.
fn disordered(k: Stack, way: usize) -> Stack {
    let mut d = k;
    match way {
        5 => {
            d.pairs[15] = Pair {
                first: 0,
                second: 1,
            };
        }
        6 => d.count = 17,
        7 => {
            d.pairs[0] = Pair {
                first: 1,
                second: 1,
            };
            d.count = 1;
        }
        8 => {
            d.pairs[0] = Pair {
                first: 0,
                second: RECORDS,
            };
            d.count = 1;
        }
        _ => {}
    }
    d
}

// A table with one word changed.
fn scribbled(held: [u64; rows::CELLS], way: usize) -> [u64; rows::CELLS] {
    let mut d = held;
    if way == 9 {
        d[0] = if d[0] == 0 { 2 } else { 0 };
    }
    d
}

// A session forged in one of twelve ways; the last three are a model of 77, the word on contradictions turned round, and a pair of a fence.
fn forged(s: Session, way: usize) -> Session {
    let mut stack = disordered(s.stack, way);
    if way == 12 {
        stack.pairs[0] = Pair {
            first: 0,
            second: 4,
        };
        stack.count = 1;
    }
    Session {
        trace: damaged(s.trace, way),
        model: if way == 10 { 77 } else { s.model },
        stack,
        contradicted: s.contradicted != (way == 11),
        held: scribbled(s.held, way),
    }
}

fn with_forged(talk: Talk, way: usize) -> Talk {
    Talk {
        answer: Answer::Done,
        session: forged(talk.session, way),
        forged: true,
        ..talk
    }
}

// The next number of a fixed sequence that looks like chance.
fn next(seed: u64) -> u64 {
    let x = seed % 2147483648;
    (x * 1103515245 + 12345) % 2147483648
}

// A number below n; 0 where n is 0.
fn pick(seed: u64, n: u64) -> u64 {
    if n == 0 {
        return 0;
    }
    seed / 65536 % n
}

// One call by chance: of 16, 5 suppose, 5 take back and 6 ask. Two of the numbers lie past the end.
fn by_chance(talk: Talk, a: u64, b: u64, c: u64) -> Talk {
    let n = talk.trace.len;
    let bound = if n < 256 { n as u64 + 2 } else { 258 };
    let x = pick(b, bound) as usize;
    let y = pick(c, bound) as usize;
    match pick(a, 16) {
        0..=4 => supposed(talk, x, y),
        5..=9 => taken_back(talk),
        _ => asked(talk, x, y),
    }
}

fn more(n: u64) -> u64 {
    if n < 1000000 { n + 1 } else { n }
}

fn counted(c: Counts, a: Answer, right: bool) -> Counts {
    let mut d = c;
    if right {
        d.right = more(c.right);
    }
    match a {
        Answer::Done => d.done = more(c.done),
        Answer::Held => d.held = more(c.held),
        Answer::NotHeld => d.not_held = more(c.not_held),
        Answer::Contradicted => d.contradicted = more(c.contradicted),
        Answer::Waits(_) => d.done = more(c.done),
        Answer::Refused(_) => d.refused = more(c.refused),
    }
    d
}

fn say_counts(stdout: Stdout, c: Counts) -> io::Result<()> {
    let Counts {
        right,
        done,
        held,
        not_held,
        contradicted,
        refused,
    } = c;
    print!(stdout;
        ": right {right}, done {done}, held {held}, not held {not_held}, contradicted {contradicted}, refused {refused}"
    )
}

// Some calls by chance, each compared.
fn chance(stdout: Stdout, talk: Talk, calls: u64, seed: u64) -> io::Result<Talk> {
    let mut counts = Counts::default();
    let mut k = talk;
    let mut s = seed;
    for _ in 0..calls {
        let a = next(s);
        let b = next(a);
        s = next(b);
        let before = k.session;
        k = by_chance(k, a, b, s);
        counts = counted(counts, k.answer, right(k, before));
    }
    say_counts(stdout, counts)?;
    Ok(k)
}

// Prints the answer of a call, whether the session is contradicted after a change, and whether it is another than it should be.
fn told(stdout: Stdout, talk: Talk, before: Session) -> io::Result<Talk> {
    say_answer(stdout, talk.answer)?;
    if done(talk.answer) && talk.session.contradicted {
        print!(stdout; ", contradicted")?;
    }
    if !right(talk, before) {
        print!(stdout; ", another session")?;
    }
    Ok(talk)
}

// A call that names two numbers, one that asks who waits, or a record.
fn pair_call(stdout: Stdout, talk: Talk, line: &[u8]) -> io::Result<Talk> {
    let before = talk.session;
    if let Some(n) = fit(b"suppose # #", line, 0) {
        return told(stdout, supposed(talk, n[0] as usize, n[1] as usize), before);
    }
    if let Some(n) = fit(b"ask # #", line, 0) {
        return told(stdout, asked(talk, n[0] as usize, n[1] as usize), before);
    }
    if let Some(n) = fit(b"chance # #", line, 0) {
        return chance(stdout, talk, n[0] as u64, n[1] as u64);
    }
    if fit(b"waiting", line, 0).is_some() {
        return told(stdout, looked(talk), before);
    }
    match form(line) {
        Some(raw) => told(stdout, added(talk, record_of(raw)), before),
        None => {
            print!(stdout; ": no such call")?;
            Ok(talk)
        }
    }
}

// One line of a script.
fn call(stdout: Stdout, talk: Talk, t: Trace, line: &[u8]) -> io::Result<Talk> {
    let before = talk.session;
    say(stdout, line)?;
    if let Some(n) = fit(b"open #", line, 0) {
        return told(stdout, opened(t, model_of(n[0])), before);
    }
    if let Some(n) = fit(b"open damaged # #", line, 0) {
        return told(
            stdout,
            opened(damaged(t, n[1] as usize), model_of(n[0])),
            before,
        );
    }
    if fit(b"take back", line, 0).is_some() {
        return told(stdout, taken_back(talk), before);
    }
    if let Some(n) = fit(b"forge #", line, 0) {
        return Ok(with_forged(talk, n[0] as usize));
    }
    pair_call(stdout, talk, line)
}

// A script, line by line.
fn conversation(stdout: Stdout, t: Trace, script: &[u8]) -> io::Result<()> {
    let mut talk = opened(trace::empty(), 1);
    for ended in script.split_inclusive(|b| *b == b'\n') {
        let line = ended.strip_suffix(b"\n").unwrap_or(ended);
        talk = call(stdout, talk, t, line)?;
        println!(stdout; "")?;
    }
    Ok(())
}

// What the file that word i of the arguments names has, in lent memory; its name is printed.
fn named(rt: &(impl Files + Env), stdout: Stdout, i: usize, buf: &mut [u8]) -> io::Result<usize>
    ensures { IfOk result (λ n. n ≤ length buf.new) }
{
    let mut word = [0u8; 64];
    let n = arg(rt, i, &mut word);
    let name = &word[..n];
    say(stdout, name)?;
    fill_file(rt, name, buf)
}

// The trace that word i of the arguments names, and the script that word j names.
fn case(rt: &(impl Files + Env), stdout: Stdout, i: usize, j: usize) -> io::Result<()> {
    let mut text = [0u8; 32769];
    let n = named(rt, stdout, i, &mut text)?;
    print!(stdout; " ")?;
    let mut script = [0u8; 32769];
    let m = named(rt, stdout, j, &mut script)?;
    println!(stdout; "")?;
    let r = reader::read(&text[..n]);
    conversation(stdout, r.trace, &script[..m])
}

// The words in twos: a trace, and a script.
fn main(rt: HostRuntime) -> io::Result<()> {
    let count = arg_count(&rt);
    for k in 0..(count.max(1) - 1) / 2 {
        case(&rt, rt.stdout(), 2 * k + 1, 2 * k + 2)?;
    }
    Ok(())
}
