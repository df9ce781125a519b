// The lines of a list: in numbers, or in words with the number that each entry has in its branch. Each function says whether it could write all.
ghost use Rattle.std.specs.Prelude.{◌≤◌, ◌<◌, length};

use std::io;
use std::io::Stdout;

// The rule of an entry that splits its branch; 0 closes it, the others are the rules of an edge.
const SPLIT: u16 = 8;

const CLOSE: u16 = 0;

// How many splits may be open at once.
pub const OPEN: usize = 1024;

// More entries than any list here has: numbers stop there, so that none grows out of its type.
const ENTRIES: usize = 65536;

// An entry, with the places of the entries that it rests on: from the first up to the end, where the next entry begins.
#[derive(Clone, Copy)]
struct Entry {
    rule: u16,
    x: u16,
    y: u16,
    from: usize,
    end: usize,
}

// A split whose other side is still to come: its number, and its pair.
#[derive(Clone, Copy, Default)]
pub struct Split {
    number: usize,
    x: u16,
    y: u16,
}

// How far the words have come: the number of the next entry, and how many splits are open.
#[derive(Clone, Copy)]
struct Walk {
    next: usize,
    open: usize,
}

// The number after one.
fn after(number: usize) -> usize {
    if number < ENTRIES { number + 1 } else { number }
}

// The place behind k numbers from a place on; the list's end where it has no more.
fn behind(n: usize, from: usize, k: usize) -> usize
    requires { from ≤ n }
    ensures { (from ≤ result) × (result ≤ n) }
{
    if n - from < k { n } else { from + k }
}

// The entry that begins at a place. It ends further on, so that a walk from entry to entry comes to the list's end.
fn entry_at(list: &[u16], at: usize) -> Entry
    requires { at < length list.now }
    ensures { (at < result.end) × (result.end ≤ length list.now) }
{
    let n = list.len();
    if n - at < 4 {
        return Entry {
            rule: CLOSE,
            x: 0,
            y: 0,
            from: n,
            end: n,
        };
    }
    let from = at + 4;
    let k = list[at + 3] as usize;
    Entry {
        rule: list[at],
        x: list[at + 1],
        y: list[at + 2],
        from,
        end: behind(n, from, k),
    }
}

// Prints the numbers from one place up to another, a space before each, and ends the line.
fn say_rest(stdout: Stdout, list: &[u16], from: usize, end: usize) -> io::Result<()> {
    if let Some(rest) = list.get(from..end) {
        for x in rest {
            print!(stdout; " {x}")?;
        }
    }
    println!(stdout; "")
}

// Prints the numbers of a list, an entry to a line.
pub fn say_numbers(stdout: Stdout, list: &[u16]) -> io::Result<()> {
    let mut at: usize = 0;
    // Not a `for`: each step ends where the entry does.
    while at < list.len() {
        let e = entry_at(list, at);
        print!(stdout; "{}", list[at])?;
        say_rest(stdout, list, at + 1, e.end)?;
        at = e.end;
    }
    Ok(())
}

// Prints a number and the pair that it stands for, with what it is between them.
fn say_pair(stdout: Stdout, number: usize, what: &str, x: u16, y: u16) -> io::Result<()> {
    print!(stdout; "{number}: {what}{x} before {y}")
}

// Prints an edge, its rule and the entries that it rests on.
fn say_edge(stdout: Stdout, list: &[u16], e: Entry, number: usize) -> io::Result<()> {
    say_pair(stdout, number, "", e.x, e.y)?;
    print!(stdout; " by rule {}", e.rule)?;
    if e.from < e.end {
        print!(stdout; ", from")?;
        return say_rest(stdout, list, e.from, e.end);
    }
    println!(stdout; "")
}

// Prints the line of an entry.
fn say_entry(stdout: Stdout, list: &[u16], e: Entry, number: usize) -> io::Result<()> {
    if e.rule == CLOSE {
        print!(stdout; "circle")?;
        return say_rest(stdout, list, e.from, e.end);
    }
    if e.rule == SPLIT {
        say_pair(stdout, number, "split, ", e.x, e.y)?;
        return println!(stdout; "");
    }
    say_edge(stdout, list, e, number)
}

// Behind a split: it is put on the stack of those that are open, if there is room.
fn opened(e: Entry, w: Walk, splits: &mut [Split]) -> Option<Walk> {
    let open = w.open;
    if splits.len() <= open {
        return None;
    }
    splits[open] = Split {
        number: w.next,
        x: e.x,
        y: e.y,
    };
    Some(Walk {
        next: after(w.next),
        open: open + 1,
    })
}

// Behind a circle: the latest open split is taken from the stack, if there is one, and its other side begins under its number.
fn closed(stdout: Stdout, w: Walk, splits: &[Split]) -> io::Result<Walk> {
    if w.open == 0 {
        return Ok(w);
    }
    let open = w.open - 1;
    let split = splits.get(open).copied().unwrap_or_default();
    say_pair(stdout, split.number, "other side, ", split.y, split.x)?;
    println!(stdout; "")?;
    Ok(Walk {
        next: after(split.number),
        open,
    })
}

// Behind an edge: the next entry has the next number.
fn passed(w: Walk) -> Walk {
    Walk {
        next: after(w.next),
        ..w
    }
}

// What is so behind an entry; nothing where a split has no room.
fn stepped(stdout: Stdout, e: Entry, w: Walk, splits: &mut [Split]) -> io::Result<Option<Walk>> {
    match e.rule {
        SPLIT => Ok(opened(e, w, splits)),
        CLOSE => Ok(Some(closed(stdout, w, splits)?)),
        _ => Ok(Some(passed(w))),
    }
}

// Prints a list in words, with lent memory for the open splits.
pub fn say_lines(stdout: Stdout, list: &[u16], splits: &mut [Split]) -> io::Result<()> {
    let mut w = Walk { next: 0, open: 0 };
    let mut at: usize = 0;
    // Not a `for`: each step ends where the entry does.
    while at < list.len() {
        let e = entry_at(list, at);
        say_entry(stdout, list, e, w.next)?;
        let Some(walk) = stepped(stdout, e, w, splits)? else {
            return println!(stdout; "too long");
        };
        w = walk;
        at = e.end;
    }
    Ok(())
}
