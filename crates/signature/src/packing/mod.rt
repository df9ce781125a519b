// The reads recorded in a trace, packed.
ghost use Rattle.std.specs.Prelude.{◌≡◌, suc, ◌<◌, ◌≤◌, length};
ghost use Rattle.std.proofs.Math.Bool.{So};
ghost use Rattle.laws.specs.Lowest.{lowest};
ghost use Rattle.trace.specs.Bounds.{RECORDS, THREADS};
ghost use Rattle.trace.specs.Op.{reads};
ghost use Rattle.trace.specs.Trace.{at};
ghost use Rattle.trace.specs.WellFormed.{well_formed};
ghost use Rattle.signature.specs.Reads.{unlisted, loads};
ghost use Rattle.signature.specs.SignatureAnswers.{read_in, words_in, size_in, loads_in, pack_of, pack_left};
ghost use Rattle.signature.specs.inner.WordsLaid.{choice, step_on, closed_of, joined_of, stepped_of, ran_from, thread_of, all_from, none_laid, laid_words};
ghost use Rattle.signature.specs.inner.LoadLists.{found_of, DigitsBelow};

use crate::choices::{digit_of, has_loads, of_thread, range_of};
use crate::products::{fits, wider, with_digit};
use crate::{Open, Reason};
use trace::form::well_formed;
use trace::{RECORDS, THREADS, Trace};

// The digit that is packed: of what a load read, or the last of its list.
fn choice(t: Trace, load: usize, last: bool) -> u64
    requires { (t.len ≤ RECORDS) × (load < t.len) }
    ensures { result ≡ choice t last load }
{
    if last {
        return range_of(t, load) - 1;
    }
    digit_of(t, load, t.records[load].op.read())
}

// The next place, where there is one.
pub(crate) fn after(i: usize) -> usize
    ensures { result ≡ step_on i }
{
    if i < RECORDS {
        return i + 1;
    }
    i
}

// The open word laid down, where there is room.
fn closed(o: Open) -> Open
    ensures { result ≡ closed_of o }
{
    let mut of = o.of;
    let at = o.count;
    if at < RECORDS {
        of[at] = o.word;
    }
    let count = after(at);
    Open {
        of,
        count,
        q: 0,
        word: 0,
    }
}

// A digit more: into the open word where its range fits, or else as a new one.
fn joined(o: Open, range: u64, digit: u64) -> Open
    requires { (digit < range) × (o.word ≤ o.q) }
    ensures { result ≡ joined_of o range digit }
{
    let q = o.q;
    if fits(q, range) {
        let of = o.of;
        let count = o.count;
        let word = with_digit(q, o.word, range, digit);
        let q = wider(q, range);
        return Open { of, count, q, word };
    }
    let next = closed(o);
    let of = next.of;
    let count = next.count;
    Open {
        of,
        count,
        q: range - 1,
        word: digit,
    }
}

// A record looked at for a thread.
fn stepped(t: Trace, core: u8, last: bool, o: Open, i: usize) -> Open
    requires { (t.len ≤ RECORDS) × (i < t.len) × DigitsBelow t last × (o.word ≤ o.q) }
    ensures { (result ≡ stepped_of t core last o i) × (result.word ≤ result.q) }
{
    if of_thread(t.records[i].op, core) {
        return joined(o, range_of(t, i), choice(t, i, last));
    }
    o
}

// The words of a thread, behind those laid down.
fn thread_words(t: Trace, core: u8, last: bool, o: Open) -> Open
    requires { (t.len ≤ RECORDS) × DigitsBelow t last × (o.word ≤ o.q) }
    ensures { (result ≡ thread_of t core last o) × (result.word ≤ result.q) }
{
    if !has_loads(t, core) {
        return o;
    }
    let mut built = o;
    for i in 0..t.len {
        built = stepped(t, core, last, built, i);
    }
    closed(built)
}

// The words of all threads.
pub(crate) fn all_words(t: Trace, last: bool) -> Open
    requires { (t.len ≤ RECORDS) × DigitsBelow t last }
    ensures { result ≡ all_from t last none_laid 0 THREADS }
{
    let mut built = Open {
        of: [0; RECORDS],
        count: 0,
        q: 0,
        word: 0,
    };
    for core in 0..THREADS {
        built = thread_words(t, core, last, built);
    }
    built
}

// The lowest record whose read is not in its list.
fn first_unlisted(t: Trace) -> Option<usize>
    requires { t.len ≤ RECORDS }
    ensures { result ≡ found_of (lowest (unlisted t (read_in t)) t.len 0) }
{
    for i in 0..t.len {
        let op = t.records[i].op;
        let digit = digit_of(t, i, op.read());
        if op.reads() & (digit == range_of(t, i)) {
            return Some(i);
        }
    }
    None
}

// Words that were laid down, put into lent memory of their number.
fn put_words(o: Open, words: &mut [u64])
    requires { (length words.old ≡ o.count) × (o.count ≤ RECORDS) }
    ensures { words.new ≡ laid_words o }
{
    for i in 0..o.count {
        words[i] = o.of[i];
    }
}

// How many words a program has.
pub fn words_of(t: Trace) -> usize
    ensures { result ≡ words_in t }
{
    if !well_formed(t) {
        return 0;
    }
    all_words(t, true).count
}

// How many words a thread of it has.
pub fn words_in(t: Trace, core: u8) -> usize
    ensures { result ≡ size_in t core }
{
    if !well_formed(t) {
        return 0;
    }
    let fresh = Open {
        of: [0; RECORDS],
        count: 0,
        q: 0,
        word: 0,
    };
    thread_words(t, core, true, fresh).count
}

// How many reads a program has.
pub fn loads_of(t: Trace) -> usize
    ensures { result ≡ loads_in t }
{
    if !well_formed(t) {
        return 0;
    }
    loads_in(t)
}

// How many loads and swaps there are.
pub(crate) fn loads_in(t: Trace) -> usize
    requires { t.len ≤ RECORDS }
    ensures { (result ≡ length (loads t)) × (result ≤ RECORDS) }
{
    let mut count: usize = 0;
    for i in 0..t.len {
        if t.records[i].op.reads() {
            count += 1;
        }
    }
    count
}

// Packs the reads of a trace into lent words of the right number; beside a refusal all is as it was.
pub fn pack(t: Trace, words: &mut [u64]) -> Result<(), Reason>
    ensures { (result ≡ pack_of t (length words.old)) × (words.new ≡ pack_left t words.old) }
{
    if !well_formed(t) {
        return Err(Reason::NotWellFormed);
    }
    let largest = all_words(t, true);
    if words.len() != largest.count {
        return Err(Reason::WrongLength);
    }
    match first_unlisted(t) {
        Some(i) => Err(Reason::NotListed(i)),
        None => {
            put_words(all_words(t, false), words);
            Ok(())
        }
    }
}
