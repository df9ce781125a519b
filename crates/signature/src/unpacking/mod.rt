// Words taken apart into reads.
ghost use Rattle.std.specs.Prelude.{◌≡◌, suc, ◌/◌, ◌%◌, ◌<◌, ◌≤◌, length, get_or};
ghost use Rattle.std.proofs.Math.Bool.{So};
ghost use Rattle.laws.specs.Lowest.{lowest};
ghost use Rattle.trace.specs.Bounds.{RECORDS, THREADS};
ghost use Rattle.trace.specs.WellFormed.{well_formed};
ghost use Rattle.signature.specs.Reads.{each, value_of, loads};
ghost use Rattle.signature.specs.Signature.{tops};
ghost use Rattle.signature.specs.Unpack.{reads_of};
ghost use Rattle.signature.specs.SignatureAnswers.{unpack_of, unpack_left};
ghost use Rattle.signature.specs.inner.WordsLaid.{placed_of, placed_at, placed_thread, places_of, digit_by};
ghost use Rattle.signature.specs.inner.ValuesLaid.{AllValues};
ghost use Rattle.signature.specs.inner.LoadLists.{found_of, over, place_after, read_put, DigitsSmall, ReadGiven};

use crate::choices::{all_values, has_loads, of_thread, range_of, value_of};
use crate::packing::{after, all_words, loads_in};
use crate::products::{fits, left_above, wider};
use crate::{Open, Places, Reason, WrittenValues};
use trace::form::well_formed;
use trace::{RECORDS, THREADS, Trace};

// The word at a place; 0 past the last one.
fn word_at(words: &[u64], at: usize) -> u64
    ensures { result ≡ get_or words.now at 0 }
{
    if at < words.len() {
        return words[at];
    }
    0
}

// The digit of a record laid into the open word, or, where its range does not fit, into the next one.
fn placed(x: Places, range: u64, i: usize) -> Places
    requires { (0 < range) × (i < RECORDS) }
    ensures { result ≡ placed_of x range i }
{
    let mut word = x.word;
    let mut below = x.below;
    let mut ranges = x.range;
    let at = x.at;
    let q = x.q;
    ranges[i] = range;
    if fits(q, range) {
        word[i] = at;
        below[i] = q;
        let q = wider(q, range);
        return Places {
            word,
            below,
            range: ranges,
            at,
            q,
        };
    }
    let at = after(at);
    word[i] = at;
    below[i] = 0;
    Places {
        word,
        below,
        range: ranges,
        at,
        q: range - 1,
    }
}

// A record looked at for a thread.
fn looked(t: Trace, core: u8, x: Places, i: usize) -> Places
    requires { (t.len ≤ RECORDS) × (i < t.len) }
    ensures { result ≡ placed_at t core x i }
{
    if of_thread(t.records[i].op, core) {
        return placed(x, range_of(t, i), i);
    }
    x
}

// The digits of a thread laid out, behind those of the threads before it.
fn thread_places(t: Trace, core: u8, x: Places) -> Places
    requires { t.len ≤ RECORDS }
    ensures { result ≡ placed_thread t core x }
{
    if !has_loads(t, core) {
        return x;
    }
    let mut built = x;
    for i in 0..t.len {
        built = looked(t, core, built, i);
    }
    let word = built.word;
    let below = built.below;
    let range = built.range;
    let at = after(built.at);
    Places {
        word,
        below,
        range,
        at,
        q: 0,
    }
}

// Where the digits of all threads stand; it does not look at words.
pub(crate) fn all_places(t: Trace) -> Places
    requires { t.len ≤ RECORDS }
    ensures { result ≡ places_of t }
{
    let mut built = Places {
        word: [0; RECORDS],
        below: [0; RECORDS],
        range: [1; RECORDS],
        at: 0,
        q: 0,
    };
    for core in 0..THREADS {
        built = thread_places(t, core, built);
    }
    built
}

// The digit of a range that stands in a word above the product q + 1.
fn digit_at(words: &[u64], at: usize, q: u64, range: u64) -> u64
    ensures { result ≡ get_or words.now at 0 / suc q % range }
{
    let left = left_above(word_at(words, at), q);
    if range == 0 {
        return left;
    }
    left % range
}

// The lowest word, of whichever run, that is larger than the largest one at its place among the words of the run.
pub(crate) fn first_large(words: &[u64], largest: Open) -> Option<usize>
    requires { (largest.count ≤ RECORDS) × (0 < length words.now → 0 < largest.count) }
    ensures { result ≡ found_of (lowest (over largest.of largest.count words.now) (length words.now) 0) }
{
    let each = largest.count;
    for k in 0..words.len() {
        if largest.of[k % each] < words[k] {
            return Some(k);
        }
    }
    None
}

// What a record read, if it is a load or swap, put at a place, and the next place.
fn put_read(t: Trace, y: WrittenValues, digit: u64, i: usize, out: &mut [u16], k: usize) -> usize
    requires { ReadGiven t y digit i out.old k }
    ensures { (result ≡ place_after t i k) × (out.new ≡ read_put t i k digit out.old) }
{
    let op = t.records[i].op;
    if !op.reads() {
        return k;
    }
    out[k] = value_of(t, y, i, digit);
    k + 1
}

// What the loads read, by record number, put into lent memory of their number.
fn put_reads(t: Trace, x: Places, y: WrittenValues, words: &[u64], out: &mut [u16])
    requires { So (well_formed t) × AllValues t y × DigitsSmall t x words.now × (length out.old ≡ length (loads t)) }
    ensures { out.new ≡ each (λ L. value_of t L (digit_by x words.now L)) (loads t) }
{
    let mut k: usize = 0;
    for i in 0..t.len {
        let digit = digit_at(words, x.word[i], x.below[i], x.range[i]);
        k = put_read(t, y, digit, i, out, k);
    }
}

// What the words of a run stand for, put into lent memory of the reads' number.
pub(crate) fn put_run(t: Trace, x: Places, y: WrittenValues, words: &[u64], out: &mut [u16])
    requires { So (well_formed t) × (x ≡ places_of t) × AllValues t y × (length words.now ≡ length (tops t)) × (length out.old ≡ length (loads t)) }
    ensures { out.new ≡ reads_of t words.now }
{
    put_reads(t, x, y, words, out);
}

// Unpacks words into lent reads, both of the right number; beside a refusal all is as it was.
pub fn unpack(t: Trace, words: &[u64], reads: &mut [u16]) -> Result<(), Reason>
    ensures { (result ≡ unpack_of t words.now (length reads.old)) × (reads.new ≡ unpack_left t words.now reads.old) }
{
    if !well_formed(t) {
        return Err(Reason::NotWellFormed);
    }
    let largest = all_words(t, true);
    if words.len() != largest.count {
        return Err(Reason::WrongLength);
    }
    if reads.len() != loads_in(t) {
        return Err(Reason::WrongLength);
    }
    match first_large(words, largest) {
        Some(k) => Err(Reason::TooLarge(k)),
        None => {
            put_run(t, all_places(t), all_values(t), words, reads);
            Ok(())
        }
    }
}
