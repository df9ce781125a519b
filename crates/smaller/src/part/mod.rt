// Some records of a trace: which, as a row of bits; what goes with a record that is removed; the trace that is left, and its old numbers.
ghost use Rattle.std.specs.Prelude.{◌≡◌, not, ◌&&◌, ◌||◌, ℕ, ◌≤◌, ◌<◌, eqb, length};
ghost use Rattle.std.proofs.Math.Bool.{So};
ghost use Rattle.laws.specs.Relation.{Chain};
ghost use Rattle.trace.specs.Bounds.{RECORDS};
ghost use Rattle.trace.specs.Meaning.{frame_of};
ghost use Rattle.trace.specs.Op.{writes};
ghost use Rattle.trace.specs.Trace.{up_to};
ghost use Rattle.trace.specs.WellFormed.{well_formed};
ghost use Rattle.trace.specs.Padded.{padded};
ghost use Rattle.rows.specs.Bounds.{CELLS, WORDS};
ghost use Rattle.rows.specs.Rows.{bit};
ghost use Rattle.parts.specs.Picked.{picked, olds_to};
ghost use Rattle.smaller.specs.inner.RecordSets.{Chosen, ReaderChains};

use pairs::{op_at, source_of};
use trace::{Op, RECORDS, Trace, empty};

// The trace of no records that begins with the values of another.
fn begun(t: Trace) -> Trace
    ensures { result ≡ up_to t 0 }
{
    let mut u = empty();
    let firsts = t.firsts;
    u.firsts = firsts;
    u
}

// The records of a set, closed up, as a trace.
pub(crate) fn picked(t: Trace, kept: &[u64]) -> Trace
    requires { t.len ≤ RECORDS }
    ensures { result ≡ picked t (Chosen kept.now) }
{
    let n = t.len;
    let mut part = begun(t);
    for i in 0..n {
        if rows::test(kept, 0, i) {
            let at = part.len;
            part.records[at] = t.records[i];
            part.len = at + 1;
        }
    }
    part
}

// The numbers of a set among the first n, one after another.
pub(crate) fn olds(n: usize, kept: &[u64]) -> [u16; RECORDS]
    requires { n ≤ RECORDS }
    ensures { result ≡ padded (olds_to (Chosen kept.now) n) }
{
    let mut list = [0u16; RECORDS];
    let mut at: usize = 0;
    for i in 0..n {
        if rows::test(kept, 0, i) {
            list[at] = i as u16;
            at += 1;
        }
    }
    list
}

// The set of the first n records.
pub(crate) fn all(n: usize, kept: &mut [u64])
    requires { (n ≤ RECORDS) × (length kept.old ≡ WORDS) }
    ensures { (length kept.new ≡ WORDS) × ((x : ℕ) → x < n → So (Chosen kept.new x)) }
{
    for i in 0..n {
        rows::put(kept, 0, i);
    }
}

// Whether a record of this kind takes others with it: a store and a swap may have been read from.
fn takes_readers(op: Op) -> bool
    ensures { result ≡ writes op }
{
    match op {
        Op::Load { .. } => false,
        Op::Store { .. } => true,
        Op::Swap { .. } => true,
        Op::Fence { .. } => false,
    }
}

// Which record goes where another goes: whoever reads from it, from what reads from it, and so on.
pub(crate) fn lay_goes(t: Trace, goes: &mut [u64])
    requires { So (well_formed t) × (length goes.old ≡ CELLS) }
    ensures { ReaderChains (frame_of t) goes.new }
{
    rows::clear(goes);
    let n = t.len;
    for load in 0..n {
        let source = source_of(t, load);
        rows::put_if(goes, takes_readers(op_at(t, source)), source, load);
    }
    rows::chains(goes);
}

// The set without record i and what goes with it, of the first n records.
pub(crate) fn without(kept: &[u64], goes: &[u64], n: usize, i: usize, left: &mut [u64])
    requires { (n ≤ RECORDS) × (length left.old ≡ WORDS) }
    ensures { (length left.new ≡ WORDS) × ((x : ℕ) → x < n → Chosen left.new x ≡ (Chosen kept.now x && not (eqb i x || bit goes.now i x))) }
{
    rows::clear(left);
    for x in 0..n {
        let goes_too = (i == x) | rows::test(goes, i, x);
        rows::put_if(left, rows::test(kept, 0, x) & !goes_too, 0, x);
    }
}
