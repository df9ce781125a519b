// The kept pairs of a trace under a model, drawn once as rows, so that they can be lent.
ghost use Rattle.std.specs.Prelude.{◌≡◌, ◌↔◌, ℕ, ◌<◌, ◌≤◌, length};
ghost use Rattle.std.proofs.Math.Bool.{So};
ghost use Rattle.trace.specs.Bounds.{RECORDS};
ghost use Rattle.trace.specs.Op.{address};
ghost use Rattle.trace.specs.Trace.{at};
ghost use Rattle.rows.specs.Bounds.{CELLS};
ghost use Rattle.rows.specs.Rows.{bit, Edges, Words};
ghost use Rattle.rows.specs.Empty.{empty_of};
ghost use Rattle.rows.specs.inner.AddedPairs.{Added};
ghost use Rattle.pairs.specs.Kept.{modelled, kind_of, kept_of};
ghost use Rattle.edges.specs.KeptRows.{KeptRows};
ghost use Rattle.edges.specs.inner.PairSets.{Union, Cover};
ghost use Rattle.edges.specs.inner.LaterRecords.{KINDS, SHELF, Filed, OffRow, OffFor, KeptRow, DrawnRows};

use pairs::{KINDS, kept_by, kind, modelled};
use trace::{RECORDS, Trace};

// The words of a row for each kind.
const SHELF: usize = KINDS as usize * rows::WORDS;

// Notes which records are of which kind, and which have which address: a row for each.
fn note_records(t: Trace, kinds: &mut [u64], places: &mut [u64])
    requires { (t.len ≤ RECORDS) × (length kinds.old ≡ SHELF) × (length places.old ≡ CELLS) }
    ensures kinds_noted { Added kinds.old (Filed t.len (λ y. kind_of (at t y))) kinds.new }
    ensures places_noted { Added places.old (Filed t.len (λ y. address (at t y))) places.new }
{
    let n = t.len;
    for y in 0..n {
        let op = t.records[y].op;
        let row = kind(op) as usize;
        rows::put(kinds, row, y);
        let addr = op.address() as usize;
        rows::put(places, addr, y);
    }
}

// Draws what a model lets off after a kind, at one address or at two: the records of each kind that it does not keep with that one.
fn let_off_from(model: u8, first: u8, one: bool, kinds: &[u64], off: &mut [u64])
    requires { (first < KINDS) × (length off.old ≡ SHELF) }
    ensures { Added off.old (Union KINDS (OffRow model one kinds.now first)) off.new }
{
    let row = first as usize;
    for second in 0..KINDS {
        if !kept_by(model, first, second, one) {
            rows::add_row(kinds, second as usize, off, row);
        }
    }
}

// Draws what a model lets off after each kind, so that its table is asked once for two kinds and not for two records.
fn let_off(model: u8, one: bool, kinds: &[u64], off: &mut [u64])
    requires { length off.old ≡ SHELF }
    ensures { Added off.old (Cover KINDS (OffRow model one kinds.now)) off.new }
{
    for first in 0..KINDS {
        let_off_from(model, first, one, kinds, off);
    }
}

// What is let off after a record of a kind and an address, as a row: what is let off at two addresses and is not at this one, and what is let
// off at one.
fn off_for(
    elsewhere: &[u64],
    there: &[u64],
    places: &[u64],
    kind: usize,
    addr: usize,
) -> [u64; rows::WORDS]
    ensures { Words result × ((y : ℕ) → So (bit result 0 y) ↔ OffFor elsewhere.now there.now places.now kind addr y) }
{
    let mut off = [0u64; rows::WORDS];
    rows::add_row(elsewhere, kind, &mut off, 0);
    rows::drop_row(places, addr, &mut off, 0);
    rows::add_row(there, kind, &mut off, 0);
    off
}

// Draws the row of record x, which is empty yet: what is later of its thread but for what is let off, and what is behind a fence.
fn draw_kept_from(
    later: &[u64],
    behind: &[u64],
    off: &[u64],
    thread: usize,
    x: usize,
    kept: &mut [u64],
)
    requires { (x < RECORDS) × (length kept.old ≡ CELLS) × ((y : ℕ) → Edges kept.old x y → ⊥) }
    ensures { Added kept.old (KeptRow later.now behind.now off.now thread x) kept.new }
{
    rows::add_row(later, thread, kept, x);
    rows::drop_row(off, 0, kept, x);
    rows::add_row(behind, thread, kept, x);
}

// Draws the rows of a trace from its last record to its first: all that is later of a thread is behind its fence, and an operation is later than
// the records before it.
fn draw_kept(t: Trace, elsewhere: &[u64], there: &[u64], places: &[u64], kept: &mut [u64])
    requires { (t.len ≤ RECORDS) × (kept.old ≡ empty_of CELLS) }
    ensures { Added kept.old (DrawnRows t elsewhere.now there.now places.now) kept.new }
{
    let mut later = [0u64; rows::CELLS];
    let mut behind = [0u64; rows::CELLS];
    for x in (0..t.len).rev() {
        let op = t.records[x].op;
        let thread = op.thread() as usize;
        if op.fence() {
            rows::add_row(&later, thread, &mut behind, thread);
        } else {
            let off = off_for(
                elsewhere,
                there,
                places,
                kind(op) as usize,
                op.address() as usize,
            );
            draw_kept_from(&later, &behind, &off, thread, x, kept);
            rows::put(&mut later, thread, x);
        }
    }
}

// Draws the pairs that a model keeps, a row at a time.
fn draw_rows(t: Trace, model: u8, kept: &mut [u64])
    requires { (t.len ≤ RECORDS) × (So (modelled model)) × (kept.old ≡ empty_of CELLS) }
    ensures { Added kept.old (λ x y. So (kept_of model t x y)) kept.new }
{
    let mut kinds = [0u64; SHELF];
    let mut places = [0u64; rows::CELLS];
    note_records(t, &mut kinds, &mut places);
    let mut elsewhere = [0u64; SHELF];
    let_off(model, false, &kinds, &mut elsewhere);
    let mut there = [0u64; SHELF];
    let_off(model, true, &kinds, &mut there);
    draw_kept(t, &elsewhere, &there, &places, kept);
}

// The kept pairs of a trace under a model, as rows. A model that does not exist keeps none; of a trace with more records than there are rows,
// none are drawn.
pub fn kept_rows(t: Trace, model: u8) -> [u64; rows::CELLS]
    ensures { KeptRows t model result }
{
    let mut kept = [0u64; rows::CELLS];
    if t.len <= RECORDS && modelled(model) {
        draw_rows(t, model, &mut kept);
    }
    kept
}
