// The sources of all records at once, each looked for among the writers of its address; and the first record that lacks its own.
ghost use Rattle.std.specs.Prelude.{◌≡◌, ℕ, ◌≤◌, length, get_or};
ghost use Rattle.trace.specs.Bounds.{RECORDS};
ghost use Rattle.trace.specs.Meaning.{frame_of};
ghost use Rattle.rows.specs.Bounds.{CELLS};
ghost use Rattle.rows.specs.inner.AddedPairs.{Added};
ghost use Rattle.pairs.specs.MissingOf.{missing_of};
ghost use Rattle.edges.specs.inner.PairSets.{Only, Union};
ghost use Rattle.edges.specs.inner.DrawnEdges.{Stored};
ghost use Rattle.edges.specs.inner.SourcesLaid.{WrittenLaid, SourceIn, SourcesLaid};
ghost use Rattle.edges.specs.SourcesOf.{SourcesOf};

use trace::form::well_formed;
use trace::{RECORDS, Trace, first};

// Notes who writes which address: a row for each.
pub(crate) fn note_stores(t: Trace, stores: &mut [u64])
    requires { (t.len ≤ RECORDS) × (length stores.old ≡ CELLS) }
    ensures { Added stores.old (Union t.len (λ x. Only ((frame_of t).writes x) ((frame_of t).address x) x)) stores.new }
{
    let n = t.len;
    for x in 0..n {
        let op = t.records[x].op;
        let addr = op.address() as usize;
        rows::put_if(stores, op.writes(), addr, x);
    }
}

// What stands at a place of a list; 0 past its end.
fn value_at(values: &[u16], i: usize) -> u16
    ensures { result ≡ get_or values.now i 0 }
{
    values.get(i).copied().unwrap_or(0)
}

// Lays what each record writes.
fn lay_values(t: Trace, values: &mut [u16])
    requires { (t.len ≤ RECORDS) × (length values.old ≡ RECORDS) }
    ensures { WrittenLaid t t.len values.new }
{
    let n = t.len;
    for x in 0..n {
        values[x] = t.records[x].op.written();
    }
}

// The lowest number but the load's own in the row of its address that wrote a value; RECORDS where there is none, or none is asked for.
fn source_in(by: &[u64], addr: usize, values: &[u16], load: usize, value: u16, asks: bool) -> usize
    ensures { SourceIn by.now addr values.now load value asks result }
{
    if !asks {
        return RECORDS;
    }
    let mut z = rows::next(by, addr, 0);
    while z < RECORDS {
        if (z != load) & (value_at(values, z) == value) {
            return z;
        }
        z = rows::next(by, addr, z + 1);
    }
    RECORDS
}

// Lays the source of each record, looked for among the writers of its address, of which each has a row.
pub(crate) fn lay_sources(t: Trace, stores: &[u64], sources: &mut [usize])
    requires { (t.len ≤ RECORDS) × (length sources.old ≡ RECORDS) × ((a : ℕ) → Stored (frame_of t) stores.now a) }
    ensures { SourcesLaid (frame_of t) t.len sources.old sources.new }
{
    let n = t.len;
    let firsts = t.firsts;
    let mut values = [0u16; RECORDS];
    lay_values(t, &mut values);
    for load in 0..n {
        let op = t.records[load].op;
        let addr = op.address() as usize;
        let later = op.reads() & (op.read() != value_at(&firsts, addr));
        sources[load] = source_in(stores, addr, &values, load, op.read(), later);
    }
}

// The source of every record, RECORDS where it has none; RECORDS everywhere for a trace that says it has more records than it has room for.
pub fn sources_of(t: Trace) -> [usize; RECORDS]
    ensures { SourcesOf t result }
{
    let mut sources = [RECORDS; RECORDS];
    if RECORDS < t.len {
        return sources;
    }
    let mut stores = [0u64; rows::CELLS];
    note_stores(t, &mut stores);
    lay_sources(t, &stores, &mut sources);
    sources
}

// The lowest record that lacks its source: it reads a value that is neither its address's first one nor written by another. For a trace that is not
// well formed, nothing.
pub fn missing(t: Trace) -> Option<usize>
    ensures { result ≡ missing_of t }
{
    if !well_formed(t) {
        return None;
    }
    let n = t.len;
    let sources = sources_of(t);
    for load in 0..n {
        let op = t.records[load].op;
        let later = op.reads() & (op.read() != first(t, op.address()));
        if later & (RECORDS <= sources[load]) {
            return Some(load);
        }
    }
    None
}
