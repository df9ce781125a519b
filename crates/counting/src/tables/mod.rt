// The tables of the plain search, laid once from the trace: sets of records and relations on them, as rows.
ghost use Rattle.std.specs.Prelude.{◌≡◌, ◌<◌, ◌≤◌, length};
ghost use Rattle.trace.specs.Bounds.{RECORDS};
ghost use Rattle.trace.specs.Meaning.{frame_of};
ghost use Rattle.rows.specs.Bounds.{CELLS, WORDS};
ghost use Rattle.rules.specs.RuleTests.{writer?};
ghost use Rattle.pairs.specs.Kept.{kept_of};
ghost use Rattle.edges.specs.inner.PairSets.{Only, Union};
ghost use Rattle.rows.specs.inner.AddedPairs.{Added};
ghost use Rattle.counting.specs.inner.CountingRows.{SetsOf, owns, feeds?, Rows};

use pairs::frame::{earlier_by, writer_by};
use pairs::kept_pair;
use trace::{Trace, first};

// Lays the sets of the operations, of the reads, and of the reads of a first value, and counts the operations.
pub(crate) fn lay_sets(
    t: Trace,
    operations: &mut [u64],
    reads: &mut [u64],
    served: &mut [u64],
) -> usize
    requires { (t.len ≤ RECORDS) × (length operations.old ≡ WORDS) × (length reads.old ≡ WORDS) × (length served.old ≡ WORDS) }
    ensures { SetsOf (frame_of t) t.len operations.new reads.new served.new result }
{
    rows::clear(operations);
    rows::clear(reads);
    rows::clear(served);
    let n = t.len;
    let mut total = 0;
    for x in 0..n {
        let op = t.records[x].op;
        let begins = first(t, op.address());
        rows::put_if(operations, !op.fence(), 0, x);
        rows::put_if(reads, op.reads(), 0, x);
        rows::put_if(served, op.reads() & (op.read() == begins), 0, x);
        if !op.fence() {
            total += 1;
        }
    }
    total
}

// Lays whom the model keeps behind record x: row y takes x.
fn lay_partners(t: Trace, model: u8, x: usize, partners: &mut [u64])
    requires { (x < t.len) × (t.len ≤ RECORDS) × (length partners.old ≡ CELLS) }
    ensures { Added partners.old (Union t.len (λ y. Only (kept_of model t x y) y x)) partners.new }
{
    let n = t.len;
    let a = t.records[x].op;
    let mut passed = false;
    for y in 0..n {
        let b = t.records[y].op;
        let kept = kept_pair(model, a, b, (x < y) & (y < n), passed);
        rows::put_if(partners, kept, y, x);
        passed = passed | (b.fence() & (x < y) & (b.thread() == a.thread()));
    }
}

// Lays what record x is to the reads of its address: a writer earlier in their program order, row y takes x; who reads from it, and whom it
// takes the place from, row x takes y.
fn lay_writer(
    t: Trace,
    reads: &[u64],
    served: &[u64],
    x: usize,
    own: &mut [u64],
    fed: &mut [u64],
    rivals: &mut [u64],
)
    requires { (x < t.len) × (t.len ≤ RECORDS) × (length own.old ≡ CELLS) × (length fed.old ≡ CELLS) × (length rivals.old ≡ CELLS) }
    ensures owned { Added own.old (Union t.len (λ y. Only (owns (frame_of t) x y) y x)) own.new }
    ensures sourced { Added fed.old (Union t.len (λ y. Only (feeds? (frame_of t) reads.now served.now x y) x y)) fed.new }
    ensures rival { Added rivals.old (Union t.len (λ y. Only (writer? (frame_of t) x y) x y)) rivals.new }
{
    let n = t.len;
    let a = t.records[x].op;
    for y in 0..n {
        let b = t.records[y].op;
        let writer = writer_by(n, a, x, b, y);
        let earlier = earlier_by(a, x, b, y);
        let read = rows::test(reads, 0, y) & (b.read() == a.written());
        let source = writer & read & !rows::test(served, 0, y);
        rows::put_if(own, writer & earlier, y, x);
        rows::put_if(fed, source, x, y);
        rows::put_if(rivals, writer, x, y);
    }
}

// Lays the four relations.
pub(crate) fn lay(
    t: Trace,
    model: u8,
    reads: &[u64],
    served: &[u64],
    partners: &mut [u64],
    own: &mut [u64],
    fed: &mut [u64],
    rivals: &mut [u64],
)
    requires { (t.len ≤ RECORDS) × (length partners.old ≡ CELLS) × (length own.old ≡ CELLS) × (length fed.old ≡ CELLS) × (length rivals.old ≡ CELLS) }
    ensures { Rows (frame_of t) (kept_of model t) t.len reads.now served.now partners.new own.new fed.new rivals.new }
{
    rows::clear(partners);
    rows::clear(own);
    rows::clear(fed);
    rows::clear(rivals);
    let n = t.len;
    for x in 0..n {
        lay_partners(t, model, x, partners);
        lay_writer(t, reads, served, x, own, fed, rivals);
    }
}
