// Two tables that stay closed under chains, one of them the other turned round: a pair is taken in with all that it joins, whole rows at a time.
ghost use Rattle.std.specs.Prelude.{◌≡◌, ◌<◌, ◌≤◌, length};
ghost use Rattle.std.proofs.Math.Bool.{So};
ghost use Rattle.trace.specs.Bounds.{RECORDS};
ghost use Rattle.rows.specs.Bounds.{CELLS};
ghost use Rattle.rows.specs.Rows.{bit, Edges};
ghost use Rattle.rows.specs.inner.AddedPairs.{Added};
ghost use Rattle.edges.specs.inner.ClosedTables.{Twin, OnePair, FromTo, Spread, Spans, Inside, TakenIn, ForwardPart};
ghost use Rattle.edges.specs.inner.RoundStep.{Closed};

use trace::RECORDS;

// Adds one row to every row that `heads` has.
fn spread(heads: &[u64], row: &[u64], rows: &mut [u64])
    requires { length rows.old ≡ CELLS }
    ensures { Added rows.old (Spread heads.now row.now) rows.new }
{
    let mut x = rows::next(heads, 0, 0);
    while x < RECORDS {
        rows::add_row(row, 0, rows, x);
        x = rows::next(heads, 0, x + 1);
    }
}

// A number with what row x has, as a row of its own.
fn with_own(rows: &[u64], x: usize) -> [u64; rows::WORDS]
    requires { x < RECORDS }
    ensures { FromTo rows.now x result }
{
    let mut row = [0u64; rows::WORDS];
    rows::add_row(rows, x, &mut row, 0);
    rows::put(&mut row, 0, x);
    row
}

// Adds the pair a, b with all that it joins: what leads to a, and not yet to b, leads on to b and what b leads to. Who leads to b already has all that.
fn span(edges: &mut [u64], turned: &mut [u64], a: usize, b: usize)
    requires { (a < RECORDS) × (b < RECORDS) × (length edges.old ≡ CELLS) × (length turned.old ≡ CELLS) }
    ensures { Spans edges.old turned.old a b edges.new turned.new }
{
    let after = with_own(edges, b);
    let ahead = with_own(turned, a);
    let early = rows::rest(&ahead, 0, turned, b);
    let late = rows::rest(&after, 0, edges, a);
    spread(&early, &after, edges);
    spread(&late, &ahead, turned);
}

// Takes the pair a, b in, if it is not there.
fn take(edges: &mut [u64], turned: &mut [u64], a: usize, b: usize)
    requires { (a < RECORDS) × (b < RECORDS) × (length edges.old ≡ CELLS) × (length turned.old ≡ CELLS) }
    ensures { TakenIn edges.old turned.old (OnePair a b) edges.new turned.new }
{
    if !rows::test(edges, a, b) {
        span(edges, turned, a, b);
    }
}

// Takes in the pairs of a with all that a row has.
pub(crate) fn take_row(edges: &mut [u64], turned: &mut [u64], a: usize, row: &[u64])
    requires { (a < RECORDS) × (length edges.old ≡ CELLS) × (length turned.old ≡ CELLS) }
    ensures { TakenIn edges.old turned.old (λ i j. (i ≡ a) × So (bit row.now 0 j)) edges.new turned.new }
{
    let mut b = rows::next(row, 0, 0);
    while b < RECORDS {
        take(edges, turned, a, b);
        b = rows::next(row, 0, b + 1);
    }
}

// Takes in all pairs of a table, of each row those that are not there yet.
fn take_rows(n: usize, pairs: &[u64], edges: &mut [u64], turned: &mut [u64])
    requires { (n ≤ RECORDS) × Inside n pairs.now × (length edges.old ≡ CELLS) × (length turned.old ≡ CELLS) }
    ensures { TakenIn edges.old turned.old (Edges pairs.now) edges.new turned.new }
{
    for x in 0..n {
        let row = rows::rest(pairs, x, edges, x);
        take_row(edges, turned, x, &row);
    }
}

// Lays the pairs that lead forward into rows that have none.
fn lay_forward(n: usize, edges: &[u64], chains: &mut [u64])
    requires { (n ≤ RECORDS) × Inside n edges.now × (length chains.old ≡ CELLS) }
    ensures { ForwardPart edges.now chains.new }
{
    rows::clear(chains);
    let mut below = [0u64; rows::WORDS];
    for x in 0..n {
        rows::put(&mut below, 0, x);
        let row = rows::rest(edges, x, &below, 0);
        rows::add_row(&row, 0, chains, x);
    }
}

// Makes `chains` the chains of the edges and `turned` these turned round, and tells whether one leads from a number to itself. The chains of the pairs
// that lead forward, which is most of them, are found at once; the others are taken in.
pub(crate) fn close_both_ways(
    n: usize,
    edges: &[u64],
    chains: &mut [u64],
    turned: &mut [u64],
) -> bool
    requires { (n ≤ RECORDS) × Inside n edges.now × (length chains.old ≡ CELLS) × (length turned.old ≡ CELLS) }
    ensures { Closed edges.now chains.new result × Twin chains.new turned.new × (length turned.new ≡ CELLS) }
{
    lay_forward(n, edges, chains);
    rows::chains(chains);
    rows::turn(chains, n, turned);
    take_rows(n, edges, chains, turned);
    rows::reflexive(chains)
}
