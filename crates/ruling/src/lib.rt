// Which rule gives an edge of a trace, no pairs supposed: the tests of the rules, one edge at a time.
#![tactic(auto)]

ghost use Rattle.std.specs.Prelude.{◌≡◌};
ghost use Rattle.laws.specs.Tests.{any};
ghost use Rattle.trace.specs.Meaning.{frame_of};
ghost use Rattle.rows.specs.Rows.{bit};
ghost use Rattle.rows.specs.Lent.{lent_of};
ghost use Rattle.pairs.specs.Kept.{kept_of};
ghost use Rattle.rules.specs.Rules.{nothing};
ghost use Rattle.rules.specs.RuleTests.{gives?};
ghost use Rattle.ruling.specs.inner.RuleParts.{before_source, after_load};
ghost use Rattle.rules.specs.ShownCircle.{rule?};

use pairs::frame::{begins, earlier, earlier_by, source, writer, writer_by};
use pairs::{kept, op_at};
use trace::Trace;

// Whether y is the source of a load that x, another writer, is known to be before: by program order, or where chains count by a chain. Both write the
// load's address, so that two of which one does not write the other's need no look at the loads.
fn before_source(t: Trace, chains: &[u64], chained: bool, x: usize, y: usize) -> bool
    ensures { result ≡ any t.len (before_source (frame_of t) chained (bit chains.now) x y) }
{
    if !(writer(t, x, y) & writer(t, y, x)) {
        return false;
    }
    let n = t.len;
    let a = op_at(t, x);
    for load in 0..n {
        let b = op_at(t, load);
        if writer_by(n, a, x, b, load) {
            let known = (chained & rows::test(chains, x, load))
                | (!chained & earlier_by(a, x, b, load));
            if known && source(t, y, load) {
                return true;
            }
        }
    }
    false
}

// Whether x is a load and y another writer that a chain leads to from the source of x.
fn after_load(t: Trace, chains: &[u64], x: usize, y: usize) -> bool
    ensures { result ≡ any t.len (after_load (frame_of t) (bit chains.now) x y) }
{
    if !writer(t, y, x) {
        return false;
    }
    let n = t.len;
    for from in 0..n {
        if (y != from) & rows::test(chains, from, y) && source(t, from, x) {
            return true;
        }
    }
    false
}

// Whether rows that are lent to a trace have the pair x, y, and it joins operations.
fn lent(t: Trace, rows: &[u64], x: usize, y: usize) -> bool
    ensures { result ≡ lent_of t rows.now x y }
{
    let n = t.len;
    let a = op_at(t, x);
    let b = op_at(t, y);
    let from = (x < n) & !a.fence();
    let to = (y < n) & !b.fence();
    from & to & rows::test(rows, x, y)
}

// The lowest rule that gives the edge x, y from the chains of the round before, told whether rule 1 does; 0 where none does.
fn lowest_told(t: Trace, told: bool, chains: &[u64], x: usize, y: usize) -> u8
    ensures { result ≡ rule? (frame_of t) (λ i j. told) nothing (bit chains.now) x y }
{
    if told {
        return 1;
    }
    if source(t, x, y) & !earlier(t, x, y) {
        return 2;
    }
    if before_source(t, chains, false, x, y) {
        return 3;
    }
    if begins(t, y, x) {
        return 4;
    }
    if begins(t, x, y) & earlier(t, x, y) {
        return 5;
    }
    if before_source(t, chains, true, x, y) {
        return 6;
    }
    if after_load(t, chains, x, y) {
        return 7;
    }
    0
}

// The lowest rule that gives the edge x, y from the chains of the round before, where the kept pairs are lent; 0 where none does.
pub fn lowest_rule_by(t: Trace, kept: &[u64], chains: &[u64], x: usize, y: usize) -> u8
    ensures { result ≡ rule? (frame_of t) (lent_of t kept.now) nothing (bit chains.now) x y }
{
    let told = lent(t, kept, x, y);
    lowest_told(t, told, chains, x, y)
}

// The lowest rule that gives the edge x, y from the chains of the round before; 0 where none does.
pub fn lowest_rule(t: Trace, model: u8, chains: &[u64], x: usize, y: usize) -> u8
    ensures { result ≡ rule? (frame_of t) (kept_of model t) nothing (bit chains.now) x y }
{
    let told = kept(t, model, x, y);
    lowest_told(t, told, chains, x, y)
}

// Whether a rule gives the edge x, y from the chains of the round before; 8 gives nothing, as no pairs are supposed.
pub fn gives(t: Trace, model: u8, chains: &[u64], x: usize, y: usize, rule: usize) -> bool
    ensures { result ≡ gives? (frame_of t) (kept_of model t) nothing (bit chains.now) x y rule }
{
    match rule {
        1 => kept(t, model, x, y),
        2 => source(t, x, y) & !earlier(t, x, y),
        3 => before_source(t, chains, false, x, y),
        4 => begins(t, y, x),
        5 => begins(t, x, y) & earlier(t, x, y),
        6 => before_source(t, chains, true, x, y),
        7 => after_load(t, chains, x, y),
        _ => false,
    }
}
