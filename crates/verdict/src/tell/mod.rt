// The verdict in document 01's order.
ghost use Rattle.std.specs.Prelude.{◌≡◌, None};
ghost use Rattle.std.proofs.Math.Bool.{So};
ghost use Rattle.trace.specs.WellFormed.{well_formed};
ghost use Rattle.rows.specs.Lent.{lent_of};
ghost use Rattle.pairs.specs.MissingOf.{missing_of};
ghost use Rattle.verdict.specs.VerdictOf.{ToldBy, Told, Orderless, bare};

use crate::{Outcome, Verdict};
use circle::show::circle_by;
use edges::kept::kept_rows;
use edges::sources::missing;
use pairs::modelled;
use search::first::first_order_by;
use trace::form::well_formed;
use trace::{RECORDS, Trace};

// An outcome that has no operations.
fn bare(outcome: Outcome) -> Verdict
    ensures { result ≡ bare outcome }
{
    Verdict {
        outcome,
        len: 0,
        operations: [0; RECORDS],
        rules: [0; RECORDS],
    }
}

// A circle where there is one, of a well formed trace that lacks no source and has no valid order.
fn circle_or_none(t: Trace, kept: &[u64]) -> Verdict
    requires { So (well_formed t) × (missing_of t ≡ None) × Orderless t (lent_of t kept.now) }
    ensures { ToldBy t (lent_of t kept.now) result }
{
    let circle = circle_by(t, kept);
    if 0 < circle.len {
        // A field that is an array goes into a literal by a variable: the borrow checker covers no other form.
        let operations = circle.operations;
        let rules = circle.rules;
        return Verdict {
            outcome: Outcome::Circle,
            len: circle.len,
            operations,
            rules,
        };
    }
    bare(Outcome::NoneLeft)
}

// The verdict where no valid order was found: a trace that is not well formed, a missing source, a circle, or that none is left.
fn unordered(t: Trace, kept: &[u64]) -> Verdict
    requires { Orderless t (lent_of t kept.now) }
    ensures { ToldBy t (lent_of t kept.now) result }
{
    if !well_formed(t) {
        return bare(Outcome::NotWellFormed);
    }
    match missing(t) {
        Some(x) => bare(Outcome::NoSource(x)),
        None => circle_or_none(t, kept),
    }
}

// The verdict on any trace with lent kept pairs. A trace that is not well formed is told first; then come a missing source, a circle, the first
// valid order, and that none is left. Where there is an order nothing else can be told, so it is looked for first: a good trace is then closed
// once, and its form and its sources are asked for once less.
pub fn verdict_by(t: Trace, kept: &[u64]) -> Verdict
    ensures { ToldBy t (lent_of t kept.now) result }
{
    let first = first_order_by(t, kept);
    if first.found {
        let operations = first.operations;
        return Verdict {
            outcome: Outcome::Order,
            len: first.len,
            operations,
            rules: [0; RECORDS],
        };
    }
    unordered(t, kept)
}

// The verdict on any trace under any model. A model that does not exist is told first, then a trace that is not well formed; then come a missing
// source, a circle, the first valid order, and that none is left. The kept pairs are drawn once.
pub fn verdict_of(t: Trace, model: u8) -> Verdict
    ensures { Told t model result }
{
    if !modelled(model) {
        return bare(Outcome::NoModel);
    }
    let kept = kept_rows(t, model);
    verdict_by(t, &kept)
}
