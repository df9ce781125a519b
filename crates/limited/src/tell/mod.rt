// The limited verdict in document 01's order.
ghost use Rattle.std.specs.Prelude.{◌≡◌};
ghost use Rattle.verdict.specs.VerdictOf.{Reaches};
ghost use Rattle.limited.specs.LimitedVerdict.{bare_limit, ToldLimited};

use crate::{Limit, Limited};
use circle::show::circle_of;
use counting::Walked;
use counting::steps::plain_search;
use edges::sources::missing;
use pairs::modelled;
use trace::form::well_formed;
use trace::{RECORDS, Trace};
use verdict::Outcome;

// An outcome that has no operations, with its count.
fn bare(outcome: Limited, steps: u64) -> Limit
    ensures { result ≡ bare_limit outcome steps }
{
    Limit {
        outcome,
        len: 0,
        operations: [0; RECORDS],
        rules: [0; RECORDS],
        steps,
    }
}

// A circle where there is one, and else what the plain search comes to, of a trace that lacks no source. A circle costs no step.
fn circle_or_count(t: Trace, model: u8, limit: u64) -> Limit
    requires { Reaches t model }
    ensures { ToldLimited t model limit result }
{
    let circle = circle_of(t, model);
    if 0 < circle.len {
        // A field that is an array goes into a literal by a variable: the borrow checker covers no other form.
        let operations = circle.operations;
        let rules = circle.rules;
        return Limit {
            outcome: Limited::Decided(Outcome::Circle),
            len: circle.len,
            operations,
            rules,
            steps: 0,
        };
    }
    let counted = plain_search(t, model, limit);
    match counted.walked {
        Walked::Order(steps) => {
            let operations = counted.operations;
            Limit {
                outcome: Limited::Decided(Outcome::Order),
                len: counted.len,
                operations,
                rules: [0; RECORDS],
                steps,
            }
        }
        Walked::End(steps) => bare(Limited::Decided(Outcome::NoneLeft), steps),
        Walked::Over => bare(Limited::Undecided, limit),
    }
}

// The verdict on any trace under any model within a limit of steps. A model that does not exist is told first, then a trace that is not well formed;
// a missing source and a circle come at any limit; what comes then is undecided where the plain search makes more steps.
pub fn limited_verdict(t: Trace, model: u8, limit: u64) -> Limit
    ensures { ToldLimited t model limit result }
{
    if !modelled(model) {
        return bare(Limited::Decided(Outcome::NoModel), 0);
    }
    if !well_formed(t) {
        return bare(Limited::Decided(Outcome::NotWellFormed), 0);
    }
    match missing(t) {
        Some(x) => bare(Limited::Decided(Outcome::NoSource(x)), 0),
        None => circle_or_count(t, model, limit),
    }
}
