// A verdict laid out in numbers.
ghost use Rattle.std.specs.Prelude.{◌≡◌, ◌<◌, ◌≤◌, length};
ghost use Rattle.trace.specs.Bounds.{RECORDS};
ghost use Rattle.night.specs.Block.{BLOCK, kind_in, lacking_in, told_in, block_in};

use trace::RECORDS;
use verdict::{Outcome, Verdict};

// The kind of an outcome, as the entries tell it. The last two are no verdict's.
fn kind_of(outcome: Outcome) -> u16
    ensures { result ≡ kind_in outcome }
{
    match outcome {
        Outcome::NoSource(_) => 11,
        Outcome::Circle => 65,
        Outcome::Order => 64,
        Outcome::NoneLeft => 66,
        Outcome::NoModel => 9,
        Outcome::NotWellFormed => 10,
    }
}

// A verdict as it is told: a record that lacks a source is its one operation.
pub(crate) fn spelled(v: Verdict) -> Verdict
    requires { lacking_in v.outcome < RECORDS }
    ensures { result ≡ told_in v }
{
    let outcome = v.outcome;
    match outcome {
        Outcome::NoSource(x) => {
            let mut operations = [0u16; RECORDS];
            operations[0] = x as u16;
            Verdict {
                outcome,
                len: 1,
                operations,
                rules: [0; RECORDS],
            }
        }
        Outcome::Circle => v,
        Outcome::Order => v,
        Outcome::NoneLeft => v,
        Outcome::NoModel => v,
        Outcome::NotWellFormed => v,
    }
}

fn wide(rule: u8) -> u16
    ensures { result ≡ rule }
{
    rule as u16
}

// The numbers of a verdict, in lent memory of their number.
pub(crate) fn lay(v: Verdict, out: &mut [u16])
    requires { (v.len ≤ RECORDS) × (length out.old ≡ BLOCK) }
    ensures { (out.new ≡ block_in v) × (length out.new ≡ BLOCK) }
{
    let operations = v.operations;
    let rules = v.rules;
    for i in 0..RECORDS {
        out[2 + i] = operations[i];
        out[2 + RECORDS + i] = wide(rules[i]);
    }
    let outcome = v.outcome;
    out[0] = kind_of(outcome);
    out[1] = v.len as u16;
}
