// The circle that is shown for a trace, with the rule of each of its edges.
ghost use Rattle.std.specs.Prelude.{◌≡◌, ◌<◌, ◌≤◌, length, take};
ghost use Rattle.trace.specs.Meaning.{frame_of};
ghost use Rattle.rows.specs.Rows.{bit};
ghost use Rattle.rows.specs.Lent.{lent_of};
ghost use Rattle.rules.specs.Circle.{after};
ghost use Rattle.circle.specs.inner.NamedRules.{RulesNamed};
ghost use Rattle.circle.specs.CircleOf.{CircleBy, CircleOf};

use crate::trail::{lay_ring, shown};
use edges::force::last_round_by;
use edges::kept::kept_rows;
use pairs::modelled;
use ruling::lowest_rule_by;
use trace::{RECORDS, Trace};

// The circle that is shown: the first len operations, each with the rule of the edge that leads on from it. Unused places are 0.
// An array and its length: the project has no heap, and its memory is fixed.
#[derive(Clone, Copy)]
pub struct Circle {
    pub len: usize,
    pub operations: [u16; RECORDS],
    pub rules: [u8; RECORDS],
}

// What follows place i of a circle: the first follows the last.
fn next_of(operations: &[u16], len: usize, i: usize) -> usize
    requires { (i < len) × (len ≤ length operations.now) }
    ensures { result ≡ after (take len operations.now) i }
{
    if i + 1 < len {
        return operations[i + 1] as usize;
    }
    operations[0] as usize
}

// Lays the lowest rule of each edge of the circle into `rules`, from the chains of the round before.
fn name_rules(
    t: Trace,
    kept: &[u64],
    chains: &[u64],
    len: usize,
    operations: &[u16],
    rules: &mut [u8],
)
    requires { (len ≤ length operations.now) × (len ≤ length rules.old) }
    ensures { RulesNamed (frame_of t) (lent_of t kept.now) (bit chains.now) (take len operations.now) len rules.old rules.new }
{
    for i in 0..len {
        let x = operations[i] as usize;
        rules[i] = lowest_rule_by(t, kept, chains, x, next_of(operations, len, i));
    }
}

// The circle that is shown for a trace with lent kept pairs, of the first round that has one, with the lowest rule of each edge by that round.
// There is none where no round has one, and for a trace that is not well formed. Few records lie on circles, so only the edges between those are looked at.
pub fn circle_by(t: Trace, kept: &[u64]) -> Circle
    ensures { CircleBy t (lent_of t kept.now) result }
{
    let mut operations = [0u16; RECORDS];
    let mut rules = [0u8; RECORDS];
    let supposed = [0u64; rows::CELLS];
    let last = last_round_by(t, kept, &supposed);
    if last.circle {
        let mut ring = [0u64; rows::CELLS];
        lay_ring(&last.edges, &last.chains, &mut ring);
        let len = shown(&ring, &mut operations);
        name_rules(t, kept, &last.before, len, &operations, &mut rules);
        return Circle {
            len,
            operations,
            rules,
        };
    }
    Circle {
        len: 0,
        operations,
        rules,
    }
}

// The circle that is shown for a trace under a model, of the first round that has one, with the lowest rule of each edge by that round. There is
// none where no round has one, for a trace that is not well formed, and under a model that does not exist.
pub fn circle_of(t: Trace, model: u8) -> Circle
    ensures { CircleOf t model result }
{
    if modelled(model) {
        let kept = kept_rows(t, model);
        return circle_by(t, &kept);
    }
    Circle {
        len: 0,
        operations: [0u16; RECORDS],
        rules: [0u8; RECORDS],
    }
}
