// Cutting a trace down: one look at each record, from the lowest on.
ghost use Rattle.std.specs.Prelude.{◌≡◌, ℕ, ◌<◌, length};
ghost use Rattle.std.proofs.Math.Bool.{So};
ghost use Rattle.trace.specs.Meaning.{frame_of};
ghost use Rattle.trace.specs.WellFormed.{well_formed};
ghost use Rattle.rows.specs.Bounds.{WORDS};
ghost use Rattle.pairs.specs.Kept.{modelled};
ghost use Rattle.smaller.specs.Smaller.{bare_smaller, Cuts, ToldSmaller};
ghost use Rattle.smaller.specs.inner.RecordSets.{Chosen, ReaderChains, TriedRecord, LeftOver, NoOrder, FaultTold};

use crate::part::{all, lay_goes, olds, picked, without};
use crate::{Answer, Smaller};
use edges::force::forced;
use edges::sources::missing;
use pairs::{modelled, op_at};
use search::first::first_order;
use trace::form::well_formed;
use trace::{Op, RECORDS, Trace, empty};

// How a trace may be faulty: not at all, by a circle of what the rules force, or as the search shows, which rules every order out.
const NO_FAULT: u8 = 0;

const BY_CIRCLE: u8 = 1;

const BY_SEARCH: u8 = 2;

// An answer that leaves nothing.
fn bare(answer: Answer) -> Smaller
    ensures { result ≡ bare_smaller answer }
{
    Smaller {
        answer,
        trace: empty(),
        olds: [0; RECORDS],
    }
}

// Whether what the rules force in a trace closes a circle; it has no valid order then.
fn circled(t: Trace, model: u8) -> bool
    requires { So (well_formed t) × So (modelled model) }
    ensures { So result → NoOrder t model }
{
    let supposed = [0u64; rows::CELLS];
    forced(t, model, &supposed).contradicted
}

// How a trace is faulty, told how it was before records went. What is forced now was forced then, so a circle is looked for only where there was one,
// and the search is spared where there still is one.
fn fault_of(t: Trace, model: u8, before: u8) -> u8
    requires { So (well_formed t) × So (modelled model) }
    ensures { FaultTold t model result }
{
    if before == BY_CIRCLE && circled(t, model) {
        return BY_CIRCLE;
    }
    if first_order(t, model).found {
        return NO_FAULT;
    }
    BY_SEARCH
}

// How a trace without an order is faulty.
fn fault_shown(t: Trace, model: u8) -> u8
    requires { So (well_formed t) × So (modelled model) }
{
    if circled(t, model) {
        return BY_CIRCLE;
    }
    BY_SEARCH
}

// Whether a record of this kind is tried: each is. A fence may go alone, and the fault may need it.
fn tried(op: Op) -> bool
    ensures { So result }
{
    match op {
        Op::Load { .. } => true,
        Op::Store { .. } => true,
        Op::Swap { .. } => true,
        Op::Fence { .. } => true,
    }
}

// One look at a record: it goes, with what goes with it, where there is a fault without it, whether the same or another. Told how what is kept is faulty,
// and hands back how it is then.
fn try_one(t: Trace, model: u8, goes: &[u64], i: usize, before: u8, kept: &mut [u64]) -> u8
    requires { So (well_formed t) × So (modelled model) × ReaderChains (frame_of t) goes.now × (length kept.old ≡ WORDS) }
    ensures { TriedRecord t model i kept.old kept.new }
{
    if !(rows::test(kept, 0, i) & tried(op_at(t, i))) {
        return before;
    }
    let mut left = [0u64; rows::WORDS];
    without(kept, goes, t.len, i, &mut left);
    let fault = fault_of(picked(t, &left), model, before);
    if fault != NO_FAULT {
        rows::copy(&left, kept);
        return fault;
    }
    before
}

// One look at each record, from the lowest on.
fn pass(t: Trace, model: u8, goes: &[u64], kept: &mut [u64])
    requires { So (well_formed t) × So (modelled model) × ReaderChains (frame_of t) goes.now × (length kept.old ≡ WORDS) × ((x : ℕ) → x < t.len → So (Chosen kept.old x)) }
    ensures { LeftOver t model kept.new }
{
    let n = t.len;
    let mut fault = fault_shown(t, model);
    for i in 0..n {
        fault = try_one(t, model, goes, i, fault, kept);
    }
}

// What is left of a faulty trace.
fn cut_away(t: Trace, model: u8) -> Smaller
    requires { So (well_formed t) × So (modelled model) }
    ensures { Cuts t model result }
{
    let mut goes = [0u64; rows::CELLS];
    let mut kept = [0u64; rows::WORDS];
    let n = t.len;
    lay_goes(t, &mut goes);
    all(n, &mut kept);
    pass(t, model, &goes, &mut kept);
    Smaller {
        answer: Answer::Cut,
        trace: picked(t, &kept),
        olds: olds(n, &kept),
    }
}

// A faulty trace without an order for no missing source, cut down: the lowest record whose removal keeps the fault goes, again and again. A model that
// does not exist is told first, then a trace that is not well formed, then a record without a source, then that nothing is wrong.
pub fn smaller(t: Trace, model: u8) -> Smaller
    ensures { ToldSmaller t model result }
{
    if !modelled(model) {
        return bare(Answer::NoModel);
    }
    if !well_formed(t) {
        return bare(Answer::NotWellFormed);
    }
    match missing(t) {
        Some(x) => bare(Answer::NoSource(x)),
        None => {
            if first_order(t, model).found {
                return bare(Answer::NothingWrong);
            }
            cut_away(t, model)
        }
    }
}
