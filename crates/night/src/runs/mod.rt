// Runs of one test program, told by their words.
ghost use Rattle.std.specs.Prelude.{◌≡◌, ◌+◌, ◌*◌, ◌≤◌, length};
ghost use Rattle.std.proofs.Math.Bool.{So};
ghost use Rattle.trace.specs.Bounds.{RECORDS};
ghost use Rattle.trace.specs.WellFormed.{well_formed};
ghost use Rattle.pairs.specs.Kept.{modelled};
ghost use Rattle.edges.specs.KeptRows.{KeptRows};
ghost use Rattle.night.specs.Block.{BLOCK};
ghost use Rattle.night.specs.Night.{Nights};
ghost use Rattle.night.specs.inner.RunsJudged.{JudgedAs, Given, ReadsLaid, BlockPut, AllJudged};

use crate::blocks::{lay, spelled};
use crate::seeing::seen;
use crate::{BLOCK, Reason};
use edges::kept::kept_rows;
use pairs::modelled;
use signature::packing::{loads_of, words_of};
use signature::runs::unpack_runs;
use trace::Trace;
use trace::form::well_formed;
use verdict::tell::verdict_by;

// What the loads of all runs saw, laid into the front of the lent memory, which has room for it; where a word is too large all stays as it was, and the
// first run that has one is told with its lowest.
fn put_reads(
    t: Trace,
    words: &[u64],
    each: usize,
    loads: usize,
    runs: usize,
    out: &mut [u16],
) -> Option<(usize, usize)>
    requires { Given t words.now each loads runs × (runs * loads ≤ length out.old) }
    ensures { ReadsLaid t words.now loads runs out.old out.new result }
{
    let n = runs * loads;
    match unpack_runs(t, words, &mut out[..n]) {
        Ok(()) => None,
        Err(signature::Reason::TooLarge(k)) => Some((k / each, k % each)),
        Err(signature::Reason::NotWellFormed) => None,
        Err(signature::Reason::WrongLength) => None,
        Err(signature::Reason::NotListed(_)) => None,
    }
}

// The verdict on a trace by the rows of the pairs that a model keeps, in lent memory of a block's length.
fn put_verdict(u: Trace, model: u8, kept: &[u64], out: &mut [u16])
    requires { So (well_formed u) × So (modelled model) × KeptRows u model kept.now × (length out.old ≡ BLOCK) }
    ensures { (length out.new ≡ BLOCK) × JudgedAs u model out.new }
{
    let v = verdict_by(u, kept);
    lay(spelled(v), out);
}

// The verdict on a run, in its block, by the reads of it that stand in front; the pairs that the model keeps are those of the program.
fn put_run(t: Trace, model: u8, kept: &[u64], loads: usize, i: usize, out: &mut [u16])
    requires { So (well_formed t) × So (modelled model) × KeptRows t model kept.now × (loads ≤ RECORDS) × (i * BLOCK + BLOCK ≤ length out.old) }
    ensures { BlockPut t model loads out.old out.new i }
{
    let from = i * loads;
    let to = from + loads;
    let u = seen(t, &out[from..to]);
    let start = i * BLOCK;
    let end = start + BLOCK;
    put_verdict(u, model, kept, &mut out[start..end]);
}

// The verdicts on all runs, a block each. The last run comes first: the reads of those before it lie in front of its block.
fn put_runs(t: Trace, model: u8, kept: &[u64], loads: usize, runs: usize, out: &mut [u16])
    requires { So (well_formed t) × So (modelled model) × KeptRows t model kept.now × (loads ≤ RECORDS) × (length out.old ≡ runs * BLOCK) }
    ensures { AllJudged t model loads out.old out.new runs }
{
    for i in (0..runs).rev() {
        put_run(t, model, kept, loads, i, out);
    }
}

// The verdicts on a night's worth of runs, as many as the lent memory has blocks; beside a refusal it is as it was.
pub fn night(t: Trace, model: u8, words: &[u64], out: &mut [u16]) -> Result<(), Reason>
    ensures { Nights t model words.now out.old out.new result }
{
    if !well_formed(t) {
        return Err(Reason::NotWellFormed);
    }
    if !modelled(model) {
        return Err(Reason::NoModel);
    }
    let each = words_of(t);
    let runs = out.len() / BLOCK;
    if out.len() != runs * BLOCK {
        return Err(Reason::WrongLength);
    }
    if words.len() != runs * each {
        return Err(Reason::WrongLength);
    }
    let loads = loads_of(t);
    match put_reads(t, words, each, loads, runs, out) {
        Some((i, k)) => Err(Reason::TooLarge(i, k)),
        None => {
            let kept = kept_rows(t, model);
            put_runs(t, model, &kept, loads, runs, out);
            Ok(())
        }
    }
}
