// The words of many runs of one test program taken apart into reads.
ghost use Rattle.std.specs.Prelude.{◌≡◌, ◌/◌, length};
ghost use Rattle.signature.specs.ManyRuns.{all_reads, unpack_runs_of, unpack_runs_left};
ghost use Rattle.signature.specs.inner.LoadLists.{RunsGiven};

use crate::Reason;
use crate::choices::all_values;
use crate::packing::{all_words, loads_in};
use crate::unpacking::{all_places, first_large, put_run};
use trace::Trace;
use trace::form::well_formed;

// How many runs have so many reads, each of them so many; none where a run has none.
fn runs_in(reads: usize, loads: usize) -> usize
    ensures { result ≡ reads / loads }
{
    if loads == 0 {
        return 0;
    }
    reads / loads
}

// The reads of all runs, put into lent memory of their number. Where the digits stand and what they may say is worked out once.
fn put_runs(t: Trace, words: &[u64], each: usize, loads: usize, runs: usize, out: &mut [u16])
    requires { RunsGiven t words.now out.old each loads runs }
    ensures { out.new ≡ all_reads t words.now runs }
{
    let places = all_places(t);
    let values = all_values(t);
    for i in 0..runs {
        let from = i * each;
        let to = from + each;
        let start = i * loads;
        let end = start + loads;
        put_run(t, places, values, &words[from..to], &mut out[start..end]);
    }
}

// Unpacks the words of as many runs as the lent memory has reads for, one run behind the other; beside a refusal all is as it was. A word that
// is too large is told with its place among all of them.
pub fn unpack_runs(t: Trace, words: &[u64], reads: &mut [u16]) -> Result<(), Reason>
    ensures { (result ≡ unpack_runs_of t words.now (length reads.old)) × (reads.new ≡ unpack_runs_left t words.now reads.old) }
{
    if !well_formed(t) {
        return Err(Reason::NotWellFormed);
    }
    let largest = all_words(t, true);
    let each = largest.count;
    let loads = loads_in(t);
    let runs = runs_in(reads.len(), loads);
    if reads.len() != runs * loads {
        return Err(Reason::WrongLength);
    }
    if words.len() != runs * each {
        return Err(Reason::WrongLength);
    }
    match first_large(words, largest) {
        Some(k) => Err(Reason::TooLarge(k)),
        None => {
            put_runs(t, words, each, loads, runs, reads);
            Ok(())
        }
    }
}
