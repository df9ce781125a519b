// The entry: the plain search of a trace under a model, within a limit of steps.
ghost use Rattle.std.specs.Prelude.{◌≡◌, ◌≤◌, length};
ghost use Rattle.std.proofs.Math.Bool.{So};
ghost use Rattle.trace.specs.Meaning.{frame_of};
ghost use Rattle.trace.specs.WellFormed.{well_formed};
ghost use Rattle.pairs.specs.Kept.{modelled, kept_of};
ghost use Rattle.counting.specs.inner.CountingRows.{SetsOf};
ghost use Rattle.counting.specs.CountedAnswer.{bare_count, counted_of};
ghost use Rattle.counting.specs.inner.CountedLook.{CountedLook};

use crate::tables::{lay, lay_sets};
use crate::walk::{MEMORY, SLOTS, count};
use crate::{Counted, Walked};
use pairs::modelled;
use trace::form::well_formed;
use trace::{RECORDS, Trace};

// What the search came to without an order.
fn bare(walked: Walked) -> Counted
    ensures { result ≡ bare_count walked }
{
    Counted {
        walked,
        len: 0,
        operations: [0u16; RECORDS],
    }
}

// Lays the rows and searches from nothing placed; the first places of the list take the order.
fn look(
    t: Trace,
    model: u8,
    operations: &[u64],
    reads: &[u64],
    served: &[u64],
    total: usize,
    limit: u64,
    list: &mut [u16],
) -> Walked
    requires { So (well_formed t) × So (modelled model) × SetsOf (frame_of t) t.len operations.now reads.now served.now total × (total ≤ length list.old) }
    ensures { CountedLook (frame_of t) (kept_of model t) total limit list.old list.new result }
{
    let n = t.len;
    let mut partners = [0u64; rows::CELLS];
    let mut own = [0u64; rows::CELLS];
    let mut fed = [0u64; rows::CELLS];
    let mut rivals = [0u64; rows::CELLS];
    let mut sets = [0u64; MEMORY];
    let mut serves = [0u64; MEMORY];
    let mut counts = [0u64; SLOTS];
    let placed = [0u64; rows::WORDS];
    lay(
        t,
        model,
        reads,
        served,
        &mut partners,
        &mut own,
        &mut fed,
        &mut rivals,
    );
    let places = &mut list[0..total];
    count(
        n,
        total,
        operations,
        reads,
        &partners,
        &own,
        &fed,
        &rivals,
        places,
        0,
        &placed,
        served,
        limit,
        &mut sets,
        &mut serves,
        &mut counts,
    )
}

// The plain search: its first order, or its end, with the steps that it made, or that it makes more than the limit. For a trace that is not well
// formed, or a model that does not exist, that answer too.
pub fn plain_search(t: Trace, model: u8, limit: u64) -> Counted
    ensures { result ≡ counted_of t model limit }
{
    if !(well_formed(t) & modelled(model)) {
        return bare(Walked::Over);
    }
    let mut operations = [0u64; rows::WORDS];
    let mut reads = [0u64; rows::WORDS];
    let mut served = [0u64; rows::WORDS];
    let total = lay_sets(t, &mut operations, &mut reads, &mut served);
    let mut list = [0u16; RECORDS];
    let walked = look(
        t,
        model,
        &operations,
        &reads,
        &served,
        total,
        limit,
        &mut list,
    );
    match walked {
        Walked::Order(_) => Counted {
            walked,
            len: total,
            operations: list,
        },
        Walked::End(_) | Walked::Over => bare(walked),
    }
}
