// The entry: the first valid order of a trace under a model.
ghost use Rattle.std.specs.Prelude.{◌≡◌, true, false, ◌↔◌, ◌≤◌, length};
ghost use Rattle.std.proofs.Math.Bool.{So};
ghost use Rattle.trace.specs.Bounds.{RECORDS};
ghost use Rattle.trace.specs.WellFormed.{well_formed};
ghost use Rattle.trace.specs.Meaning.{frame_of};
ghost use Rattle.rows.specs.Empty.{empty_of};
ghost use Rattle.rows.specs.Lent.{lent_of};
ghost use Rattle.rules.specs.Missing.{Sourced};
ghost use Rattle.search.specs.inner.TablesLaid.{Counted, Sources};
ghost use Rattle.search.specs.inner.SearchAnswer.{Looked};
ghost use Rattle.search.specs.FirstOrder.{FirstOrderBy, FirstOrder};

use crate::Order;
use crate::seek::{MEMORY, find};
use crate::tables::{lay, lay_operations};
use edges::force::forced_by;
use edges::kept::kept_rows;
use edges::sources::sources_of;
use pairs::{modelled, op_at};
use trace::form::well_formed;
use trace::{RECORDS, Trace, first};

// The answer that there is no order.
fn nothing() -> Order
    ensures { (result.found ≡ false) × (result.len ≡ 0) × (result.operations ≡ empty_of RECORDS) }
{
    Order {
        found: false,
        len: 0,
        operations: [0u16; RECORDS],
    }
}

// Whether no record of a well formed trace lacks its source, told the sources.
fn sourced(t: Trace, sources: &[usize]) -> bool
    requires { So (well_formed t) × Sources (frame_of t) t.len sources.now }
    ensures { So result ↔ Sourced (frame_of t) }
{
    let n = t.len;
    for load in 0..n {
        let op = op_at(t, load);
        let later = op.reads() & (op.read() != first(t, op.address()));
        if later & (RECORDS <= sources[load]) {
            return false;
        }
    }
    true
}

// Lays the tables and searches from nothing placed, guided by what is held; the first places of the list take the order.
fn look(
    t: Trace,
    held: &[u64],
    operations: &[u64],
    total: usize,
    sources: &[usize],
    list: &mut [u16],
) -> bool
    requires { So (well_formed t) × Counted (frame_of t) operations.now total × (total ≤ length list.old) × Sources (frame_of t) t.len sources.now }
    ensures { Looked (frame_of t) held.now total list.old list.new result }
{
    let n = t.len;
    let mut before = [0u64; rows::CELLS];
    let mut writers = [0u64; rows::CELLS];
    let mut readers = [0u64; rows::CELLS];
    let mut dead = [0u64; MEMORY];
    let placed = [0u64; rows::WORDS];
    lay(t, held, &mut before, &mut writers, &mut readers);
    let places = &mut list[0..total];
    let sources = &sources[0..n];
    find(
        operations, &before, &writers, &readers, sources, places, 0, &placed, &mut dead,
    ) == 0
}

// The first valid order in dictionary order, from lent kept pairs. For a trace that is not well formed, none.
pub fn first_order_by(t: Trace, kept: &[u64]) -> Order
    ensures { FirstOrderBy t (lent_of t kept.now) result }
{
    if !well_formed(t) {
        return nothing();
    }
    let supposed = [0u64; rows::CELLS];
    let forced = forced_by(t, kept, &supposed);
    if forced.contradicted {
        return nothing();
    }
    let sources = sources_of(t);
    if !sourced(t, &sources) {
        return nothing();
    }
    let held = forced.held;
    let mut operations = [0u64; rows::WORDS];
    let total = lay_operations(t, &mut operations);
    let mut list = [0u16; RECORDS];
    if look(t, &held, &operations, total, &sources, &mut list) {
        return Order {
            found: true,
            len: total,
            operations: list,
        };
    }
    nothing()
}

// The first valid order in dictionary order. For a trace that is not well formed, or a model that does not exist, none.
pub fn first_order(t: Trace, model: u8) -> Order
    ensures { FirstOrder t model result }
{
    if modelled(model) {
        let kept = kept_rows(t, model);
        return first_order_by(t, &kept);
    }
    nothing()
}
