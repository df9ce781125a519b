// The list that the writer makes: branch by branch, and what is handed to whoever asks for it.
ghost use Rattle.std.specs.Prelude.{◌≡◌, List, [], ◌∷◌, ℕ, ◌≤◌, length};
ghost use Rattle.std.proofs.Math.Bool.{So};
ghost use Rattle.trace.specs.WellFormed.{well_formed};
ghost use Rattle.trace.specs.Meaning.{frame_of};
ghost use Rattle.rules.specs.Rules.{Joins};
ghost use Rattle.rules.specs.Order.{Valid};
ghost use Rattle.rules.specs.Missing.{Sourced};
ghost use Rattle.rows.specs.Bounds.{CELLS};
ghost use Rattle.pairs.specs.Kept.{modelled, kept_of};
ghost use Rattle.papers.specs.Paper.{BRANCH, spell};
ghost use Rattle.papers.specs.inner.ReaderBranch.{branch_of};
ghost use Rattle.reasons.specs.Telling.{inside};
ghost use Rattle.reasons.specs.Writing.{split_entry, paper_of, paper};
ghost use Rattle.reasons.specs.inner.Closable.{Closable};
ghost use Rattle.reasons.specs.inner.Choice.{ReadRow, NamedRows};
ghost use Rattle.reasons.specs.inner.Laid.{PutAt};
ghost use Rattle.reasons.specs.inner.PutKept.{PutKept};
ghost use Rattle.reasons.specs.Writes.{LaidInFront, Writes};

use crate::choice::{Next, next_of, note_read};
use crate::leaf::leaf;
use crate::naming::lay_entry;
use edges::sources::missing;
use pairs::modelled;
use papers::BRANCH;
use search::first::first_order;
use trace::Trace;
use trace::form::well_formed;

// Why the question is turned back: a model that does not exist, a trace that is not well formed, a list that is longer than the room.
#[derive(Clone, Copy)]
pub enum Reason {
    NoModel,
    NotWellFormed,
    TooLong,
}

// How an entry that splits a branch begins.
const SPLIT: u16 = 8;

// Draws the pairs that the first n entries of a branch name.
fn draw(from: &[u16], to: &[u16], n: usize, supposed: &mut [u64])
    requires { (n ≤ length from.now) × (n ≤ length to.now) × (length supposed.old ≡ CELLS) }
    ensures { NamedRows (branch_of from.now to.now n) supposed.new }
{
    rows::clear(supposed);
    for i in 0..n {
        rows::put(supposed, from[i] as usize, to[i] as usize);
    }
}

// Lays the entry of a split on x and y, and tells the place after it, if there is room.
fn lay_split(x: u16, y: u16, out: &mut [u16], limit: usize, at: usize) -> Option<usize>
    requires { at ≤ limit }
    ensures { PutAt limit out.old at (spell (split_entry x y ∷ [])) out.new result }
{
    lay_entry(SPLIT, x, y, 0, &[0u16; 1], out, limit, at)
}

// Lays the list for a branch, told that at most m splits in a row close it: its circle, or a split and then the lists for both sides. What comes back
// is the place after it, if there is room.
fn paper(
    t: Trace,
    model: u8,
    read: &[u64],
    supposed: &mut [u64],
    m: usize,
    from: &mut [u16],
    to: &mut [u16],
    count: usize,
    out: &mut [u16],
    limit: usize,
    at: usize,
) -> Option<usize>
    requires lengths { So (well_formed t) × So (modelled model) × ReadRow (frame_of t) read.now × (length supposed.old ≡ CELLS) × (length from.old ≡ BRANCH) × (length to.old ≡ BRANCH) × (count ≤ BRANCH) × (at ≤ limit) }
    requires closable { Joins (frame_of t) (inside (branch_of from.old to.old count)) × Closable (frame_of t) (kept_of model t) m (branch_of from.old to.old count) }
    ensures { PutKept limit from.old to.old count out.old at (spell (paper_of (frame_of t) (kept_of model t) m (branch_of from.old to.old count))) from.new to.new out.new result }
{
    draw(from, to, count, supposed);
    let Next::Split(x, y) = next_of(t, model, read, supposed) else {
        return leaf(t, model, supposed, from, to, count, out, limit, at);
    };
    let a = x as u16;
    let b = y as u16;
    let p = lay_split(a, b, out, limit, at)?;
    from[count] = a;
    to[count] = b;
    let q = paper(
        t,
        model,
        read,
        supposed,
        m - 1,
        from,
        to,
        count + 1,
        out,
        limit,
        p,
    )?;
    from[count] = b;
    to[count] = a;
    paper(
        t,
        model,
        read,
        supposed,
        m - 1,
        from,
        to,
        count + 1,
        out,
        limit,
        q,
    )
}

// Lays the whole list for a trace that has no valid order, for no missing source: the place after it, if there is room.
fn whole(t: Trace, model: u8, out: &mut [u16], limit: usize) -> Option<usize>
    requires { So (well_formed t) × So (modelled model) × Sourced (frame_of t) × ((xs : List ℕ) → Valid (frame_of t) (kept_of model t) xs → ⊥) }
    ensures { PutAt limit out.old 0 (spell (paper (frame_of t) (kept_of model t))) out.new result }
{
    let mut read = [0u64; rows::WORDS];
    note_read(t, &mut read);
    let mut supposed = [0u64; rows::CELLS];
    let mut from = [0u16; BRANCH];
    let mut to = [0u16; BRANCH];
    let n = t.len;
    paper(
        t,
        model,
        &read,
        &mut supposed,
        n * n + 1,
        &mut from,
        &mut to,
        0,
        out,
        limit,
        0,
    )
}

// Lays the whole list in front of the room, if it is no longer: a first pass only counts, and whatever it lays goes to spare memory.
fn lay_counted(
    t: Trace,
    model: u8,
    spare: &mut [u16],
    room: &mut [u16],
) -> Result<Option<usize>, Reason>
    requires { So (well_formed t) × So (modelled model) × Sourced (frame_of t) × ((xs : List ℕ) → Valid (frame_of t) (kept_of model t) xs → ⊥) }
    ensures { LaidInFront (spell (paper (frame_of t) (kept_of model t))) room.old room.new result }
{
    let limit = room.len();
    let Some(n) = whole(t, model, spare, limit) else {
        return Err(Reason::TooLong);
    };
    whole(t, model, room, limit);
    Ok(Some(n))
}

// Lays the whole list in front of the room, if it is no longer.
fn lay_paper(t: Trace, model: u8, room: &mut [u16]) -> Result<Option<usize>, Reason>
    requires { So (well_formed t) × So (modelled model) × Sourced (frame_of t) × ((xs : List ℕ) → Valid (frame_of t) (kept_of model t) xs → ⊥) }
    ensures { LaidInFront (spell (paper (frame_of t) (kept_of model t))) room.old room.new result }
{
    let mut none = [0u16; 1];
    lay_counted(t, model, &mut none, room)
}

// Writes why a trace has no valid order under a model, as a list that the small reader accepts: how many numbers it has. A model that does not exist is
// told first, then a trace that is not well formed; where there is an order or a source is missing, there is nothing to show. A list that is longer
// than the room is not written at all.
pub fn write(t: Trace, model: u8, room: &mut [u16]) -> Result<Option<usize>, Reason>
    ensures { Writes t model room.old room.new result }
{
    if !modelled(model) {
        return Err(Reason::NoModel);
    }
    if !well_formed(t) {
        return Err(Reason::NotWellFormed);
    }
    let None = missing(t) else {
        return Ok(None);
    };
    let order = first_order(t, model);
    if order.found {
        return Ok(None);
    }
    lay_paper(t, model, room)
}
