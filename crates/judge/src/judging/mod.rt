// The judge of a proposed order: a list of any length from anyone.
ghost use Rattle.std.specs.Prelude.{◌≡◌, ◌<◌, ◌≤◌, length, replicate};
ghost use Rattle.std.proofs.Math.Option.{none};
ghost use Rattle.laws.specs.Places.{count};
ghost use Rattle.laws.specs.Lowest.{lowest};
ghost use Rattle.trace.specs.Bounds.{RECORDS};
ghost use Rattle.trace.specs.Meaning.{frame_of};
ghost use Rattle.pairs.specs.Kept.{kept_of};
ghost use Rattle.rules.specs.Ready.{operations};
ghost use Rattle.rules.specs.Seen.{seen};
ghost use Rattle.judge.specs.inner.VisibleBy.{visible_by};
ghost use Rattle.judge.specs.inner.Positions.{Sited, Numbers, out_at, early_at};
ghost use Rattle.pairs.specs.MissingOf.{as_found};
ghost use Rattle.judge.specs.Judged.{bad?, twice?, wrong?, turns_by, judged_by, judged_of};

use pairs::frame::{earlier_by, operation, writer_by};
use pairs::{kept_pair, modelled, op_at};
use trace::form::well_formed;
use trace::{Op, RECORDS, Trace, first};

// Why a proposed list is no valid order: the condition that it fails first, with the place or the records concerned.
#[derive(Clone, Copy)]
pub enum Broken {
    NoModel,
    NotWellFormed,
    WrongLength,
    BadNumber(usize),
    Repeat(usize),
    OutOfTurn(usize, usize),
    WrongValue(usize),
}

// How many operations a trace has.
fn operations(t: Trace) -> usize
    requires { t.len ≤ RECORDS }
    ensures { result ≡ operations (frame_of t) }
{
    let n = t.len;
    let mut total: usize = 0;
    for x in 0..n {
        if operation(t, x) {
            total += 1;
        }
    }
    total
}

// The first place of a list where no operation stands.
fn bad_place(t: Trace, list: &[u16]) -> Option<usize>
    ensures { result ≡ as_found (lowest (bad? (frame_of t) list.now) (length list.now) 0) }
{
    for i in 0..list.len() {
        let x = list[i] as usize;
        if !operation(t, x) {
            return Some(i);
        }
    }
    None
}

// How often a number stands in a list.
fn times(list: &[u16], x: usize) -> usize
    ensures { result ≡ count x list.now }
{
    list.iter().filter(|y| x == **y as usize).count()
}

// The lowest of n records that stands in a list more than once.
fn repeated(n: usize, list: &[u16]) -> Option<usize>
    ensures { result ≡ as_found (lowest (twice? list.now) n 0) }
{
    for x in 0..n {
        if 1 < times(list, x) {
            return Some(x);
        }
    }
    None
}

// Where each record first stands in a list, from the end to the front, so that the first place is written last. A number past the end has none.
fn site(list: &[u16], sites: &mut [usize])
    requires { sites.old ≡ replicate RECORDS (length list.now) }
    ensures { Sited list.now sites.new }
{
    for i in (0..list.len()).rev() {
        let x = list[i] as usize;
        if x < RECORDS {
            sites[x] = i;
        }
    }
}

// The lowest record with which x makes a kept pair that is out of turn. Whether a fence of x's thread stands between is carried along.
fn out_from(t: Trace, model: u8, x: usize, sites: &[usize]) -> Option<usize>
    requires { (x < t.len) × (t.len ≤ RECORDS) × (length sites.now ≡ RECORDS) }
    ensures { result ≡ as_found (lowest (out_at (kept_of model t) sites.now x) t.len 0) }
{
    let n = t.len;
    let a = op_at(t, x);
    let place = sites[x];
    let mut passed = false;
    for y in x..n {
        let b = t.records[y].op;
        if sites[y] <= place {
            if kept_pair(model, a, b, (x < y) & (y < n), passed) {
                return Some(y);
            }
        }
        passed |= b.fence() & (x < y) & (b.thread() == a.thread());
    }
    None
}

// The lowest record that begins a kept pair out of turn.
fn out_of_turn(t: Trace, model: u8, sites: &[usize]) -> Option<usize>
    requires { (t.len ≤ RECORDS) × (length sites.now ≡ RECORDS) }
    ensures { result ≡ as_found (lowest (early_at (kept_of model t) t.len sites.now) t.len 0) }
{
    let n = t.len;
    for x in 0..n {
        if let Some(_) = out_from(t, model, x, sites) {
            return Some(x);
        }
    }
    None
}

// Whether a load's value may be taken from record x of n, told both records and whether x stands before the load.
fn visible(n: usize, a: Op, x: usize, b: Op, load: usize, before: bool) -> bool
    ensures { result ≡ visible_by n a x b load before }
{
    writer_by(n, a, x, b, load) & (before | earlier_by(a, x, b, load))
}

// The value that a load must read. The loop reads records itself: to hand the trace on is to copy it.
fn seen(t: Trace, list: &[u16], sites: &[usize], load: usize) -> u16
    requires { (load < RECORDS) × Sited list.now sites.now × Numbers list.now }
    ensures { result ≡ seen (frame_of t) list.now load }
{
    let place = sites[load];
    let n = t.len;
    let b = op_at(t, load);
    let mut value = first(t, b.address());
    for i in 0..list.len() {
        let x = list[i] as usize;
        let a = t.records[x].op;
        if visible(n, a, x, b, load, i < place) {
            value = a.written();
        }
    }
    value
}

// The lowest load or swap that reads another value than it must read.
fn wrong_value(t: Trace, list: &[u16], sites: &[usize]) -> Option<usize>
    requires { (t.len ≤ RECORDS) × Sited list.now sites.now × Numbers list.now }
    ensures { result ≡ as_found (lowest (wrong? (frame_of t) list.now) t.len 0) }
{
    let n = t.len;
    for load in 0..n {
        let op = op_at(t, load);
        if op.reads() {
            if op.read() != seen(t, list, sites, load) {
                return Some(load);
            }
        }
    }
    None
}

// What a list is that has each operation once: the kept pairs come before the values.
fn judged_turns(t: Trace, model: u8, list: &[u16]) -> Result<(), Broken>
    requires { (t.len ≤ RECORDS) × Numbers list.now }
    ensures { result ≡ turns_by (frame_of t) (kept_of model t) list.now }
{
    let len = list.len();
    let mut sites = [len; RECORDS];
    site(list, &mut sites);
    match out_of_turn(t, model, &sites) {
        Some(x) => match out_from(t, model, x, &sites) {
            Some(y) => Err(Broken::OutOfTurn(x, y)),
            None => Ok(()),
        },
        None => match wrong_value(t, list, &sites) {
            Some(load) => Err(Broken::WrongValue(load)),
            None => Ok(()),
        },
    }
}

// What a list is, for a trace whose records all have a place.
fn judged(t: Trace, model: u8, list: &[u16]) -> Result<(), Broken>
    requires { t.len ≤ RECORDS }
    ensures { result ≡ judged_by (frame_of t) (kept_of model t) list.now }
{
    if list.len() != operations(t) {
        return Err(Broken::WrongLength);
    }
    let place = bad_place(t, list);
    let twice = repeated(t.len, list);
    if let Some(i) = place {
        return Err(Broken::BadNumber(i));
    }
    if let Some(x) = twice {
        return Err(Broken::Repeat(x));
    }
    judged_turns(t, model, list)
}

// Whether a list is a valid order of a well formed trace under a model, and if not, which condition it fails first: its length, a number that is
// no operation's, a repeat, a pair out of turn, a wrong value. A model that does not exist is told before them, then a trace that is not well
// formed.
pub fn judge(t: Trace, model: u8, list: &[u16]) -> Result<(), Broken>
    ensures { result ≡ judged_of t model list.now }
{
    if !modelled(model) {
        return Err(Broken::NoModel);
    }
    if !well_formed(t) {
        return Err(Broken::NotWellFormed);
    }
    judged(t, model, list)
}
