// Which pairs of a trace a model keeps, and from whom its loads and swaps read.
#![tactic(auto)]

ghost use Rattle.std.specs.Prelude.{◌≡◌};
ghost use Rattle.trace.specs.Trace.{at};
ghost use Rattle.trace.specs.Meaning.{frame_of};
ghost use Rattle.pairs.specs.Kept.{modelled, kind_of, side_of, kept_by, kept_pair, fenced, kept_of};
ghost use Rattle.pairs.specs.SourceOf.{reads_from, source_of};

pub mod frame;

use trace::{Op, RECORDS, Trace, first};

// The models by document 01's numbers, and how many there are: they are numbered from 1.
pub const SC: u8 = 1;

pub const TSO: u8 = 2;

pub const PSO: u8 = 3;

pub const WMO: u8 = 4;

pub const MODELS: u8 = 4;

// How many kinds of records there are: 0 load, 1 store, 2 swap, 3 fence.
pub const KINDS: u8 = 4;

// What a model says of two kinds without a fence between: at two addresses, and at one.
const NEVER: [bool; 2] = [false, false];

const THERE: [bool; 2] = [false, true];

const ALWAYS: [bool; 2] = [true, true];

// Whether a model keeps a pair without a fence between: by model, kind of the first and kind of the second, at two addresses and at one. Model 0
// does not exist.
const KEPT: [[[[bool; 2]; 4]; 4]; 5] = [
    [
        [NEVER, NEVER, NEVER, NEVER],
        [NEVER, NEVER, NEVER, NEVER],
        [NEVER, NEVER, NEVER, NEVER],
        [NEVER, NEVER, NEVER, NEVER],
    ],
    [
        [ALWAYS, ALWAYS, ALWAYS, NEVER], // SC, a load first
        [ALWAYS, ALWAYS, ALWAYS, NEVER], // SC, a store first
        [ALWAYS, ALWAYS, ALWAYS, NEVER], // SC, a swap first
        [NEVER, NEVER, NEVER, NEVER], // SC, a fence
    ],
    [
        [ALWAYS, ALWAYS, ALWAYS, NEVER], // TSO, a load first
        [NEVER, ALWAYS, ALWAYS, NEVER], // TSO, a store first
        [ALWAYS, ALWAYS, ALWAYS, NEVER], // TSO, a swap first
        [NEVER, NEVER, NEVER, NEVER], // TSO, a fence
    ],
    [
        [ALWAYS, ALWAYS, ALWAYS, NEVER], // PSO, a load first
        [NEVER, THERE, THERE, NEVER], // PSO, a store first
        [ALWAYS, ALWAYS, ALWAYS, NEVER], // PSO, a swap first
        [NEVER, NEVER, NEVER, NEVER], // PSO, a fence
    ],
    [
        [THERE, THERE, THERE, NEVER], // WMO, a load first
        [NEVER, THERE, THERE, NEVER], // WMO, a store first
        [THERE, THERE, THERE, NEVER], // WMO, a swap first
        [NEVER, NEVER, NEVER, NEVER], // WMO, a fence
    ],
];

// Whether there is a model of this number.
pub fn modelled(model: u8) -> bool
    ensures { result ≡ modelled model }
{
    (0 < model) & (model <= MODELS)
}

// The kind of a record.
pub fn kind(op: Op) -> u8
    ensures { result ≡ kind_of op }
{
    match op {
        Op::Load { .. } => 0,
        Op::Store { .. } => 1,
        Op::Swap { .. } => 2,
        Op::Fence { .. } => 3,
    }
}

// Where an entry of the table says what holds: at two addresses first, then at one.
fn side(one: bool) -> usize
    ensures { result ≡ side_of one }
{
    usize::from(one)
}

// Whether a model keeps a pair of these kinds without a fence between, told whether both are at one address; a model or a kind that does not
// exist keeps nothing.
pub fn kept_by(model: u8, first: u8, second: u8, one: bool) -> bool
    ensures { result ≡ kept_by model first second one }
{
    if model <= MODELS && first < KINDS && second < KINDS {
        return KEPT[model as usize][first as usize][second as usize][side(one)];
    }
    false
}

// What stands at a place of a trace; past its end, what the language has there.
pub fn op_at(t: Trace, i: usize) -> Op
    ensures { result ≡ at t i }
{
    if i < RECORDS {
        return t.records[i].op;
    }
    Op::Load {
        thread: 0,
        addr: 0,
        read: 0,
    }
}

// Whether a fence of the first one's thread stands between two records.
pub fn fenced(t: Trace, x: usize, y: usize) -> bool
    ensures { result ≡ fenced t x y }
{
    let thread = op_at(t, x).thread();
    for i in 0..y.min(RECORDS) {
        let op = t.records[i].op;
        if op.fence() & (x < i) & (op.thread() == thread) {
            return true;
        }
    }
    false
}

// Whether a model keeps a pair of records, told whether the second is later and whether a fence stands between.
pub fn kept_pair(model: u8, a: Op, b: Op, later: bool, fenced: bool) -> bool
    ensures { result ≡ kept_pair model a b later fenced }
{
    let near = later & (a.thread() == b.thread());
    let across = modelled(model) & !a.fence() & !b.fence() & fenced;
    let one = a.address() == b.address();
    near & (kept_by(model, kind(a), kind(b), one) | across)
}

// Whether a model keeps the pair x, y of a trace.
pub fn kept(t: Trace, model: u8, x: usize, y: usize) -> bool
    ensures { result ≡ kept_of model t x y }
{
    let n = t.len;
    let later = (x < y) & (y < n);
    kept_pair(model, op_at(t, x), op_at(t, y), later, fenced(t, x, y))
}

// Whether the second record reads what the first wrote, and not what its address began with.
fn reads_from(a: Op, b: Op, begins: u16) -> bool
    ensures { result ≡ reads_from a b begins }
{
    let there = a.writes() & (a.address() == b.address()) & b.reads();
    there & (b.read() == a.written()) & (b.read() != begins)
}

// The record that a load or swap reads from, RECORDS where there is none; of several, which a well formed trace does not have, the lowest.
pub fn source_of(t: Trace, load: usize) -> usize
    ensures { result ≡ source_of (frame_of t) load }
{
    let n = t.len;
    let b = op_at(t, load);
    if !b.reads() {
        return RECORDS;
    }
    let begins = first(t, b.address());
    let value = b.read();
    if value == begins {
        return RECORDS;
    }
    for i in 0..RECORDS {
        let a = t.records[i].op;
        if a.written() == value && (i < n) & (load < n) & (i != load) & reads_from(a, b, begins) {
            return i;
        }
    }
    RECORDS
}
