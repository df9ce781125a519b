// A test program with the reads of a run in it.
ghost use Rattle.std.specs.Prelude.{◌≡◌, get_or};
ghost use Rattle.night.specs.FilledReads.{read_as, filled_reads};

use trace::{Op, RECORDS, Record, Trace};

// The operation that read a value instead; one that does not read stays as it is.
fn read_as(op: Op, value: u16) -> Op
    ensures { result ≡ read_as op value }
{
    match op {
        Op::Load { thread, addr, .. } => Op::Load {
            thread,
            addr,
            read: value,
        },
        Op::Store { .. } => op,
        Op::Swap {
            thread,
            addr,
            written,
            ..
        } => Op::Swap {
            thread,
            addr,
            read: value,
            written,
        },
        Op::Fence { .. } => op,
    }
}

// The read at a place; 0 past the last one.
fn read_at(reads: &[u16], at: usize) -> u16
    ensures { result ≡ get_or reads.now at 0 }
{
    if at < reads.len() {
        return reads[at];
    }
    0
}

// The program with other reads: its loads and swaps take them one after the other, by record number.
pub fn seen(t: Trace, reads: &[u16]) -> Trace
    ensures { result ≡ filled_reads t reads.now }
{
    let mut u = t;
    let mut k: usize = 0;
    for i in 0..RECORDS {
        let op = t.records[i].op;
        let next = read_as(op, read_at(reads, k));
        u.records[i] = Record { op: next };
        if op.reads() {
            k += 1;
        }
    }
    u
}
