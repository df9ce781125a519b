// A trace laid down as its file.
ghost use Rattle.std.specs.Prelude.{◌≡◌, ◌++◌, ◌+◌, ◌*◌, ◌≤◌, ◌<◌, length, take, drop};
ghost use Rattle.std.proofs.Math.Bool.{So};
ghost use Rattle.trace.specs.Bounds.{RECORDS, ADDRESSES};
ghost use Rattle.trace.specs.WellFormed.{well_formed};
ghost use Rattle.text.specs.Room.{put_at};
ghost use Rattle.packed.specs.Layout.{HEAD, FIRST, RECORD, first_entry, firsts_of, many, record_bytes, size_of, file_head, file_of};
ghost use Rattle.packed.specs.Write.{wrote_of, left_of};
ghost use Rattle.packed.specs.WholeFile.{wrote_whole, left_whole};

use crate::entries::record_of;
use crate::{FIRST, HEAD, RECORD, Unwritten};
use text::room::put;
use trace::cores::lost;
use trace::form::well_formed;
use trace::{FIRSTS, Trace};

// How many first values are other than 0.
fn many_of(t: Trace) -> usize
    ensures { (result ≡ many t.firsts) × (result ≤ ADDRESSES) }
{
    let mut n: usize = 0;
    for a in 0..FIRSTS {
        if t.firsts[a] != 0 {
            n += 1;
        }
    }
    n
}

// The first value of an address at a place, and the place behind it; nothing where it is 0.
fn put_first(a: usize, value: u16, out: &mut [u8], at: usize) -> usize
    requires { (a < ADDRESSES) × (at + length (first_entry a value) ≤ length out.old) }
    ensures { (result ≡ at + length (first_entry a value)) × (out.new ≡ put_at (first_entry a value) out.old at) }
{
    if value == 0 {
        return at;
    }
    let low = (value % 256) as u8;
    let high = (value / 256) as u8;
    let entry = [a as u8, low, high];
    put(&entry, out, at)
}

// The first values other than 0 from the head on, and the place behind them.
fn put_firsts(t: Trace, out: &mut [u8]) -> usize
    requires { HEAD + length (firsts_of 0 t.firsts) ≤ length out.old }
    ensures { (result ≡ HEAD + length (firsts_of 0 t.firsts)) × (out.new ≡ put_at (firsts_of 0 t.firsts) out.old HEAD) }
{
    let mut at = HEAD;
    for a in 0..FIRSTS {
        at = put_first(a, t.firsts[a], out, at);
    }
    at
}

// The records from a place on.
fn put_records(t: Trace, out: &mut [u8], from: usize)
    requires { (t.len ≤ RECORDS) × (from + RECORD * t.len ≤ length out.old) }
    ensures { out.new ≡ put_at (record_bytes (take t.len t.records)) out.old from }
{
    for i in 0..t.len {
        put(&record_of(t.records[i].op), out, from + RECORD * i);
    }
}

// The head: mark, version, how many first values, how many records.
fn put_head(firsts: usize, records: usize, out: &mut [u8])
    requires { (firsts ≤ 255) × (records ≤ RECORDS) }
    ensures { out.new ≡ put_at (file_head firsts records) out.old 0 }
{
    let low = (records % 256) as u8;
    let high = (records / 256) as u8;
    let head = [0x50u8, 0x59, 0x52, 1, 0, firsts as u8, low, high];
    put(&head, out, 0);
}

// A trace's file at the front of bytes that have room for it.
fn lay(t: Trace, firsts: usize, out: &mut [u8])
    requires { So (well_formed t) × (firsts ≡ many t.firsts) × (size_of (many t.firsts) t.len ≤ length out.old) }
    ensures { out.new ≡ file_of t ++ drop (length (file_of t)) out.old }
{
    put_head(firsts, t.len, out);
    let at = put_firsts(t, out);
    put_records(t, out, at);
}

// Writes the file of a trace at the front of lent bytes: how many it has; or why not, and all bytes as they were.
pub fn write(t: Trace, out: &mut [u8]) -> Result<usize, Unwritten>
    ensures { (result ≡ wrote_of t out.old) × (out.new ≡ left_of t out.old) }
{
    if !well_formed(t) {
        return Err(Unwritten::NotWellFormed);
    }
    let firsts = many_of(t);
    let records = t.len;
    let size = HEAD + FIRST * firsts + RECORD * records;
    if out.len() < size {
        return Err(Unwritten::NoRoom);
    }
    lay(t, firsts, out);
    Ok(size)
}

// The same as `write`, but a trace that lost a core has no file: 10 comes before that, and no room after it.
#[tactic(auto, unfolding(crate::specs::WholeFile::wrote_whole, crate::specs::WholeFile::left_whole, crate::specs::Write::wrote_of, crate::specs::Write::left_of))]
pub fn write_whole(t: Trace, out: &mut [u8]) -> Result<usize, Unwritten>
    ensures { (result ≡ wrote_whole t out.old) × (out.new ≡ left_whole t out.old) }
{
    if well_formed(t) && lost(t) {
        return Err(Unwritten::Lost);
    }
    write(t, out)
}
