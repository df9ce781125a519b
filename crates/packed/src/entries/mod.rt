// One record in its eight bytes.
ghost use Rattle.std.specs.Prelude.{◌≡◌, ◌++◌, ◌+◌, ◌≤◌, ◌<◌, length, drop};
ghost use Rattle.packed.specs.Layout.{BYTE, RECORD, kind_byte, record_of, two_in};
ghost use Rattle.packed.specs.Entry.{op_in, entry_in};

use trace::Op;

// The record of these fields, if the kind is one of the four and what it does not carry is 0.
#[tactic(auto, unfolding(crate::specs::Entry::op_in))]
pub fn op_in(kind: u8, thread: u8, addr: u8, zero: u8, read: u16, written: u16) -> Option<Op>
    ensures { result ≡ op_in kind thread addr zero read written }
{
    match kind {
        0 if zero == 0 && written == 0 => Some(Op::Load { thread, addr, read }),
        1 if zero == 0 && read == 0 => Some(Op::Store {
            thread,
            addr,
            written,
        }),
        2 if zero == 0 => Some(Op::Swap {
            thread,
            addr,
            read,
            written,
        }),
        3 if addr == 0 && zero == 0 && read == 0 && written == 0 => Some(Op::Fence { thread }),
        _ => None,
    }
}

// A byte as a wider number.
fn wide(b: u8) -> u16
    ensures { (result ≡ b) × (result < BYTE) }
{
    b as u16
}

// The number that two bytes make from a place on, the lower first.
pub(crate) fn two_at(bytes: &[u8], at: usize) -> u16
    requires { at + 2 ≤ length bytes.now }
    ensures { result ≡ two_in bytes.now at }
{
    wide(bytes[at]) + 256 * wide(bytes[at + 1])
}

// The record that eight bytes are from a place on, if any.
pub(crate) fn entry_at(bytes: &[u8], at: usize) -> Option<Op>
    requires { at + RECORD ≤ length bytes.now }
    ensures { result ≡ entry_in (drop at bytes.now) }
{
    let read = two_at(bytes, at + 4);
    let written = two_at(bytes, at + 6);
    op_in(
        bytes[at],
        bytes[at + 1],
        bytes[at + 2],
        bytes[at + 3],
        read,
        written,
    )
}

// The number of a record's kind.
fn kind_of(op: Op) -> u8
    ensures { result ≡ kind_byte op }
{
    match op {
        Op::Load { .. } => 0,
        Op::Store { .. } => 1,
        Op::Swap { .. } => 2,
        Op::Fence { .. } => 3,
    }
}

// A record's eight bytes.
pub(crate) fn record_of(op: Op) -> [u8; 8]
    ensures { result ≡ record_of op }
{
    let read = op.read();
    let written = op.written();
    [
        kind_of(op),
        op.thread(),
        op.address(),
        0,
        (read % 256) as u8,
        (read / 256) as u8,
        (written % 256) as u8,
        (written / 256) as u8,
    ]
}
