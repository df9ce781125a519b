// The head of a session in bytes: laid down, and its pairs read back.
ghost use Rattle.std.specs.Prelude.{◌≡◌, ◌↔◌, ◌++◌, ◌+◌, ◌*◌, ◌<◌, ◌≤◌, length, take, drop};
ghost use Rattle.std.proofs.Math.Bool.{So};
ghost use Rattle.laws.specs.Sums.{num};
ghost use Rattle.laws.specs.ListOf.{row};
ghost use Rattle.session.specs.Bounds.{PAIRS};
ghost use Rattle.rows.specs.Bounds.{CELLS};
ghost use Rattle.desk.specs.SessionHead.{Fit, FRONT, TABLE, SESSION-HEAD, pair_number, pair_byte, front_at, byte_of, table_at, session_head};
ghost use Rattle.desk.specs.SessionBytes.{two_bytes_in, stack_in};

use session::{PAIRS, Pair, Session, Stack};
use trace::RECORDS;

// How many numbers a byte can be.
const BYTE: usize = 256;

// How many bytes stand before the table.
const FRONT: usize = 2 + 4 * PAIRS + 1;

// How many bytes the table has: a bit for any two records.
const TABLE: usize = RECORDS * RECORDS / 8;

// How many bytes a head has.
pub const HEAD: usize = FRONT + TABLE;

// A byte as a number.
fn wide(x: u8) -> usize
    ensures { result ≡ x }
{
    x as usize
}

// A truth value as a byte.
fn mark(b: bool) -> u8
    ensures { result ≡ num b }
{
    if b {
        return 1;
    }
    0
}

// Number j of a session's pairs.
fn numbered(s: Session, j: usize) -> usize
    requires { j < 2 * PAIRS }
    ensures { result ≡ pair_number s.stack j }
{
    let k = s.stack;
    let p = k.pairs[j / 2];
    if j % 2 == 0 {
        return p.first;
    }
    p.second
}

// Byte i of a session's pairs.
fn pair_byte(s: Session, i: usize) -> u8
    requires { Fit s × (i < 4 * PAIRS) }
    ensures { result ≡ pair_byte s.stack i }
{
    let n = numbered(s, i / 2);
    if i % 2 == 0 {
        return (n % BYTE) as u8;
    }
    (n / BYTE) as u8
}

// Byte i of a session's front.
fn front(s: Session, i: usize) -> u8
    requires { Fit s }
    ensures { result ≡ front_at s i }
{
    if i == 0 {
        return s.model;
    }
    if i == 1 {
        let k = s.stack;
        return k.count as u8;
    }
    if i < 2 + 4 * PAIRS {
        return pair_byte(s, i - 2);
    }
    mark(s.contradicted)
}

// Lays the front of a session down.
fn lay_front(s: Session, out: &mut [u8])
    requires { Fit s × (FRONT ≤ length out.old) }
    ensures { out.new ≡ row (front_at s) 0 FRONT ++ drop FRONT out.old }
{
    for i in 0..FRONT {
        out[i] = front(s, i);
    }
}

// Byte j of a word, from the lowest.
fn byte(word: u64, j: usize) -> u8
    requires { j < 8 }
    ensures { result ≡ byte_of word j }
{
    let rest = word >> (8 * j);
    (rest % 256) as u8
}

// Lays the bytes of a table down.
fn lay_table(held: &[u64], out: &mut [u8])
    requires { (CELLS ≤ length held.now) × (TABLE ≤ length out.old) }
    ensures { out.new ≡ row (table_at held.now) 0 TABLE ++ drop TABLE out.old }
{
    for i in 0..TABLE {
        out[i] = byte(held[i / 8], i % 8);
    }
}

// Lays the head of a session down; what stands behind it stays.
pub(crate) fn lay(s: Session, out: &mut [u8])
    requires { Fit s × (SESSION-HEAD ≤ length out.old) }
    ensures { out.new ≡ session_head s ++ drop SESSION-HEAD out.old }
{
    lay_front(s, out);
    let held = s.held;
    lay_table(&held, &mut out[FRONT..]);
}

// The number that two bytes make, the lower first.
fn two(bytes: &[u8], at: usize) -> usize
    requires { at + 1 < length bytes.now }
    ensures { result ≡ two_bytes_in bytes.now at }
{
    let low = wide(bytes[at]);
    let high = wide(bytes[at + 1]);
    low + BYTE * high
}

// The pairs that the bytes of a session name.
pub(crate) fn stack_in(bytes: &[u8]) -> Stack
    requires { SESSION-HEAD ≤ length bytes.now }
    ensures { result ≡ stack_in bytes.now }
{
    let mut pairs = [Pair {
        first: 0,
        second: 0,
    }; PAIRS];
    for i in 0..PAIRS {
        pairs[i] = Pair {
            first: two(bytes, 2 + 4 * i),
            second: two(bytes, 4 + 4 * i),
        };
    }
    let count = wide(bytes[1]);
    Stack { pairs, count }
}

// Whether two strings of bytes are the same.
fn same(a: &[u8], b: &[u8]) -> bool
    ensures { So result ↔ (a.now ≡ b.now) }
{
    a == b
}

// Whether bytes begin with the head of a session.
pub(crate) fn agrees(s: Session, bytes: &[u8]) -> bool
    requires { Fit s × (SESSION-HEAD ≤ length bytes.now) }
    ensures { So result ↔ (session_head s ≡ take SESSION-HEAD bytes.now) }
{
    let mut due = [0u8; HEAD];
    lay(s, &mut due);
    same(&due, &bytes[..HEAD])
}
