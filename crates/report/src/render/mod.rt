// The text of a trace, in a lent buffer: init lines for the first values other than 0, and each record's line, as the reader reads them.
ghost use Rattle.std.specs.Prelude.{◌≡◌, cond, [], ◌∷◌, ◌++◌, ◌+◌, ◌*◌, ◌≤◌, ◌<◌, eqb, length, get_or, take};
ghost use Rattle.trace.specs.Bounds.{RECORDS, ADDRESSES, VALUES};
ghost use Rattle.text.specs.Bounds.{FEED};
ghost use Rattle.text.specs.Number.{decimal};
ghost use Rattle.text.specs.Room.{put_at, behind};
ghost use Rattle.text.specs.Template.{HOLE, fill};
ghost use Rattle.reader.specs.LineForms.{render_init, render_op};
ghost use Rattle.reader.specs.TextOf.{render_records, render_inits, records_of, inits_of, render_trace};
ghost use Rattle.report.specs.Bounds.{VALUE, RECORD-LINE, RENDER};
ghost use Rattle.report.specs.Wrote.{Wrote};

use crate::pieces::{put_decimal, put_word};
use text::room::put;
use trace::{ADDRESSES, FIRSTS, Op, RECORDS, Trace, first};

// The byte of a form that a number stands for.
const HOLE: u8 = b'#';

// How many bytes a line has at the most: its feed, and no byte of its form gives more than a value's digits.
const RECORD: usize = 1 + 5 * 27;

// How many bytes the text of a trace has at the most.
pub const RENDER: usize = RECORD * (FIRSTS + RECORDS);

// A number of a list; 0 past its end.
fn nth(numbers: &[u16], n: usize) -> usize
    ensures { (result ≡ get_or numbers.now n 0) × (result < VALUES) }
{
    if n < numbers.len() {
        return numbers[n] as usize;
    }
    0
}

// One byte of a form: a number for a hole, any other byte as it is.
fn put_step(b: u8, n: usize, out: &mut [u8], at: usize) -> usize
    requires { (n < VALUES) × (at + VALUE ≤ length out.old) }
    ensures { Wrote out.old at (cond (eqb b HOLE) (decimal n) (b ∷ [])) out.new result × (result ≤ at + VALUE) }
{
    if b == HOLE {
        return put_decimal(n, out, at);
    }
    out[at] = b;
    at + 1
}

// Which number the next hole takes.
fn past(b: u8, n: usize) -> usize
    requires { n < RENDER }
    ensures { (result ≡ cond (eqb b HOLE) (n + 1) n) × (result ≤ n + 1) }
{
    if b == HOLE {
        return n + 1;
    }
    n
}

// A form with its numbers.
fn put_form(form: &[u8], numbers: &[u16], out: &mut [u8], at: usize) -> usize
    requires { (length form.now < RECORD-LINE) × (at + VALUE * length form.now ≤ length out.old) }
    ensures { Wrote out.old at (fill form.now numbers.now) out.new result × (result ≤ at + VALUE * length form.now) }
{
    let mut end = at;
    let mut n: usize = 0;
    for &b in form {
        end = put_step(b, nth(numbers, n), out, end);
        n = past(b, n);
    }
    end
}

// A record.
fn put_op(op: Op, out: &mut [u8], at: usize) -> usize
    requires { at + RECORD-LINE ≤ length out.old }
    ensures { Wrote out.old at (render_op op) out.new result × (result < at + RECORD-LINE) }
{
    match op {
        Op::Load { thread, addr, read } => {
            let numbers = [thread as u16, addr as u16, read];
            put_form(b"#: M[#] == #", &numbers, out, at)
        }
        Op::Store {
            thread,
            addr,
            written,
        } => {
            let numbers = [thread as u16, addr as u16, written];
            put_form(b"#: M[#] := #", &numbers, out, at)
        }
        Op::Swap {
            thread,
            addr,
            read,
            written,
        } => {
            let numbers = [thread as u16, addr as u16, read, addr as u16, written];
            put_form(b"#: { M[#] == #; M[#] := # }", &numbers, out, at)
        }
        Op::Fence { thread } => {
            let numbers = [thread as u16];
            put_form(b"#: sync", &numbers, out, at)
        }
    }
}

// A record's line, with its feed.
fn put_record(op: Op, out: &mut [u8], at: usize) -> usize
    requires { at + RECORD-LINE ≤ length out.old }
    ensures { Wrote out.old at (render_op op ++ FEED ∷ []) out.new result × (result ≤ at + RECORD-LINE) }
{
    let end = put_op(op, out, at);
    put_word(b"\n", out, end)
}

// How many of a trace's places hold records; a length past the array says no more.
fn held(t: Trace) -> usize
    ensures { (result ≤ RECORDS) × (take result t.records ≡ take t.len t.records) }
{
    let n = t.len;
    if RECORDS < n {
        return RECORDS;
    }
    n
}

// The init line of an address that begins with another value than 0.
fn put_init(addr: u8, value: u16, out: &mut [u8], at: usize) -> usize
    requires { at + RECORD-LINE ≤ length out.old }
    ensures { Wrote out.old at (cond (eqb value 0) [] (render_init addr value ++ FEED ∷ [])) out.new result × (result ≤ at + RECORD-LINE) }
{
    if value == 0 {
        return at;
    }
    let numbers = [addr as u16, value];
    let end = put_form(b"init: M[#] := #", &numbers, out, at);
    put_word(b"\n", out, end)
}

// The init lines, addresses rising.
fn put_inits(t: Trace, out: &mut [u8]) -> usize
    requires { length out.old ≡ RENDER }
    ensures { Wrote out.old 0 (render_inits (inits_of t)) out.new result × (result ≤ RECORD-LINE * ADDRESSES) }
{
    let mut end: usize = 0;
    for addr in 0..ADDRESSES {
        end = put_init(addr, first(t, addr), out, end);
    }
    end
}

// The records' lines.
fn put_records(t: Trace, out: &mut [u8], at: usize) -> usize
    requires { (length out.old ≡ RENDER) × (at ≤ RECORD-LINE * ADDRESSES) }
    ensures { Wrote out.old at (render_records (records_of t)) out.new result × (result ≤ RENDER) }
{
    let n = held(t);
    let mut end: usize = at;
    for i in 0..n {
        end = put_record(t.records[i].op, out, end);
    }
    end
}

// The text of a trace at the front of a buffer, and how many bytes it has; the bytes behind it stay. A buffer that is too short stays as it is, and 0
// comes back; one of RENDER bytes is always long enough.
pub fn render(t: Trace, out: &mut [u8]) -> usize
    ensures { (result ≡ behind (render_trace t) out.old 0) × (out.new ≡ put_at (render_trace t) out.old 0) × (length (render_trace t) ≤ RENDER) }
{
    let mut whole = [0u8; RENDER];
    let top = put_inits(t, &mut whole);
    let n = put_records(t, &mut whole, top);
    put(&whole[..n], out, 0)
}
