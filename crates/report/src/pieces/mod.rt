// Bytes put into a lent buffer from a place on. Each function gives back the place behind what it wrote.
ghost use Rattle.std.specs.Prelude.{◌≡◌, [], ◌∷◌, ◌+◌, ◌*◌, ◌≤◌, ◌<◌, length};
ghost use Rattle.text.specs.Number.{decimal};
ghost use Rattle.verdict.specs.VerdictOf.{RecordNumbers};
ghost use Rattle.report.specs.Bounds.{DIGITS, NUMBER};
ghost use Rattle.report.specs.Words.{SPACE};
ghost use Rattle.report.specs.Report.{spaced};
ghost use Rattle.report.specs.Wrote.{Wrote};

use text::room::put;

pub(crate) fn wide(x: u8) -> usize
    ensures { result ≡ x }
{
    x as usize
}

// A word, behind what was written before.
pub(crate) fn put_word(word: &[u8], out: &mut [u8], at: usize) -> usize
    requires { at + length word.now ≤ length out.old }
    ensures { Wrote out.old at word.now out.new result }
{
    put(word, out, at)
}

// One digit.
fn put_digit(d: usize, out: &mut [u8], at: usize) -> usize
    requires { (d < 10) × (at < length out.old) }
    ensures { Wrote out.old at ((48 + d) ∷ []) out.new result }
{
    out[at] = b'0' + d as u8;
    at + 1
}

// A number, its highest digit first.
pub(crate) fn put_decimal(n: usize, out: &mut [u8], at: usize) -> usize
    requires { at + length (decimal n) ≤ length out.old }
    ensures { Wrote out.old at (decimal n) out.new result }
{
    if n < 10 {
        return put_digit(n, out, at);
    }
    let end = put_decimal(n / 10, out, at);
    put_digit(n % 10, out, end)
}

// The number of a record or a rule, after a space.
fn put_one(n: usize, out: &mut [u8], at: usize) -> usize
    requires { (length (decimal n) ≤ DIGITS) × (at + NUMBER ≤ length out.old) }
    ensures { Wrote out.old at (SPACE ∷ decimal n) out.new result × (result ≤ at + NUMBER) }
{
    out[at] = b' ';
    put_decimal(n, out, at + 1)
}

// Records, each after a space.
pub(crate) fn put_numbers(list: &[u16], out: &mut [u8], at: usize) -> usize
    requires { (at + NUMBER * length list.now ≤ length out.old) × RecordNumbers list.now }
    ensures { Wrote out.old at (spaced list.now) out.new result × (result ≤ at + NUMBER * length list.now) }
{
    let mut end = at;
    for &n in list {
        end = put_one(n as usize, out, end);
    }
    end
}

// Rules, each after a space.
pub(crate) fn put_rules(rules: &[u8], out: &mut [u8], at: usize) -> usize
    requires { at + NUMBER * length rules.now ≤ length out.old }
    ensures { Wrote out.old at (spaced rules.now) out.new result × (result ≤ at + NUMBER * length rules.now) }
{
    let mut end = at;
    for &rule in rules {
        end = put_one(rule as usize, out, end);
    }
    end
}
