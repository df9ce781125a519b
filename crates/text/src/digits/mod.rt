// Bytes and decimal numbers of a line.
ghost use Rattle.std.specs.Prelude.{◌≡◌, ◌+◌, ◌*◌, ◌-◌, ◌≤◌};
ghost use Rattle.trace.specs.Bounds.{VALUES};
ghost use Rattle.text.specs.Class.{class_of};
ghost use Rattle.text.specs.Number.{is_digit, cut, run_at, number_at};

use crate::{Class, Run};
use trace::VALUES;

// The class of a byte.
pub fn class_of(b: u8) -> Class
    ensures { result ≡ class_of b }
{
    match b {
        b'0'..=b'9' => Class::Digit,
        b' ' => Class::Space,
        b':' | b'=' | b';' | b'[' | b']' | b'{' | b'}' => Class::Mark,
        b'a'..=b'z' | b'A'..=b'Z' => Class::Letter,
        _ => Class::Other,
    }
}

// Whether a byte is a digit.
pub fn is_digit(b: u8) -> bool
    ensures { result ≡ is_digit b }
{
    matches!(class_of(b), Class::Digit)
}

// A number with one digit more behind it. It stops at the first number past every bound, so that it never wraps.
fn with_digit(value: u32, b: u8) -> u32
    requires { (value ≤ VALUES) × (48 ≤ b) × (b ≤ 57) }
    ensures { result ≡ cut (value * 10 + (b - 48)) }
{
    let next = value * 10 + (b - 48) as u32;
    if VALUES < next { VALUES } else { next }
}

// The digits at a place.
pub fn run_at(line: &[u8], at: usize) -> Run
    ensures { result ≡ run_at line.now at }
{
    let mut value: u32 = 0;
    for i in at..line.len() {
        let b = line[i];
        if !is_digit(b) {
            return Run { value, end: i };
        }
        value = with_digit(value, b);
    }
    Run {
        value,
        end: at.max(line.len()),
    }
}

// The number at a place: digits, one at least, of which only 0 itself begins with 0.
pub fn number_at(line: &[u8], at: usize) -> Option<Run>
    ensures { result ≡ number_at line.now at }
{
    let run = run_at(line, at);
    if run.end <= at {
        return None;
    }
    if line[at] == b'0' {
        if at + 1 < run.end {
            return None;
        }
    }
    Some(run)
}
