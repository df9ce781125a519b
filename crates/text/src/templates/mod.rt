// Lines held against templates: byte strings in which a hole stands for each number.
ghost use Rattle.std.specs.Prelude.{◌≡◌, set, drop};
ghost use Rattle.text.specs.Template.{fitted, step_at};

use crate::Run;
use crate::digits::number_at;

const HOLE: u8 = b'#';

// One byte of a template against a place in the line: a hole takes a number, any other byte itself.
fn step_at(t: u8, line: &[u8], at: usize) -> Option<Run>
    ensures { result ≡ step_at t line.now at }
{
    if t == HOLE {
        return number_at(line, at);
    }
    if at < line.len() {
        if line[at] == t {
            return Some(Run {
                value: 0,
                end: at + 1,
            });
        }
    }
    None
}

// A number put into its place; there is no place past the last.
fn put(numbers: &mut [u32], n: usize, value: u32)
    ensures { numbers.new ≡ set numbers.old n value }
{
    if n < numbers.len() {
        numbers[n] = value;
    }
}

// The numbers with which a template gives the line from a place on, where it gives it; unused places are 0.
pub fn fit(template: &[u8], line: &[u8], at: usize) -> Option<[u32; 4]>
    ensures { result ≡ fitted template.now (drop at line.now) }
{
    let mut numbers = [0u32; 4];
    let mut n: usize = 0;
    let mut i = at;
    for k in 0..template.len() {
        let t = template[k];
        let number = step_at(t, line, i)?;
        if t == HOLE {
            put(&mut numbers, n, number.value);
            n += 1;
        }
        i = number.end;
    }
    if i < line.len() {
        return None;
    }
    Some(numbers)
}
