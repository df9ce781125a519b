// The branch that the writer is in, and the numbers of the list as they are laid into lent memory.
ghost use Rattle.std.specs.Prelude.{◌≡◌, [], ◌∷◌, ◌+◌, ◌<◌, ◌≤◌, length, take};
ghost use Rattle.papers.specs.Paper.{BRANCH, spell};
ghost use Rattle.papers.specs.inner.ReaderBranch.{branch_of};
ghost use Rattle.reasons.specs.Telling.{entry_place, entry_number, numbers};
ghost use Rattle.reasons.specs.inner.Laid.{PutAt, EntriesTold};

use papers::BRANCH;

// The lowest place of an entry that is x before y; how many entries there are where none is.
pub(crate) fn place(from: &[u16], to: &[u16], count: usize, x: u16, y: u16) -> usize
    requires { (count ≤ length from.now) × (count ≤ length to.now) }
    ensures { result ≡ entry_place (branch_of from.now to.now count) x y }
{
    for i in 0..count {
        if (from[i] == x) & (to[i] == y) {
            return i;
        }
    }
    count
}

// The number of an entry that is x before y; 0 where none is.
pub(crate) fn number(from: &[u16], to: &[u16], count: usize, x: u16, y: u16) -> u16
    requires { (count ≤ length from.now) × (count ≤ length to.now) × (count ≤ BRANCH) }
    ensures { result ≡ entry_number (branch_of from.now to.now count) x y }
{
    let i = place(from, to, count, x, y);
    if i < count {
        return i as u16;
    }
    0
}

// Lays the numbers of the edges from a by the steps to b.
pub(crate) fn number_all(
    from: &[u16],
    to: &[u16],
    count: usize,
    a: u16,
    steps: &[u16],
    len: usize,
    b: u16,
    rests: &mut [u16],
)
    requires { (count ≤ length from.now) × (count ≤ length to.now) × (count ≤ BRANCH) × (len ≤ length steps.now) × (len < length rests.old) }
    ensures { take (len + 1) rests.new ≡ numbers (branch_of from.now to.now count) a (take len steps.now) b }
{
    let mut x = a;
    for i in 0..len {
        let z = steps[i];
        rests[i] = number(from, to, count, x, z);
        x = z;
    }
    rests[len] = number(from, to, count, x, b);
}

// Lays the first n of these numbers, where they do not pass the limit, and tells the place after them.
pub(crate) fn lay(
    words: &[u16],
    n: usize,
    out: &mut [u16],
    limit: usize,
    at: usize,
) -> Option<usize>
    requires { (n ≤ length words.now) × (at ≤ limit) }
    ensures { PutAt limit out.old at (take n words.now) out.new result }
{
    if limit - at < n {
        return None;
    }
    for i in 0..n {
        if at + i < out.len() {
            out[at + i] = words[i];
        }
    }
    Some(at + n)
}

// Lays one entry, which rests on the first k of these, and tells the place after it.
pub(crate) fn lay_entry(
    rule: u16,
    x: u16,
    y: u16,
    k: usize,
    rests: &[u16],
    out: &mut [u16],
    limit: usize,
    at: usize,
) -> Option<usize>
    requires { (k ≤ length rests.now) × (k < 65536) × (at ≤ limit) }
    ensures { PutAt limit out.old at (spell (record { rule = rule; from = x; to = y; rests = take k rests.now } ∷ [])) out.new result }
{
    let head = [rule, x, y, k as u16];
    let p = lay(&head, 4, out, limit, at)?;
    lay(rests, k, out, limit, p)
}

// Lays one entry and names it in the branch, where there is room for it, and tells how many entries the branch then has and the place after it.
pub(crate) fn name(
    rule: u16,
    x: u16,
    y: u16,
    k: usize,
    rests: &[u16],
    from: &mut [u16],
    to: &mut [u16],
    count: usize,
    out: &mut [u16],
    limit: usize,
    at: usize,
) -> Option<(usize, usize)>
    requires { (k ≤ length rests.now) × (k < 65536) × (at ≤ limit) × (length from.old ≡ BRANCH) × (length to.old ≡ BRANCH) }
    ensures { EntriesTold limit from.old to.old out.old count at (record { rule = rule; from = x; to = y; rests = take k rests.now } ∷ []) from.new to.new out.new result }
{
    if BRANCH <= count {
        return None;
    }
    let p = lay_entry(rule, x, y, k, rests, out, limit, at)?;
    from[count] = x;
    to[count] = y;
    Some((count + 1, p))
}
