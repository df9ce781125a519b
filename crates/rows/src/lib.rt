// A relation on record numbers, kept as rows of bits: RECORDS rows of WORDS words. Every promise speaks of the relation, `bit` of
// specs/Rows.antt, so that no crate above knows which bit of which word a pair has.
#![tactic(auto)]

ghost use Rattle.std.specs.Prelude.{◌≡◌, cond, ◌↔◌, ℕ, ◌<◌, ◌≤◌, ltb, length};
ghost use Rattle.std.proofs.Math.Bool.{So};
ghost use Rattle.laws.specs.Bits.{bit_of};
ghost use Rattle.laws.specs.Tests.{any};
ghost use Rattle.trace.specs.Bounds.{RECORDS};
ghost use Rattle.rows.specs.Bounds.{WIDTH, WORDS, CELLS};
ghost use Rattle.rows.specs.Rows.{bit, place};
ghost use Rattle.rows.specs.Within.{word_of, Within, Meets};
ghost use Rattle.rows.specs.Next.{NextInRow};
ghost use Rattle.rows.specs.Empty.{empty_of};
ghost use Rattle.rows.specs.Put.{mark_of, put_of, put_if};
ghost use Rattle.rows.specs.Copy.{copy_of};
ghost use Rattle.rows.specs.inner.AddedPairs.{Added, Row, Through, RowsBelow};
ghost use Rattle.rows.specs.inner.HoldsChains.{HoldsChains};
ghost use Rattle.rows.specs.inner.Forward.{Forward, ClosedPast, SecondSteps};
ghost use Rattle.rows.specs.Chained.{Chained};
ghost use Rattle.rows.specs.AddRow.{add_row_of};
ghost use Rattle.rows.specs.DropRow.{drop_row_of};
ghost use Rattle.rows.specs.Rest.{rest_of};
ghost use Rattle.rows.specs.TurnedRound.{TurnedRound};
ghost use Rattle.rows.specs.inner.Squares.{Square, Mask, square_bit, crossed, part, InSquare, LaysSquare, Turns};

// The bits of a word.
pub const WIDTH: usize = 64;

// The words of a row: enough for RECORDS bits.
pub const WORDS: usize = 4;

// The words of all rows.
pub const CELLS: usize = trace::RECORDS * WORDS;

// The bit of a pair that the rows have a place for.
fn has(rows: &[u64], x: usize, y: usize) -> bool
    requires { (x < RECORDS) × (y < RECORDS) × (place x y < length rows.now) }
    ensures { result ≡ bit rows.now x y }
{
    let word = rows[x * WORDS + y / WIDTH] >> (y % WIDTH);
    word % 2 == 1
}

// Whether the relation has the pair x, y; a number past the records is in no pair.
pub fn test(rows: &[u64], x: usize, y: usize) -> bool
    ensures { result ≡ bit rows.now x y }
{
    if x < trace::RECORDS && y < trace::RECORDS && x * WORDS + y / WIDTH < rows.len() {
        return has(rows, x, y);
    }
    false
}

// Sets the bit of a pair that the rows have a place for.
fn mark(rows: &mut [u64], x: usize, y: usize)
    requires { (x < RECORDS) × (y < RECORDS) × (place x y < length rows.old) }
    ensures { rows.new ≡ mark_of rows.old x y }
{
    rows[x * WORDS + y / WIDTH] |= 1u64 << (y % WIDTH);
}

// Adds the pair x, y to the relation; a number past the records, or a pair past the end of the rows, changes nothing.
pub fn put(rows: &mut [u64], x: usize, y: usize)
    ensures { rows.new ≡ put_of rows.old x y }
{
    if x < trace::RECORDS && y < trace::RECORDS && x * WORDS + y / WIDTH < rows.len() {
        mark(rows, x, y);
    }
}

// Adds the pair x, y where a test passed.
pub fn put_if(rows: &mut [u64], yes: bool, x: usize, y: usize)
    ensures { rows.new ≡ put_if rows.old yes x y }
{
    if yes {
        put(rows, x, y);
    }
}

// Leaves no pair.
pub fn clear(rows: &mut [u64])
    ensures { rows.new ≡ empty_of (length rows.old) }
{
    rows.fill(0);
}

// The relation with no pair.
pub fn empty() -> [u64; CELLS]
    ensures { result ≡ empty_of CELLS }
{
    [0u64; CELLS]
}

// Makes `to` what `from` is; rows of another length are left as they are.
pub fn copy(from: &[u64], to: &mut [u64])
    ensures { to.new ≡ copy_of from.now to.old }
{
    if from.len() != to.len() {
        return;
    }
    to.copy_from_slice(from);
}

// Whether two lists of words are the same; of rows of the full length, whether they hold the same relation.
pub fn equal(a: &[u64], b: &[u64]) -> bool
    ensures { So result ↔ (a.now ≡ b.now) }
{
    a == b
}

// A word of row x; 0 where the rows have none.
fn word(rows: &[u64], x: usize, i: usize) -> u64
    requires { i < WORDS }
    ensures { result ≡ word_of rows.now x i }
{
    if x < trace::RECORDS && x * WORDS + i < rows.len() {
        return rows[x * WORDS + i];
    }
    0
}

// Whether what is in a pair with x in one relation is in a pair with y in another, a word at a time.
pub fn within(a: &[u64], x: usize, b: &[u64], y: usize) -> bool
    ensures { So result ↔ Within a.now x b.now y }
{
    for i in 0..WORDS {
        let p = word(a, x, i);
        let q = word(b, y, i);
        if p | q != q {
            return false;
        }
    }
    true
}

// Whether some number is in a pair with x in one relation and with y in another, a word at a time.
pub fn meets(a: &[u64], x: usize, b: &[u64], y: usize) -> bool
    ensures { So result ↔ Meets a.now x b.now y }
{
    for i in 0..WORDS {
        let p = word(a, x, i);
        let q = word(b, y, i);
        if p & q != 0 {
            return true;
        }
    }
    false
}

// The lowest number from `from` on that is in a pair with x, a word at a time; RECORDS where there is none.
pub fn next(rows: &[u64], x: usize, from: usize) -> usize
    ensures { NextInRow rows.now x from result }
{
    let mut z = from;
    // Not a `for`: each step goes on to the first number of the next word.
    while z < trace::RECORDS {
        let rest = word(rows, x, z / WIDTH) >> (z % WIDTH);
        if rest != 0 {
            let low = u64::trailing_zeros(rest) as usize;
            return z + low;
        }
        z = (z / WIDTH + 1) * WIDTH;
    }
    trace::RECORDS
}

// Whether some number is in a pair with itself.
pub fn reflexive(rows: &[u64]) -> bool
    ensures { result ≡ any RECORDS (λ x. bit rows.now x x) }
{
    for x in 0..trace::RECORDS {
        if test(rows, x, x) {
            return true;
        }
    }
    false
}

// Adds to row x the pairs that row k has, a word at a time.
fn join(rows: &mut [u64], x: usize, k: usize)
    requires { (x < RECORDS) × (k < RECORDS) × (length rows.old ≡ CELLS) }
    ensures { Added rows.old (Row rows.old x k) rows.new }
{
    for i in 0..WORDS {
        rows[x * WORDS + i] |= rows[k * WORDS + i];
    }
}

// How many rows there are up to the last one that has a pair.
fn height(rows: &[u64]) -> usize
    ensures { (result ≤ RECORDS) × RowsBelow rows.now result }
{
    for x in (0..trace::RECORDS).rev() {
        if !within(rows, x, &[0u64; WORDS], 0) {
            return x + 1;
        }
    }
    0
}

// Adds every pair that leads through k, told that only the first n rows have pairs; through a number that is before none leads nothing.
fn pass(rows: &mut [u64], k: usize, n: usize)
    requires { (k < RECORDS) × (n ≤ RECORDS) × (length rows.old ≡ CELLS) × RowsBelow rows.old n }
    ensures { Added rows.old (Through rows.old k) rows.new }
{
    if within(rows, k, &[0u64; WORDS], 0) {
        return;
    }
    for x in 0..n {
        if has(rows, x, k) {
            join(rows, x, k);
        }
    }
}

// Makes the relation that of its chains by way of one number after the other, told that only the first n rows have pairs.
fn close_any(rows: &mut [u64], n: usize)
    requires { (n ≤ RECORDS) × (length rows.old ≡ CELLS) × RowsBelow rows.old n }
    ensures { HoldsChains rows.old rows.new }
{
    for k in 0..trace::RECORDS {
        pass(rows, k, n);
    }
}

// Whether every pair leads to a higher number, told that only the first n rows have pairs: whether the lowest number of each row does.
fn forward(rows: &[u64], n: usize) -> bool
    requires { (n ≤ RECORDS) × RowsBelow rows.now n }
    ensures { So result ↔ Forward rows.now }
{
    for x in 0..n {
        if next(rows, x, 0) <= x {
            return false;
        }
    }
    true
}

// Adds to row x what the rows that it leads to have, these being closed: a number that another one leads to gives nothing more and is passed over.
fn extend(rows: &mut [u64], x: usize)
    requires { (x < RECORDS) × (length rows.old ≡ CELLS) × Forward rows.old × ClosedPast rows.old x }
    ensures { Added rows.old (SecondSteps rows.old x) rows.new }
{
    let mut rest = [0u64; WORDS];
    add_row(rows, x, &mut rest, 0);
    let mut y = next(&rest, 0, 0);
    while y < trace::RECORDS {
        join(rows, x, y);
        drop_row(rows, y, &mut rest, 0);
        y = next(&rest, 0, y + 1);
    }
}

// Makes the relation that of its chains, where every pair leads to a higher number and only the first n rows have pairs: from the last row to the first.
fn close_forward(rows: &mut [u64], n: usize)
    requires { (n ≤ RECORDS) × (length rows.old ≡ CELLS) × RowsBelow rows.old n × Forward rows.old }
    ensures { HoldsChains rows.old rows.new }
{
    for x in (0..n).rev() {
        extend(rows, x);
    }
}

// Makes the relation that of its chains, one or more pairs in a row; rows of another length are left as they are.
pub fn chains(rows: &mut [u64])
    ensures { Chained rows.old rows.new }
{
    if rows.len() != CELLS {
        return;
    }
    let n = height(rows);
    if forward(rows, n) {
        close_forward(rows, n);
    } else {
        close_any(rows, n);
    }
}

// Adds to row x of `to` what row m of `from` has, a word at a time; a number past the records has no row, and words past the end are left out.
pub fn add_row(from: &[u64], m: usize, to: &mut [u64], x: usize)
    ensures { to.new ≡ add_row_of from.now m to.old x }
{
    if trace::RECORDS <= x {
        return;
    }
    for i in 0..WORDS {
        let q = word(from, m, i);
        let at = x * WORDS + i;
        if at < to.len() {
            to[at] |= q;
        }
    }
}

// Takes out of row x of `to` what row m of `from` has, a word at a time; a number past the records has no row, and words past the end are left out.
pub fn drop_row(from: &[u64], m: usize, to: &mut [u64], x: usize)
    ensures { to.new ≡ drop_row_of from.now m to.old x }
{
    if trace::RECORDS <= x {
        return;
    }
    for i in 0..WORDS {
        let q = word(from, m, i);
        let at = x * WORDS + i;
        if at < to.len() {
            to[at] = (to[at] | q) ^ q;
        }
    }
}

// What row x of one relation has and row y of another has not, as a row of its own.
pub fn rest(from: &[u64], x: usize, out: &[u64], y: usize) -> [u64; WORDS]
    ensures { result ≡ rest_of from.now x out.now y }
{
    let mut left = [0u64; WORDS];
    add_row(from, x, &mut left, 0);
    drop_row(out, y, &mut left, 0);
    left
}

// The columns that m has from one word, the others from another.
fn mix(m: u64, a: u64, b: u64) -> u64
    ensures { (j : ℕ) → bit_of result j ≡ cond (bit_of m j) (bit_of a j) (bit_of b j) }
{
    (a & m) | ((b | m) ^ m)
}

// Exchanges, in the rows of a square that lie d apart, the bits that stand crosswise: d is 2 to the k, and m has the columns whose bit k is 0.
fn cross(square: &mut [u64], k: usize, d: usize, m: u64)
    requires { (length square.old ≡ WIDTH) × Mask k d m }
    ensures { Square (crossed k square.old) square.new }
{
    for p in 0..WIDTH / 2 {
        let i = (p >> k) * d + p;
        let a = square[i];
        let b = square[i + d];
        square[i] = mix(m, a, b << d);
        square[i + d] = mix(m, a >> d, b);
    }
}

// Turns a square round: first its quarters, then the quarters of each, down to single bits.
fn turn_square(square: &mut [u64])
    requires { length square.old ≡ WIDTH }
    ensures { Square (λ i j. square_bit square.old j i) square.new }
{
    cross(square, 5, 32, 0x0000_0000_FFFF_FFFF);
    cross(square, 4, 16, 0x0000_FFFF_0000_FFFF);
    cross(square, 3, 8, 0x00FF_00FF_00FF_00FF);
    cross(square, 2, 4, 0x0F0F_0F0F_0F0F_0F0F);
    cross(square, 1, 2, 0x3333_3333_3333_3333);
    cross(square, 0, 1, 0x5555_5555_5555_5555);
}

// A word of row x, if x is below n; 0 otherwise.
fn word_below(rows: &[u64], n: usize, x: usize, i: usize) -> u64
    requires { i < WORDS }
    ensures { result ≡ cond (ltb x n) (word_of rows.now x i) 0 }
{
    if x < n {
        return word(rows, x, i);
    }
    0
}

// Takes the square in row p and column q of the squares out of the rows; rows from n on count as empty.
fn take_square(rows: &[u64], n: usize, p: usize, q: usize, square: &mut [u64])
    requires { (p < WORDS) × (q < WORDS) × (length square.old ≡ WIDTH) }
    ensures { Square (part rows.now n p q) square.new }
{
    for i in 0..WIDTH {
        square[i] = word_below(rows, n, p * WIDTH + i, q);
    }
}

// Adds a square to the rows, in column p of the squares in row q; its rows from n on are left out.
fn lay_square(square: &[u64], n: usize, p: usize, q: usize, out: &mut [u64])
    requires { (p < WORDS) × (q < WORDS) × (length square.now ≡ WIDTH) × (length out.old ≡ CELLS) }
    ensures { Added out.old (LaysSquare square.now n p q) out.new }
{
    for i in 0..WIDTH {
        let y = q * WIDTH + i;
        if y < n {
            out[y * WORDS + p] |= square[i];
        }
    }
}

// Adds what one square of the rows, in row p and column q of the squares, is turned round; a square with no number below n has nothing.
fn turn_part(rows: &[u64], n: usize, p: usize, q: usize, out: &mut [u64])
    requires { (p < WORDS) × (q < WORDS) × (length out.old ≡ CELLS) }
    ensures { Added out.old (λ y x. InSquare p q y x × Turns rows.now n y x) out.new }
{
    if n <= p * WIDTH || n <= q * WIDTH {
        return;
    }
    let mut square = [0u64; WIDTH];
    take_square(rows, n, p, q, &mut square);
    turn_square(&mut square);
    lay_square(&square, n, p, q, out);
}

// Makes `out` what the rows are turned round, as far as both numbers are below n, a square at a time; memory of another length is left as it is.
pub fn turn(rows: &[u64], n: usize, out: &mut [u64])
    ensures { TurnedRound rows.now n out.old out.new }
{
    if out.len() != CELLS {
        return;
    }
    clear(out);
    for c in 0..WORDS * WORDS {
        turn_part(rows, n, c / WORDS, c % WORDS, out);
    }
}
