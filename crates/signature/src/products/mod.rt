// Products up to 2 to the 64th in 64 bits: what is kept is the product less 1.
ghost use Rattle.std.specs.Prelude.{◌≡◌, suc, ◌+◌, ◌*◌, ◌/◌, ◌<◌, ◌≤◌, leb};
ghost use Rattle.signature.specs.DigitWords.{LIMIT};

// The largest number of 64 bits.
const MAX: u64 = 18446744073709551615;

// Whether a digit of this range still fits a word whose ranges have the product q + 1.
pub(crate) fn fits(q: u64, range: u64) -> bool
    requires { 0 < range }
    ensures { result ≡ leb (suc q * range) LIMIT }
{
    q <= (MAX - (range - 1)) / range
}

// The product with that range, less 1.
pub(crate) fn wider(q: u64, range: u64) -> u64
    requires { (0 < range) × (suc q * range ≤ LIMIT) }
    ensures { suc result ≡ suc q * range }
{
    q * range + (range - 1)
}

// The word with one digit more, at the weight q + 1.
pub(crate) fn with_digit(q: u64, word: u64, range: u64, digit: u64) -> u64
    requires { (digit < range) × (word ≤ q) × (suc q * range ≤ LIMIT) }
    ensures { (result ≡ word + suc q * digit) × (suc result ≤ suc q * range) }
{
    word + (q * digit + digit)
}

// What is left of a word above the digits whose ranges have the product q + 1.
pub(crate) fn left_above(word: u64, q: u64) -> u64
    ensures { result ≡ word / suc q }
{
    if q == MAX {
        return 0;
    }
    word / (q + 1)
}
