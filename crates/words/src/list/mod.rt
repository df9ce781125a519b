// The words behind a text: decimal numbers of 64 bits, with spaces and line feeds between them.
ghost use Rattle.std.specs.Prelude.{◌≤◌, IfSome, length};

// Where the first empty line is; the end where there is none.
pub fn empty_line(bytes: &[u8]) -> usize
    ensures { result ≤ length bytes.now }
{
    let mut fresh = true;
    for (i, b) in bytes.iter().enumerate() {
        let feed = *b == b'\n';
        if feed && fresh {
            return i;
        }
        fresh = feed;
    }
    bytes.len()
}

// The number that a word is; none where anything but digits stands in it, or 64 bits are not enough.
fn number(word: &[u8]) -> Option<u64> {
    if word.iter().all(|b| b.is_ascii_digit()) {
        str::from_utf8(word).ok()?.parse().ok()
    } else {
        None
    }
}

// Takes the words into a list: how many, those that have no place left out; none where anything else stands there.
pub fn numbers(bytes: &[u8], list: &mut [u64]) -> Option<usize>
    ensures { IfSome result (λ n. n ≤ length list.new) }
{
    let mut count: usize = 0;
    for word in bytes.split(|b| matches!(*b, b' ' | b'\n')) {
        if !word.is_empty() {
            let x = number(word)?;
            if count < list.len() {
                list[count] = x;
                count += 1;
            }
        }
    }
    Some(count)
}
