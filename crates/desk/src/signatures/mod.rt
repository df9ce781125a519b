// Signatures over the test program that a text writes: how many words and reads it has, its reads packed, and words unpacked.
ghost use Rattle.std.specs.Prelude.{◌≡◌, ◌<◌, length};
ghost use Rattle.desk.specs.Signed.{with_place, signed_code, words_told, loads_told, pack_code, pack_after, unpack_code, unpack_after};

use crate::texts::number_in;
use reader::read_whole;
use signature::Reason;
use signature::packing::{loads_of, pack, words_of};
use signature::unpacking::unpack;
use trace::RECORDS;

// A number with a place above it; the number alone where there is no such place.
pub(crate) fn with_place(number: usize, place: usize) -> usize
    requires { number < 256 }
    ensures { result ≡ with_place number place }
{
    if place < RECORDS {
        return number + 256 * place;
    }
    number
}

// An answer in one number: 0, or the documents' number, and above it the record or the word.
fn code(answer: Result<(), Reason>) -> usize
    ensures { result ≡ signed_code answer }
{
    match answer {
        Ok(()) => 0,
        Err(Reason::NotWellFormed) => 10,
        Err(Reason::WrongLength) => 26,
        Err(Reason::NotListed(load)) => with_place(23, load),
        Err(Reason::TooLarge(word)) => with_place(24, word),
    }
}

// How many words the program has that a text writes; none where the text is turned back.
pub fn wheelotter_words(text: &[u8]) -> usize
    ensures { result ≡ words_told text.now }
{
    let reading = read_whole(text);
    words_of(reading.trace)
}

// How many reads it has.
pub fn wheelotter_loads(text: &[u8]) -> usize
    ensures { result ≡ loads_told text.now }
{
    let reading = read_whole(text);
    loads_of(reading.trace)
}

// Packs the reads that a text records into lent words; beside what is wrong with the text and beside a refusal the words stay as they were.
pub fn wheelotter_signature(text: &[u8], words: &mut [u64]) -> usize
    ensures { (result ≡ pack_code text.now (length words.old)) × (words.new ≡ pack_after text.now words.old) }
{
    let reading = read_whole(text);
    let wrong = number_in(reading.answer);
    if 0 < wrong {
        return wrong as usize;
    }
    code(pack(reading.trace, words))
}

// Unpacks words of the program that a text writes into lent reads, whatever the text itself records as read.
pub fn wheelotter_reads(text: &[u8], words: &[u64], reads: &mut [u16]) -> usize
    ensures { (result ≡ unpack_code text.now words.now (length reads.old)) × (reads.new ≡ unpack_after text.now words.now reads.old) }
{
    let reading = read_whole(text);
    let wrong = number_in(reading.answer);
    if 0 < wrong {
        return wrong as usize;
    }
    code(unpack(reading.trace, words, reads))
}
