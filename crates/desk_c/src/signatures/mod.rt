// Signatures over the test program that a text writes: how many words and reads it has, its reads packed, and words unpacked.
ghost use Rattle.std.specs.Prelude.{◌≡◌, length};
ghost use Rattle.desk.specs.Signed.{words_told, loads_told, pack_code, pack_after, unpack_code, unpack_after};

// How many words the program has that a text writes; none where the text is turned back.
#[unsafe(no_mangle)]
pub extern "C" fn wheelotter_words(text: &[u8]) -> usize
    ensures { result ≡ words_told text.now }
{
    desk::signatures::wheelotter_words(text)
}

// How many reads it has.
#[unsafe(no_mangle)]
pub extern "C" fn wheelotter_loads(text: &[u8]) -> usize
    ensures { result ≡ loads_told text.now }
{
    desk::signatures::wheelotter_loads(text)
}

// Packs the reads that a text records into lent words; beside what is wrong with the text and beside a refusal the words stay as they were.
#[unsafe(no_mangle)]
pub extern "C" fn wheelotter_signature(text: &[u8], words: &mut [u64]) -> usize
    ensures { (result ≡ pack_code text.now (length words.old)) × (words.new ≡ pack_after text.now words.old) }
{
    desk::signatures::wheelotter_signature(text, words)
}

// Unpacks words of the program that a text writes into lent reads, whatever the text itself records as read.
#[unsafe(no_mangle)]
pub extern "C" fn wheelotter_reads(text: &[u8], words: &[u64], reads: &mut [u16]) -> usize
    ensures { (result ≡ unpack_code text.now words.now (length reads.old)) × (reads.new ≡ unpack_after text.now words.now reads.old) }
{
    desk::signatures::wheelotter_reads(text, words, reads)
}
