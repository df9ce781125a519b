// A night's worth of runs of the test program that a text writes, told by their words: the verdict on each, in one call.
ghost use Rattle.desk.specs.Nights.{Nighted};

// The verdicts on the runs of a text's program, a block of numbers each; beside what is wrong with the text and beside a refusal the lent memory stays as it
// was.
#[unsafe(no_mangle)]
pub extern "C" fn wheelotter_night(text: &[u8], model: u8, words: &[u64], out: &mut [u16]) -> usize
    ensures { Nighted text.now model words.now out.old out.new result }
{
    desk::nights::wheelotter_night(text, model, words, out)
}
