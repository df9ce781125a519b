// What is left of a faulty trace that a text writes.
ghost use Rattle.desk.specs.Cuts.{CutAnswered};

// What is left of the trace that a text writes, where it is faulty under a model: how many records, their old numbers and their text, in lent bytes.
// These stay as they were where the text is turned back, where there is no such model, and where they are too short, told in this order.
#[unsafe(no_mangle)]
pub extern "C" fn wheelotter_smaller(text: &[u8], model: u8, out: &mut [u8]) -> u8
    ensures { CutAnswered text.now model out.old out.new result }
{
    desk::cuts::wheelotter_smaller(text, model, out)
}
