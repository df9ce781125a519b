// What is said of the trace that a text writes.
ghost use Rattle.desk.specs.VerdictBytes.{VerdictAnswered};

// The verdict on a text under a model: its outcome as a number, its operations and rules in a lent buffer. The buffer stays as it was where the
// text is turned back, where there is no such model, and where the buffer is too short, told in this order.
#[unsafe(no_mangle)]
pub extern "C" fn wheelotter_verdict(text: &[u8], model: u8, out: &mut [u8]) -> u8
    ensures { VerdictAnswered text.now model out.old out.new result }
{
    desk::verdicts::wheelotter_verdict(text, model, out)
}
