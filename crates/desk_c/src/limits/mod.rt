// What is said of the trace that a text writes within a limit of steps.
ghost use Rattle.desk.specs.Limits.{LimitAnswered};

// The verdict on a text under a model within a limit of steps: its outcome as a number, its operations, rules and count in a lent buffer. The buffer
// stays as it was where the text is turned back, where there is no such model, and where the buffer is too short, told in this order.
#[unsafe(no_mangle)]
pub extern "C" fn wheelotter_limited(text: &[u8], model: u8, limit: u64, out: &mut [u8]) -> u8
    ensures { LimitAnswered text.now model limit out.old out.new result }
{
    desk::limits::wheelotter_limited(text, model, limit, out)
}
