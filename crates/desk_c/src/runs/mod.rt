// The machine over the trace that a text writes: a run by a list of steps, and the steps that run an order through.
ghost use Rattle.desk.specs.Runs.{RunAnswered, Replayed};

// Runs the trace that a text writes by a list of steps; the place of the first impossible one stands in the lent buffer. The buffer stays as it was
// where the text is turned back, where the model has no machine, and where it is too short, told in this order.
#[unsafe(no_mangle)]
pub extern "C" fn wheelotter_run(text: &[u8], model: u8, steps: &[u8], out: &mut [u8]) -> u8
    ensures { RunAnswered text.now model steps.now out.old out.new result }
{
    desk::runs::wheelotter_run(text, model, steps, out)
}

// The steps by which the machine runs the trace that a text writes through in an order, in a lent buffer. The buffer stays as it was where the text is
// turned back, where the model has no machine, and where it is too short, told in this order; a list that is no valid order leaves no steps.
#[unsafe(no_mangle)]
pub extern "C" fn wheelotter_steps(text: &[u8], model: u8, order: &[u16], out: &mut [u8]) -> u8
    ensures { Replayed text.now model order.now out.old out.new result }
{
    desk::runs::wheelotter_steps(text, model, order, out)
}
