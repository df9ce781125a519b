// Papers, over the trace that a text writes: the small reader, and the writer.
ghost use Rattle.desk.specs.PaperCall.{Papered};
ghost use Rattle.desk.specs.PaperWritten.{PaperAsked};

// Whether a list, from anyone, is a paper that shows that the trace of a text has no valid order under a model. A text that is turned back is told first,
// then that there is no such model.
#[unsafe(no_mangle)]
pub extern "C" fn wheelotter_accepts(text: &[u8], model: u8, list: &[u16]) -> u8
    ensures { Papered text.now model list.now result }
{
    desk::paper::wheelotter_accepts(text, model, list)
}

// Why the trace of a text has no valid order under a model: the length of the list and the list, in lent numbers. A text that is turned back is told first,
// then that there is no such model, then that there is not even room for a length; the numbers stay as they were there, and where there is nothing to
// show or no room for the list.
#[unsafe(no_mangle)]
pub extern "C" fn wheelotter_paper(text: &[u8], model: u8, out: &mut [u16]) -> u8
    ensures { PaperAsked text.now model out.old out.new result }
{
    desk::paper::wheelotter_paper(text, model, out)
}
