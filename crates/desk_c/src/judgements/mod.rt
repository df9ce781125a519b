// What the judge says of a proposed list, over the trace that a text writes.
ghost use Rattle.desk.specs.JudgeCall.{Judged};

// Whether a list is a valid order of the trace that a text writes, or which condition it fails first; the place or the records concerned stand in the
// lent buffer. The buffer stays as it was where the text is turned back, where there is no such model, and where it is too short, told in this order.
#[unsafe(no_mangle)]
pub extern "C" fn wheelotter_judge(text: &[u8], model: u8, list: &[u16], out: &mut [u8]) -> u8
    ensures { Judged text.now model list.now out.old out.new result }
{
    desk::judgements::wheelotter_judge(text, model, list, out)
}
