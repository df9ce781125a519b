// The entries for a packed file: a text's file, a file's text, and what is wrong with a file.
ghost use Rattle.std.specs.Prelude.{◌≡◌, ◌<◌, ◌≤◌, length};
ghost use Rattle.std.proofs.Math.Bool.{So};
ghost use Rattle.trace.specs.WellFormed.{well_formed};
ghost use Rattle.reader.specs.Bounds.{TEXT};
ghost use Rattle.reader.specs.TextOf.{render_trace};
ghost use Rattle.packed.specs.Layout.{file_of};
ghost use Rattle.desk.specs.Text.{text_number};
ghost use Rattle.desk.specs.Packs.{FILE, LaidBytes, length_in, answer_for, bytes_for, whole_number, whole_line, text_packed, file_unpacked};

use crate::answers::NO_ROOM;
use crate::files;
use crate::texts::number_in;
use crate::verdicts::put_wide;
use packed::packing::write;
use packed::{FILE, Unwritten, unpacking};
use reader::read_whole;
use report::render::{RENDER, render};
use text::room::put;
use trace::Trace;

// How many bytes a count has.
const COUNT: usize = 2;

// Bytes behind their count at the front of lent memory, and 0; or that there is no room, and all as it was.
fn tell(bytes: &[u8], out: &mut [u8]) -> u8
    requires { length bytes.now < 65536 }
    ensures { (result ≡ answer_for 0 bytes.now out.old) × (out.new ≡ bytes_for 0 bytes.now out.old) }
{
    let n = bytes.len();
    if out.len() < COUNT + n {
        return NO_ROOM;
    }
    let len = n as u16;
    let count = [len];
    put_wide(&count, out, 0);
    put(bytes, out, COUNT);
    0
}

// The length that the packed writer tells; 0 where it tells none.
fn length_in(wrote: Result<usize, Unwritten>) -> usize
    ensures { result ≡ length_in wrote }
{
    match wrote {
        Ok(n) => n,
        Err(Unwritten::NotWellFormed) => 0,
        Err(Unwritten::NoRoom) => 0,
        Err(Unwritten::Lost) => 0,
    }
}

// The file of a well formed trace at the front of bytes that have room for any, and how many bytes it has.
fn lay_file(t: Trace, out: &mut [u8]) -> usize
    requires { So (well_formed t) × (FILE ≤ length out.old) }
    ensures { LaidBytes (file_of t) FILE out.new result }
{
    let wrote = write(t, out);
    length_in(wrote)
}

// The text of a well formed trace at the front of bytes that have room for any, and how many bytes it has.
fn lay_text(t: Trace, out: &mut [u8]) -> usize
    requires { So (well_formed t) × (TEXT ≤ length out.old) }
    ensures { LaidBytes (render_trace t) TEXT out.new result }
{
    render(t, out)
}

// The packed file of the trace that a text writes, behind its count in a lent buffer: 0; or what is wrong with the text, or else that there is no
// room, and the buffer as it was.
pub fn wheelotter_pack(text: &[u8], out: &mut [u8]) -> u8
    ensures { (result ≡ answer_for (text_number text.now) (text_packed text.now) out.old) × (out.new ≡ bytes_for (text_number text.now) (text_packed text.now) out.old) }
{
    let reading = read_whole(text);
    let wrong = number_in(reading.answer);
    if 0 < wrong {
        return wrong;
    }
    let mut file = [0u8; FILE];
    let n = lay_file(reading.trace, &mut file);
    tell(&file[..n], out)
}

// The text of the trace that a packed file packs, behind its count in a lent buffer: 0; or what is wrong with the file, or else that there is no
// room, and the buffer as it was.
pub fn wheelotter_unpack(file: &[u8], out: &mut [u8]) -> u8
    ensures { (result ≡ answer_for (whole_number file.now) (file_unpacked file.now) out.old) × (out.new ≡ bytes_for (whole_number file.now) (file_unpacked file.now) out.old) }
{
    let reading = unpacking::read_whole(file);
    let wrong = files::number_in(reading.answer);
    if 0 < wrong {
        return wrong;
    }
    let mut text = [0u8; RENDER];
    let n = lay_text(reading.trace, &mut text);
    tell(&text[..n], out)
}

// Document 02's number of what is wrong with a packed file: 18, 19, 20, 4, 6, 7, 8 or 22; 0 for a good one.
pub fn wheelotter_file_number(file: &[u8]) -> u8
    ensures { result ≡ whole_number file.now }
{
    let reading = unpacking::read_whole(file);
    files::number_in(reading.answer)
}

// The line that comes with it: the record's number plus 1; 0 where no record is to blame.
pub fn wheelotter_file_line(file: &[u8]) -> usize
    ensures { result ≡ whole_line file.now }
{
    let reading = unpacking::read_whole(file);
    files::line_in(reading.answer)
}
