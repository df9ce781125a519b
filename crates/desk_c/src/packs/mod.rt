// The entries for a packed file: a text's file, a file's text, and what is wrong with a file.
ghost use Rattle.std.specs.Prelude.{◌≡◌};
ghost use Rattle.desk.specs.Text.{text_number};
ghost use Rattle.desk.specs.Packs.{answer_for, bytes_for, whole_number, whole_line, text_packed, file_unpacked};

// The packed file of the trace that a text writes, behind its count in a lent buffer: 0; or what is wrong with the text, or else that there is no
// room, and the buffer as it was.
#[unsafe(no_mangle)]
pub extern "C" fn wheelotter_pack(text: &[u8], out: &mut [u8]) -> u8
    ensures { (result ≡ answer_for (text_number text.now) (text_packed text.now) out.old) × (out.new ≡ bytes_for (text_number text.now) (text_packed text.now) out.old) }
{
    desk::packs::wheelotter_pack(text, out)
}

// The text of the trace that a packed file packs, behind its count in a lent buffer: 0; or what is wrong with the file, or else that there is no
// room, and the buffer as it was.
#[unsafe(no_mangle)]
pub extern "C" fn wheelotter_unpack(file: &[u8], out: &mut [u8]) -> u8
    ensures { (result ≡ answer_for (whole_number file.now) (file_unpacked file.now) out.old) × (out.new ≡ bytes_for (whole_number file.now) (file_unpacked file.now) out.old) }
{
    desk::packs::wheelotter_unpack(file, out)
}

// Document 02's number of what is wrong with a packed file: 18, 19, 20, 4, 6, 7, 8 or 22; 0 for a good one.
#[unsafe(no_mangle)]
pub extern "C" fn wheelotter_file_number(file: &[u8]) -> u8
    ensures { result ≡ whole_number file.now }
{
    desk::packs::wheelotter_file_number(file)
}

// The line that comes with it: the record's number plus 1; 0 where no record is to blame.
#[unsafe(no_mangle)]
pub extern "C" fn wheelotter_file_line(file: &[u8]) -> usize
    ensures { result ≡ whole_line file.now }
{
    desk::packs::wheelotter_file_line(file)
}
