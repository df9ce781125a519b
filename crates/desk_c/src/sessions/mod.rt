// The entries for a session in lent bytes: its head, then its trace's packed file. No bytes are believed: whatever opening, adding and supposing do not
// make is turned back as 12, and stays.
ghost use Rattle.std.specs.Prelude.{◌≡◌};
ghost use Rattle.reader.specs.Whole.{read_whole};
ghost use Rattle.session.specs.Closings.{Closings};
ghost use Rattle.session.specs.Numbers.{supposes, takes_back, asks};
ghost use Rattle.desk.specs.Text.{text_number};
ghost use Rattle.desk.specs.Packs.{whole_number, whole_trace};
ghost use Rattle.desk.specs.SessionCalls.{answer_in, bytes_in};
ghost use Rattle.desk.specs.OpenedBytes.{open_answer, open_bytes};

// Opens a session with no pairs into lent bytes, on the trace of a text: 0, and its bytes; or why not, and where there is room the bytes of the session
// of the empty trace under model 1. All other bytes stay.
#[unsafe(no_mangle)]
pub extern "C" fn wheelotter_open(text: &[u8], model: u8, session: &mut [u8]) -> u8
    ensures { (result ≡ open_answer (text_number text.now) (read_whole text.now).trace model session.old) × ((C : Closings) → session.new ≡ open_bytes C (text_number text.now) (read_whole text.now).trace model session.old) }
{
    desk::sessions::wheelotter_open(text, model, session)
}

// The same on the trace of a packed file, which may have lost no core either; what a session keeps may.
#[unsafe(no_mangle)]
pub extern "C" fn wheelotter_open_file(file: &[u8], model: u8, session: &mut [u8]) -> u8
    ensures { (result ≡ open_answer (whole_number file.now) (whole_trace file.now) model session.old) × ((C : Closings) → session.new ≡ open_bytes C (whole_number file.now) (whole_trace file.now) model session.old) }
{
    desk::sessions::wheelotter_open_file(file, model, session)
}

// Supposes x before y in a session in bytes.
#[unsafe(no_mangle)]
pub extern "C" fn wheelotter_suppose(session: &mut [u8], x: usize, y: usize) -> u8
    ensures { (C : Closings) → (result ≡ answer_in C session.old (supposes x y)) × (session.new ≡ bytes_in C session.old (supposes x y)) }
{
    desk::sessions::wheelotter_suppose(session, x, y)
}

// Takes the latest pair back in a session in bytes.
#[unsafe(no_mangle)]
pub extern "C" fn wheelotter_take_back(session: &mut [u8]) -> u8
    ensures { (C : Closings) → (result ≡ answer_in C session.old takes_back) × (session.new ≡ bytes_in C session.old takes_back) }
{
    desk::sessions::wheelotter_take_back(session)
}

// Whether x before y is held in a session in bytes.
#[unsafe(no_mangle)]
pub extern "C" fn wheelotter_ask(session: &[u8], x: usize, y: usize) -> u8
    ensures { (C : Closings) → result ≡ answer_in C session.now (asks x y) }
{
    desk::sessions::wheelotter_ask(session, x, y)
}
