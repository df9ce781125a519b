// What makes a session in lent bytes keep up with a recorder: a record more, and the record that waits for its source.
ghost use Rattle.std.specs.Prelude.{◌≡◌};
ghost use Rattle.packed.specs.Entry.{op_in};
ghost use Rattle.session.specs.Closings.{Closings};
ghost use Rattle.desk.specs.Grown.{add_answer, add_bytes, waiting_answer, waiting_bytes};

// Adds a record, given by the numbers of its kind and fields, to the session that stands before the last eight of the lent bytes: 0, and all of them are
// the bytes of the longer session; or why not, and all stay.
#[unsafe(no_mangle)]
pub extern "C" fn wheelotter_add(
    session: &mut [u8],
    kind: u8,
    thread: u8,
    addr: u8,
    read: u16,
    written: u16,
) -> u8
    ensures { (C : Closings) → (result ≡ add_answer C session.old (op_in kind thread addr 0 read written)) × (session.new ≡ add_bytes C session.old (op_in kind thread addr 0 read written)) }
{
    desk::growing::wheelotter_add(session, kind, thread, addr, read, written)
}

// The lowest record of a session in bytes that waits for its source: its number is laid into the lent room. 0 where none waits.
#[unsafe(no_mangle)]
pub extern "C" fn wheelotter_waiting(session: &[u8], out: &mut [u8]) -> u8
    ensures { (C : Closings) → (result ≡ waiting_answer C session.now out.old) × (out.new ≡ waiting_bytes C session.now out.old) }
{
    desk::growing::wheelotter_waiting(session, out)
}
