// The four forms of a line. Each begins with the thread and a colon; what stands behind is a template.
ghost use Rattle.std.specs.Prelude.{◌≡◌, ◌&&◌, ◌≤◌, drop};
ghost use Rattle.trace.specs.Bounds.{VALUES};
ghost use Rattle.text.specs.Template.{begins};
ghost use Rattle.reader.specs.LineForms.{form_of, cut_form, init_of, cut_init};
ghost use Rattle.reader.specs.inner.AfterThread.{plain_of, exchange_of, sync_of, behind_of};

use crate::{Init, Raw};
use text::digits::number_at;
use text::templates::fit;

// Whether a colon and a space stand at a place.
fn colon_at(line: &[u8], at: usize) -> bool
    ensures { result ≡ begins 58 (drop at line.now) && begins 32 (drop 1 (drop at line.now)) }
{
    if at < line.len() {
        let i = at + 1;
        if i < line.len() {
            return (line[at] == b':') & (line[i] == b' ');
        }
    }
    false
}

// A store or a load behind its thread.
fn plain_at(line: &[u8], at: usize, thread: u32) -> Option<Raw>
    requires { thread ≤ VALUES }
    ensures { result ≡ cut_form (plain_of thread (drop at line.now)) }
{
    if let Some(n) = fit(b"M[#] := #", line, at) {
        return Some(Raw::Store {
            thread,
            addr: n[0],
            written: n[1],
        });
    }
    if let Some(n) = fit(b"M[#] == #", line, at) {
        return Some(Raw::Load {
            thread,
            addr: n[0],
            read: n[1],
        });
    }
    None
}

// A swap behind its thread.
fn swap_at(line: &[u8], at: usize, thread: u32) -> Option<Raw>
    requires { thread ≤ VALUES }
    ensures { result ≡ cut_form (exchange_of thread (drop at line.now)) }
{
    let n = fit(b"{ M[#] == #; M[#] := # }", line, at)?;
    Some(Raw::Swap {
        thread,
        addr: n[0],
        read: n[1],
        second: n[2],
        written: n[3],
    })
}

// A fence behind its thread.
fn fence_at(line: &[u8], at: usize, thread: u32) -> Option<Raw>
    requires { thread ≤ VALUES }
    ensures { result ≡ cut_form (sync_of thread (drop at line.now)) }
{
    fit(b"sync", line, at)?;
    Some(Raw::Fence { thread })
}

// What stands behind the thread and its colon; its first byte tells which form can be meant.
fn behind(line: &[u8], at: usize, thread: u32) -> Option<Raw>
    requires { thread ≤ VALUES }
    ensures { result ≡ behind_of thread (drop at line.now) }
{
    if at < line.len() {
        let b = line[at];
        if b == b'M' {
            return plain_at(line, at, thread);
        }
        if b == b'{' {
            return swap_at(line, at, thread);
        }
        return fence_at(line, at, thread);
    }
    None
}

// The raw record that a line renders, if it renders any. The thread is read once for all forms.
pub fn form(line: &[u8]) -> Option<Raw>
    ensures { result ≡ cut_form (form_of line.now) }
{
    let thread = number_at(line, 0)?;
    if colon_at(line, thread.end) {
        return behind(line, thread.end + 2, thread.value);
    }
    None
}

// The address and value that an init line names, if the line is one.
pub fn init(line: &[u8]) -> Option<Init>
    ensures { result ≡ cut_init (init_of line.now) }
{
    let n = fit(b"init: M[#] := #", line, 0)?;
    Some(Init {
        addr: n[0],
        value: n[1],
    })
}
