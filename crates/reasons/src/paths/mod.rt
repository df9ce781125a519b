// The ways that the writer takes through the edges of a round.
ghost use Rattle.std.specs.Prelude.{◌≡◌, ◌≤◌, length, take};
ghost use Rattle.trace.specs.Bounds.{RECORDS};
ghost use Rattle.trace.specs.Meaning.{frame_of};
ghost use Rattle.rows.specs.Rows.{bit};
ghost use Rattle.reasons.specs.Ways.{step_of, way_of};
ghost use Rattle.reasons.specs.Telling.{rest_load};

use pairs::source_of;
use trace::{RECORDS, Trace};

// The highest step from x from which a chain leads on to b; RECORDS where there is none.
fn onward(edges: &[u64], chains: &[u64], x: usize, b: usize) -> usize
    ensures { (result ≡ step_of (bit edges.now) (bit chains.now) x b) × (result ≤ RECORDS) }
{
    let mut found = RECORDS;
    for z in 0..RECORDS {
        if rows::test(edges, x, z) & rows::test(chains, z, b) {
            found = z;
        }
    }
    found
}

// Lays the way from a to b, at most RECORDS steps between them, and tells how many there are.
pub(crate) fn way(edges: &[u64], chains: &[u64], a: usize, b: usize, out: &mut [u16]) -> usize
    requires { length out.old ≡ RECORDS }
    ensures { (result ≤ RECORDS) × (take result out.new ≡ way_of (bit edges.now) (bit chains.now) RECORDS a b) }
{
    let mut x = a;
    for i in 0..RECORDS {
        if rows::test(edges, x, b) {
            return i;
        }
        x = onward(edges, chains, x, b);
        out[i] = x as u16;
    }
    RECORDS
}

// The lowest load that reads from y and that a chain leads to from x, x itself excepted; RECORDS where there is none.
pub(crate) fn load_of(t: Trace, chains: &[u64], x: usize, y: usize) -> usize
    ensures { (result ≡ rest_load (frame_of t) (bit chains.now) x y) × (result ≤ RECORDS) }
{
    for load in 0..RECORDS {
        if rows::test(chains, x, load) {
            if (source_of(t, load) == y) & (x != load) {
                return load;
            }
        }
    }
    RECORDS
}
