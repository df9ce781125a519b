// Sets of record numbers, each one row.
ghost use Rattle.std.specs.Prelude.{◌≡◌, ◌<◌, length};
ghost use Rattle.trace.specs.Bounds.{RECORDS};
ghost use Rattle.rows.specs.Bounds.{WORDS};
ghost use Rattle.rows.specs.inner.Sets.{More};
ghost use Rattle.search.specs.inner.LeftOver.{LeftOver};

// What row x of one table has and row y of another has not.
pub(crate) fn rest(from: &[u64], x: usize, out: &[u64], y: usize) -> [u64; rows::WORDS]
    ensures { LeftOver from.now x out.now y result }
{
    rows::rest(from, x, out, y)
}

// The set with y in it.
pub(crate) fn join(set: &[u64], y: usize) -> [u64; rows::WORDS]
    requires { (y < RECORDS) × (length set.now ≡ WORDS) }
    ensures { More set.now y result }
{
    let mut next = [0u64; rows::WORDS];
    rows::copy(set, &mut next);
    rows::put(&mut next, 0, y);
    next
}
