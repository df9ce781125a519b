// The words behind a program's name. Argument 0 is the name itself.
ghost use Rattle.std.specs.Prelude.{◌≤◌, length};

use std::env::{Env, FillError};

// How many arguments the program was started with, its own name among them.
pub fn arg_count(rt: &impl Env) -> usize {
    (0..usize::MAX)
        .position(|i| matches!(rt.arg(i, &mut []), Err(FillError::NotPresent)))
        .unwrap_or(usize::MAX)
}

// Puts argument i at the start of lent memory and returns its length; 0 where it is missing or longer than the memory.
pub fn arg(rt: &impl Env, i: usize, buf: &mut [u8]) -> usize
    ensures { result ≤ length buf.new }
{
    rt.arg(i, buf).unwrap_or(0)
}
