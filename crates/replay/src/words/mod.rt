// A step in words. Each function says whether it could write all of its part.
use pairs::TSO;
use std::io;
use std::io::Stdout;
use trace::Op;

// A record that runs, told whether a load takes its value from the core's own buffer.
pub fn say_run(stdout: Stdout, op: Op, model: u8, own: bool) -> io::Result<()> {
    match op {
        Op::Load { thread, addr, read } => {
            let source = if own { "its buffer" } else { "memory" };
            println!(stdout; "core {thread} loads M[{addr}], gets {read} from {source}")
        }
        Op::Store {
            thread,
            addr,
            written,
        } => {
            let goal = if model == TSO { " into its buffer" } else { "" };
            println!(stdout; "core {thread} stores M[{addr}] := {written}{goal}")
        }
        Op::Swap {
            thread,
            addr,
            read,
            written,
        } => println!(stdout;
            "core {thread} swaps M[{addr}], gets {read} from memory, stores {written}"
        ),
        Op::Fence { thread } => println!(stdout; "core {thread} passes a fence"),
    }
}

// An entry that reaches memory.
pub fn say_empty(stdout: Stdout, op: Op) -> io::Result<()> {
    println!(stdout;
        "core {} empties M[{}] := {}",
        op.thread(),
        op.address(),
        op.written()
    )
}
