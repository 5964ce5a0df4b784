//! Reads bench records from standard input, and prints a line of each.
#![tactic(auto)]

use bench::standard_bench;
use std::io::{Read, Write};

/// How many octets are read at once.
const PIECE: usize = 65536;

/// Reads the input piece by piece. What is left of a piece after its whole records stays ahead of the next piece.
fn run(rt: &HostRuntime) -> anyhow::Result<()> {
    let mut bench = standard_bench();
    let mut piece = [0u8; PIECE];
    let mut held: Vec<u8> = Vec::new(rt.alloc());
    let mut out = String::new(rt.alloc());
    // Nothing says that an input ends, and `rt.forever()` needs a handle that no program here has: so the turns are counted.
    for _ in 0..u64::MAX {
        let n = rt.stdin().read(&mut piece)?;
        if n == 0 {
            break;
        }
        held.extend_from_slice(&piece[..n])?;
        let taken = bench.run(&held, &mut out)?;
        held.drain(..taken);
        rt.stdout().write_all(out.as_bytes())?;
        out.clear();
    }
    bench.end(&held, &mut out)?;
    rt.stdout().write_all(out.as_bytes())?;
    Ok(())
}

fn main(rt: HostRuntime) -> anyhow::Result<()> {
    run(&rt)
}
