// Checks and views a block file many times over; to be timed from outside.
#![tactic(auto)]

use blockfile::file_view::{FileView, MOST_BYTES};
use netlist::netlist::Netlist;
use std::env;
use std::io::Read;

// The number of wires where the bytes are a block's file, else none.
fn wires(bytes: &[u8]) -> u64 {
    FileView::try_from(bytes).map_or(0, |block| block.wires() as u64)
}

// How often to check, by the first argument; not at all where there is none.
fn repeats(rt: &HostRuntime) -> anyhow::Result<u64> {
    match env::args(rt)?.nth(1) {
        Some(word) => Ok(word.parse()?),
        None => Ok(0),
    }
}

fn run(rt: &HostRuntime) -> anyhow::Result<()> {
    let mut bytes = Vec::new(rt.alloc());
    rt.stdin().take(MOST_BYTES).read_to_end(&mut bytes)?;
    let mut sum = 0u64;
    for _ in 0..repeats(rt)? {
        sum = sum.wrapping_add(wires(&bytes));
    }
    println!(rt; "checksum {sum}")?;
    Ok(())
}

fn main(rt: HostRuntime) -> anyhow::Result<()> {
    run(&rt)
}
