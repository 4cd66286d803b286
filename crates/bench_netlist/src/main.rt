// Settles one large netlist many times, to be measured from outside, and prints a checksum.
#![tactic(auto)]

use anyhow::Context;
use draw::hash::fnv1a;
use draw::numbers::Numbers;
use netlist::cell_list::CellList;
use netlist::netlist::Netlist;
use query::settling::settle;
use std::alloc::Global;
use std::env;
use traverse::walk::masks;

const SEED: u64 = 7;

const INPUTS: usize = 8;

const CELLS: usize = 4000;

// The sum of the bytes, modulo 2^64.
fn total(bytes: &[u8]) -> u64 {
    bytes
        .iter()
        .fold(0, |sum: u64, byte| sum.wrapping_add(u64::from(*byte)))
}

// Settles `repeats` times, with the first given byte toggled before each call. Returns the sum of all wires' values over all calls plus the hash of the final values.
fn settle_repeatedly(heap: Global, repeats: u64) -> anyhow::Result<u64> {
    let mut numbers = Numbers::new(SEED);
    let cells = numbers.draw_cells(heap, 2 * INPUTS, CELLS)?;
    let net = CellList::try_new(INPUTS, &cells).context("the drawn cells are not lawful")?;
    let mut given = numbers.draw_bits(heap, 2 * INPUTS + masks(&net))?;
    let mut values = vec![in heap; 0; net.wires()]?;
    let mut sum: u64 = 0;
    for _ in 0..repeats {
        if let Some(first) = given.first_mut() {
            *first ^= 1;
        }
        settle(&net, &given, &mut values).context("the settling was refused")?;
        sum = sum.wrapping_add(total(&values));
    }
    Ok(sum.wrapping_add(fnv1a(&values)))
}

// Reads how often to settle from the first argument, and prints the checksum.
fn run(rt: &HostRuntime) -> anyhow::Result<()> {
    let repeats = env::args(rt)?
        .nth(1)
        .context("usage: bench_netlist REPEATS")?;
    let checksum = settle_repeatedly(rt.alloc(), repeats.parse()?)?;
    println!(rt; "checksum {checksum}")?;
    Ok(())
}

// Prints the checksum; an error is printed to standard error, and ends the program with status 1.
fn main(rt: HostRuntime) -> anyhow::Result<()> {
    run(&rt)
}
