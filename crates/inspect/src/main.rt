// Shows a person what is in a block file: its parts, what its wires settle to, what a probe sees, its register counts.
#![tactic(auto)]

use blockfile::file_view::MOST_BYTES;
use inspection::answering::usage;
use inspection::inspecting::inspect;
use inspection::words::read_words;
use std::env;
use std::io::Read;

fn run(rt: &HostRuntime) -> anyhow::Result<()> {
    let heap = rt.alloc();
    let words: Vec<String> = env::args(rt)?.skip(1).collect(heap)?;
    let Some(asked) = read_words(heap, &words)? else {
        rt.print(usage())?;
        return Ok(());
    };
    let mut bytes = Vec::new(heap);
    rt.stdin().take(MOST_BYTES).read_to_end(&mut bytes)?;
    rt.print(inspect(heap, &bytes, &asked)?)?;
    Ok(())
}

fn main(rt: HostRuntime) -> anyhow::Result<()> {
    run(&rt)
}
