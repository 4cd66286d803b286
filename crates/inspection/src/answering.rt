// The text that answers a question.
use crate::words::Question;
use block::blocks::Block;
use lines::answers::{counts_line, probe_line, settle_line};
use lines::listing::listing;
use std::alloc::{AllocError, Global};

// How the program is used.
pub fn usage() -> &'static str {
    "usage: inspect list | settle BITS [BITS] | probe WIRE | counts   (a block file on standard input)\n"
}

// One line, ended.
pub(crate) fn ended(mut line: String) -> Result<String, AllocError> {
    line.push('\n')?;
    Ok(line)
}

// What a block answers.
pub fn answer<B: Block>(heap: Global, block: &B, asked: &Question) -> Result<String, AllocError> {
    match asked {
        Question::List => listing(heap, block),
        Question::Settle(bits) => ended(settle_line(heap, block, bits)?),
        Question::Probe(wire) => ended(probe_line(heap, block, *wire)?),
        Question::Counts => ended(counts_line(heap, block)?),
    }
}
