// What the programs of vectors share: netlists and bits that are drawn from a fixed stream of numbers, so that another program can draw the same; the page that they write; a damaged copy and a hash of bytes.
#![tactic(auto)]

pub mod bytes;
pub mod cells;
pub mod hash;
pub mod numbers;
pub mod page;
