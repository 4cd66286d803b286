// What a wire may carry: a bit, 64 bits side by side, a register count.
#![tactic(auto)]

pub mod bits;
pub mod counts;
pub mod lanes;
pub mod wire_value;
