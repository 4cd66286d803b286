// Refusals and rows of numbers.
ghost use Rattle.std.specs.Prelude.{◌≡◌, IfOk, string_bytes};
ghost use Rattle.fault.specs.Faults.{refusal_line};

use fault::Report;
use std::alloc::{AllocError, Global};
use std::fmt::Write;

// The line of a refusal, all numbers in decimal.
pub fn refusal(heap: Global, report: Report) -> Result<String, AllocError>
    ensures { IfOk result (λ s. string_bytes s ≡ refusal_line report) }
{
    report.to_string(heap)
}

// Bytes in decimal, one after the other.
pub fn bits(heap: Global, bytes: &[u8]) -> Result<String, AllocError> {
    let mut text = String::new(heap);
    for b in bytes {
        write!(text, "{b}")?;
    }
    Ok(text)
}

// Numbers in decimal, with single spaces between them.
pub fn spaced(heap: Global, numbers: &[u16]) -> Result<String, AllocError> {
    let mut text = String::new(heap);
    for (i, n) in numbers.iter().enumerate() {
        let space = if i > 0 { " " } else { "" };
        write!(text, "{space}{n}")?;
    }
    Ok(text)
}

// The places where a byte is 1, ascending; each after 65535 counts as 65535.
pub fn places(heap: Global, bytes: &[u8]) -> Result<Vec<u16>, AllocError> {
    bytes
        .iter()
        .enumerate()
        .filter(|(_, b)| **b == 1)
        .map(|(place, _)| u16::try_from(place).unwrap_or(u16::MAX))
        .collect(heap)
}
