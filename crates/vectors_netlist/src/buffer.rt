// Buffers that show what a query changes.

// How many elements a buffer has past those that a query writes.
pub const EXTRA: usize = 3;

// What buffers are filled with, where a query writes bytes and where it writes counts.
pub const BYTE_FILLER: u8 = 0xA5;

pub const COUNT_FILLER: u16 = 0xA5A5;

// Whether every element from index `start` on is still the filler.
pub fn is_kept_from<T: PartialEq>(buffer: &[T], start: usize, filler: &T) -> bool {
    buffer.iter().skip(start).all(|element| element == filler)
}

// How the vectors say whether memory was kept.
pub fn kept_or_changed(kept: bool) -> &'static str {
    if kept { "kept" } else { "changed" }
}
