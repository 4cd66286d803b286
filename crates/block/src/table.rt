// A truth table that keeps within its bounds for as long as it exists.
ghost use Rattle.std.specs.Prelude.{◌≡◌, ℕ, ◌^◌, ◌<◌, ◌≤◌, length, slice_index};

pub mod filling;

// Entries past the last are zero: the array is fixed, since the library has no heap.
// Seen through `tabled` and not by a model: a model hides its invariant from the laws of a block, so each call would promise once more that the table is lawful.
#[derive(Clone, Copy, Debug)]
pub struct TruthTable {
    n: usize,
    m: usize,
    entries: [u8; 16],
    ghost size: { (1 ≤ n) × (n ≤ 4) × (1 ≤ m) × (m ≤ 4) },
    ghost small: { (a : ℕ) → a < 2 ^ n → slice_index entries a < 2 ^ m },
    ghost rest: { (a : ℕ) → 2 ^ n ≤ a → slice_index entries a ≡ 0 },
    ghost long: { length entries ≡ 16 },
}
