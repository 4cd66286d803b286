// A block's file in the caller's memory.
ghost use Rattle.std.specs.Prelude.{◌≡◌, true, is_ok};
ghost use Rattle.block.specs.Blocks.{LawfulBlock};
ghost use Rattle.blockfile.specs.Reading.{block_read};
ghost use Rattle.blockfile.specs.Viewing.{block_in};

pub mod viewing;

// No block's file is longer: it has at most 8 + 16 + 14 * 4094 + 3 + 16 bytes.
pub const MOST_BYTES: u64 = 65536;

// The bytes are an accepted file, and so all bounds hold of its block.
#[derive(Clone, Copy, Debug)]
pub struct FileView<'a> {
    bytes: &'a [u8],
    ghost accepted: { is_ok (block_read bytes.now) ≡ true },
    ghost whole: { LawfulBlock (block_in bytes.now) },
}
