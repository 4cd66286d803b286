// What reading answers: a refusal, or the sum of what is written back.
use blockfile::file_view::FileView;
use blockfile::writing::write;
use draw::hash::fnv1a;
use std::alloc::{AllocError, Global};

// The sum of the file of a block, which has `len` bytes.
fn written_sum(heap: Global, block: &FileView<'_>, len: usize) -> Result<String, AllocError> {
    let mut out = vec![in heap; 0u8; len]?;
    match write(block, &mut out) {
        Ok(_) => format!(in heap; "accepted sum {}", fnv1a(&out)),
        Err(fault) => format!(in heap; "accepted sum {fault}"),
    }
}

pub fn verdict(heap: Global, bytes: &[u8]) -> Result<String, AllocError> {
    match FileView::try_from(bytes) {
        Ok(block) => written_sum(heap, &block, bytes.len()),
        Err(fault) => fault.to_string(heap),
    }
}
