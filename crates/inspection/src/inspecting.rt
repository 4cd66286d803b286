// What is asked of a file.
use crate::answering::{answer, ended};
use crate::words::Question;
use blockfile::file_view::FileView;
use fault::Fault;
use lines::numbers::refusal;
use std::alloc::{AllocError, Global};

// What the block in the file answers, or why the file is refused.
pub fn inspect(heap: Global, bytes: &[u8], asked: &Question) -> Result<String, AllocError> {
    match FileView::try_from(bytes) {
        Ok(block) => answer(heap, &block, asked),
        Err(fault) => ended(refusal(heap, fault.report())?),
    }
}
