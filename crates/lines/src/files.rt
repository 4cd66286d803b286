// How a block's file is read and written.
ghost use Rattle.std.specs.Prelude.{◌≡◌, true, IfOk, is_ok, string_bytes};
ghost use Rattle.blockfile.specs.Answers.{file_answer};
ghost use Rattle.lines.specs.Lines.{check_text, same_text};
ghost use Rattle.blockfile.specs.Reading.{block_read};

use crate::numbers::refusal;
use blockfile::checking::check;
use blockfile::file_view::viewing::view;
use blockfile::writing::write;
use fault::Fault;
use std::alloc::{AllocError, Global};

// Whether bytes are a block's file, or why they are refused.
pub fn check_line(heap: Global, bytes: &[u8]) -> Result<String, AllocError>
    ensures { IfOk result (λ s. string_bytes s ≡ check_text (file_answer bytes.now)) }
{
    match check(bytes) {
        Ok(()) => String::from_str(heap, "accepted"),
        Err(fault) => refusal(heap, fault.report()),
    }
}

// How long a file is, and whether it is the same bytes as these.
fn compared(heap: Global, file: &[u8], bytes: &[u8]) -> Result<String, AllocError>
    ensures { file.now ≡ bytes.now → IfOk result (λ s. string_bytes s ≡ same_text bytes.now) }
{
    let told = if file == bytes { "the same" } else { "other" };
    format!(in heap; "{}, {told} bytes", file.len())
}

// How long the file of the block in these bytes is, and whether it is the same bytes; for a block's file it is.
pub fn rewritten_line(heap: Global, bytes: &[u8]) -> Result<String, AllocError>
    ensures { is_ok (block_read bytes.now) ≡ true → IfOk result (λ s. string_bytes s ≡ same_text bytes.now) }
{
    let mut out = vec![in heap; 0u8; bytes.len()]?;
    match write(&view(bytes), &mut out) {
        Ok(length) => {
            out.truncate(length);
            compared(heap, &out, bytes)
        }
        Err(fault) => refusal(heap, fault.report()),
    }
}

#[cfg(test)]
mod tests {
    use super::*;
    use std::test::Fail;

    // One bit that passes through.
    static IDENTITY: [u8; 17] = [1, 0, 2, 1, 1, 2, 0, 2, 0, 1, 4, 0, 4, 0, 0, 0, 1];

    #[test]
    fn checks_files(rt: HostRuntime) -> Result<(), Fail> {
        let heap = rt.alloc();
        assert_eq!(rt; check_line(heap, &IDENTITY)?.as_str(), "accepted");
        let empty = check_line(heap, &IDENTITY[..0])?;
        assert_eq!(rt; empty.as_str(), "refused 4 layer 1 place 0");
        Ok(())
    }

    #[test]
    fn writes_a_file_back(rt: HostRuntime) -> Result<(), Fail> {
        let line = rewritten_line(rt.alloc(), &IDENTITY)?;
        assert_eq!(rt; line.as_str(), "17, the same bytes");
        Ok(())
    }
}
