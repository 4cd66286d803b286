// Damaged copies.
ghost use Rattle.std.specs.Prelude.{◌≡◌, IfOk, set};

use std::alloc::{AllocError, Global};

// A copy of the bytes with `value` at place `at`, where they are so many.
pub fn with_byte(heap: Global, bytes: &[u8], at: usize, value: u8) -> Result<Vec<u8>, AllocError>
    ensures { IfOk result (λ copy. copy.items ≡ set bytes.now at value) }
{
    let mut copy = bytes.to_vec(heap)?;
    if let Some(byte) = copy.get_mut(at) {
        *byte = value;
    }
    Ok(copy)
}

#[cfg(test)]
mod tests {
    use super::*;
    use std::test::Fail;

    #[test]
    fn sets_a_byte(rt: HostRuntime) -> Result<(), Fail> {
        let copy = with_byte(rt.alloc(), &[1, 2, 3], 1, 9)?;
        assert_eq!(rt; copy.as_slice(), [1, 9, 3].as_slice());
        Ok(())
    }
}
