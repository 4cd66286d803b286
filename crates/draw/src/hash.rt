// A hash of bytes.
ghost use Rattle.std.specs.Prelude.{◌≡◌};
ghost use Rattle.draw.specs.Hash.{fnv1a_of};

const FNV_BASIS: u64 = 0xcbf29ce484222325;

const FNV_PRIME: u64 = 0x100000001b3;

// The 64-bit FNV-1a hash.
pub fn fnv1a(bytes: &[u8]) -> u64
    ensures { result ≡ fnv1a_of bytes.now }
{
    bytes.iter().fold(FNV_BASIS, |hash, byte| {
        (hash ^ u64::from(*byte)).wrapping_mul(FNV_PRIME)
    })
}

#[cfg(test)]
mod tests {
    use super::*;

    // Values that are published with the hash.
    #[test]
    fn hashes_letters(rt: HostRuntime) {
        assert_eq!(rt; fnv1a(b""), 0xcbf29ce484222325);
        assert_eq!(rt; fnv1a(b"a"), 0xaf63dc4c8601ec8c);
    }
}
