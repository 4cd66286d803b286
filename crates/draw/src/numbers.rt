// The number generator behind all that is drawn.
ghost use Rattle.std.specs.Prelude.{◌<◌, max};

// A linear congruential generator over 64 bits of state.
#[derive(Drop)]
pub struct Numbers {
    state: u64,
}

impl Numbers {
    const FACTOR: u64 = 6364136223846793005;

    const SUMMAND: u64 = 1442695040888963407;

    // The stream that starts at `seed`.
    pub fn new(seed: u64) -> Numbers {
        Numbers { state: seed }
    }

    // The next number: the upper 31 bits of the stepped state.
    fn next(&mut self) -> u64 {
        self.state = self
            .state
            .wrapping_mul(Self::FACTOR)
            .wrapping_add(Self::SUMMAND);
        self.state >> 33
    }

    // The next number, reduced modulo `limit`; a limit of 0 counts as 1.
    pub fn below(&mut self, limit: usize) -> usize
        ensures { result < max 1 limit }
    {
        self.next() as usize % limit.max(1)
    }

    // The next number, reduced modulo `limit` where that is at most 65536, else modulo 65536.
    pub fn below_u16(&mut self, limit: usize) -> u16
        ensures { result < max 1 limit }
    {
        self.below(limit.min(1 << 16)) as u16
    }
}
