//! Numbers that look random, the same for the same seed.
ghost use Rattle.std.specs.Prelude.{◌<◌};

/// Marsaglia's generator of 64 bits by three shifts.
#[derive(Drop)]
pub struct Random {
    state: u64,
}

impl Random {
    pub fn new(seed: u64) -> Random {
        // of zero the shifts make zero again
        Random {
            state: seed.wrapping_add(0x9e37_79b9_7f4a_7c15) | 1,
        }
    }

    fn next(&mut self) -> u64 {
        let mut x = self.state;
        x ^= x << 13;
        x ^= x >> 7;
        x ^= x << 17;
        self.state = x;
        x
    }

    /// A number below another one.
    pub fn below(&mut self, most: usize) -> usize
        requires { 0 < most }
        ensures { result < most }
    {
        let x = self.next() as usize;
        x % most
    }
}
