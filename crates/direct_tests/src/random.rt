//! Random numbers, from a fixed seed.

ghost use Rattle.std.specs.Prelude.{◌<◌};

/// A linear congruential generator modulo 2^64 (Knuth, "The Art of Computer Programming", volume 2, section 3.3.4: MMIX).
#[derive(Drop)]
pub struct Random {
    state: u64,
}

impl Random {
    /// The generator with this state.
    pub fn new(seed: u64) -> Random {
        Random { state: seed }
    }

    /// A number below this one. The low half of the state, whose period is short, is not taken.
    pub fn below(&mut self, count: u64) -> u64
        requires { 0 < count }
        ensures { result < count }
    {
        self.state = self
            .state
            .wrapping_mul(6_364_136_223_846_793_005)
            .wrapping_add(1_442_695_040_888_963_407);
        (self.state >> 32) % count
    }
}
