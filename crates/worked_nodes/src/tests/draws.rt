//! Numbers that a seed draws.
ghost use Rattle.std.specs.Prelude.{◌<◌};

use rand_core::SeedableRng;
use rand_core::utils::NextWord;
use rand_pcg::Lcg64Xsh32;

/// What a seed draws, one number after another.
#[derive(Drop)]
pub struct Draws {
    generator: Lcg64Xsh32,
}

impl Draws {
    pub fn new(seed: u64) -> Draws {
        Draws {
            generator: Lcg64Xsh32::seed_from_u64(seed),
        }
    }

    /// A number below `values`.
    pub fn below(&mut self, values: u32) -> u32
        requires { 0 < values }
        ensures { result < values }
    {
        self.generator.next_word() % values
    }
}
