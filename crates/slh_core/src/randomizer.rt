//! The choice between deterministic and randomized signatures (FIPS 205, section 9.2).
ghost use Rattle.std.specs.Prelude.{◌≡◌};
ghost use Rattle.slh_core.specs.Randomizers.{opt_rand};

/// What makes a signature's randomizer R vary (FIPS 205, section 9.2).
#[derive(Clone, Copy)]
pub enum Randomizer<'a> {
    /// Nothing: PK.seed stands for it, so that equal messages have equal signatures.
    Deterministic,
    /// These n bytes.
    Given(&'a [u8]),
}

impl<'a> Randomizer<'a> {
    /// opt_rand of Algorithm 19, under a public key's PK.seed.
    pub fn opt_rand(self, pk_seed: &'a [u8]) -> &'a [u8]
        ensures { result.now ≡ opt_rand self.entry pk_seed.now }
    {
        match self {
            Randomizer::Deterministic => pk_seed,
            Randomizer::Given(bytes) => bytes,
        }
    }
}
