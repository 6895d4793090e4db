//! The tests of a vector file.
ghost use Rattle.std.specs.Prelude.{◌≡◌, ◌*◌, ◌≢◌, length};
ghost use Rattle.slh_params.specs.ParamSet.{params};
ghost use Rattle.slh_vectors.specs.Sizes.{AreSeeds};

use slh_core::Form;
use slh_params::ParamSet;

/// The tested operation, with its inputs.
#[derive(Clone, Copy, Debug, PartialEq, Eq)]
pub enum Kind {
    /// Key generation.
    Keygen,
    /// Signing.
    Sign,
    /// Verifying.
    Verify,
}

/// How M' is made of the message.
#[derive(Clone, Copy, Debug, PartialEq, Eq)]
pub enum Interface {
    /// The message is M' itself (FIPS 205, Algorithms 19 and 20).
    Internal,
    /// The message is signed in this form under a context (Algorithms 22 to 25).
    External(Form),
}

/// The seeds of a key, n bytes each.
#[derive(Debug, Drop)]
pub struct Seeds {
    pub sk_seed: Vec<u8>,
    pub sk_prf: Vec<u8>,
    pub pk_seed: Vec<u8>,
}

/// The signed content. The context of an internal message is empty.
#[derive(Debug, Drop)]
pub struct Input {
    pub form: Interface,
    pub message: Vec<u8>,
    pub context: Vec<u8>,
}

/// A test of key generation: these seeds give these keys, of 4n and 2n bytes.
#[derive(Debug, Drop)]
pub struct KeygenTest {
    pub set: ParamSet,
    pub seeds: Seeds,
    pub sk: Vec<u8>,
    pub pk: Vec<u8>,
    pub ghost seeds_sized: { AreSeeds set seeds },
    pub ghost sk_sized: { length sk.items ≡ 4 * (params set).n },
    pub ghost pk_sized: { length pk.items ≡ 2 * (params set).n },
}

/// A test of signing: the input has this signature under a key of 4n bytes and n random bytes. No random bytes mean the
/// deterministic variant.
#[derive(Debug, Drop)]
pub struct SignTest {
    pub set: ParamSet,
    pub sk: Vec<u8>,
    pub input: Input,
    pub random: Vec<u8>,
    pub signature: Vec<u8>,
    pub ghost sk_sized: { length sk.items ≡ 4 * (params set).n },
    pub ghost random_sized: { (length random.items ≢ 0) → length random.items ≡ (params set).n },
}

/// A test of verifying: whether this is a valid signature of the input under a key of 2n bytes.
#[derive(Debug, Drop)]
pub struct VerifyTest {
    pub set: ParamSet,
    pub pk: Vec<u8>,
    pub input: Input,
    pub signature: Vec<u8>,
    pub valid: bool,
    pub ghost pk_sized: { length pk.items ≡ 2 * (params set).n },
}

/// A test of a vector file.
#[derive(Debug, Drop)]
pub enum Test {
    Keygen(KeygenTest),
    Sign(SignTest),
    Verify(VerifyTest),
}
