//! A key from a generator of random numbers.
ghost use Rattle.std.specs.Prelude.{◌≡◌};
ghost use Rattle.slh_core.specs.Keys.{IsGeneratedKey};
ghost use Rattle.slh_examples.specs.DrawnKey.{drawn_key};

use rand_core::CryptoRng;
use slh_core::{FromRng, ParamSet, SecretKey, keygen};

/// A new secret key from the next 3n bytes of the generator, which has to be one for cryptography.
pub fn new_key<R: CryptoRng + Drop>(set: ParamSet, rng: R) -> SecretKey
    ensures key { result ≡ drawn_key set (R.stream rng) }
    ensures generated { IsGeneratedKey result }
{
    match keygen(set, &mut FromRng { rng }) {
        Ok(sk) => sk,
        Err(_) => unreachable!(),
    }
}
