//! Key generation from a source of random bytes (FIPS 205, section 10.1).
ghost use Rattle.std.specs.Prelude.{◌≡◌, ℕ, List, OnOk, OnErr, IfOk, length};
ghost use Rattle.slh_params.specs.ParamSet.{params};
ghost use Rattle.rand_core.specs.Stream.{fill_bytes};
ghost use Rattle.slh_core.specs.Keys.{IsGeneratedKey};
ghost use Rattle.slh_core.specs.Random.{one_more, IsKeyOfDraws};

use crate::fault::KeygenFault;
use crate::generation::keygen_internal;
use crate::secret_key::SecretKey;
use rand_core::Rng;
use slh_params::{Node, ParamSet, node_of};
use thiserror::Error;

/// A source of random bytes failed.
#[derive(Debug, Drop, Error)]
#[error("the source of random bytes failed")]
pub struct SourceFault;

/// A source of random bytes, which may fail.
pub trait RandomBytes {
    // The source before a draw, the bytes that it gave, and the source after.
    ghost draws: { Self → List ℕ → Self → Type 0 };

    // How often a draw failed.
    ghost failures: { Self → ℕ };

    /// Fills `out` with random bytes. After a failure it holds any bytes.
    fn draw(&mut self, out: &mut [u8]) -> Result<(), SourceFault>
        ensures drawn { OnOk result (draws self.old out.new self.new) }
        ensures ok { OnOk result (failures self.new ≡ failures self.old) }
        ensures err { OnErr result (failures self.new ≡ one_more (failures self.old)) };
}

/// The bytes of a random number generator, which never fails.
#[derive(Drop)]
pub struct FromRng<R> {
    pub rng: R,
}

impl<R: Rng> RandomBytes for FromRng<R> {
    ghost draws = { λ before bytes after. (bytes, R.stream after.rng)
        ≡ fill_bytes (length bytes) (R.stream before.rng) };

    ghost failures = { λ _. 0 };

    fn draw(&mut self, out: &mut [u8]) -> Result<(), SourceFault> {
        self.rng.fill_bytes(out);
        Ok(())
    }
}

/// The secret key of three draws: SK.seed, SK.prf and PK.seed, n bytes each (FIPS 205, Algorithm 21).
/// Refused at the first draw that fails, which is then the last one made.
pub fn keygen<S: RandomBytes>(set: ParamSet, source: &mut S) -> Result<SecretKey, KeygenFault>
    ensures key { IfOk result (λ sk. IsKeyOfDraws S.draws set source.old sk source.new) }
    ensures set { IfOk result (λ sk. sk.set ≡ set) }
    ensures generated { IfOk result IsGeneratedKey }

    // The count of failures tells the outcomes apart. It grows by one alone, so that no draw follows one that
    // failed.
    ensures ok { OnOk result (S.failures source.new ≡ S.failures source.old) }
    ensures err { OnErr result (S.failures source.new ≡ one_more (S.failures source.old)) }
{
    let sk_seed = draw_seed(set, source)?;
    let sk_prf = draw_seed(set, source)?;
    let pk_seed = draw_seed(set, source)?;
    Ok(keygen_internal(
        set,
        sk_seed.as_slice(),
        sk_prf.as_slice(),
        pk_seed.as_slice(),
    ))
}

/// Draws n bytes.
fn draw_seed<S: RandomBytes>(set: ParamSet, source: &mut S) -> Result<Node, KeygenFault>
    ensures drawn { IfOk result (λ seed. S.draws source.old seed.items source.new) }
    ensures len { IfOk result (λ seed. length seed.items ≡ (params set).n) }
    ensures ok { OnOk result (S.failures source.new ≡ S.failures source.old) }
    ensures err { OnErr result (S.failures source.new ≡ one_more (S.failures source.old)) }
{
    let n = set.n();
    let mut buffer = [0; 32];
    let seed = &mut buffer[..n];
    match source.draw(seed) {
        Ok(()) => Ok(node_of(seed)),
        Err(SourceFault) => Err(KeygenFault::RandomFailed),
    }
}
