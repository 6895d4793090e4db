//! The randomizer of the bytes that a caller of C passes (FIPS 205, section 9.2).
ghost use Rattle.std.specs.Prelude.{◌≡◌, ◌↔◌, IsTrue, IsOk, IfOk, IfErr};
ghost use Rattle.slh_params.specs.ParamSet.{params};
ghost use Rattle.slh_core.specs.Keys.{Key, public_of, pk_seed};
ghost use Rattle.slh_core.specs.Randomizers.{HasLength, opt_rand};
ghost use Rattle.slh_c.specs.Rules.{randomizer};
ghost use Rattle.slh_c.specs.Keys.{opt_rand_of};
ghost use Rattle.slh_c.specs.declared.refusal.Refusal.TheVariants.{BadRandomizerLength};

use crate::refusal::Refusal;
use slh_core::Randomizer;
use slh_params::ParamSet;

/// The randomizer of these bytes; no bytes mean the deterministic variant. Refused if they are neither 0 nor n.
pub fn randomizer_of(set: ParamSet, bytes: &[u8]) -> Result<Randomizer<'_>, Refusal>
    ensures accepted { IsOk result ↔ IsTrue (randomizer set bytes.now).is_met }
    ensures len { IfOk result (λ it. HasLength it (params set).n) }
    ensures value { IfOk result (λ it. (sk : Key)
        → opt_rand it (pk_seed (public_of sk)) ≡ opt_rand_of bytes.now sk) }
    ensures refused { IfErr result (λ refusal. refusal ≡ BadRandomizerLength) }
{
    if bytes.is_empty() {
        return Ok(Randomizer::Deterministic);
    }
    if bytes.len() != set.n() {
        return Err(Refusal::BadRandomizerLength);
    }
    Ok(Randomizer::Given(bytes))
}
