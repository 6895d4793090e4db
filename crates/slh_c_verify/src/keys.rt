//! The public key of the bytes that a caller passes (FIPS 205, section 9.1).
ghost use Rattle.std.specs.Prelude.{◌≡◌, ◌↔◌, IsOk, IfOk, IfErr, length};
ghost use Rattle.slh_params.specs.Params.{pk_len};
ghost use Rattle.slh_params.specs.ParamSet.{params};
ghost use Rattle.slh_c_verify.specs.Keys.{key};
ghost use Rattle.slh_c_verify.specs.declared.refusal.Refusal.TheVariants.{BadLength};

use crate::refusal::Refusal;
use slh_core::PublicKey;
use slh_params::ParamSet;

/// The public key of these bytes. Refused if they are not 2n.
pub fn public_key(set: ParamSet, pk: &[u8]) -> Result<PublicKey, Refusal>
    ensures accepted { IsOk result ↔ (length pk.now ≡ pk_len (params set)) }
    ensures key { IfOk result (λ it. it ≡ key set pk.now) }
    ensures refused { IfErr result (λ refusal. refusal ≡ BadLength) }
{
    match PublicKey::from_bytes(set, pk) {
        Ok(pk) => Ok(pk),
        Err(_) => Err(Refusal::BadLength),
    }
}
