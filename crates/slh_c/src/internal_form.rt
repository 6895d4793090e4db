//! Exports of the internal functions, for test vectors (FIPS 205, sections 9.2 and 9.3).
ghost use Rattle.std.specs.Prelude.{◌≡◌, ◌≢◌, ◌↔◌, ◌≤◌, length};
ghost use Rattle.slh_params.specs.Params.{pk_len};
ghost use Rattle.slh_params.specs.ParamSet.{params};
ghost use Rattle.slh_core.specs.Keys.{public_of, IsGeneratedKey};
ghost use Rattle.slh_core.specs.Signatures.{IsValid};
ghost use Rattle.slh_c.specs.Keys.{key, signature_under};
ghost use Rattle.slh_c.specs.Numbers.{InSet};
ghost use Rattle.slh_c.specs.Rules.{first_refusal, sign_internal_rules, verify_rules};

use crate::keys::{public_key, secret_key};
use crate::numbers::set_of;
use crate::randomizer::randomizer_of;
use crate::refusal::{DONE, INVALID, or_refuse};
use crate::rules::{self, judge};
use slh_core::{sign_internal, verify_internal};

/// Signs M' as it is (FIPS 205, Algorithm 19). The lengths are those of `slh_sign`. Refused, with nothing written,
/// by `sign_internal_rules`: a number that is not a set's, a key, randomizer or output of another length.
#[unsafe(no_mangle)]
pub extern "C" fn slh_sign_internal(
    set: u32,
    sk: &[u8],
    msg: &[u8],
    randomizer: &[u8],
    sig: &mut [u8],
) -> u32
    ensures answer { result ≡ first_refusal (sign_internal_rules set sk.now randomizer.now sig.old) }
    ensures signature { result ≡ DONE → InSet set (λ s.
        sig.new ≡ signature_under (key s sk.now) msg.now randomizer.now) }
    ensures refused { result ≢ DONE → sig.new ≡ sig.old }
    ensures authentic { result ≡ DONE → InSet set (λ s.
        IsGeneratedKey (key s sk.now)
        → IsValid (public_of (key s sk.now)) msg.now sig.new) }
{
    let set = or_refuse!(set_of(set));
    let sk = or_refuse!(secret_key(set, sk));
    let randomizer = or_refuse!(randomizer_of(set, randomizer));
    or_refuse!(judge(&[rules::output(set.sig_len(), sig)]));
    sign_internal(&[msg], &sk, randomizer, sig);
    DONE
}

/// Whether the bytes are a valid signature of M' as it is (FIPS 205, Algorithm 20). Invalid if they are not `sig_len`.
/// Refused as `slh_verify` is, by `verify_rules`.
#[unsafe(no_mangle)]
pub extern "C" fn slh_verify_internal(set: u32, pk: &[u8], msg: &[u8], sig: &[u8]) -> u32
    ensures valid { (result ≡ DONE) ↔ InSet set (λ s.
        (length pk.now ≡ pk_len (params s)) × IsValid (key s pk.now) msg.now sig.now) }
    ensures refused { first_refusal (verify_rules set pk.now) ≢ DONE
        → result ≡ first_refusal (verify_rules set pk.now) }
    ensures judged { first_refusal (verify_rules set pk.now) ≡ DONE → result ≢ DONE → result ≡ INVALID }
{
    let set = or_refuse!(set_of(set));
    let pk = or_refuse!(public_key(set, pk));
    if verify_internal(&[msg], sig, &pk) {
        DONE
    } else {
        INVALID
    }
}
