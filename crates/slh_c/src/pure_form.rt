//! Exports that sign and verify a message (FIPS 205, sections 10.2.1 and 10.3).
ghost use Rattle.std.specs.Prelude.{◌≡◌, ◌≢◌, ◌↔◌, ◌≤◌, length};
ghost use Rattle.slh_params.specs.Params.{pk_len};
ghost use Rattle.slh_params.specs.ParamSet.{params};
ghost use Rattle.slh_core.specs.Keys.{public_of, IsGeneratedKey};
ghost use Rattle.slh_core.specs.Messages.{pure_message};
ghost use Rattle.slh_core.specs.Signatures.{IsValid};
ghost use Rattle.slh_c.specs.Keys.{key, signature_under};
ghost use Rattle.slh_c.specs.Numbers.{InSet};
ghost use Rattle.slh_c.specs.Rules.{first_refusal, sign_rules, verify_rules};

use crate::keys::{public_key, secret_key};
use crate::numbers::set_of;
use crate::randomizer::randomizer_of;
use crate::refusal::{DONE, INVALID, Refusal, or_refuse};
use crate::rules::{self, judge};
use slh_core::{SignFault, sign, verify};

/// Signs a message under a context (FIPS 205, Algorithm 22), writing `sig_len` bytes. `sk` has 4n bytes, the
/// randomizer n, or none in the deterministic variant. Refused, with nothing written, by `sign_rules`: a number that
/// is not a set's, a key, randomizer or output of another length, a context of over 255 bytes.
#[unsafe(no_mangle)]
pub extern "C" fn slh_sign(
    set: u32,
    sk: &[u8],
    msg: &[u8],
    ctx: &[u8],
    randomizer: &[u8],
    sig: &mut [u8],
) -> u32
    ensures answer { result ≡ first_refusal (sign_rules set sk.now ctx.now randomizer.now sig.old) }
    ensures signature { result ≡ DONE → InSet set (λ s.
        sig.new ≡ signature_under (key s sk.now) (pure_message ctx.now msg.now) randomizer.now) }
    ensures refused { result ≢ DONE → sig.new ≡ sig.old }
    ensures authentic { result ≡ DONE → InSet set (λ s.
        IsGeneratedKey (key s sk.now)
        → IsValid (public_of (key s sk.now)) (pure_message ctx.now msg.now) sig.new) }
{
    let set = or_refuse!(set_of(set));
    let sk = or_refuse!(secret_key(set, sk));
    let randomizer = or_refuse!(randomizer_of(set, randomizer));
    or_refuse!(judge(&[rules::output(set.sig_len(), sig)]));
    match sign(msg, ctx, &sk, randomizer, sig) {
        Ok(()) => DONE,
        Err(SignFault::ContextTooLong) => Refusal::ContextTooLong.number(),
    }
}

/// Whether the bytes are a valid signature of a message under a context (FIPS 205, Algorithm 24). `pk` has 2n bytes.
/// Invalid if the context has over 255 bytes or the signature not `sig_len`. Refused by `verify_rules`: a number that
/// is not a set's, a key of another length.
#[unsafe(no_mangle)]
pub extern "C" fn slh_verify(set: u32, pk: &[u8], msg: &[u8], ctx: &[u8], sig: &[u8]) -> u32
    ensures valid { (result ≡ DONE) ↔ InSet set (λ s.
        (length pk.now ≡ pk_len (params s)) × (length ctx.now ≤ 255)
        × IsValid (key s pk.now) (pure_message ctx.now msg.now) sig.now) }
    ensures refused { first_refusal (verify_rules set pk.now) ≢ DONE
        → result ≡ first_refusal (verify_rules set pk.now) }
    ensures judged { first_refusal (verify_rules set pk.now) ≡ DONE → result ≢ DONE → result ≡ INVALID }
{
    let set = or_refuse!(set_of(set));
    let pk = or_refuse!(public_key(set, pk));
    if verify(msg, ctx, sig, &pk) {
        DONE
    } else {
        INVALID
    }
}
