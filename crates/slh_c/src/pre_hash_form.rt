//! Exports that sign and verify a message by its digest (FIPS 205, sections 10.2.2 and 10.3).
ghost use Rattle.std.specs.Prelude.{◌≡◌, ◌≢◌, ◌↔◌, ◌≤◌, length};
ghost use Rattle.slh_params.specs.Params.{pk_len};
ghost use Rattle.slh_params.specs.ParamSet.{params};
ghost use Rattle.slh_core.specs.Keys.{public_of, IsGeneratedKey};
ghost use Rattle.slh_core.specs.Messages.{pre_hash_message};
ghost use Rattle.slh_core.specs.PreHash.{PH, digest_len};
ghost use Rattle.slh_core.specs.Signatures.{IsValid};
ghost use Rattle.slh_c.specs.Keys.{key, signature_under};
ghost use Rattle.slh_c.specs.Numbers.{InSet, WithFunction};
ghost use Rattle.slh_c.specs.Rules.{first_refusal, hash_sign_rules, hash_sign_digest_rules, hash_verify_rules, hash_verify_digest_rules};

use crate::keys::{public_key, secret_key};
use crate::numbers::{function_of, set_of};
use crate::randomizer::randomizer_of;
use crate::refusal::{DONE, INVALID, Refusal, or_refuse};
use crate::rules::{self, judge};
use slh_core::{
    MessageDigest, SignFault, hash_sign, hash_sign_digest, hash_verify, hash_verify_digest,
};

/// Signs a message by its digest under a pre-hash function, and under a context (FIPS 205, Algorithm 23). The lengths
/// are those of `slh_sign`. Refused, with nothing written, by `hash_sign_rules`: as `slh_sign` is, and for a number
/// that is not a function's.
#[unsafe(no_mangle)]
pub extern "C" fn slh_hash_sign(
    set: u32,
    function: u32,
    sk: &[u8],
    msg: &[u8],
    ctx: &[u8],
    randomizer: &[u8],
    sig: &mut [u8],
) -> u32
    ensures answer { result ≡ first_refusal (hash_sign_rules set function sk.now ctx.now randomizer.now sig.old) }
    ensures signature { result ≡ DONE → InSet set (λ s. WithFunction function (λ f.
        sig.new ≡ signature_under (key s sk.now) (pre_hash_message ctx.now f (PH f msg.now)) randomizer.now)) }
    ensures refused { result ≢ DONE → sig.new ≡ sig.old }
    ensures authentic { result ≡ DONE → InSet set (λ s. WithFunction function (λ f.
        IsGeneratedKey (key s sk.now)
        → IsValid (public_of (key s sk.now)) (pre_hash_message ctx.now f (PH f msg.now)) sig.new)) }
{
    let set = or_refuse!(set_of(set));
    let function = or_refuse!(function_of(function));
    let sk = or_refuse!(secret_key(set, sk));
    let randomizer = or_refuse!(randomizer_of(set, randomizer));
    or_refuse!(judge(&[rules::output(set.sig_len(), sig)]));
    match hash_sign(msg, ctx, function, &sk, randomizer, sig) {
        Ok(()) => DONE,
        Err(SignFault::ContextTooLong) => Refusal::ContextTooLong.number(),
    }
}

/// Whether the bytes are a valid signature of a message by its digest under a pre-hash function, and under a
/// context (FIPS 205, Algorithm 25). Invalid as in `slh_verify`. Refused by `hash_verify_rules`: a number that
/// is not a set's or not a function's, a key of another length.
#[unsafe(no_mangle)]
pub extern "C" fn slh_hash_verify(
    set: u32,
    function: u32,
    pk: &[u8],
    msg: &[u8],
    ctx: &[u8],
    sig: &[u8],
) -> u32
    ensures valid { (result ≡ DONE) ↔ InSet set (λ s. WithFunction function (λ f.
        (length pk.now ≡ pk_len (params s)) × (length ctx.now ≤ 255)
        × IsValid (key s pk.now) (pre_hash_message ctx.now f (PH f msg.now)) sig.now)) }
    ensures refused { first_refusal (hash_verify_rules set function pk.now) ≢ DONE
        → result ≡ first_refusal (hash_verify_rules set function pk.now) }
    ensures judged { first_refusal (hash_verify_rules set function pk.now) ≡ DONE → result ≢ DONE → result ≡ INVALID }
{
    let set = or_refuse!(set_of(set));
    let function = or_refuse!(function_of(function));
    let pk = or_refuse!(public_key(set, pk));
    if hash_verify(msg, ctx, function, sig, &pk) {
        DONE
    } else {
        INVALID
    }
}

/// Signs a message by the digest that the caller has computed (FIPS 205, Algorithm 23 after its pre-hash), of
/// `digest_len` bytes. Refused, with nothing written, by `hash_sign_digest_rules`: as `slh_hash_sign` is, and for a
/// digest of another length.
#[unsafe(no_mangle)]
pub extern "C" fn slh_hash_sign_digest(
    set: u32,
    function: u32,
    sk: &[u8],
    digest: &[u8],
    ctx: &[u8],
    randomizer: &[u8],
    sig: &mut [u8],
) -> u32
    ensures answer { result ≡ first_refusal
        (hash_sign_digest_rules set function sk.now digest.now ctx.now randomizer.now sig.old) }
    ensures signature { result ≡ DONE → InSet set (λ s. WithFunction function (λ f.
        sig.new ≡ signature_under (key s sk.now) (pre_hash_message ctx.now f digest.now) randomizer.now)) }
    ensures refused { result ≢ DONE → sig.new ≡ sig.old }
    ensures authentic { result ≡ DONE → InSet set (λ s. WithFunction function (λ f.
        IsGeneratedKey (key s sk.now)
        → IsValid (public_of (key s sk.now)) (pre_hash_message ctx.now f digest.now) sig.new)) }
{
    let set = or_refuse!(set_of(set));
    let function = or_refuse!(function_of(function));
    let sk = or_refuse!(secret_key(set, sk));
    let Some(digest) = MessageDigest::from_bytes(function, digest) else {
        return Refusal::BadDigestLength.number();
    };
    let randomizer = or_refuse!(randomizer_of(set, randomizer));
    or_refuse!(judge(&[rules::output(set.sig_len(), sig)]));
    match hash_sign_digest(&digest, ctx, &sk, randomizer, sig) {
        Ok(()) => DONE,
        Err(SignFault::ContextTooLong) => Refusal::ContextTooLong.number(),
    }
}

/// Whether the bytes are a valid signature of a message by the digest that the caller has computed (FIPS 205,
/// Algorithm 25 after its pre-hash). Invalid as in `slh_verify`. Refused by `hash_verify_digest_rules`: as
/// `slh_hash_verify` is, and for a digest of another length.
#[unsafe(no_mangle)]
pub extern "C" fn slh_hash_verify_digest(
    set: u32,
    function: u32,
    pk: &[u8],
    digest: &[u8],
    ctx: &[u8],
    sig: &[u8],
) -> u32
    ensures valid { (result ≡ DONE) ↔ InSet set (λ s. WithFunction function (λ f.
        (length pk.now ≡ pk_len (params s)) × (length digest.now ≡ digest_len f) × (length ctx.now ≤ 255)
        × IsValid (key s pk.now) (pre_hash_message ctx.now f digest.now) sig.now)) }
    ensures refused { first_refusal (hash_verify_digest_rules set function pk.now digest.now) ≢ DONE
        → result ≡ first_refusal (hash_verify_digest_rules set function pk.now digest.now) }
    ensures judged { first_refusal (hash_verify_digest_rules set function pk.now digest.now) ≡ DONE
        → result ≢ DONE → result ≡ INVALID }
{
    let set = or_refuse!(set_of(set));
    let function = or_refuse!(function_of(function));
    let pk = or_refuse!(public_key(set, pk));
    let Some(digest) = MessageDigest::from_bytes(function, digest) else {
        return Refusal::BadDigestLength.number();
    };
    if hash_verify_digest(&digest, ctx, sig, &pk) {
        DONE
    } else {
        INVALID
    }
}
