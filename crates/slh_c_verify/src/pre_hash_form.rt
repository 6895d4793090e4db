//! Exports that verify a signature of a message's digest (FIPS 205, section 10.3, Algorithm 25).
ghost use Rattle.std.specs.Prelude.{◌≡◌, ◌≢◌, ◌↔◌, ◌≤◌, length};
ghost use Rattle.slh_params.specs.Params.{pk_len};
ghost use Rattle.slh_params.specs.ParamSet.{params};
ghost use Rattle.slh_core.specs.Messages.{pre_hash_message};
ghost use Rattle.slh_core.specs.PreHash.{PH, digest_len};
ghost use Rattle.slh_core.specs.Signatures.{IsValid};
ghost use Rattle.slh_c_verify.specs.Keys.{key};
ghost use Rattle.slh_c_verify.specs.Numbers.{InSet, WithFunction};
ghost use Rattle.slh_c_verify.specs.Rules.{first_refusal, hash_verify_rules, hash_verify_digest_rules};

use crate::keys::public_key;
use crate::numbers::{function_of, set_of};
use crate::refusal::{DONE, INVALID, Refusal, or_refuse};
use slh_core::{MessageDigest, hash_verify, hash_verify_digest};

/// Whether the bytes are a valid signature of a message by its digest under a pre-hash function, and under a
/// context (FIPS 205, Algorithm 25). Invalid as in `slh_verify`. Refused by `hash_verify_rules`: a number that
/// is not a set's or not a function's, a key of another length.
#[unsafe(no_mangle)]
pub extern "C" fn slh_hash_verify(
    set: u32,
    function: u32,
    pk: &[u8],
    msg: &[u8],
    ctx: &[u8],
    sig: &[u8],
) -> u32
    ensures valid { (result ≡ DONE) ↔ InSet set (λ s. WithFunction function (λ f.
        (length pk.now ≡ pk_len (params s)) × (length ctx.now ≤ 255)
        × IsValid (key s pk.now) (pre_hash_message ctx.now f (PH f msg.now)) sig.now)) }
    ensures refused { first_refusal (hash_verify_rules set function pk.now) ≢ DONE
        → result ≡ first_refusal (hash_verify_rules set function pk.now) }
    ensures judged { first_refusal (hash_verify_rules set function pk.now) ≡ DONE → result ≢ DONE → result ≡ INVALID }
{
    let set = or_refuse!(set_of(set));
    let function = or_refuse!(function_of(function));
    let pk = or_refuse!(public_key(set, pk));
    if hash_verify(msg, ctx, function, sig, &pk) {
        DONE
    } else {
        INVALID
    }
}

/// Whether the bytes are a valid signature of a message by the digest that the caller has computed (FIPS 205,
/// Algorithm 25 after its pre-hash). Invalid as in `slh_verify`. Refused by `hash_verify_digest_rules`: as
/// `slh_hash_verify` is, and for a digest of another length.
#[unsafe(no_mangle)]
pub extern "C" fn slh_hash_verify_digest(
    set: u32,
    function: u32,
    pk: &[u8],
    digest: &[u8],
    ctx: &[u8],
    sig: &[u8],
) -> u32
    ensures valid { (result ≡ DONE) ↔ InSet set (λ s. WithFunction function (λ f.
        (length pk.now ≡ pk_len (params s)) × (length digest.now ≡ digest_len f) × (length ctx.now ≤ 255)
        × IsValid (key s pk.now) (pre_hash_message ctx.now f digest.now) sig.now)) }
    ensures refused { first_refusal (hash_verify_digest_rules set function pk.now digest.now) ≢ DONE
        → result ≡ first_refusal (hash_verify_digest_rules set function pk.now digest.now) }
    ensures judged { first_refusal (hash_verify_digest_rules set function pk.now digest.now) ≡ DONE
        → result ≢ DONE → result ≡ INVALID }
{
    let set = or_refuse!(set_of(set));
    let function = or_refuse!(function_of(function));
    let pk = or_refuse!(public_key(set, pk));
    let Some(digest) = MessageDigest::from_bytes(function, digest) else {
        return Refusal::BadDigestLength.number();
    };
    if hash_verify_digest(&digest, ctx, sig, &pk) {
        DONE
    } else {
        INVALID
    }
}
