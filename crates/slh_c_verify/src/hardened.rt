//! Exports that verify with a hardened verdict, made of two comparisons (FIPS 205, section 10.3).
ghost use Rattle.std.specs.Prelude.{◌≡◌, ◌≢◌, ◌↔◌, ◌≤◌, length};
ghost use Rattle.slh_params.specs.Params.{pk_len};
ghost use Rattle.slh_params.specs.ParamSet.{params};
ghost use Rattle.slh_core.specs.Messages.{pure_message, pre_hash_message};
ghost use Rattle.slh_core.specs.PreHash.{digest_len};
ghost use Rattle.slh_core.specs.Signatures.{IsValid};
ghost use Rattle.slh_c_verify.specs.Keys.{key};
ghost use Rattle.slh_c_verify.specs.Numbers.{InSet, WithFunction};

use crate::keys::public_key;
use crate::numbers::{function_of, set_of};
use slh_core::{
    HARDENED_INVALID, HARDENED_VALID, MessageDigest, hash_verify_digest_hardened, verify_hardened,
};

/// A law: the verdicts have these numbers, which `slh_verify.h` has.
pub fn verdicts_have_numbers()
    ensures valid { HARDENED_VALID ≡ 2044073892 }
    ensures invalid { HARDENED_INVALID ≡ 2089932927 }
{}

/// The hardened verdict on a signature of a message under a context. It is `HARDENED_VALID` if and only if `slh_verify`
/// returns `DONE`. Otherwise it is `HARDENED_INVALID`, also if `slh_verify` refuses the arguments.
#[unsafe(no_mangle)]
pub extern "C" fn slh_verify_hardened(
    set: u32,
    pk: &[u8],
    msg: &[u8],
    ctx: &[u8],
    sig: &[u8],
) -> u32
    ensures valid { (result ≡ HARDENED_VALID) ↔ InSet set (λ s.
        (length pk.now ≡ pk_len (params s)) × (length ctx.now ≤ 255)
        × IsValid (key s pk.now) (pure_message ctx.now msg.now) sig.now) }
    ensures invalid { result ≢ HARDENED_VALID → result ≡ HARDENED_INVALID }
{
    let Ok(set) = set_of(set) else {
        return HARDENED_INVALID;
    };
    let Ok(pk) = public_key(set, pk) else {
        return HARDENED_INVALID;
    };
    verify_hardened(msg, ctx, sig, &pk)
}

/// The hardened verdict on a signature of a message, by the digest that the caller has computed. It is `HARDENED_VALID`
/// if and only if `slh_hash_verify_digest` returns `DONE`. Otherwise it is `HARDENED_INVALID`, also if
/// `slh_hash_verify_digest` refuses the arguments.
#[unsafe(no_mangle)]
pub extern "C" fn slh_hash_verify_digest_hardened(
    set: u32,
    function: u32,
    pk: &[u8],
    digest: &[u8],
    ctx: &[u8],
    sig: &[u8],
) -> u32
    ensures valid { (result ≡ HARDENED_VALID) ↔ InSet set (λ s. WithFunction function (λ f.
        (length pk.now ≡ pk_len (params s)) × (length digest.now ≡ digest_len f) × (length ctx.now ≤ 255)
        × IsValid (key s pk.now) (pre_hash_message ctx.now f digest.now) sig.now)) }
    ensures invalid { result ≢ HARDENED_VALID → result ≡ HARDENED_INVALID }
{
    let Ok(set) = set_of(set) else {
        return HARDENED_INVALID;
    };
    let Ok(function) = function_of(function) else {
        return HARDENED_INVALID;
    };
    let Ok(pk) = public_key(set, pk) else {
        return HARDENED_INVALID;
    };
    let Some(digest) = MessageDigest::from_bytes(function, digest) else {
        return HARDENED_INVALID;
    };
    hash_verify_digest_hardened(&digest, ctx, sig, &pk)
}
