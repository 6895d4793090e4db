//! Exports that verify in the pure form a message that the caller hashes (FIPS 205, sections 10.3 and 11.2).
ghost use Rattle.std.specs.Prelude.{◌≡◌, ◌≢◌, ◌↔◌, ◌≤◌, ℕ, List, length};
ghost use Rattle.slh_params.specs.Params.{pk_len, sig_len};
ghost use Rattle.slh_params.specs.ParamSet.{params};
ghost use Rattle.slh_core.specs.HashedMessages.{verify_front, front_len, hash_after_front, IsValidByHash};
ghost use Rattle.slh_core.specs.Messages.{pure_message};
ghost use Rattle.slh_core.specs.Signatures.{IsValid};
ghost use Rattle.slh_c.specs.Keys.{key};
ghost use Rattle.slh_c.specs.Numbers.{InSet};
ghost use Rattle.slh_c.specs.Rules.{first_refusal, verify_front_rules, verify_hashed_rules};

use crate::keys::public_key;
use crate::numbers::set_of;
use crate::refusal::{DONE, INVALID, or_refuse};
use crate::rules::{self, judge};
use slh_core::{front_len, verify_front, verify_hashed};

/// Writes the front, which the caller hashes before the message (FIPS 205, Algorithm 24 and section 11.2): R, PK.seed,
/// PK.root, 0, the length of the context and the context. `pk` has 2n bytes, `front` 3n + 2 and those of the context.
/// Invalid as in `slh_verify`. Refused by `verify_front_rules`: a number that is not a set's, a key or an output of
/// another length. Nothing is written unless the result is `DONE`.
#[unsafe(no_mangle)]
pub extern "C" fn slh_verify_front(
    set: u32,
    pk: &[u8],
    ctx: &[u8],
    sig: &[u8],
    front: &mut [u8],
) -> u32
    ensures done { (result ≡ DONE) ↔ InSet set (λ s.
        (length pk.now ≡ pk_len (params s)) × (length front.old ≡ front_len (params s) ctx.now)
        × (length ctx.now ≤ 255) × (length sig.now ≡ sig_len (params s))) }
    ensures front { result ≡ DONE → InSet set (λ s. front.new ≡ verify_front (key s pk.now) ctx.now sig.now) }
    ensures unwritten { result ≢ DONE → front.new ≡ front.old }
    ensures refused { first_refusal (verify_front_rules set pk.now ctx.now front.old) ≢ DONE
        → result ≡ first_refusal (verify_front_rules set pk.now ctx.now front.old) }
    ensures judged { first_refusal (verify_front_rules set pk.now ctx.now front.old) ≡ DONE
        → result ≢ DONE → result ≡ INVALID }
{
    let set = or_refuse!(set_of(set));
    let pk = or_refuse!(public_key(set, pk));
    or_refuse!(judge(&[rules::output(front_len(set, ctx), front)]));
    if verify_front(ctx, sig, &pk, front) {
        DONE
    } else {
        INVALID
    }
}

/// The verdict of `slh_verify_hashed`.
fn verdict(set: u32, pk: &[u8], hash: &[u8], sig: &[u8]) -> u32
    ensures valid { (result ≡ DONE) ↔ InSet set (λ s.
        (length pk.now ≡ pk_len (params s)) × IsValidByHash (key s pk.now) hash.now sig.now) }
    ensures refused { first_refusal (verify_hashed_rules set pk.now hash.now) ≢ DONE
        → result ≡ first_refusal (verify_hashed_rules set pk.now hash.now) }
    ensures judged { first_refusal (verify_hashed_rules set pk.now hash.now) ≡ DONE
        → result ≢ DONE → result ≡ INVALID }
{
    let set = or_refuse!(set_of(set));
    let pk = or_refuse!(public_key(set, pk));
    or_refuse!(judge(&[rules::inner_hash(set, hash)]));
    if verify_hashed(hash, sig, &pk) {
        DONE
    } else {
        INVALID
    }
}

/// Whether the bytes are a valid signature of a message by the hash of the front and the message (FIPS 205,
/// Algorithm 24 after this hash). The caller computes it: by SHA-256 if n is 16, else by SHA-512. `pk` has 2n bytes.
/// Invalid if the signature is not `sig_len`. Refused by `verify_hashed_rules`: a number that is not a set's, a key or
/// a hash of another length.
#[unsafe(no_mangle)]
pub extern "C" fn slh_verify_hashed(set: u32, pk: &[u8], hash: &[u8], sig: &[u8]) -> u32
    ensures valid { (result ≡ DONE) ↔ InSet set (λ s.
        (length pk.now ≡ pk_len (params s)) × IsValidByHash (key s pk.now) hash.now sig.now) }
    ensures of_message { (ctx msg : List ℕ) → length ctx ≤ 255
        → InSet set (λ s. hash.now ≡ hash_after_front (key s pk.now) ctx sig.now msg)
        → ((result ≡ DONE) ↔ InSet set (λ s. (length pk.now ≡ pk_len (params s)) × (length ctx ≤ 255)
        × IsValid (key s pk.now) (pure_message ctx msg) sig.now)) }
    ensures refused { first_refusal (verify_hashed_rules set pk.now hash.now) ≢ DONE
        → result ≡ first_refusal (verify_hashed_rules set pk.now hash.now) }
    ensures judged { first_refusal (verify_hashed_rules set pk.now hash.now) ≡ DONE
        → result ≢ DONE → result ≡ INVALID }
{
    verdict(set, pk, hash, sig)
}
