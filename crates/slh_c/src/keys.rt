//! Exports for keys: their lengths, key generation (FIPS 205, section 9.1), the public part, and the check of a pair.
ghost use Rattle.std.specs.Prelude.{◌≡◌, ◌≢◌, ◌↔◌, ◌≤◌, IsOk, IfOk, IfErr, length};
ghost use Rattle.slh_params.specs.Params.{pk_len, sk_len, sig_len};
ghost use Rattle.slh_params.specs.ParamSet.{params};
ghost use Rattle.slh_core.specs.Keys.{public_of, generated_key, IsGeneratedKey};
ghost use Rattle.slh_c.specs.Keys.{key};
ghost use Rattle.slh_c.specs.Numbers.{InSet};
ghost use Rattle.slh_c.specs.Rules.{first_refusal, lengths_rules, keygen_rules, public_rules, check_rules};
ghost use Rattle.slh_c.specs.declared.refusal.Refusal.TheVariants.{BadLength};

use crate::numbers::set_of;
use crate::refusal::{DONE, INVALID, Refusal, or_refuse};
use crate::rules::{self, judge};
use slh_core::{PublicKey, SecretKey, check_pair, keygen_internal};
use slh_params::ParamSet;

/// The public key of these bytes. Refused if they are not 2n.
pub fn public_key(set: ParamSet, pk: &[u8]) -> Result<PublicKey, Refusal>
    ensures accepted { IsOk result ↔ (length pk.now ≡ pk_len (params set)) }
    ensures key { IfOk result (λ it. it ≡ key set pk.now) }
    ensures refused { IfErr result (λ refusal. refusal ≡ BadLength) }
{
    match PublicKey::from_bytes(set, pk) {
        Ok(pk) => Ok(pk),
        Err(_) => Err(Refusal::BadLength),
    }
}

/// The secret key of these bytes. Refused if they are not 4n.
pub fn secret_key(set: ParamSet, sk: &[u8]) -> Result<SecretKey, Refusal>
    ensures accepted { IsOk result ↔ (length sk.now ≡ sk_len (params set)) }
    ensures key { IfOk result (λ it. it ≡ key set sk.now) }
    ensures refused { IfErr result (λ refusal. refusal ≡ BadLength) }
{
    match SecretKey::from_bytes(set, sk) {
        Ok(sk) => Ok(sk),
        Err(_) => Err(Refusal::BadLength),
    }
}

/// Writes the lengths of a set's public keys, secret keys and signatures in bytes, and n. Refused, with nothing
/// written, by `lengths_rules`: if the number is not a set's.
#[unsafe(no_mangle)]
pub extern "C" fn slh_lengths(
    set: u32,
    public: &mut usize,
    secret: &mut usize,
    signature: &mut usize,
    n: &mut usize,
) -> u32
    ensures answer { result ≡ first_refusal (lengths_rules set) }
    ensures lengths { result ≡ DONE → InSet set (λ s. (public.new ≡ pk_len (params s))
        × (secret.new ≡ sk_len (params s)) × (signature.new ≡ sig_len (params s)) × (n.new ≡ (params s).n)) }
    ensures refused { result ≢ DONE → (public.new ≡ public.old) × (secret.new ≡ secret.old)
        × (signature.new ≡ signature.old) × (n.new ≡ n.old) }
{
    let set = or_refuse!(set_of(set));
    *public = set.pk_len();
    *secret = set.sk_len();
    *signature = set.sig_len();
    *n = set.n();
    DONE
}

/// Writes the secret key, 4n bytes, of three seeds of n bytes each (FIPS 205, Algorithm 18). Refused, with nothing
/// written, by `keygen_rules`: a number that is not a set's, a seed or an output of another length.
#[unsafe(no_mangle)]
pub extern "C" fn slh_keygen(
    set: u32,
    sk_seed: &[u8],
    sk_prf: &[u8],
    pk_seed: &[u8],
    sk: &mut [u8],
) -> u32
    ensures answer { result ≡ first_refusal (keygen_rules set sk_seed.now sk_prf.now pk_seed.now sk.old) }
    ensures key { result ≡ DONE → InSet set (λ s.
        key s sk.new ≡ generated_key s sk_seed.now sk_prf.now pk_seed.now) }
    ensures generated { result ≡ DONE → InSet set (λ s. IsGeneratedKey (key s sk.new)) }
    ensures refused { result ≢ DONE → sk.new ≡ sk.old }
{
    let set = or_refuse!(set_of(set));
    or_refuse!(judge(&[
        rules::seed(set, sk_seed),
        rules::seed(set, sk_prf),
        rules::seed(set, pk_seed),
        rules::output(set.sk_len(), sk),
    ]));
    sk.copy_from_slice(keygen_internal(set, sk_seed, sk_prf, pk_seed).bytes());
    DONE
}

/// Writes the public key, 2n bytes, of a secret key of 4n bytes: its second half. Refused, with nothing written, by
/// `public_rules`: a number that is not a set's, a key or an output of another length.
#[unsafe(no_mangle)]
pub extern "C" fn slh_public(set: u32, sk: &[u8], pk: &mut [u8]) -> u32
    ensures answer { result ≡ first_refusal (public_rules set sk.now pk.old) }
    ensures key { result ≡ DONE → InSet set (λ s. key s pk.new ≡ public_of (key s sk.now)) }
    ensures refused { result ≢ DONE → pk.new ≡ pk.old }
{
    let set = or_refuse!(set_of(set));
    let sk = or_refuse!(secret_key(set, sk));
    if pk.len() != set.pk_len() {
        return Refusal::BadOutputLength.number();
    }
    pk.copy_from_slice(sk.public_bytes());
    DONE
}

/// Whether PK.root of a secret key of 4n bytes is the root that its seeds give. Refused by `check_rules`: a number
/// that is not a set's, a key of another length.
#[unsafe(no_mangle)]
pub extern "C" fn slh_check(set: u32, sk: &[u8]) -> u32
    ensures generated { (result ≡ DONE) ↔ InSet set (λ s.
        (length sk.now ≡ sk_len (params s)) × IsGeneratedKey (key s sk.now)) }
    ensures refused { first_refusal (check_rules set sk.now) ≢ DONE
        → result ≡ first_refusal (check_rules set sk.now) }
    ensures judged { first_refusal (check_rules set sk.now) ≡ DONE → result ≢ DONE → result ≡ INVALID }
{
    let set = or_refuse!(set_of(set));
    let sk = or_refuse!(secret_key(set, sk));
    if check_pair(&sk) { DONE } else { INVALID }
}
