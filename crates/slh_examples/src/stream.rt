//! A message that comes in pieces: only its digest is held.
ghost use Rattle.std.specs.Prelude.{◌≡◌, ◌↔◌, ◌++◌, [], IsTrue, length};
ghost use Rattle.slh_params.specs.Params.{sig_len};
ghost use Rattle.slh_params.specs.ParamSet.{params};
ghost use Rattle.slh_core.specs.Messages.{pre_hash_message};
ghost use Rattle.slh_core.specs.PreHash.{PH};
ghost use Rattle.slh_core.specs.Signatures.{signature_by, IsValid};
ghost use Rattle.slh_core.specs.declared.randomizer.Randomizer.TheVariants.{Deterministic};

use slh_core::{
    MessageDigest, PreHash, PreHasher, PublicKey, Randomizer, SecretKey, hash_sign_digest,
    hash_verify_digest,
};

/// The digest of a package: its header and then its body.
fn package_digest(function: PreHash, header: &[u8], body: &[u8]) -> MessageDigest
    ensures { result ≡ record { function = function; bytes = PH function (header.now ++ body.now) } }
{
    let mut hasher = PreHasher::new(function);
    hasher.update(header);
    hasher.update(body);
    hasher.finish()
}

/// Signs a package by its digest, with no context. `sig` has the `sig_len` bytes of the key's set.
pub fn sign_package(sk: &SecretKey, function: PreHash, header: &[u8], body: &[u8], sig: &mut [u8])
    requires { length sig.old ≡ sig_len (params sk.now.set) }
    ensures { sig.new ≡ signature_by sk.now
        (pre_hash_message [] function (PH function (header.now ++ body.now))) Deterministic }
{
    let digest = package_digest(function, header, body);
    match hash_sign_digest(&digest, &[], sk, Randomizer::Deterministic, sig) {
        Ok(()) => {}
        Err(_) => unreachable!(),
    }
}

/// Whether these bytes, whatever they are, sign the package by its digest, with no context.
pub fn is_valid_package(
    pk: &PublicKey,
    function: PreHash,
    header: &[u8],
    body: &[u8],
    sig: &[u8],
) -> bool
    ensures { IsTrue result
        ↔ IsValid pk.now (pre_hash_message [] function (PH function (header.now ++ body.now))) sig.now }
{
    let digest = package_digest(function, header, body);
    hash_verify_digest(&digest, &[], sig, pk)
}
