//! Signing and verifying a message by its digest (FIPS 205, sections 10.2.2 and 10.3).
ghost use Rattle.std.specs.Prelude.{◌≡◌, ◌↔◌, ◌≤◌, IsOk, IsTrue, OnOk, OnErr, length};
ghost use Rattle.slh_params.specs.Params.{sig_len};
ghost use Rattle.slh_params.specs.ParamSet.{params};
ghost use Rattle.slh_core.specs.Keys.{public_of, IsGeneratedKey};
ghost use Rattle.slh_core.specs.Messages.{pre_hash_message};
ghost use Rattle.slh_core.specs.PreHash.{PH};
ghost use Rattle.slh_core.specs.Randomizers.{HasLength};
ghost use Rattle.slh_core.specs.Signatures.{signature_by, IsValid};

use crate::fault::SignFault;
use crate::form::Form;
use crate::formatted_message::FormattedMessage;
use crate::message_digest::MessageDigest;
use crate::pre_hash::PreHash;
use crate::pre_hasher::PreHasher;
use crate::public_key::PublicKey;
use crate::randomizer::Randomizer;
use crate::secret_key::SecretKey;
use crate::signing::sign_internal;
use crate::verifying::verify_internal;

/// Signs a message by its digest, under a context (FIPS 205, Algorithm 23 after its pre-hash), writing `sig_len` bytes.
/// Refused, with nothing written, if the context has over 255 bytes.
pub fn hash_sign_digest(
    digest: &MessageDigest,
    ctx: &[u8],
    sk: &SecretKey,
    randomizer: Randomizer,
    out: &mut [u8],
) -> Result<(), SignFault>
    requires randomizer { HasLength randomizer (params sk.now.set).n }
    requires out { length out.old ≡ sig_len (params sk.now.set) }
    ensures accepted { IsOk result ↔ (length ctx.now ≤ 255) }
    ensures signature { OnOk result (out.new
        ≡ signature_by sk.now (pre_hash_message ctx.now digest.now.function digest.now.bytes) randomizer.entry) }
    ensures refused { OnErr result (out.new ≡ out.old) }
    ensures len { length out.new ≡ length out.old }
    ensures authentic { OnOk result (IsGeneratedKey sk.now
        → IsValid (public_of sk.now) (pre_hash_message ctx.now digest.now.function digest.now.bytes) out.new) }
{
    let Some(message) = FormattedMessage::of_digest(digest, ctx) else {
        return Err(SignFault::ContextTooLong);
    };
    sign_internal(&message.parts(), sk, randomizer, out);
    Ok(())
}

/// The digest of a message under `function`.
pub fn pre_hash_digest(msg: &[u8], function: PreHash) -> MessageDigest
    ensures { result ≡ record { function = function; bytes = PH function msg.now } }
{
    let mut hasher = PreHasher::new(function);
    hasher.update(msg);
    hasher.finish()
}

/// Signs a message by its digest under `function`, and under a context (FIPS 205, Algorithm 23), writing `sig_len`
/// bytes. Refused, with nothing written, if the context has over 255 bytes.
pub fn hash_sign(
    msg: &[u8],
    ctx: &[u8],
    function: PreHash,
    sk: &SecretKey,
    randomizer: Randomizer,
    out: &mut [u8],
) -> Result<(), SignFault>
    requires randomizer { HasLength randomizer (params sk.now.set).n }
    requires out { length out.old ≡ sig_len (params sk.now.set) }
    ensures accepted { IsOk result ↔ (length ctx.now ≤ 255) }
    ensures signature { OnOk result (out.new
        ≡ signature_by sk.now (pre_hash_message ctx.now function (PH function msg.now)) randomizer.entry) }
    ensures refused { OnErr result (out.new ≡ out.old) }
    ensures len { length out.new ≡ length out.old }
    ensures authentic { OnOk result (IsGeneratedKey sk.now
        → IsValid (public_of sk.now) (pre_hash_message ctx.now function (PH function msg.now)) out.new) }
{
    Form::PreHash(function).sign(msg, ctx, sk, randomizer, out)
}

/// Whether the bytes are a valid signature of a message that has this digest, under a context (FIPS 205,
/// Algorithm 25 after its pre-hash). False for a context of over 255 bytes.
pub fn hash_verify_digest(digest: &MessageDigest, ctx: &[u8], sig: &[u8], pk: &PublicKey) -> bool
    ensures { IsTrue result ↔ ((length ctx.now ≤ 255)
        × IsValid pk.now (pre_hash_message ctx.now digest.now.function digest.now.bytes) sig.now) }
{
    match FormattedMessage::of_digest(digest, ctx) {
        Some(message) => verify_internal(&message.parts(), sig, pk),
        None => false,
    }
}

/// Whether the bytes are a valid signature of a message by its digest under `function`, and under a context
/// (FIPS 205, Algorithm 25). False for a context of over 255 bytes.
pub fn hash_verify(msg: &[u8], ctx: &[u8], function: PreHash, sig: &[u8], pk: &PublicKey) -> bool
    ensures { IsTrue result ↔ ((length ctx.now ≤ 255)
        × IsValid pk.now (pre_hash_message ctx.now function (PH function msg.now)) sig.now) }
{
    Form::PreHash(function).verify(msg, ctx, sig, pk)
}
