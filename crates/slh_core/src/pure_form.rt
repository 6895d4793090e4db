//! Signing and verifying a message itself (FIPS 205, sections 10.2.1 and 10.3).
ghost use Rattle.std.specs.Prelude.{◌≡◌, ◌↔◌, ◌≤◌, IsOk, IsTrue, OnOk, OnErr, length};
ghost use Rattle.slh_params.specs.Params.{sig_len};
ghost use Rattle.slh_params.specs.ParamSet.{params};
ghost use Rattle.slh_core.specs.Keys.{public_of, IsGeneratedKey};
ghost use Rattle.slh_core.specs.Messages.{pure_message};
ghost use Rattle.slh_core.specs.Randomizers.{HasLength};
ghost use Rattle.slh_core.specs.Signatures.{signature_by, IsValid};

use crate::fault::SignFault;
use crate::form::Form;
use crate::public_key::PublicKey;
use crate::randomizer::Randomizer;
use crate::secret_key::SecretKey;

/// Signs a message under a context (FIPS 205, Algorithm 22), writing `sig_len` bytes. Refused, with nothing written, if
/// the context has over 255 bytes.
pub fn sign(
    msg: &[u8],
    ctx: &[u8],
    sk: &SecretKey,
    randomizer: Randomizer,
    out: &mut [u8],
) -> Result<(), SignFault>
    requires randomizer { HasLength randomizer (params sk.now.set).n }
    requires out { length out.old ≡ sig_len (params sk.now.set) }
    ensures accepted { IsOk result ↔ (length ctx.now ≤ 255) }
    ensures signature { OnOk result (out.new
        ≡ signature_by sk.now (pure_message ctx.now msg.now) randomizer.entry) }
    ensures refused { OnErr result (out.new ≡ out.old) }
    ensures len { length out.new ≡ length out.old }
    ensures authentic { OnOk result (IsGeneratedKey sk.now
        → IsValid (public_of sk.now) (pure_message ctx.now msg.now) out.new) }
{
    Form::Pure.sign(msg, ctx, sk, randomizer, out)
}

/// Whether the bytes are a valid signature of a message under a context (FIPS 205, Algorithm 24). False for
/// a context of over 255 bytes.
pub fn verify(msg: &[u8], ctx: &[u8], sig: &[u8], pk: &PublicKey) -> bool
    ensures { IsTrue result ↔ ((length ctx.now ≤ 255)
        × IsValid pk.now (pure_message ctx.now msg.now) sig.now) }
{
    Form::Pure.verify(msg, ctx, sig, pk)
}
