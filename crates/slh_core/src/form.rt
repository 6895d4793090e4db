//! The forms in which a message is signed under a context (FIPS 205, section 10.2), and signing and verifying in each.
ghost use Rattle.std.specs.Prelude.{◌≡◌, ◌↔◌, ◌≤◌, IsOk, IsTrue, IsSome, IfSome, OnOk, OnErr, length};
ghost use Rattle.slh_params.specs.Params.{sig_len};
ghost use Rattle.slh_params.specs.ParamSet.{params};
ghost use Rattle.slh_core.specs.Keys.{public_of, IsGeneratedKey};
ghost use Rattle.slh_core.specs.Messages.{message_in_form, form_with, bytes_of};
ghost use Rattle.slh_core.specs.Randomizers.{HasLength};
ghost use Rattle.slh_core.specs.Signatures.{signature_by, IsValid};

use crate::fault::SignFault;
use crate::formatted_message::{FormattedMessage, MOST_CONTEXT_LEN};
use crate::pre_hash::PreHash;
use crate::pre_hash_form::pre_hash_digest;
use crate::public_key::PublicKey;
use crate::randomizer::Randomizer;
use crate::secret_key::SecretKey;
use crate::signing::sign_internal;
use crate::verifying::verify_internal;

/// The form in which a message is signed under a context.
#[derive(Clone, Copy, PartialEq, Eq, Debug)]
pub enum Form {
    /// The message itself (Algorithms 22 and 24).
    Pure,
    /// Its digest under this function (Algorithms 23 and 25).
    PreHash(PreHash),
}

impl Form {
    /// The pre-hash form with this function, or the pure form if there is none.
    pub fn with(prehash: Option<PreHash>) -> Form
        ensures { result ≡ form_with prehash }
    {
        match prehash {
            None => Form::Pure,
            Some(function) => Form::PreHash(function),
        }
    }

    /// M' of a message in this form, under a context. `None` for a context of over 255 bytes.
    pub fn message<'a>(self, msg: &'a [u8], ctx: &'a [u8]) -> Option<FormattedMessage<'a>>
        ensures accepted { IsSome result ↔ (length ctx.now ≤ 255) }
        ensures bytes { IfSome result (λ message. bytes_of message ≡ message_in_form self ctx.now msg.now) }
    {
        // This saves hashing a message for a context that is refused.
        if ctx.len() > MOST_CONTEXT_LEN {
            return None;
        }
        match self {
            Form::Pure => FormattedMessage::of_message(msg, ctx),
            Form::PreHash(function) => {
                FormattedMessage::of_digest(&pre_hash_digest(msg, function), ctx)
            }
        }
    }

    /// Signs a message in this form, under a context (Algorithms 22 and 23), writing `sig_len` bytes. Refused, with
    /// nothing written, if the context has over 255 bytes.
    pub fn sign(
        self,
        msg: &[u8],
        ctx: &[u8],
        sk: &SecretKey,
        randomizer: Randomizer,
        out: &mut [u8],
    ) -> Result<(), SignFault>
        requires randomizer { HasLength randomizer (params sk.now.set).n }
        requires out { length out.old ≡ sig_len (params sk.now.set) }
        ensures accepted { IsOk result ↔ (length ctx.now ≤ 255) }
        ensures signature { OnOk result (out.new
            ≡ signature_by sk.now (message_in_form self ctx.now msg.now) randomizer.entry) }
        ensures refused { OnErr result (out.new ≡ out.old) }
        ensures len { length out.new ≡ length out.old }
        ensures authentic { OnOk result (IsGeneratedKey sk.now
            → IsValid (public_of sk.now) (message_in_form self ctx.now msg.now) out.new) }
    {
        let Some(message) = self.message(msg, ctx) else {
            return Err(SignFault::ContextTooLong);
        };
        sign_internal(&message.parts(), sk, randomizer, out);
        Ok(())
    }

    /// Whether the bytes are a valid signature of a message in this form, under a context (Algorithms 24 and 25). False
    /// for a context of over 255 bytes.
    pub fn verify(self, msg: &[u8], ctx: &[u8], sig: &[u8], pk: &PublicKey) -> bool
        ensures { IsTrue result ↔ ((length ctx.now ≤ 255)
            × IsValid pk.now (message_in_form self ctx.now msg.now) sig.now) }
    {
        match self.message(msg, ctx) {
            Some(message) => verify_internal(&message.parts(), sig, pk),
            None => false,
        }
    }
}
