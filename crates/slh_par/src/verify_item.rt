//! One signature to verify (FIPS 205, Algorithms 24 and 25).
ghost use Rattle.std.specs.Prelude.{◌↔◌, IsTrue};

use slh_core::{Form, PreHash, PublicKey};

/// A signature to verify, with its form, message, context and key. All bytes may be any.
#[derive(Clone, Copy)]
pub struct VerifyItem<'a> {
    /// The key that is to have signed.
    pub pk: &'a PublicKey,
    /// The message.
    pub msg: &'a [u8],
    /// The context.
    pub ctx: &'a [u8],
    /// The function by whose digest the message was signed; `None` if the message itself was signed.
    pub prehash: Option<PreHash>,
    /// The signature.
    pub sig: &'a [u8],
}

impl<'a> VerifyItem<'a> {
    ghost use Rattle.slh_par.specs.Verdicts.{IsVerified};

    /// Whether the signature is valid: `Form::verify` of `slh_core` (FIPS 205, Algorithms 24 and 25).
    pub fn is_valid(&self) -> bool
        ensures { IsTrue result ↔ IsVerified self.now }
    {
        Form::with(self.prehash).verify(self.msg, self.ctx, self.sig, self.pk)
    }
}
