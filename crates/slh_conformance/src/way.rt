//! The forms in which a message is signed and verified (FIPS 205, sections 9 and 10).
ghost use Rattle.std.specs.Prelude.{◌≡◌, IfSome, length};
ghost use Rattle.slh_params.specs.Params.{sig_len};
ghost use Rattle.slh_params.specs.ParamSet.{params};
ghost use Rattle.slh_core.specs.Randomizers.{HasLength};

use crate::row::Row;
use slh_core::{
    Form, PreHash, PublicKey, Randomizer, SecretKey, Verifier, hash_sign, hash_verify, sign,
    sign_internal, verify, verify_internal,
};

/// How a message is signed and verified.
#[derive(Clone, Copy)]
pub enum Way {
    /// As it stands: `internal`.
    Internal,
    /// `sign` and `verify`: `pure`.
    Pure,
    /// `sign`, and a `Verifier` of two pieces: `pieces`.
    Pieces,
    /// `hash_sign` and `hash_verify`: the function's name.
    PreHash(PreHash),
    /// The methods of `Form`: `Form::Pure`, or the function's name after `Form::`.
    Form(Form),
}

/// The function of this name.
pub fn function_of(row: &mut Row, name: &str) -> PreHash {
    match PreHash::from_name(name) {
        Some(function) => function,
        None => {
            row.refuse();
            PreHash::Sha256
        }
    }
}

/// The way of the next field.
pub fn way_of(row: &mut Row) -> Way {
    match row.text() {
        "internal" => Way::Internal,
        "pure" => Way::Pure,
        "pieces" => Way::Pieces,
        "Form::Pure" => Way::Form(Form::Pure),
        text => match text.strip_prefix("Form::") {
            Some(name) => Way::Form(Form::PreHash(function_of(row, name))),
            None => Way::PreHash(function_of(row, text)),
        },
    }
}

/// Whether the bytes are a valid signature of a message, whose halves are pieces.
fn verify_halves(msg: &[u8], ctx: &[u8], sig: &[u8], pk: &PublicKey) -> bool {
    let (first, second) = msg.split_at(msg.len() / 2);
    let mut verifier = Verifier::new(ctx, sig, pk);
    verifier.update(first);
    verifier.update(second);
    verifier.finish()
}

impl Way {
    /// Signs a message under a context, which is ignored if the message is signed as it is. Whether that was accepted.
    pub fn sign(
        self,
        msg: &[u8],
        ctx: &[u8],
        sk: &SecretKey,
        randomizer: Randomizer,
        out: &mut [u8],
    ) -> bool
        requires randomizer { HasLength randomizer (params sk.now.set).n }
        requires out { length out.old ≡ sig_len (params sk.now.set) }
        ensures { length out.new ≡ length out.old }
    {
        match self {
            Way::Internal => {
                sign_internal(&[msg], sk, randomizer, out);
                true
            }
            Way::Pure | Way::Pieces => sign(msg, ctx, sk, randomizer, out).is_ok(),
            Way::PreHash(function) => hash_sign(msg, ctx, function, sk, randomizer, out).is_ok(),
            Way::Form(form) => form.sign(msg, ctx, sk, randomizer, out).is_ok(),
        }
    }

    /// Whether the bytes are a valid signature of a message under a context.
    pub fn verify(self, msg: &[u8], ctx: &[u8], sig: &[u8], pk: &PublicKey) -> bool {
        match self {
            Way::Internal => verify_internal(&[msg], sig, pk),
            Way::Pure => verify(msg, ctx, sig, pk),
            Way::Pieces => verify_halves(msg, ctx, sig, pk),
            Way::PreHash(function) => hash_verify(msg, ctx, function, sig, pk),
            Way::Form(form) => form.verify(msg, ctx, sig, pk),
        }
    }

    /// The signature of a message under a context, which is not refused.
    pub fn signature(
        self,
        row: &mut Row,
        msg: &[u8],
        ctx: &[u8],
        sk: &SecretKey,
        randomizer: Randomizer,
    ) -> Option<Vec<u8>>
        requires { HasLength randomizer (params sk.now.set).n }
        ensures { IfSome result (λ sig. length sig.items ≡ sig_len (params sk.now.set)) }
    {
        let mut sig = row.zeros(sk.set().sig_len())?;
        row.is_true(self.sign(msg, ctx, sk, randomizer, &mut sig));
        Some(sig)
    }
}
