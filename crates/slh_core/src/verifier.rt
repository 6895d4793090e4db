//! Verifying a message in the pure form that comes in pieces (FIPS 205, section 10.3).
ghost use Rattle.std.specs.Prelude.{◌≡◌, ◌↔◌, ◌≤◌, ◌++◌, ℕ, List, [], IsTrue, length};
ghost use Rattle.slh_core.specs.Keys.{Key};
ghost use Rattle.slh_core.specs.Messages.{pure_message};
ghost use Rattle.slh_core.specs.Signatures.{IsValid};
ghost use Rattle.slh_core.specs.Verifying.{HoldsFirst, IsVerifierOf};

use crate::digest_parts::MOST_DIGEST_LEN;
use crate::formatted_message::pure_head;
use crate::public_key::PublicKey;
use crate::verifying::verify_by_digest;
use slh_hash::HMsg;

/// Verifies a message in the pure form that comes in pieces, none of which is held.
///
/// Contracts see it by the relation `IsVerifierOf`.
#[derive(Drop)]
pub struct Verifier<'a> {
    pk: &'a PublicKey,
    sig: &'a [u8],
    hash: Option<HMsg<'a>>,
}

impl<'a> Verifier<'a> {
    /// A verifier of the empty message. The signature comes first, since H_msg hashes its R first.
    #[tactic(auto, unfolding(crate::specs::Verifying::IsVerifierOf))]
    pub fn new(ctx: &[u8], sig: &'a [u8], pk: &'a PublicKey) -> Verifier<'a>
        ensures { IsVerifierOf result pk.now ctx.now sig.now [] }
    {
        let hash = begun(ctx, sig, pk);
        Verifier { pk, sig, hash }
    }

    /// Adds a piece to the end of the message.
    #[tactic(auto, unfolding(crate::specs::Verifying::IsVerifierOf))]
    pub fn update(&mut self, piece: &[u8])
        ensures { (pk : Key) (ctx sig msg : List ℕ) → IsVerifierOf self.old pk ctx sig msg
            → IsVerifierOf self.new pk ctx sig (msg ++ piece.now) }
    {
        if let Some(hash) = &mut self.hash {
            hash.update(piece);
        }
    }

    /// Whether the signature is valid for the pieces put end to end under the context (FIPS 205, Algorithm 24), as by
    /// `verify`. It is false if the signature has another length than the set's, or the context has over 255 bytes.
    #[tactic(auto, unfolding(crate::specs::Verifying::IsVerifierOf))]
    pub fn finish(self) -> bool
        ensures { (pk : Key) (ctx sig msg : List ℕ) → IsVerifierOf self.entry pk ctx sig msg
            → (IsTrue result ↔ ((length ctx ≤ 255) × IsValid pk (pure_message ctx msg) sig)) }
    {
        let Verifier { pk, sig, hash } = self;
        let Some(hash) = hash else {
            return false;
        };
        let set = pk.set();
        if sig.len() != set.sig_len() {
            return false;
        }
        let mut buffer = [0; MOST_DIGEST_LEN];
        let digest = &mut buffer[..set.m()];
        hash.finish(digest);
        verify_by_digest(pk, digest, sig)
    }
}

/// H_msg after all that stands before the message: R, PK.seed, PK.root, and the head of M' with the context. `None` for
/// a context of over 255 bytes. Of a signature shorter than R all is hashed: it is invalid anyway.
fn begun<'a>(ctx: &[u8], sig: &'a [u8], pk: &'a PublicKey) -> Option<HMsg<'a>>
    ensures { HoldsFirst result pk.now ctx.now sig.now [] }
{
    let head = pure_head(ctx)?;
    let r = &sig[..pk.set().n().min(sig.len())];
    let mut hash = HMsg::new(pk.set(), r, pk.pk_seed(), pk.pk_root());
    hash.update(&head);
    hash.update(ctx);
    Some(hash)
}
