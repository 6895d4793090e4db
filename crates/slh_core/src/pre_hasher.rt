//! The running hash of a message that comes in pieces (FIPS 205, section 10.2.2).
ghost use Rattle.std.specs.Prelude.{◌≡◌, ◌++◌, ℕ, List, []};
ghost use Rattle.slh_core.specs.PreHash.{PH};
ghost use Rattle.slh_core.specs.PreHashing.{HasFed};
ghost use Rattle.slh_core.specs.declared.pre_hash.PreHash.{PreHash};

use crate::message_digest::MessageDigest;
use crate::pre_hash::PreHash;
use sha2::{Digest, Sha224, Sha256, Sha384, Sha512, Sha512_224, Sha512_256};

/// The running hash of each function.
#[derive(Drop)]
enum Hasher {
    Of224(Sha224),
    Of256(Sha256),
    Of384(Sha384),
    Of512(Sha512),
    Of512_224(Sha512_224),
    Of512_256(Sha512_256),
}

/// Hashes a message that comes in pieces, before it is signed.
#[derive(Drop)]
pub struct PreHasher {
    state: Hasher,
}

impl PreHasher {
    /// A hasher of the empty message.
    #[tactic(auto, unfolding(crate::specs::PreHashing::HasFed))]
    pub fn new(function: PreHash) -> Self
        ensures { HasFed result function [] }
    {
        let state = match function {
            PreHash::Sha224 => Hasher::Of224(Sha224::new()),
            PreHash::Sha256 => Hasher::Of256(Sha256::new()),
            PreHash::Sha384 => Hasher::Of384(Sha384::new()),
            PreHash::Sha512 => Hasher::Of512(Sha512::new()),
            PreHash::Sha512_224 => Hasher::Of512_224(Sha512_224::new()),
            PreHash::Sha512_256 => Hasher::Of512_256(Sha512_256::new()),
        };
        PreHasher { state }
    }

    /// Adds a piece to the end of the message.
    #[tactic(auto, unfolding(crate::specs::PreHashing::HasFed))]
    pub fn update(&mut self, piece: &[u8])
        ensures { (function : PreHash) (msg : List ℕ) → HasFed self.old function msg
            → HasFed self.new function (msg ++ piece.now) }
    {
        match &mut self.state {
            Hasher::Of224(hasher) => hasher.update(piece),
            Hasher::Of256(hasher) => hasher.update(piece),
            Hasher::Of384(hasher) => hasher.update(piece),
            Hasher::Of512(hasher) => hasher.update(piece),
            Hasher::Of512_224(hasher) => hasher.update(piece),
            Hasher::Of512_256(hasher) => hasher.update(piece),
        }
    }

    /// The digest of the pieces put end to end.
    #[tactic(auto, unfolding(crate::specs::PreHashing::HasFed))]
    pub fn finish(self) -> MessageDigest
        ensures { (function : PreHash) (msg : List ℕ) → HasFed self function msg
            → result ≡ record { function = function; bytes = PH function msg } }
    {
        let PreHasher { state } = self;
        match state {
            Hasher::Of224(hasher) => MessageDigest::of(PreHash::Sha224, &hasher.finalize()),
            Hasher::Of256(hasher) => MessageDigest::of(PreHash::Sha256, &hasher.finalize()),
            Hasher::Of384(hasher) => MessageDigest::of(PreHash::Sha384, &hasher.finalize()),
            Hasher::Of512(hasher) => MessageDigest::of(PreHash::Sha512, &hasher.finalize()),
            Hasher::Of512_224(hasher) => MessageDigest::of(PreHash::Sha512_224, &hasher.finalize()),
            Hasher::Of512_256(hasher) => MessageDigest::of(PreHash::Sha512_256, &hasher.finalize()),
        }
    }
}
