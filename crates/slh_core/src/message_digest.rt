//! The digest of a message, made before it is signed (FIPS 205, section 10.2.2).
ghost use Rattle.std.specs.Prelude.{◌≡◌, ◌↔◌, IsSome, IfSome, length};
ghost use Rattle.slh_core.specs.PreHash.{Digest, digest_len};

use crate::pre_hash::PreHash;
use arrayvec::ArrayVec;
use std::marker::Model;

/// The digest of a message under a pre-hash function.
#[derive(Drop)]
pub struct MessageDigest {
    function: PreHash,
    bytes: ArrayVec<u8, 64>,
}

impl Model for MessageDigest {
    ghost Value = { Digest };

    ghost view = { λ digest. record { function = digest.function; bytes = digest.bytes.items } };

    ghost invariant = { λ digest. length digest.bytes.items ≡ digest_len digest.function };
}

impl MessageDigest {
    /// The digest that has these bytes. `None` if they are not `digest_len` of the function.
    pub fn from_bytes(function: PreHash, bytes: &[u8]) -> Option<MessageDigest>
        ensures accepted { IsSome result ↔ (length bytes.now ≡ digest_len function) }
        ensures digest { IfSome result (λ digest. digest ≡ record { function = function; bytes = bytes.now }) }
    {
        if bytes.len() != function.digest_len() {
            return None;
        }
        Some(MessageDigest::of(function, bytes))
    }

    /// The digest that has these bytes, as many as the function gives.
    pub(crate) fn of(function: PreHash, bytes: &[u8]) -> MessageDigest
        requires { length bytes.now ≡ digest_len function }
        ensures { result ≡ record { function = function; bytes = bytes.now } }
    {
        // For the prover: a digest has at most 64 bytes.
        let _len = function.digest_len();
        let mut copy = ArrayVec::new();
        let _ = copy.try_extend_from_slice(bytes);
        MessageDigest {
            function,
            bytes: copy,
        }
    }

    /// A copy of the digest.
    pub(crate) fn copy(&self) -> MessageDigest
        ensures { result ≡ self.now }
    {
        MessageDigest::of(self.function, self.bytes())
    }

    /// The pre-hash function.
    pub fn function(&self) -> PreHash
        ensures { result ≡ self.now.function }
    {
        self.function
    }

    /// The digest as bytes.
    pub fn bytes(&self) -> &[u8]
        ensures value { result.now ≡ self.now.bytes }
        ensures len { length result.now ≡ digest_len self.now.function }
    {
        self.bytes.as_slice()
    }
}
