//! HMAC (FIPS 198-1) with the hash function of a security category, whose text comes in pieces.
ghost use Rattle.std.specs.Prelude.{◌≡◌, ◌++◌, ℕ, List, [], take, length};
ghost use Rattle.slh_params.specs.Params.{Params};
ghost use Rattle.slh_params.specs.ParamSet.{params};
ghost use Rattle.slh_hash.specs.HashFunctions.{category_function};
ghost use Rattle.slh_hash.specs.Keyed.{joined, key_block, hmac_message, hmac};
ghost use Rattle.slh_hash.specs.Stream.{HoldsFor, IsKeyed};

use crate::category_hasher::CategoryHasher;
use crate::hash_function::DigestBytes;
use crate::hmac::{Block, key_block, xor_each};
use sha2::{Sha256, Sha512};
use slh_params::{Node, ParamSet};

/// HMAC with the hash function of the set's category (FIPS 205, section 11.2), under one key, after some of its text.
///
/// A copy goes on from the same place, so that a key or the front of a text that many texts share is hashed once.
/// Contracts see it by the relation `IsKeyed`.
#[derive(Drop)]
pub struct CategoryHmac {
    set: ParamSet,
    inner: CategoryHasher,
    outer: CategoryHasher,
}

impl CategoryHmac {
    /// HMAC under a key of any length, before any text.
    pub fn new(set: ParamSet, key: &[u8]) -> Self
        ensures { IsKeyed result (params set) key.now [] }
    {
        let block = category_key_block(set, key);
        let mut inner = CategoryHasher::new(set);
        inner.update(xor_each(&block, 0x36).as_slice());
        let mut outer = CategoryHasher::new(set);
        outer.update(xor_each(&block, 0x5c).as_slice());
        CategoryHmac { set, inner, outer }
    }

    /// Adds the bytes to the text.
    pub fn update(&mut self, bytes: &[u8])
        ensures { (p : Params) (key text : List ℕ) → IsKeyed self.old p key text
            → IsKeyed self.new p key (text ++ bytes.now) }
    {
        self.inner.update(bytes);
    }

    /// Adds the parts to the text.
    pub(crate) fn absorb(&mut self, parts: &[&[u8]])
        ensures { (p : Params) (key text : List ℕ) → IsKeyed self.old p key text
            → IsKeyed self.new p key (text ++ joined parts.now) }
    {
        for part in parts {
            self.update(part);
        }
    }

    /// A copy, after the same text.
    pub fn copy(&self) -> Self
        ensures { result ≡ self.now }
    {
        CategoryHmac {
            set: self.set,
            inner: self.inner.copy(),
            outer: self.outer.copy(),
        }
    }

    /// The outer hasher after the digest of the inner one: it holds what the HMAC of the text is the digest of.
    fn into_outer(self) -> CategoryHasher
        ensures { (p : Params) (key text : List ℕ) → IsKeyed self p key text
            → HoldsFor result p (hmac_message (category_function p) key text) }
    {
        let CategoryHmac {
            set: _,
            inner,
            mut outer,
        } = self;
        outer.update(inner.digest().as_slice());
        outer
    }

    /// The HMAC of the text.
    #[tactic(auto, unfolding(crate::specs::Keyed::hmac))]
    pub(crate) fn digest(self) -> DigestBytes
        ensures { (p : Params) (key text : List ℕ) → IsKeyed self p key text
            → result.items ≡ hmac (category_function p) key text }
    {
        self.into_outer().digest()
    }

    /// The first n bytes of the HMAC of the text.
    pub fn finish(self) -> Node
        ensures value { (p : Params) (key text : List ℕ) → IsKeyed self p key text
            → result.items ≡ take p.n (hmac (category_function p) key text) }
        ensures len { (p : Params) (key text : List ℕ) → IsKeyed self p key text → length result.items ≡ p.n }
    {
        let set = self.set;
        self.into_outer().finish(set.n())
    }
}

/// K0 for the hash function of the set's category.
fn category_key_block(set: ParamSet, key: &[u8]) -> Block
    ensures { result.items ≡ key_block (category_function (params set)) key.now }
{
    if set.n() == 16 {
        key_block::<Sha256>(key)
    } else {
        key_block::<Sha512>(key)
    }
}
