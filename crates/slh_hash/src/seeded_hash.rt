//! F and PRF under one PK.seed (FIPS 205, section 11.2).
ghost use Rattle.std.specs.Prelude.{◌≡◌, ℕ, List, [], length};
ghost use Rattle.sha2.specs.Hashers.{Holds256};
ghost use Rattle.slh_params.specs.Params.{Params};
ghost use Rattle.slh_params.specs.ParamSet.{params};
ghost use Rattle.slh_hash.specs.Hash.{F, PRF, tweaked_hash};
ghost use Rattle.slh_hash.specs.HashFunctions.{SHA_256};
ghost use Rattle.slh_hash.specs.Seeded.{IsSeeded};

use crate::tweakable::{truncated, zeros};
use sha2::{Digest, Sha256};
use slh_params::{Adrs, Node, ParamSet};

/// F and PRF under one PK.seed: SHA-256 after its first block, which PK.seed and zeros fill.
///
/// It is made once within a call that hashes often, so that each hash begins after that block. Contracts
/// see it by the relation `IsSeeded`.
#[derive(Drop)]
pub struct SeededHash {
    set: ParamSet,
    state: Sha256,
}

impl SeededHash {
    /// The state under this PK.seed of n bytes.
    pub fn new(set: ParamSet, pk_seed: &[u8]) -> Self
        ensures { IsSeeded result (params set) pk_seed.now }
    {
        let mut state = Sha256::new();
        state.update(pk_seed);
        state.update(zeros(64 - set.n()));
        SeededHash { set, state }
    }

    /// The first n bytes of the digest of PK.seed, zeros, the address and the bytes.
    fn digest(&self, adrs: &Adrs, x: &[u8]) -> Node
        ensures value { (p : Params) (pk_seed : List ℕ) → IsSeeded self.now p pk_seed
            → result.items ≡ tweaked_hash SHA_256 p pk_seed adrs.now x.now }
        ensures len { length result.items ≡ (params self.now.set).n }
    {
        let Ok(mut state) = self.state.clone() else {
            unreachable!()
        };
        state.update(adrs.compressed());
        state.update(x);
        let digest = state.finalize();
        truncated(&digest, self.set.n())
    }

    /// F (FIPS 205, section 11.2): the hash of a node of n bytes at an address.
    #[tactic(auto, unfolding(crate::specs::Hash::F))]
    pub fn f(&self, adrs: &Adrs, x: &Node) -> Node
        ensures value { (p : Params) (pk_seed : List ℕ) → IsSeeded self.now p pk_seed
            → result.items ≡ F p pk_seed adrs.now x.now.items }
        ensures len { (p : Params) (pk_seed : List ℕ) → IsSeeded self.now p pk_seed → length result.items ≡ p.n }
    {
        self.digest(adrs, x.as_slice())
    }

    /// PRF (section 11.2): the secret at an address, from SK.seed of n bytes.
    #[tactic(auto, unfolding(crate::specs::Hash::PRF))]
    pub fn prf(&self, sk_seed: &[u8], adrs: &Adrs) -> Node
        ensures value { (p : Params) (pk_seed : List ℕ) → IsSeeded self.now p pk_seed
            → result.items ≡ PRF p pk_seed sk_seed.now adrs.now }
        ensures len { (p : Params) (pk_seed : List ℕ) → IsSeeded self.now p pk_seed → length result.items ≡ p.n }
    {
        self.digest(adrs, sk_seed)
    }
}
