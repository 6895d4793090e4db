//! T and H under one PK.seed (FIPS 205, section 11.2).
ghost use Rattle.std.specs.Prelude.{◌≡◌, ◌++◌, ℕ, List, [], length};
ghost use Rattle.slh_params.specs.Params.{Params};
ghost use Rattle.slh_params.specs.ParamSet.{params};
ghost use Rattle.slh_params.specs.Address.{Address};
ghost use Rattle.slh_hash.specs.Hash.{T, H};
ghost use Rattle.slh_hash.specs.HashFunctions.{category_function};
ghost use Rattle.slh_hash.specs.Stream.{HasAbsorbed, IsSeededTree};

use crate::category_hasher::CategoryHasher;
use crate::tweakable::zeros;
use slh_params::{Adrs, Node, ParamSet};

/// H and T_l under one PK.seed: the hash function of the category after its first block, which PK.seed and
/// zeros fill.
///
/// It is made once within a call that joins many nodes, so that each hash begins after that block. Contracts
/// see it by the relation `IsSeededTree`.
#[derive(Drop)]
pub struct SeededTreeHash {
    set: ParamSet,
    hasher: CategoryHasher,
}

impl SeededTreeHash {
    /// The state under this PK.seed of n bytes.
    pub fn new(set: ParamSet, pk_seed: &[u8]) -> Self
        ensures { IsSeededTree result (params set) pk_seed.now }
    {
        let mut hasher = CategoryHasher::new(set);
        hasher.update(pk_seed);
        hasher.update(zeros(block_len(set) - set.n()));
        SeededTreeHash { set, hasher }
    }

    /// T_l (FIPS 205, section 11.2) at an address, before any node.
    pub fn stream(&self, adrs: &Adrs) -> TStream
        ensures { (p : Params) (pk_seed : List ℕ) → IsSeededTree self.now p pk_seed
            → HasAbsorbed result p pk_seed adrs.now [] }
    {
        let mut hasher = self.hasher.copy();
        hasher.update(adrs.compressed());
        TStream {
            set: self.set,
            hasher,
        }
    }

    /// H (section 11.2): the hash of two nodes of n bytes at an address.
    pub fn h(&self, adrs: &Adrs, left: &Node, right: &Node) -> Node
        ensures value { (p : Params) (pk_seed : List ℕ) → IsSeededTree self.now p pk_seed
            → result.items ≡ H p pk_seed adrs.now left.now.items right.now.items }
        ensures len { (p : Params) (pk_seed : List ℕ) → IsSeededTree self.now p pk_seed → length result.items ≡ p.n }
    {
        let mut stream = self.stream(adrs);
        stream.absorb(left);
        stream.absorb(right);
        stream.finish()
    }
}

/// The length of a block of the category's hash function in bytes.
fn block_len(set: ParamSet) -> usize
    ensures { result ≡ (category_function (params set)).block }
{
    if set.n() == 16 { 64 } else { 128 }
}

/// T_l (FIPS 205, section 11.2) over nodes that come one after another, l of them in the end.
///
/// Contracts see it by the relation `HasAbsorbed`.
#[derive(Drop)]
pub struct TStream {
    set: ParamSet,
    hasher: CategoryHasher,
}

impl TStream {
    /// The stream at an address under PK.seed of n bytes, before any node.
    pub fn new(set: ParamSet, pk_seed: &[u8], adrs: &Adrs) -> Self
        ensures { HasAbsorbed result (params set) pk_seed.now adrs.now [] }
    {
        SeededTreeHash::new(set, pk_seed).stream(adrs)
    }

    /// Adds a node of n bytes.
    pub fn absorb(&mut self, node: &Node)
        ensures { (p : Params) (pk_seed : List ℕ) (adrs : Address) (x : List ℕ)
            → HasAbsorbed self.old p pk_seed adrs x → HasAbsorbed self.new p pk_seed adrs (x ++ node.now.items) }
    {
        self.hasher.update(node.as_slice());
    }

    /// T of the nodes absorbed, in their order.
    pub fn finish(self) -> Node
        ensures value { (p : Params) (pk_seed : List ℕ) (adrs : Address) (x : List ℕ)
            → HasAbsorbed self p pk_seed adrs x → result.items ≡ T p pk_seed adrs x }
        ensures len { (p : Params) (pk_seed : List ℕ) (adrs : Address) (x : List ℕ)
            → HasAbsorbed self p pk_seed adrs x → length result.items ≡ p.n }
    {
        let TStream { set, hasher } = self;
        hasher.finish(set.n())
    }
}
