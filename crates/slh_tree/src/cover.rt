//! Nodes at their places, and covers of a range of leaves (ours).
ghost use Rattle.std.specs.Prelude.{◌≡◌, ℕ, ◌^◌, ◌≤◌, ◌↔◌, List, reverse};
ghost use Rattle.slh_tree.specs.declared.cover.Placed.{Placed};
ghost use Rattle.slh_tree.specs.Tree.{MerkleTree};
ghost use Rattle.slh_tree.specs.Cover.{first_leaf, past_leaf, IsCover, IsCoverFromEnd};

use arrayvec::ArrayVec;
use slh_params::Node;

/// The node of height `z` at index `i`.
#[derive(Default, Drop)]
pub struct Placed {
    pub z: u32,
    pub i: u32,
    pub node: Node,
}

/// The nodes that cover the leaves from `lo` to before `hi`. Their leaves, end to end, are these, and no left child is
/// followed by its right sibling.
#[derive(Drop)]
pub struct Cover {
    pub lo: u32,
    pub hi: u32,
    pub nodes: ArrayVec<Placed, 32>,
}

impl Placed {
    /// The first leaf below the node.
    pub(crate) fn first_leaf(&self) -> u32
        requires height { self.now.z ≤ 14 }
        requires within { past_leaf self.now.z self.now.i ≤ 2 ^ 14 }
        ensures { result ≡ first_leaf self.now.z self.now.i }
    {
        self.i << self.z
    }

    /// The leaf after the last one below the node.
    pub(crate) fn past_leaf(&self) -> u32
        requires height { self.now.z ≤ 14 }
        requires within { past_leaf self.now.z self.now.i ≤ 2 ^ 14 }
        ensures { result ≡ past_leaf self.now.z self.now.i }
    {
        (self.i + 1) << self.z
    }
}

/// The law that a cover can as well be read from its last node: each node ends at the beginning of the next. It does
/// nothing: the law is its contract.
pub fn covers_read_from_the_end()
    ensures { (t : MerkleTree) (lo hi : ℕ) (nodes : List Placed) → IsCover t lo hi nodes
        ↔ IsCoverFromEnd t lo hi (reverse nodes) }
{}

/// The law that a range of a tree's leaves has one cover. It does nothing: the law is its contract.
pub fn covers_are_unique()
    ensures { (t : MerkleTree) (lo hi : ℕ) (nodes others : List Placed)
        → IsCover t lo hi nodes → IsCover t lo hi others → nodes ≡ others }
{}
