//! The leaves of a FORS tree below one node: the nodes beside its path in lanes from height 3 on (FIPS 205, section
//! 8.2).
ghost use Rattle.std.specs.Prelude.{◌≡◌, ℕ, ◌/◌, ◌^◌, ◌<◌, ◌≤◌, IfSome, [], ◌∷◌};
ghost use Rattle.slh_params.specs.ParamSet.{params};
ghost use Rattle.slh_tree.specs.Tree.{node};
ghost use Rattle.slh_tree.specs.declared.cover.Placed.{Placed};
ghost use Rattle.slh_tree.specs.Cover.{IsCover, IsNodeOf, first_leaf, past_leaf};
ghost use Rattle.slh_tree.specs.Record.{Gains, LiesInRange};
ghost use Rattle.slh_few.specs.Trees.{fors_nodes_of};

use crate::fors_tree::ForsNodes;
use arrayvec::ArrayVec;
use slh_params::Node;
use slh_tree::{Cover, PathRec, Placed, Tree, parent};

/// The least and the most height of a node over eight leaves or more in any set.
const LEAST_HEIGHT: u32 = 3;

const MOST_HEIGHT: u32 = 14;

/// The height of the node, if there is one, whose leaves are those from `lo` to `hi`, and are eight or more.
pub(crate) fn block_height(lo: u32, hi: u32) -> Option<u32>
    requires order { lo < hi }
    requires small { hi ≤ 2 ^ MOST_HEIGHT }
    ensures { IfSome result (λ z. (first_leaf z (lo / 2 ^ z) ≡ lo) × (past_leaf z (lo / 2 ^ z) ≡ hi)) }
{
    let z = (hi - lo).trailing_zeros();
    if z < LEAST_HEIGHT || MOST_HEIGHT < z {
        return None;
    }
    let i = lo >> z;
    if i << z == lo && (i + 1) << z == hi {
        Some(z)
    } else {
        None
    }
}

impl<'c, 'a> ForsNodes<'c, 'a> {
    /// The node of height `z` over the record's leaf. The record gains the nodes of its path below that height.
    #[tactic(auto, unfolding(crate::specs::Trees::fors_nodes_of))]
    fn node_over_own_leaf(&self, z: u32, rec: &mut PathRec) -> Node
        requires height { z ≤ (params self.now.signer.now.public.set).a }
        requires index { rec.old.leaf < 2 ^ (params self.now.signer.now.public.set).a }
        requires same_height { rec.old.height ≡ (params self.now.signer.now.public.set).a }
        ensures node { result.items ≡ node (fors_nodes_of self.now) z (rec.old.leaf / 2 ^ z) }
        ensures gained { Gains (fors_nodes_of self.now) (λ j. j < z) rec.old rec.new }
    {
        let leaf = rec.leaf();
        let mut node = self.leaf(leaf);
        for height in 0..z {
            let i = (leaf >> height) ^ 1;
            let sibling = Placed {
                z: height,
                i,
                node: self.node(height, i),
            };
            rec.note(&sibling);
            node = parent(self, leaf, height, &node, &sibling.node);
        }
        node
    }

    /// The node of height `z` at index `i`. The record gains the nodes of its path that are in it.
    fn noted_node(&self, z: u32, i: u32, rec: &mut PathRec) -> Placed
        requires height { z ≤ (params self.now.signer.now.public.set).a }
        requires within { past_leaf z i ≤ 2 ^ (params self.now.signer.now.public.set).a }
        requires same_height { rec.old.height ≡ (params self.now.signer.now.public.set).a }
        ensures node { result.node.items ≡ node (fors_nodes_of self.now) z i }
        ensures z { result.z ≡ z }
        ensures i { result.i ≡ i }
        ensures gained { Gains (fors_nodes_of self.now)
            (LiesInRange (first_leaf z i) (past_leaf z i) rec.old.leaf) rec.old rec.new }
    {
        let node = if rec.leaf() >> z == i {
            self.node_over_own_leaf(z, rec)
        } else {
            self.node(z, i)
        };
        let placed = Placed { z, i, node };
        rec.note(&placed);
        placed
    }

    /// The cover that `hash_range` of `slh_tree` returns for the leaves from `lo` to `hi`, which are those below a node
    /// of height `z`.
    #[tactic(auto, unfolding(crate::specs::Trees::fors_nodes_of))]
    pub(crate) fn hash_block(&self, z: u32, lo: u32, hi: u32, rec: &mut PathRec) -> Cover
        requires height { z ≤ (params self.now.signer.now.public.set).a }
        requires within { hi ≤ 2 ^ (params self.now.signer.now.public.set).a }
        requires from { first_leaf z (lo / 2 ^ z) ≡ lo }
        requires to { past_leaf z (lo / 2 ^ z) ≡ hi }
        requires same_height { rec.old.height ≡ (params self.now.signer.now.public.set).a }
        ensures cover { IsCover (fors_nodes_of self.now) lo hi result.nodes.items }
        ensures lo { result.lo ≡ lo }
        ensures hi { result.hi ≡ hi }
        ensures gained { Gains (fors_nodes_of self.now) (LiesInRange lo hi rec.old.leaf) rec.old rec.new }
    {
        let mut nodes = ArrayVec::new();
        nodes.push(self.noted_node(z, lo >> z, rec));
        Cover { lo, hi, nodes }
    }
}
