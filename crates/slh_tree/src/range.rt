//! The cover of a range of leaves, a node, and the root (FIPS 205, Algorithms 9 and 15).
ghost use Rattle.std.specs.Prelude.{◌≡◌, ℕ, ◌*◌, ◌^◌, ◌<◌, ◌≤◌, [], ◌∷◌, length};
ghost use Rattle.slh_tree.specs.Tree.{node, root};
ghost use Rattle.slh_tree.specs.declared.cover.Placed.{Placed};
ghost use Rattle.slh_tree.specs.Cover.{IsCover, first_leaf, past_leaf};
ghost use Rattle.slh_tree.specs.Record.{Gains, LiesInRange};

use crate::cover::{Cover, Placed};
use crate::leaf_group::LeafGroup;
use crate::record::PathRec;
use crate::stack::Stack;
use crate::tree::Tree;
use slh_params::{Node, copy_of};

/// The cover of the leaves from `lo` to before `hi`. It has at most twice as many nodes as the tree has levels above
/// the leaves. The leaves below one node give only that node. The record gains exactly those nodes of its path whose
/// leaves are all in the range.
pub fn hash_range<T: Tree>(tree: &T, lo: u32, hi: u32, rec: &mut PathRec) -> Cover
    requires order { lo < hi }
    requires within { hi ≤ 2 ^ (T.tree tree.now).height }
    requires same_height { rec.old.height ≡ (T.tree tree.now).height }
    ensures cover { IsCover (T.tree tree.now) lo hi result.nodes.items }
    ensures lo { result.lo ≡ lo }
    ensures hi { result.hi ≡ hi }
    ensures block { (z i : ℕ) → lo ≡ first_leaf z i → hi ≡ past_leaf z i
        → (p : Placed) × (result.nodes.items ≡ p ∷ []) × (p.z ≡ z) × (p.i ≡ i) }
    ensures few { length result.nodes.items ≤ 2 * (T.tree tree.now).height }
    ensures gained { Gains (T.tree tree.now) (LiesInRange lo hi rec.old.leaf) rec.old rec.new }
{
    // For the prover: a tree has a height of at most 14.
    let _highest = tree.height();
    let mut stack = Stack::new();
    let mut group = LeafGroup::none();
    for i in lo..hi {
        let leaf = Placed {
            z: 0,
            i,
            node: group.leaf(tree, i, hi),
        };
        rec.note(&leaf);
        stack.push(tree, leaf, rec);
    }
    stack.into_cover()
}

/// The node of height `z` at index `i`, from the leaves below it: xmss_node of an XMSS tree, fors_node of a FORS tree
/// (FIPS 205, Algorithms 9 and 15).
pub fn node<T: Tree>(tree: &T, z: u32, i: u32) -> Node
    requires height { z ≤ (T.tree tree.now).height }
    requires within { past_leaf z i ≤ 2 ^ (T.tree tree.now).height }
    ensures { result.items ≡ node (T.tree tree.now) z i }
{
    let height = tree.height();
    // No path is wanted, but `hash_range` takes a record of one.
    let mut rec = PathRec::for_leaf(height, 0);
    let size = 1 << z;
    let first = i * size;
    let cover = hash_range(tree, first, first + size, &mut rec);
    copy_of(&cover.nodes[0].node)
}

/// The root of the tree: the node of the tree's height.
pub fn root<T: Tree>(tree: &T) -> Node
    ensures value { result.items ≡ root (T.tree tree.now) }
    ensures width { length result.items ≡ (T.tree tree.now).width }
{
    node(tree, tree.height(), 0)
}
