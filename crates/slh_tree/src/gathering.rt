//! A whole tree from the covers of its ranges (ours).
ghost use Rattle.std.specs.Prelude.{◌≡◌, ℕ, ◌^◌, ◌<◌, ◌≤◌, Some};
ghost use Rattle.slh_tree.specs.Tree.{sibling, root};
ghost use Rattle.slh_tree.specs.Cover.{IsCover, AreCovers};
ghost use Rattle.slh_tree.specs.Record.{known, Gains, Crosses, LiesInOne};

use crate::cover::{Cover, Placed};
use crate::record::PathRec;
use crate::stack::Stack;
use crate::tree::Climbs;
use slh_params::{Node, copy_of};

/// A copy of the node at its place.
fn copy_placed(placed: &Placed) -> Placed
    ensures { result ≡ placed.now }
{
    Placed {
        z: placed.z,
        i: placed.i,
        node: copy_of(&placed.node),
    }
}

/// Adds the nodes of the next cover. The record gains those nodes of its path that end in the range and begin before
/// it.
fn push_cover<T: Climbs>(stack: &mut Stack, tree: &T, cover: &Cover, rec: &mut PathRec)
    requires cover { IsCover (T.tree tree.now) cover.now.lo cover.now.hi cover.now.nodes.items }
    requires follows { IsCover (T.tree tree.now) 0 cover.now.lo stack.old }
    requires same_height { rec.old.height ≡ (T.tree tree.now).height }
    ensures cover { IsCover (T.tree tree.now) 0 cover.now.hi stack.new }
    ensures gained { Gains (T.tree tree.now) (Crosses cover.now.lo cover.now.hi rec.old.leaf) rec.old rec.new }
{
    let nodes = cover.nodes.as_slice();
    for placed in nodes {
        stack.push(tree, copy_placed(placed), rec);
    }
}

/// The one node of a cover of the whole tree.
fn only_node<T: Climbs>(tree: &T, cover: &Cover) -> Node
    requires { IsCover (T.tree tree.now) 0 (2 ^ (T.tree tree.now).height) cover.now.nodes.items }
    ensures { result.items ≡ root (T.tree tree.now) }
{
    copy_of(&cover.nodes[0].node)
}

/// The root of the tree from covers that, put end to end, span it. The record gains exactly those nodes of its path
/// whose leaves are not all in one cover's range. So once the record also has what `hash_range` noted over each range,
/// it knows the whole path.
pub fn gather<T: Climbs>(tree: &T, covers: &[Cover], rec: &mut PathRec) -> Node
    requires covers { AreCovers (T.tree tree.now) 0 covers.now }
    requires same_height { rec.old.height ≡ (T.tree tree.now).height }
    requires leaf { rec.old.leaf < 2 ^ rec.old.height }
    ensures root { result.items ≡ root (T.tree tree.now) }
    ensures gained { Gains (T.tree tree.now) (λ j. LiesInOne covers.now rec.old.leaf j → ⊥) rec.old rec.new }
    ensures complete { ((j : ℕ) → j < rec.old.height → LiesInOne covers.now rec.old.leaf j
        → known rec.old j ≡ Some (sibling (T.tree tree.now) rec.old.leaf j))
        → (j : ℕ) → j < rec.old.height → known rec.new j ≡ Some (sibling (T.tree tree.now) rec.old.leaf j) }
{
    // For the prover: a tree has a height of at most 14.
    let _highest = tree.height();
    let mut stack = Stack::new();
    for cover in covers {
        push_cover(&mut stack, tree, cover, rec);
    }
    only_node(tree, &stack.into_cover())
}
