//! Several leaves of a range at once (ours).
ghost use Rattle.std.specs.Prelude.{◌≡◌, ◌^◌, ◌<◌, ◌≤◌};
ghost use Rattle.slh_tree.specs.Tree.{MerkleTree};
ghost use Rattle.slh_tree.specs.Leaves.{AreLeaves};

use crate::tree::{Leaves, MOST_LEAVES, Tree};
use slh_params::{Node, copy_of};

/// Leaves of a tree, one after another.
#[derive(Drop)]
pub(crate) struct LeafGroup {
    first: u32,
    nodes: Leaves,
}

impl LeafGroup {
    /// No leaves.
    pub(crate) fn none() -> LeafGroup
        ensures { (t : MerkleTree) → AreLeaves t result }
    {
        LeafGroup {
            first: 0,
            nodes: Leaves::new(),
        }
    }

    /// Leaf `i`. If the group does not have it, the group becomes that leaf and the next ones, up to `MOST_LEAVES` and
    /// below `hi`.
    pub(crate) fn leaf<T: Tree>(&mut self, tree: &T, i: u32, hi: u32) -> Node
        requires own { AreLeaves (T.tree tree.now) self.old }
        requires index { i < hi }
        requires within { hi ≤ 2 ^ (T.tree tree.now).height }
        ensures leaf { result.items ≡ (T.tree tree.now).leaf i }
        ensures own { AreLeaves (T.tree tree.now) self.new }
    {
        let held = self.nodes.len() as u32;
        if i < self.first || held <= i - self.first {
            self.first = i;
            self.nodes = tree.leaves(i, (hi - i).min(MOST_LEAVES as u32));
        }
        copy_of(&self.nodes[(i - self.first) as usize])
    }
}
