//! The stack of nodes that are not joined yet (ours): treehash over a range of leaves.
ghost use Rattle.std.specs.Prelude.{◌≡◌, ℕ, ◌+◌, ◌-◌, ◌*◌, ◌/◌, ◌^◌, ◌<◌, ◌≤◌, List, [], ◌∷◌, ◌++◌, Some, length, reverse, IfSome, IfNone};
ghost use Rattle.slh_tree.specs.declared.cover.Placed.{Placed};
ghost use Rattle.slh_tree.specs.Tree.{MerkleTree};
ghost use Rattle.slh_tree.specs.Cover.{first_leaf, past_leaf, IsNodeOf, AreSiblings, EndsApart, IsCover};
ghost use Rattle.slh_tree.specs.Record.{Gains, Completes};

use crate::cover::{Cover, Placed};
use crate::record::PathRec;
use crate::tree::Climbs;
use arrayvec::ArrayVec;
use std::marker::Model;

/// The nodes of a cover that grows to the right.
#[derive(Drop)]
pub struct Stack {
    nodes: ArrayVec<Placed, 32>,
}

impl Model for Stack {
    ghost use Rattle.std.specs.Prelude.{◌≤◌, ◌^◌, List, All};
    ghost use Rattle.slh_tree.specs.declared.cover.Placed.{Placed};
    ghost use Rattle.slh_tree.specs.Cover.{past_leaf};

    ghost Value = { List Placed };

    ghost view = { λ s. s.nodes.items };

    // No tree has more than 2^14 leaves.
    ghost invariant = { λ s. All (λ p. (p.z ≤ 14) × (past_leaf p.z p.i ≤ 2 ^ 14)) s.nodes.items };
}

/// The parent of two siblings, both nodes of the tree.
fn join_siblings<T: Climbs>(tree: &T, left: &Placed, right: &Placed) -> Placed
    requires left { IsNodeOf (T.tree tree.now) left.now }
    requires right { IsNodeOf (T.tree tree.now) right.now }
    requires siblings { AreSiblings left.now right.now }
    ensures node { IsNodeOf (T.tree tree.now) result }
    ensures height { result.z ≡ right.now.z + 1 }
    ensures index { right.now.i ≡ 2 * result.i + 1 }
{
    // For the prover: a tree has a height of at most 14.
    let _highest = tree.height();
    let z = left.z + 1;
    let i = left.i / 2;
    Placed {
        z,
        i,
        node: tree.join(z, i, &left.node, &right.node),
    }
}

impl Stack {
    /// A stack of no nodes.
    pub fn new() -> Stack
        ensures { result ≡ [] }
    {
        Stack {
            nodes: ArrayVec::new(),
        }
    }

    /// Takes the last node off if it is the left sibling of `right`.
    fn take_left(&mut self, right: &Placed) -> Option<Placed>
        ensures some { IfSome result (λ left. (self.old ≡ self.new ++ left ∷ []) × AreSiblings left right.now) }
        ensures none { IfNone result ((self.new ≡ self.old) × EndsApart (reverse self.old) right.now) }
    {
        let last = self.nodes.last()?;
        if right.i % 2 == 1 && last.z == right.z && last.i == right.i - 1 {
            self.nodes.pop()
        } else {
            None
        }
    }

    /// Adds the tree's node `placed`, whose leaves begin at the end of those of the last node. While the last two nodes
    /// are siblings, they are joined, and each node that arises is noted in the record; `placed` itself is not.
    pub fn push<T: Climbs>(&mut self, tree: &T, placed: Placed, rec: &mut PathRec)
        requires own { IsNodeOf (T.tree tree.now) placed }
        requires follows { (lo : ℕ) × IsCover (T.tree tree.now) lo (first_leaf placed.z placed.i) self.old }
        requires same_height { rec.old.height ≡ (T.tree tree.now).height }
        ensures cover { (lo : ℕ) → IsCover (T.tree tree.now) lo (first_leaf placed.z placed.i) self.old
            → IsCover (T.tree tree.now) lo (past_leaf placed.z placed.i) self.new }
        ensures gained { (lo : ℕ) → IsCover (T.tree tree.now) lo (first_leaf placed.z placed.i) self.old
            → Gains (T.tree tree.now) (Completes lo placed rec.old.leaf) rec.old rec.new }
    {
        // For the prover: a tree has a height of at most 14.
        let _highest = tree.height();
        let mut top = placed;
        while let Some(left) = self.take_left(&top) {
            top = join_siblings(tree, &left, &top);
            rec.note(&top);
        }
        self.nodes.push(top);
    }

    /// The nodes as a cover of their leaves. Something was pushed.
    pub fn into_cover(self) -> Cover
        requires { 0 < length self }
        ensures nodes { result.nodes.items ≡ self }
        ensures range { (t : MerkleTree) (lo hi : ℕ) → IsCover t lo hi self → (result.lo ≡ lo) × (result.hi ≡ hi) }
    {
        let Stack { nodes } = self;
        let lo = nodes[0].first_leaf();
        let hi = nodes[nodes.len() - 1].past_leaf();
        Cover { lo, hi, nodes }
    }
}
