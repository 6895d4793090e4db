//! A partial authentication path: the nodes of one leaf's path that are known so far (ours).
ghost use Rattle.std.specs.Prelude.{◌≡◌, ◌≢◌, ℕ, ◌<◌, ◌≤◌, ◌^◌, Option, None, Some, IfNone, IfSome, MatchOption};
ghost use Rattle.slh_tree.specs.Tree.{sibling_index};
ghost use Rattle.slh_tree.specs.Record.{known};

use crate::cover::Placed;
use slh_params::{Node, copy_of};
use std::marker::Model;

/// The nodes of the authentication path of one leaf that are known so far.
#[derive(Drop)]
pub struct PathRec {
    height: u32,
    leaf: u32,
    nodes: [Option<Node>; 14],
}

impl Model for PathRec {
    ghost use Rattle.std.specs.Prelude.{◌≡◌, ◌≤◌, length, map};
    ghost use Rattle.slh_tree.specs.Record.{KnownPath, bytes_of};

    ghost Value = { KnownPath };

    ghost view = { λ r. record { height = r.height; leaf = r.leaf; nodes = map bytes_of r.nodes } };

    ghost invariant = { λ r. (r.height ≤ 14) × (length r.nodes ≡ 14) };
}

impl PathRec {
    /// A record of the path of leaf `idx` in a tree of this height, which knows nothing yet.
    pub fn for_leaf(height: u32, idx: u32) -> PathRec
        requires low { 1 ≤ height }
        requires high { height ≤ 14 }
        requires index { idx < 2 ^ height }
        ensures height { result.height ≡ height }
        ensures leaf { result.leaf ≡ idx }
        ensures empty { (j : ℕ) → known result j ≡ None }
    {
        PathRec {
            height,
            leaf: idx,
            nodes: [
                None, None, None, None, None, None, None, None, None, None, None, None, None, None,
            ],
        }
    }

    /// The height of the tree.
    fn height(&self) -> u32
        ensures value { result ≡ self.now.height }
        ensures high { result ≤ 14 }
    {
        self.height
    }

    /// The leaf whose path it is.
    pub fn leaf(&self) -> u32
        ensures { result ≡ self.now.leaf }
    {
        self.leaf
    }

    /// Stores the node if it is one of the path's, below the tree's height.
    pub fn note(&mut self, placed: &Placed)
        ensures height { self.new.height ≡ self.old.height }
        ensures leaf { self.new.leaf ≡ self.old.leaf }
        ensures noted { placed.now.z < self.old.height → placed.now.i ≡ sibling_index self.old.leaf placed.now.z
            → known self.new placed.now.z ≡ Some placed.now.node.items }
        ensures kept { (j : ℕ)
            → (j ≡ placed.now.z → j < self.old.height → placed.now.i ≡ sibling_index self.old.leaf j → ⊥)
            → known self.new j ≡ known self.old j }
    {
        if placed.z < self.height && placed.i == (self.leaf >> placed.z) ^ 1 {
            self.keep(placed.z, &placed.node);
        }
    }

    /// Stores the path's node of height `level`.
    fn keep(&mut self, level: u32, node: &Node)
        requires { level < 14 }
        ensures height { self.new.height ≡ self.old.height }
        ensures leaf { self.new.leaf ≡ self.old.leaf }
        ensures here { known self.new level ≡ Some node.now.items }
        ensures others { (j : ℕ) → j ≢ level → known self.new j ≡ known self.old j }
    {
        self.nodes[level as usize] = Some(copy_of(node));
    }

    /// The path's node of height `j`, if it is known.
    pub fn at(&self, j: u32) -> Option<&Node>
        ensures none { IfNone result (known self.now j ≡ None) }
        ensures some { IfSome result (λ node. known self.now j ≡ Some node.now.items) }
    {
        self.nodes.get(j as usize)?.as_ref()
    }

    /// Takes over what `other`, a record of the same leaf, knows.
    pub fn merge(&mut self, other: &PathRec)
        requires height { other.now.height ≡ self.old.height }
        requires leaf { other.now.leaf ≡ self.old.leaf }
        ensures height { self.new.height ≡ self.old.height }
        ensures leaf { self.new.leaf ≡ self.old.leaf }
        ensures taken { (j : ℕ) → j < self.old.height → MatchOption (known other.now j)
            (known self.new j ≡ known self.old j) (λ _. known self.new j ≡ known other.now j) }
        ensures above { (j : ℕ) → self.old.height ≤ j → known self.new j ≡ known self.old j }
    {
        for level in 0..self.height() {
            if let Some(node) = other.at(level) {
                self.keep(level, node);
            }
        }
    }
}
