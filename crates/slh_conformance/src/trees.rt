//! Rows about paths, roots and covers of a tree of known nodes (FIPS 205, sections 6 and 8).
ghost use Rattle.std.specs.Prelude.{◌≡◌, ◌≤◌, ◌<◌, ◌^◌, ◌%◌, [], ◌∷◌, IfSome, slice_index, refl};

use crate::row::Row;
use slh_params::{Node, node_of};
use slh_tree::{Climbs, Cover, PathRec, Tree, climb, gather, hash_range, node, path, root};
use std::cell::Cell;

/// A tree whose node (z, i) is the bytes z, i and the second bytes of the two children. It counts how often a leaf was
/// asked for, in `calls`, and keeps which ones were: leaf i as bit i of `asked`.
#[derive(Drop)]
struct Example {
    height: u32,
    leaves: u32,
    calls: Cell<u32>,
    asked: Cell<u64>,
    ghost low: { 1 ≤ height },
    ghost high: { height ≤ 6 },
    ghost all: { leaves ≡ 2 ^ height },
}

impl Climbs for Example {
    ghost tree = { λ t. record {
      height = t.height;
      width = 4;
      leaf = λ i. 0 ∷ (i % 256) ∷ 0 ∷ 0 ∷ [];
      join = λ z i l r. (z % 256) ∷ (i % 256) ∷ slice_index l 1 ∷ slice_index r 1 ∷ [];
    } };

    ghost lawful = { λ t. record { leaf_width = λ i. refl; join_width = λ z i l r. refl } };

    fn height(&self) -> u32 {
        self.height
    }

    fn join(&self, z: u32, i: u32, l: &Node, r: &Node) -> Node {
        node_of(&[(z % 256) as u8, (i % 256) as u8, l[1], r[1]])
    }
}

impl Tree for Example {
    fn leaf(&self, i: u32) -> Node {
        self.calls.set(self.calls.get().wrapping_add(1));
        self.asked.set(self.asked.get() | 1 << (i % 64));
        node_of(&[0, (i % 256) as u8, 0, 0])
    }
}

/// The next two fields: the tree of a height from 1 to 6, and a leaf of it.
fn tree_and_leaf(row: &mut Row) -> Option<(Example, u32)>
    ensures { IfSome result (λ both. both.1 < 2 ^ both.0.height) }
{
    let height = row.below(7) as u32;
    if height == 0 {
        row.refuse();
        return None;
    }
    let tree = Example {
        height,
        leaves: 1 << height,
        calls: Cell::new(0),
        asked: Cell::new(0),
    };
    let leaf = row.below(tree.leaves as u64) as u32;
    Some((tree, leaf))
}

/// A height, a leaf; its path and the root. The path is made from each other leaf once and never from the leaf itself.
/// It leads from it to the root, and comes from the covers of the leaves before and after any place.
pub fn tree_leaf(row: &mut Row) {
    let Some((tree, idx)) = tree_and_leaf(row) else {
        return;
    };
    let mut auth = [0u8; 24];
    let out = &mut auth[..4 * tree.height as usize];
    path(&tree, idx, out);
    row.is_bytes(out);
    row.is_true(tree.calls.get() == tree.leaves - 1);
    row.is_true(tree.asked.get().count_ones() == tree.leaves - 1);
    row.is_true((tree.asked.get() >> (idx % 64)) & 1 == 0);
    let top = root(&tree);
    row.is_bytes(&top);
    row.is_true(
        climb(&tree, idx, &node_of(&[0, idx as u8, 0, 0]), out).as_slice() == top.as_slice(),
    );
    row.is_true(node(&tree, 0, idx).as_slice() == [0, idx as u8, 0, 0].as_slice());
    for cut in 1..tree.leaves {
        row.is_true(gathers(&tree, cut, idx, out, &top));
    }
}

/// Whether the root and the whole path of leaf `idx` come from the covers of the leaves before and after `cut`.
fn gathers(tree: &Example, cut: u32, idx: u32, auth: &[u8], top: &Node) -> bool
    requires some { 0 < cut }
    requires within { cut < 2 ^ tree.now.height }
    requires index { idx < 2 ^ tree.now.height }
{
    let mut rec = PathRec::for_leaf(tree.height, idx);
    let mut other = PathRec::for_leaf(tree.height, idx);
    let covers = [
        hash_range(tree, 0, cut, &mut rec),
        hash_range(tree, cut, tree.leaves, &mut other),
    ];
    rec.merge(&other);
    let last = gather(tree, &covers, &mut rec);
    last.as_slice() == top.as_slice() && has_path(&rec, auth)
}

/// Whether the record has the nodes of this path, of 4 bytes each.
fn has_path(rec: &PathRec, auth: &[u8]) -> bool {
    (0..).zip(auth.chunks_exact(4)).all(|(level, node)| rec
        .at(level)
        .is_some_and(|known| known.as_slice() == node))
}

/// A height, a leaf, a path; what the leaf climbs to.
pub fn tree_climb(row: &mut Row) {
    let Some((tree, idx)) = tree_and_leaf(row) else {
        return;
    };
    let auth = row.bytes();
    if auth.len() != 4 * tree.height as usize {
        return row.refuse();
    }
    let leaf = node_of(&[0, idx as u8, 0, 0]);
    row.is_bytes(&climb(&tree, idx, &leaf, &auth));
}

/// For each height of the leaf's path whether its node is known, as 1 or 0.
fn is_known(row: &mut Row, rec: &PathRec, height: u32) {
    for level in 0..height {
        row.is_number(if rec.at(level).is_some() { 1 } else { 0 });
    }
}

/// A height, a leaf, the first leaf of a range and the one past its last leaf. For each height whether the node of the
/// leaf's path is known. Height, index and bytes of each node of the range's cover.
pub fn tree_cover(row: &mut Row) {
    let Some((tree, idx)) = tree_and_leaf(row) else {
        return;
    };
    let (lo, hi) = (row.word(), row.word());
    if lo >= hi || hi > tree.leaves {
        return row.refuse();
    }
    let mut rec = PathRec::for_leaf(tree.height, idx);
    let cover = hash_range(&tree, lo, hi, &mut rec);
    is_known(row, &rec, tree.height);
    for placed in cover.nodes.as_slice() {
        row.is_number(placed.z as u64);
        row.is_number(placed.i as u64);
        row.is_bytes(&placed.node);
    }
}

/// A height, a leaf, two places. The root, and for each height whether the node of the leaf's path is known: from the
/// covers of the leaves before, between and after the places.
pub fn tree_gather(row: &mut Row) {
    let Some((tree, idx)) = tree_and_leaf(row) else {
        return;
    };
    let (first, second) = (row.word(), row.word());
    if first == 0 || first >= second || second >= tree.leaves {
        return row.refuse();
    }
    let mut rec = PathRec::for_leaf(tree.height, idx);
    let mut other = PathRec::for_leaf(tree.height, idx);
    let covers = [
        hash_range(&tree, 0, first, &mut rec),
        hash_range(&tree, first, second, &mut other),
        hash_range(&tree, second, tree.leaves, &mut other),
    ];
    rec.merge(&other);
    row.is_bytes(&gather(&tree, &covers, &mut rec));
    is_known(row, &rec, tree.height);
}
