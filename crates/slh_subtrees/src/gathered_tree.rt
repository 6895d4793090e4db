//! One tree from its ranges (ours).
ghost use Rattle.std.specs.Prelude.{◌^◌, ◌<◌};
ghost use Rattle.slh_subtrees.specs.Gathered.{AreHashed, IsGathered};

use slh_params::Node;
use slh_tree::{Climbs, Cover, PathRec, gather};

/// The root of a tree and the authentication path of its signing leaf.
#[derive(Drop)]
pub struct GatheredTree {
    /// The root, of n bytes.
    pub root: Node,
    /// The path, of which each node below the tree's height is known.
    pub path: PathRec,
}

/// The root of the tree and the path of `leaf`. They come from covers that, end to end, span the tree, and from a
/// record for each cover. A record has the nodes of the path whose leaves are in its range.
pub(crate) fn gathered<T: Climbs>(
    tree: &T,
    leaf: u32,
    covers: &[Cover],
    records: &[PathRec],
) -> GatheredTree
    requires leaf { leaf < 2 ^ (T.tree tree.now).height }
    requires hashed { AreHashed (T.tree tree.now) leaf covers.now records.now }
    ensures { IsGathered (T.tree tree.now) leaf result }
{
    let mut path = PathRec::for_leaf(tree.height(), leaf);
    for record in records {
        path.merge(record);
    }
    let root = gather(tree, covers, &mut path);
    GatheredTree { root, path }
}
