//! The part of a tree above its ranges, whose nodes are given (ours).
ghost use Rattle.std.specs.Prelude.{[], ◌≡◌, ◌+◌, ◌*◌, ◌<◌, ◌≤◌, ◌^◌, length};
ghost use Rattle.slh_tree.specs.Tree.{root as root_of};
ghost use Rattle.slh_tree.specs.Climb.{path as path_of};
ghost use Rattle.slh_params.specs.ParamSet.{params};
ghost use Rattle.slh_few.specs.Chunks.{end_to_end};
ghost use Rattle.slh_few.specs.Trees.{xmss_joins_of};
ghost use Rattle.slh_few.specs.Xmss.{xmss_tree};
ghost use Rattle.slh_jobs.specs.Ranges.{IsShape, below, node_given, upper_given, auth_given};

use crate::answer_bytes::TreeRanges;
use slh_few::{BatchParents, HashContext, XmssJoins, path_from_leaves};
use slh_params::{Node, node_of};
use slh_tree::{Climbs, Leaves};

/// At least the length of the upper part of a path: 8 nodes of 32 bytes.
const MOST_UPPER_LEN: usize = 8 * 32;

/// The nodes of an XMSS tree above its leaves: tree `tree` of layer `layer`.
#[tactic(auto, unfolding(slh_few::specs::Trees::xmss_joins_of))]
pub(crate) fn xmss_joins<'c, 'a>(
    context: &'c HashContext<'a>,
    layer: u8,
    tree: u64,
) -> XmssJoins<'c, 'a>
    ensures { xmss_joins_of result ≡ xmss_tree (params context.now.set) [] context.now.pk_seed.now layer tree }
{
    XmssJoins {
        context,
        layer,
        tree,
    }
}

/// A tree above its ranges, whose nodes are those of their answers. It is cut at least once.
#[derive(Drop)]
struct UpperTree<'t, 'a, T: Climbs> {
    tree: &'t T,
    ranges: &'t TreeRanges<'a>,
    ghost height: { ranges.now.given.shape.height ≡ (T.tree tree.now).height },
    ghost n: { ranges.now.given.shape.n ≡ (T.tree tree.now).width },
    ghost some: { 1 ≤ ranges.now.given.shape.levels },
    ghost levels: { ranges.now.given.shape.levels ≤ 8 },
}

impl<'t, 'a, T: Climbs> Climbs for UpperTree<'t, 'a, T> {
    ghost use Rattle.slh_jobs.specs.Ranges.{upper_given};
    ghost use Rattle.slh_jobs.specs.UpperTrees.{upper-lawful};

    ghost tree = { λ t. upper_given (T.tree t.tree.now)
        t.ranges.now.given.shape t.ranges.now.given.bytes.now t.ranges.now.first };

    ghost lawful = { λ t. upper-lawful (T.tree t.tree.now) (T.lawful t.tree.now)
        t.ranges.now.given.shape t.ranges.now.given.bytes.now t.ranges.now.first t.n };

    fn height(&self) -> u32 {
        self.ranges.given.shape.levels
    }

    fn join(&self, z: u32, i: u32, l: &Node, r: &Node) -> Node {
        self.tree.join(self.ranges.given.shape.below() + z, i, l, r)
    }
}

impl<'t, 'a, T: BatchParents> BatchParents for UpperTree<'t, 'a, T> {
    fn parents(&self, z: u32, first: u32, count: u32, n: usize, below: &[u8]) -> Leaves {
        let lowest = self.ranges.given.shape.below();
        self.tree.parents(lowest + z, first, count, n, below)
    }
}

/// Writes the path of range `range` in the tree above the ranges, and returns the root that the ranges give. The nodes
/// of each height take the place of those below them, at last of the copies.
fn put_upper<T: BatchParents>(
    tree: &T,
    ranges: &TreeRanges,
    range: u32,
    copies: &mut [u8],
    out: &mut [u8],
) -> Node
    requires shape { IsShape ranges.now.given.shape }
    requires height { ranges.now.given.shape.height ≡ (T.tree tree.now).height }
    requires n { ranges.now.given.shape.n ≡ (T.tree tree.now).width }
    requires range { range < 2 ^ ranges.now.given.shape.levels }
    requires copies { let x = ranges.now in copies.old
        ≡ end_to_end (λ r. node_given x.given.shape x.given.bytes.now (x.first + r)) (2 ^ x.given.shape.levels) }
    requires out { length out.old ≡ ranges.now.given.shape.levels * ranges.now.given.shape.n }
    ensures path { let x = ranges.now in
        out.new ≡ path_of (upper_given (T.tree tree.now) x.given.shape x.given.bytes.now x.first) range }
    ensures root { let x = ranges.now in
        result.items ≡ root_of (upper_given (T.tree tree.now) x.given.shape x.given.bytes.now x.first) }
    ensures len { length result.items ≡ ranges.now.given.shape.n }
{
    if ranges.given.shape.levels == 0 {
        return node_of(copies);
    }
    let n = ranges.given.shape.n;
    path_from_leaves(&UpperTree { tree, ranges }, range, n, copies, out)
}

/// The root that the ranges of a tree give, n bytes, from the copies of their nodes.
pub(crate) fn top_root<T: BatchParents>(tree: &T, ranges: &TreeRanges, copies: &mut [u8]) -> Node
    requires shape { IsShape ranges.now.given.shape }
    requires height { ranges.now.given.shape.height ≡ (T.tree tree.now).height }
    requires n { ranges.now.given.shape.n ≡ (T.tree tree.now).width }
    requires copies { let x = ranges.now in copies.old
        ≡ end_to_end (λ r. node_given x.given.shape x.given.bytes.now (x.first + r)) (2 ^ x.given.shape.levels) }
    ensures value { let x = ranges.now in
        result.items ≡ root_of (upper_given (T.tree tree.now) x.given.shape x.given.bytes.now x.first) }
    ensures len { length result.items ≡ ranges.now.given.shape.n }
{
    // No path is wanted, but `put_upper` writes one.
    let mut path = [0; MOST_UPPER_LEN];
    let len = ranges.given.shape.levels as usize * ranges.given.shape.n;
    put_upper(tree, ranges, 0, copies, &mut path[..len])
}

/// Writes the path of leaf `leaf` of a tree: from its range's answer, and then from the copies of the nodes of the
/// ranges. Returns the root that the ranges give.
pub(crate) fn put_auth<T: BatchParents>(
    tree: &T,
    ranges: &TreeRanges,
    leaf: u32,
    copies: &mut [u8],
    out: &mut [u8],
) -> Node
    requires shape { IsShape ranges.now.given.shape }
    requires height { ranges.now.given.shape.height ≡ (T.tree tree.now).height }
    requires n { ranges.now.given.shape.n ≡ (T.tree tree.now).width }
    requires room { below ranges.now.given.shape * ranges.now.given.shape.n ≤ ranges.now.given.shape.own }
    requires leaf { leaf < 2 ^ ranges.now.given.shape.height }
    requires copies { let x = ranges.now in copies.old
        ≡ end_to_end (λ r. node_given x.given.shape x.given.bytes.now (x.first + r)) (2 ^ x.given.shape.levels) }
    requires out { length out.old ≡ ranges.now.given.shape.height * ranges.now.given.shape.n }
    ensures path { let x = ranges.now in
        out.new ≡ auth_given (T.tree tree.now) x.given.shape x.given.bytes.now x.first leaf }
    ensures root { let x = ranges.now in
        result.items ≡ root_of (upper_given (T.tree tree.now) x.given.shape x.given.bytes.now x.first) }
    ensures len { length result.items ≡ ranges.now.given.shape.n }
{
    let range = leaf >> ranges.given.shape.below();
    let (lower, upper) = out.split_at_mut(ranges.given.shape.path_len());
    lower.copy_from_slice(ranges.given.path((ranges.first + range) as usize));
    put_upper(tree, ranges, range, copies, upper)
}
