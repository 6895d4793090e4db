//! Nodes of a FORS tree in lanes, in one or two groups of eight (FIPS 205, section 8.2).
ghost use Rattle.std.specs.Prelude.{[], ◌≡◌, ℕ, ◌+◌, ◌-◌, ◌*◌, ◌^◌, ◌≤◌, ◌<◌, length};
ghost use Rattle.slh_params.specs.Address.{address};
ghost use Rattle.slh_params.specs.AdrsType.{type_number};
ghost use Rattle.slh_params.specs.ParamSet.{params};
ghost use Rattle.slh_lanes.specs.Lanes.{HasAddress, group, value_at};
ghost use Rattle.slh_tree.specs.Cover.{past_leaf};
ghost use Rattle.slh_tree.specs.Tree.{node};
ghost use Rattle.slh_few.specs.Fors.{fors_tree};
ghost use Rattle.slh_few.specs.Heights.{AreParents};
ghost use Rattle.slh_few.specs.LaneValues.{AreJoins, AreNodes, AreSixteen};
ghost use Rattle.slh_few.specs.Chunks.{chunk};
ghost use Rattle.slh_few.specs.Trees.{fors_nodes_of};
ghost use Rattle.slh_few.specs.declared.fors_parts.TheConstants.{MOST_TREES};

use crate::fors_tree::{ForsNodes, ForsPlace, fors_adrs, index_in_forest};
use crate::nodes::{chunk_at, first_nodes};
use slh_lanes::{
    GROUP, LaneAdrs, LaneNodes, SeededLanes, adrs_lanes, consecutive, even_lanes, lane_node,
    node_lanes, odd_lanes, set_hashes, set_lane,
};
use slh_params::{AdrsType, Node, ParamSet};
use slh_tree::{Leaves, node};

impl ForsPlace {
    /// The addresses of a type of the nodes of height `z` from index `first` on, one in each lane.
    fn lane_adrs(&self, set: ParamSet, kind: AdrsType, z: u32, first: u32) -> LaneAdrs
        requires tree { self.now.tree_no < MOST_TREES }
        requires height { z ≤ (params set).a }
        requires index { first < 2 ^ ((params set).a - z) }
        ensures { (j : ℕ) → j < GROUP
            → HasAddress result j (address 0 self.now.idx_tree (type_number kind) self.now.idx_leaf z
            (self.now.tree_no * 2 ^ ((params set).a - z) + (first + j))) }
    {
        let index = index_in_forest(self.tree_no, set.a() - z, first);
        let mut adrs = adrs_lanes(&fors_adrs(self.idx_tree, self.idx_leaf, kind, z, 0));
        set_hashes(&mut adrs, consecutive(index));
        adrs
    }

    /// The leaves of the tree from `first` on, one in each lane: F of their secrets.
    pub(crate) fn leaf_lanes(&self, lanes: &SeededLanes, sk_seed: &[u8], first: u32) -> LaneNodes
        requires sk_seed { length sk_seed.now ≡ (params lanes.now.set).n }
        requires tree { self.now.tree_no < MOST_TREES }
        requires index { first < 2 ^ (params lanes.now.set).a }
        ensures { let p = params lanes.now.set in let t = self.now in
            (j : ℕ) → j < GROUP → value_at result j p.n
            ≡ (fors_tree p sk_seed.now lanes.now.pk_seed.now t.idx_tree t.idx_leaf t.tree_no).leaf (first + j) }
    {
        let mut leaves = lanes.prf(
            sk_seed,
            &[self.lane_adrs(lanes.set, AdrsType::ForsPrf, 0, first)],
        );
        let adrs = self.lane_adrs(lanes.set, AdrsType::ForsTree, 0, first);
        lanes.f(&[adrs], &mut leaves);
        let [leaves] = leaves;
        leaves
    }

    /// Sixteen leaves of the tree from `first` on, in two groups. Since this and `join_sixteen` are not inlined, the
    /// frames of the recursion lack their vectors.
    #[inline(never)]
    fn sixteen_leaves(&self, lanes: &SeededLanes, sk_seed: &[u8], first: u32) -> [LaneNodes; 2]
        requires sk_seed { length sk_seed.now ≡ (params lanes.now.set).n }
        requires tree { self.now.tree_no < MOST_TREES }
        requires within { first + 2 * GROUP ≤ 2 ^ (params lanes.now.set).a }
        ensures { let p = params lanes.now.set in let t = self.now in
            AreSixteen (fors_tree p sk_seed.now lanes.now.pk_seed.now t.idx_tree t.idx_leaf t.tree_no) p.n 0 first result }
    {
        let set = lanes.set;
        let next = first + GROUP as u32;
        let adrs = [
            self.lane_adrs(set, AdrsType::ForsPrf, 0, first),
            self.lane_adrs(set, AdrsType::ForsPrf, 0, next),
        ];
        let mut leaves = lanes.prf(sk_seed, &adrs);
        let adrs = [
            self.lane_adrs(set, AdrsType::ForsTree, 0, first),
            self.lane_adrs(set, AdrsType::ForsTree, 0, next),
        ];
        lanes.f(&adrs, &mut leaves);
        leaves
    }

    /// The nodes of height `z` from index `i` on: H of their children, which are the sixteen nodes of the two.
    fn join_lanes(
        &self,
        lanes: &SeededLanes,
        z: u32,
        i: u32,
        left: &LaneNodes,
        right: &LaneNodes,
    ) -> LaneNodes
        requires tree { self.now.tree_no < MOST_TREES }
        requires height { z ≤ (params lanes.now.set).a }
        requires index { i < 2 ^ ((params lanes.now.set).a - z) }
        ensures { let p = params lanes.now.set in let t = self.now in
            AreJoins ((fors_tree p [] lanes.now.pk_seed.now t.idx_tree t.idx_leaf t.tree_no).join z) p.n i
            left.now right.now result }
    {
        let adrs = self.lane_adrs(lanes.set, AdrsType::ForsTree, z, i);
        let mut nodes = [even_lanes(left, right)];
        lanes.h(&[adrs], &mut nodes, &[odd_lanes(left, right)]);
        let [nodes] = nodes;
        nodes
    }

    /// Puts sixteen nodes of height `z` from index `i` on in place of their first sixteen children. The other sixteen
    /// are those of `next`.
    #[inline(never)]
    fn join_sixteen(
        &self,
        lanes: &SeededLanes,
        z: u32,
        i: u32,
        nodes: &mut [LaneNodes; 2],
        next: &[LaneNodes; 2],
    )
        requires tree { self.now.tree_no < MOST_TREES }
        requires height { z ≤ (params lanes.now.set).a }
        requires within { i + 2 * GROUP ≤ 2 ^ ((params lanes.now.set).a - z) }
        ensures first { let p = params lanes.now.set in let t = self.now in
            AreJoins ((fors_tree p [] lanes.now.pk_seed.now t.idx_tree t.idx_leaf t.tree_no).join z) p.n i
            (group nodes.old 0) (group nodes.old 1) (group nodes.new 0) }
        ensures second { let p = params lanes.now.set in let t = self.now in
            AreJoins ((fors_tree p [] lanes.now.pk_seed.now t.idx_tree t.idx_leaf t.tree_no).join z) p.n (i + GROUP)
            (group next.now 0) (group next.now 1) (group nodes.new 1) }
    {
        let adrs = [
            self.lane_adrs(lanes.set, AdrsType::ForsTree, z, i),
            self.lane_adrs(lanes.set, AdrsType::ForsTree, z, i + GROUP as u32),
        ];
        let right = [
            odd_lanes(&nodes[0], &nodes[1]),
            odd_lanes(&next[0], &next[1]),
        ];
        *nodes = [
            even_lanes(&nodes[0], &nodes[1]),
            even_lanes(&next[0], &next[1]),
        ];
        lanes.h(&adrs, nodes, &right);
    }

    /// Sixteen nodes of height `z` from index `i` on, in two groups, as fors_node makes each (Algorithm 15).
    fn sixteen_nodes(&self, lanes: &SeededLanes, sk_seed: &[u8], z: u32, i: u32) -> [LaneNodes; 2]
        requires sk_seed { length sk_seed.now ≡ (params lanes.now.set).n }
        requires tree { self.now.tree_no < MOST_TREES }
        requires height { z ≤ (params lanes.now.set).a }
        requires within { i + 2 * GROUP ≤ 2 ^ ((params lanes.now.set).a - z) }
        ensures { let p = params lanes.now.set in let t = self.now in
            AreSixteen (fors_tree p sk_seed.now lanes.now.pk_seed.now t.idx_tree t.idx_leaf t.tree_no) p.n z i result }
    {
        if z == 0 {
            return self.sixteen_leaves(lanes, sk_seed, i);
        }
        let mut nodes = self.sixteen_nodes(lanes, sk_seed, z - 1, 2 * i);
        let next = self.sixteen_nodes(lanes, sk_seed, z - 1, 2 * i + 2 * GROUP as u32);
        self.join_sixteen(lanes, z, i, &mut nodes, &next);
        nodes
    }

    /// The eight nodes of height `z` from index `i` on.
    fn eight_nodes(&self, lanes: &SeededLanes, sk_seed: &[u8], z: u32, i: u32) -> LaneNodes
        requires sk_seed { length sk_seed.now ≡ (params lanes.now.set).n }
        requires tree { self.now.tree_no < MOST_TREES }
        requires height { z ≤ (params lanes.now.set).a }
        requires within { i + GROUP ≤ 2 ^ ((params lanes.now.set).a - z) }
        ensures { let p = params lanes.now.set in let t = self.now in
            AreNodes (fors_tree p sk_seed.now lanes.now.pk_seed.now t.idx_tree t.idx_leaf t.tree_no) p.n z i result }
    {
        if z == 0 {
            self.leaf_lanes(lanes, sk_seed, i)
        } else {
            let [left, right] = self.sixteen_nodes(lanes, sk_seed, z - 1, 2 * i);
            self.join_lanes(lanes, z, i, &left, &right)
        }
    }

    /// The node of height `z` at index `i`.
    fn node_from_lanes(&self, lanes: &SeededLanes, sk_seed: &[u8], z: u32, i: u32) -> Node
        requires sk_seed { length sk_seed.now ≡ (params lanes.now.set).n }
        requires tree { self.now.tree_no < MOST_TREES }
        requires low { 3 ≤ z }
        requires height { z ≤ (params lanes.now.set).a }
        requires index { i < 2 ^ ((params lanes.now.set).a - z) }
        ensures { let p = params lanes.now.set in let t = self.now in
            result.items
            ≡ node (fors_tree p sk_seed.now lanes.now.pk_seed.now t.idx_tree t.idx_leaf t.tree_no) z i }
    {
        let eight = self.eight_nodes(lanes, sk_seed, z - 3, GROUP as u32 * i);
        let four = self.join_lanes(lanes, z - 2, 4 * i, &eight, &eight);
        let two = self.join_lanes(lanes, z - 1, 2 * i, &four, &four);
        let one = self.join_lanes(lanes, z, i, &two, &two);
        lane_node(&one, 0, lanes.set.n())
    }
}

/// The children on one side of the nodes from index `first` on, one in each lane up to the lane `count`. 0 is the left
/// side, 1 the right one. They come from the nodes of the height below, end to end.
fn children(set: ParamSet, below: &[u8], first: u32, side: usize, count: usize) -> LaneNodes
    requires side { side ≤ 1 }
    requires lanes { count ≤ GROUP }
    requires below { 2 * (first + count) * (params set).n ≤ length below.now }
    ensures { (j : ℕ) → j < count
        → value_at result j (params set).n ≡ chunk (params set).n below.now (2 * (first + j) + side) }
{
    let mut nodes = node_lanes(&[]);
    for j in 0..count {
        let child = 2 * (first as usize + j) + side;
        set_lane(&mut nodes, j, chunk_at(below, set.n(), child));
    }
    nodes
}

impl ForsPlace {
    /// The nodes of height `z` from index `first` on, as many as `count`, from the nodes of the height below, end to
    /// end.
    pub(crate) fn parents_from_lanes(
        &self,
        lanes: &SeededLanes,
        z: u32,
        first: u32,
        count: usize,
        below: &[u8],
    ) -> Leaves
        requires tree { self.now.tree_no < MOST_TREES }
        requires height { z ≤ (params lanes.now.set).a }
        requires some { 1 ≤ count }
        requires few { count ≤ GROUP }
        requires within { first + count ≤ 2 ^ ((params lanes.now.set).a - z) }
        requires below { 2 * (first + count) * (params lanes.now.set).n ≤ length below.now }
        ensures len { length result.items ≡ count }
        ensures parents { let p = params lanes.now.set in let t = self.now in
            AreParents (fors_tree p [] lanes.now.pk_seed.now t.idx_tree t.idx_leaf t.tree_no) p.n z first
            below.now result.items }
    {
        let set = lanes.set;
        let mut nodes = [children(set, below, first, 0, count)];
        let right = [children(set, below, first, 1, count)];
        let adrs = [self.lane_adrs(set, AdrsType::ForsTree, z, first)];
        lanes.h(&adrs, &mut nodes, &right);
        first_nodes(&nodes[0], set.n(), count)
    }
}

/// From this height on a node is made from eight nodes that stand side by side.
const EIGHT_NODES: u32 = 3;

impl<'c, 'a> ForsNodes<'c, 'a> {
    /// fors_node (Algorithm 15): the node of height `z` at index `i` of this tree, from the leaves below it. From
    /// height 3 on it is made in lanes.
    #[tactic(auto, unfolding(crate::specs::Trees::fors_nodes_of))]
    pub(crate) fn node(&self, z: u32, i: u32) -> Node
        requires height { z ≤ (params self.now.signer.now.public.set).a }
        requires within { past_leaf z i ≤ 2 ^ (params self.now.signer.now.public.set).a }
        ensures { result.items ≡ node (fors_nodes_of self.now) z i }
    {
        if EIGHT_NODES <= z {
            let signer = self.signer;
            self.at
                .node_from_lanes(signer.lanes(), signer.sk_seed, z, i)
        } else {
            node(self, z, i)
        }
    }
}
