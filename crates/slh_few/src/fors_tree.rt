//! The trees of FORS (FIPS 205, section 8.2).
ghost use Rattle.std.specs.Prelude.{[], ◌≡◌, ◌+◌, ◌-◌, ◌*◌, ◌^◌, ◌≤◌, ◌<◌, length};
ghost use Rattle.slh_params.specs.Address.{address};
ghost use Rattle.slh_params.specs.AdrsType.{type_number};
ghost use Rattle.slh_params.specs.ParamSet.{params};
ghost use Rattle.slh_few.specs.Fors.{fors_tree, fors_secret};
ghost use Rattle.slh_few.specs.declared.fors_parts.TheConstants.{MOST_TREES};

use crate::context::{HashContext, SigningContext};
use crate::fors_parts::MOST_TREES;
use crate::heights::{BatchParents, parents_in_turn};
use crate::nodes::first_nodes;
use crate::place::Seeds;
use slh_params::{Adrs, AdrsType, Node};
use slh_tree::{Climbs, Leaves, Tree};

/// The FORS address of a type, a height and an index.
pub(crate) fn fors_adrs(
    idx_tree: u64,
    idx_leaf: u32,
    kind: AdrsType,
    height: u32,
    index: u32,
) -> Adrs
    ensures { result ≡ address 0 idx_tree (type_number kind) idx_leaf height index }
{
    let mut adrs = Adrs::zero();
    adrs.set_tree(idx_tree);
    adrs.set_type_and_clear(kind);
    adrs.set_key_pair(idx_leaf);
    adrs.set_tree_height(height);
    adrs.set_tree_index(index);
    adrs
}

/// The index that node `index` of tree `tree_no` has among the nodes of its height of all trees.
/// A tree has 2 ^ `depth` nodes of that height.
pub(crate) fn index_in_forest(tree_no: u32, depth: u32, index: u32) -> u32
    requires tree { tree_no < MOST_TREES }
    requires depth { depth ≤ 14 }
    requires index { index < 2 ^ depth }
    ensures { result ≡ tree_no * 2 ^ depth + index }
{
    tree_no * (1 << depth) + index
}

/// The place of a FORS tree: tree `tree_no` of the key at leaf `idx_leaf` of tree `idx_tree`.
#[derive(Clone, Copy)]
pub struct ForsPlace {
    pub idx_tree: u64,
    pub idx_leaf: u32,
    pub tree_no: u32,
}

impl ForsPlace {
    /// The address of a type of node `i` of a height at which the tree has 2 ^ `depth` nodes.
    pub(crate) fn adrs(&self, kind: AdrsType, height: u32, depth: u32, i: u32) -> Adrs
        requires tree { self.now.tree_no < MOST_TREES }
        requires depth { depth ≤ 14 }
        requires index { i < 2 ^ depth }
        ensures { let t = self.now in
            result ≡ address 0 t.idx_tree (type_number kind) t.idx_leaf height (t.tree_no * 2 ^ depth + i) }
    {
        let index = index_in_forest(self.tree_no, depth, i);
        fors_adrs(self.idx_tree, self.idx_leaf, kind, height, index)
    }
}

/// The nodes of a FORS tree above its leaves, which verifying needs.
#[derive(Drop)]
pub struct ForsJoins<'c, 'a> {
    pub context: &'c HashContext<'a>,
    pub at: ForsPlace,
    ghost small: { at.tree_no < MOST_TREES },
}

impl<'a> HashContext<'a> {
    ghost use Rattle.slh_few.specs.Trees.{fors_joins_of};

    /// Tree `tree_no` of the FORS key at leaf `idx_leaf` of tree `idx_tree`, above its leaves: of height a, with nodes
    /// of n bytes.
    #[tactic(auto, unfolding(crate::specs::Trees::fors_joins_of))]
    pub fn fors_joins(&self, idx_tree: u64, idx_leaf: u32, tree_no: u32) -> ForsJoins<'_, 'a>
        requires { tree_no < (params self.now.set).k }
        ensures { let p = params self.now.set in let pk_seed = self.now.pk_seed.now in
            fors_joins_of result ≡ fors_tree p [] pk_seed idx_tree idx_leaf tree_no }
    {
        let at = ForsPlace {
            idx_tree,
            idx_leaf,
            tree_no,
        };
        ForsJoins { context: self, at }
    }
}

impl<'c, 'a> Climbs for ForsJoins<'c, 'a> {
    ghost use Rattle.slh_few.specs.Trees.{fors_joins_of, fors_joins-lawful};

    ghost tree = { fors_joins_of };

    ghost lawful = { fors_joins-lawful };

    #[tactic(auto, using(slh_params::proofs::Bounds::a_low, slh_params::proofs::Bounds::a_high), unfolding(crate::specs::Trees::fors_joins_of))]
    fn height(&self) -> u32 {
        self.context.set.a()
    }

    #[tactic(auto, unfolding(crate::specs::Trees::fors_joins_of))]
    fn join(&self, z: u32, i: u32, l: &Node, r: &Node) -> Node {
        let depth = self.context.set.a() - z;
        let adrs = self.at.adrs(AdrsType::ForsTree, z, depth, i);
        self.context.h(&adrs, l, r)
    }
}

/// So many nodes of a height at least are joined in lanes: fewer are joined one after another.
const LEAST_IN_LANES: u32 = 3;

impl<'c, 'a> BatchParents for ForsJoins<'c, 'a> {
    #[tactic(auto, unfolding(crate::specs::Trees::fors_joins_of))]
    fn parents(&self, z: u32, first: u32, count: u32, n: usize, below: &[u8]) -> Leaves {
        if LEAST_IN_LANES <= count
            && let Some(lanes) = self.context.lanes()
        {
            self.at
                .parents_from_lanes(lanes, z, first, count as usize, below)
        } else {
            parents_in_turn(self, z, first, count, n, below)
        }
    }
}

/// One of the k FORS trees of a key pair, under a signer's context.
#[derive(Drop)]
pub struct ForsNodes<'c, 'a> {
    pub(crate) signer: &'c SigningContext<'a>,
    pub(crate) at: ForsPlace,
    ghost small: { at.tree_no < MOST_TREES },
}

impl<'a> SigningContext<'a> {
    ghost use Rattle.slh_few.specs.Trees.{fors_nodes_of};

    /// Tree `tree_no` of the FORS key at leaf `idx_leaf` of tree `idx_tree`: of height a, with nodes of n bytes.
    #[tactic(auto, unfolding(crate::specs::Trees::fors_nodes_of))]
    pub fn fors_nodes(&self, idx_tree: u64, idx_leaf: u32, tree_no: u32) -> ForsNodes<'_, 'a>
        requires { tree_no < (params self.now.public.set).k }
        ensures { let p = params self.now.public.set in let pk_seed = self.now.public.pk_seed.now in
            fors_nodes_of result ≡ fors_tree p self.now.sk_seed.now pk_seed idx_tree idx_leaf tree_no }
    {
        let at = ForsPlace {
            idx_tree,
            idx_leaf,
            tree_no,
        };
        ForsNodes { signer: self, at }
    }
}

impl<'c, 'a> ForsNodes<'c, 'a> {
    /// The secret of leaf `i` (Algorithm 14).
    pub(crate) fn secret(&self, i: u32) -> Node
        requires { i < 2 ^ (params self.now.signer.now.public.set).a }
        ensures value { let t = self.now in let p = params t.signer.now.public.set in
            result.items ≡ fors_secret p t.signer.now.sk_seed.now t.signer.now.public.pk_seed.now
            t.at.idx_tree t.at.idx_leaf (t.at.tree_no * 2 ^ p.a + i) }
        ensures len { length result.items ≡ (params self.now.signer.now.public.set).n }
    {
        let depth = self.signer.public.set.a();
        let adrs = self.at.adrs(AdrsType::ForsPrf, 0, depth, i);
        self.signer.prf(&adrs)
    }
}

impl<'c, 'a> Climbs for ForsNodes<'c, 'a> {
    ghost use Rattle.slh_few.specs.Trees.{fors_nodes_of, fors_nodes-lawful};

    ghost tree = { fors_nodes_of };

    ghost lawful = { fors_nodes-lawful };

    #[tactic(auto, using(slh_params::proofs::Bounds::a_low, slh_params::proofs::Bounds::a_high), unfolding(crate::specs::Trees::fors_nodes_of))]
    fn height(&self) -> u32 {
        self.signer.public.set.a()
    }

    #[tactic(auto, unfolding(crate::specs::Trees::fors_nodes_of, crate::specs::Trees::fors_joins_of))]
    fn join(&self, z: u32, i: u32, l: &Node, r: &Node) -> Node {
        let joins = ForsJoins {
            context: &self.signer.public,
            at: self.at,
        };
        joins.join(z, i, l, r)
    }
}

impl<'c, 'a> Tree for ForsNodes<'c, 'a> {
    #[tactic(auto, unfolding(crate::specs::Trees::fors_nodes_of))]
    fn leaf(&self, i: u32) -> Node {
        let public = &self.signer.public;
        let adrs = self.at.adrs(AdrsType::ForsTree, 0, public.set.a(), i);
        public.f(&adrs, &self.secret(i))
    }

    #[tactic(auto, unfolding(crate::specs::Trees::fors_nodes_of))]
    fn leaves(&self, first: u32, count: u32) -> Leaves {
        let signer = self.signer;
        let leaves = self.at.leaf_lanes(signer.lanes(), signer.sk_seed, first);
        first_nodes(&leaves, signer.public.set.n(), count as usize)
    }
}

/// One of the k FORS trees of a key pair, by its seeds. Each call makes the midstates anew.
#[derive(Drop)]
pub struct ForsTree<'a> {
    pub(crate) seeds: Seeds<'a>,
    pub(crate) at: ForsPlace,
    ghost small: { at.tree_no < MOST_TREES },
}

impl<'a> ForsTree<'a> {
    ghost use Rattle.slh_few.specs.Trees.{fors_tree_of};

    /// Tree `tree_no` of the FORS key at leaf `idx_leaf` of tree `idx_tree`: of height a, with nodes
    /// of n bytes.
    #[tactic(auto, unfolding(crate::specs::Trees::fors_tree_of))]
    pub fn new(seeds: &Seeds<'a>, idx_tree: u64, idx_leaf: u32, tree_no: u32) -> Self
        requires { tree_no < (params seeds.now.set).k }
        ensures { let p = params seeds.now.set in let sk_seed = seeds.now.sk_seed.now in
            let pk_seed = seeds.now.pk_seed.now in
            fors_tree_of result ≡ fors_tree p sk_seed pk_seed idx_tree idx_leaf tree_no }
    {
        let at = ForsPlace {
            idx_tree,
            idx_leaf,
            tree_no,
        };
        ForsTree { seeds: *seeds, at }
    }
}

impl<'a> Climbs for ForsTree<'a> {
    ghost use Rattle.slh_few.specs.Trees.{fors_tree_of, fors-lawful};

    ghost tree = { fors_tree_of };

    ghost lawful = { fors-lawful };

    #[tactic(auto, using(slh_params::proofs::Bounds::a_low, slh_params::proofs::Bounds::a_high), unfolding(crate::specs::Trees::fors_tree_of))]
    fn height(&self) -> u32 {
        self.seeds.set.a()
    }

    #[tactic(auto, unfolding(crate::specs::Trees::fors_tree_of, crate::specs::Trees::fors_joins_of))]
    fn join(&self, z: u32, i: u32, l: &Node, r: &Node) -> Node {
        let context = HashContext::new(self.seeds.set, self.seeds.pk_seed);
        let joins = ForsJoins {
            context: &context,
            at: self.at,
        };
        joins.join(z, i, l, r)
    }
}

impl<'a> Tree for ForsTree<'a> {
    #[tactic(auto, unfolding(crate::specs::Trees::fors_tree_of, crate::specs::Trees::fors_nodes_of))]
    fn leaf(&self, i: u32) -> Node {
        let signer = SigningContext::new(&self.seeds);
        let nodes = ForsNodes {
            signer: &signer,
            at: self.at,
        };
        nodes.leaf(i)
    }
}
