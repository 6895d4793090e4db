//! The inputs of the trees of one signature (FIPS 205, Algorithm 19): set, seeds, message digest and signing leaves.
ghost use Rattle.std.specs.Prelude.{◌≡◌, ℕ, ◌^◌, ◌<◌, ◌≤◌, [], ◌∷◌, length, slice_index, slice_index_or};
ghost use Rattle.slh_params.specs.Params.{md_len};
ghost use Rattle.slh_params.specs.ParamSet.{params};
ghost use Rattle.slh_few.specs.Fors.{fors_index};
ghost use Rattle.slh_few.specs.Hypertree.{layer_place};
ghost use Rattle.slh_few.specs.declared.place.Place.{Place};

use crate::gathered_tree::{GatheredTree, gathered};
use crate::hashed_range::HashedRange;
use crate::range::JobTree;
use slh_few::{MOST_LAYERS, MOST_TREES, Place, SigningContext, fors_indices, layer_places};
use slh_params::Node;
use slh_tree::{Cover, PathRec};

/// The inputs of the trees of one signature: the seeds, the place of the key at layer 0 that signs, and the part of the
/// message digest that FORS signs.
#[derive(Drop)]
pub struct SigningTrees<'a> {
    /// The parameter set, and SK.seed and PK.seed of n bytes each.
    pub signer: &'a SigningContext<'a>,
    /// The tree of layer 0.
    pub idx_tree: u64,
    /// Its leaf.
    pub idx_leaf: u32,
    /// The part of the message digest that FORS signs, of md_len bytes.
    pub md: &'a [u8],
    places: [Place; MOST_LAYERS],
    indices: [u32; MOST_TREES],
    ghost leaf: { idx_leaf < 2 ^ (params signer.now.public.set).hp },
    ghost above: { (l : ℕ) (place : Place) → l < (params signer.now.public.set).d
        → slice_index_or places l place ≡ layer_place (params signer.now.public.set) idx_tree idx_leaf l },
    ghost asked: { (j : ℕ) → j < (params signer.now.public.set).k
        → slice_index indices j ≡ fors_index (params signer.now.public.set) md.now j },
}

impl<'a> SigningTrees<'a> {
    ghost use Rattle.slh_tree.specs.Cover.{first_leaf, past_leaf};
    ghost use Rattle.slh_tree.specs.Tree.{node};
    ghost use Rattle.slh_tree.specs.declared.cover.Placed.{Placed};
    ghost use Rattle.slh_few.specs.KeyCheckpoints.{key_checkpoints_len};
    ghost use Rattle.slh_subtrees.specs.Jobs.{IsTreeOf, height_of};
    ghost use Rattle.slh_subtrees.specs.Gathered.{IsHashed, AreHashed, IsGathered};
    ghost use Rattle.slh_subtrees.specs.SigningTrees.{set_in, source_of, tree_in, leaf_in, checkpoints_in, signs_in};
    ghost use Rattle.slh_subtrees.specs.Trees.{secret_of};

    /// The trees of the signature by the key at leaf `idx_leaf` of tree `idx_tree`, of a digest whose first part is
    /// `md`, of md_len bytes.
    pub fn new(
        signer: &'a SigningContext<'a>,
        idx_tree: u64,
        idx_leaf: u32,
        md: &'a [u8],
    ) -> SigningTrees<'a>
        requires leaf { idx_leaf < 2 ^ (params signer.now.public.set).hp }
        requires md { length md.now ≡ md_len (params signer.now.public.set) }
        ensures signer { result.signer.now ≡ signer.now }
        ensures idx_tree { result.idx_tree ≡ idx_tree }
        ensures idx_leaf { result.idx_leaf ≡ idx_leaf }
        ensures md { result.md.now ≡ md.now }
    {
        let set = signer.public.set;
        SigningTrees {
            signer,
            idx_tree,
            idx_leaf,
            md,
            places: layer_places(set, idx_tree, idx_leaf),
            indices: fors_indices(set, md),
        }
    }

    /// Whether the leaf that signs on a layer is one of those from `lo` to `hi`, `hi` left out.
    pub fn signs_in(&self, layer: u8, lo: u32, hi: u32) -> bool
        requires { layer < (params (set_in self.now)).d }
        ensures { result ≡ signs_in self.now layer lo hi }
    {
        (lo..hi).contains(&self.layer_place(layer).pair)
    }

    /// The result of the leaves from `lo` to before `hi` of a tree.
    pub fn hashed(&self, tree: JobTree, lo: u32, hi: u32) -> HashedRange
        requires tree { IsTreeOf (params (set_in self.now)) tree }
        requires some { lo < hi }
        requires within { hi ≤ 2 ^ height_of (params (set_in self.now)) tree }
        ensures lo { result.cover.lo ≡ lo }
        ensures hi { result.cover.hi ≡ hi }
        ensures hashed { IsHashed (tree_in self.now tree) (leaf_in self.now tree) result.cover result.path }
        ensures block { (z i : ℕ) → lo ≡ first_leaf z i → hi ≡ past_leaf z i
            → (p : Placed) × (result.cover.nodes.items ≡ p ∷ []) × (p.z ≡ z) × (p.i ≡ i) }
    {
        let signer = self.signer;
        let mut path = PathRec::for_leaf(tree.height(signer.public.set), self.leaf(tree));
        let cover = match tree {
            JobTree::Xmss(layer) => {
                let at = self.layer_place(layer);
                signer.xmss_range(layer, at.tree, lo, hi, &mut path)
            }
            JobTree::Fors(number) => {
                let (idx_tree, idx_leaf) = (self.idx_tree, self.idx_leaf);
                signer.fors_range(idx_tree, idx_leaf, number, lo, hi, &mut path)
            }
        };
        HashedRange { cover, path }
    }

    /// The result of the leaves from `lo` to before `hi` of the XMSS tree of a layer. Writes the checkpoints of the key
    /// that signs there, `key_checkpoints_len` bytes. If its leaf is among these, no chain is computed twice.
    #[tactic(auto, using(slh_params::proofs::Bounds::hp_low, slh_params::proofs::Bounds::hp_high))]
    pub fn hashed_with_checkpoints(
        &self,
        layer: u8,
        lo: u32,
        hi: u32,
        checkpoints: &mut [u8],
    ) -> HashedRange
        requires layer { layer < (params (set_in self.now)).d }
        requires some { lo < hi }
        requires within { hi ≤ 2 ^ (params (set_in self.now)).hp }
        requires checkpoints { length checkpoints.old ≡ key_checkpoints_len (params (set_in self.now)) }
        ensures lo { result.cover.lo ≡ lo }
        ensures hi { result.cover.hi ≡ hi }
        ensures hashed { let tree = JobTree.Xmss layer in
            IsHashed (tree_in self.now tree) (leaf_in self.now tree) result.cover result.path }
        ensures block { (z i : ℕ) → lo ≡ first_leaf z i → hi ≡ past_leaf z i
            → (p : Placed) × (result.cover.nodes.items ≡ p ∷ []) × (p.z ≡ z) × (p.i ≡ i) }
        ensures checkpoints { checkpoints.new ≡ checkpoints_in self.now layer }
    {
        let at = self.layer_place(layer);
        let signer = self.signer;
        let mut path = PathRec::for_leaf(signer.public.set.hp(), at.pair);
        let cover = signer.xmss_range_with_checkpoints(at, lo, hi, checkpoints, &mut path);
        HashedRange { cover, path }
    }

    /// The node of height `z` at index `i` of a tree, n bytes, from the leaves below it (FIPS 205, Algorithms 9 and
    /// 15).
    pub fn node(&self, tree: JobTree, z: u32, i: u32) -> Node
        requires tree { IsTreeOf (params (set_in self.now)) tree }
        requires height { z ≤ height_of (params (set_in self.now)) tree }
        requires within { past_leaf z i ≤ 2 ^ height_of (params (set_in self.now)) tree }
        ensures { result.items ≡ node (tree_in self.now tree) z i }
    {
        let signer = self.signer;
        match tree {
            JobTree::Xmss(layer) => signer.xmss_node(layer, self.layer_place(layer).tree, z, i),
            JobTree::Fors(number) => signer.fors_node(self.idx_tree, self.idx_leaf, number, z, i),
        }
    }

    /// The place at a layer: the tree there, and the leaf of it whose key signs (FIPS 205, Algorithm 12, lines 7 and
    /// 8).
    #[tactic(auto, using(slh_params::proofs::Bounds::d_high))]
    pub fn layer_place(&self, layer: u8) -> Place
        requires { layer < (params (set_in self.now)).d }
        ensures place { result ≡ layer_place (params (set_in self.now)) self.now.idx_tree self.now.idx_leaf layer }
        ensures pair { result.pair < 2 ^ (params (set_in self.now)).hp }
    {
        self.places[layer as usize]
    }

    /// The leaf of FORS tree `number` that the digest asks for (FIPS 205, Algorithm 16, line 2).
    #[tactic(auto, using(slh_params::proofs::Bounds::k_high))]
    pub fn fors_index(&self, number: u32) -> u32
        requires { number < (params (set_in self.now)).k }
        ensures value { result ≡ fors_index (params (set_in self.now)) self.now.md.now number }
        ensures small { result < 2 ^ (params (set_in self.now)).a }
    {
        self.indices[number as usize]
    }

    /// The leaf of the tree whose path is in the signature.
    pub fn leaf(&self, tree: JobTree) -> u32
        requires { IsTreeOf (params (set_in self.now)) tree }
        ensures value { result ≡ leaf_in self.now tree }
        ensures small { result < 2 ^ height_of (params (set_in self.now)) tree }
    {
        match tree {
            JobTree::Xmss(layer) => self.layer_place(layer).pair,
            JobTree::Fors(number) => self.fors_index(number),
        }
    }

    /// The secret value of the leaf of FORS tree `number` that the digest asks for, n bytes (FIPS 205, Algorithm 14).
    pub fn fors_secret(&self, number: u32) -> Node
        requires { number < (params (set_in self.now)).k }
        ensures value { result.items ≡ secret_of (source_of self.now) number }
        ensures len { length result.items ≡ (params (set_in self.now)).n }
    {
        let index = self.fors_index(number);
        self.signer
            .fors_secret(self.idx_tree, self.idx_leaf, number, index)
    }

    /// The root of the tree and the path of its leaf, from the covers and the records of all its ranges.
    pub fn gathered(&self, tree: JobTree, covers: &[Cover], records: &[PathRec]) -> GatheredTree
        requires tree { IsTreeOf (params (set_in self.now)) tree }
        requires hashed { let t = self.now in
            AreHashed (tree_in t tree) (leaf_in t tree) covers.now records.now }
        ensures { IsGathered (tree_in self.now tree) (leaf_in self.now tree) result }
    {
        let signer = self.signer;
        match tree {
            JobTree::Xmss(layer) => {
                let at = self.layer_place(layer);
                let xmss = signer.xmss_nodes(layer, at.tree);
                gathered(&xmss, at.pair, covers, records)
            }
            JobTree::Fors(number) => {
                let fors = signer.fors_nodes(self.idx_tree, self.idx_leaf, number);
                gathered(&fors, self.fors_index(number), covers, records)
            }
        }
    }
}
