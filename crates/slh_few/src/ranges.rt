//! The covers of leaf ranges of XMSS and FORS trees, for a tree that several calls share (ours).
ghost use Rattle.std.specs.Prelude.{◌≡◌, ℕ, ◌^◌, ◌≤◌, ◌<◌, [], ◌∷◌, length};
ghost use Rattle.slh_params.specs.ParamSet.{params};
ghost use Rattle.slh_tree.specs.declared.cover.Placed.{Placed};
ghost use Rattle.slh_tree.specs.Cover.{IsCover, first_leaf, past_leaf};
ghost use Rattle.slh_tree.specs.Record.{Gains, LiesInRange};
ghost use Rattle.slh_few.specs.KeyCheckpoints.{key_checkpoints_len, key_checkpoints};
ghost use Rattle.slh_few.specs.Trees.{xmss_nodes_of};
ghost use Rattle.slh_few.specs.Xmss.{xmss_tree};
ghost use Rattle.slh_few.specs.Fors.{fors_tree};

use crate::context::SigningContext;
use crate::fors_blocks::block_height;
use crate::fors_tree::{ForsNodes, ForsPlace};
use crate::lanes::{LaneCheckpoints, eight_keys, first_of_eight, lane_among_eight};
use crate::place::Place;
use crate::xmss_tree::XmssNodes;
use slh_lanes::GROUP;
use slh_tree::{Cover, Leaves, PathRec, hash_range};

/// Whether all eight leaves below the node of height 3 over the leaf at this place are in the range. A tree of fewer
/// leaves has no such range.
fn has_eight_in_range(at: Place, lo: u32, hi: u32) -> bool {
    let first = first_of_eight(at).pair;
    lo <= first && first <= hi && hi - first >= GROUP as u32
}

impl<'a> SigningContext<'a> {
    /// The cover of the leaves from `lo` to `hi`, `hi` left out, of tree `tree` of layer `layer`. The record, of a leaf
    /// of that tree, gains exactly those nodes of its path whose leaves are all in the range.
    pub fn xmss_range(&self, layer: u8, tree: u64, lo: u32, hi: u32, rec: &mut PathRec) -> Cover
        requires order { lo < hi }
        requires within { hi ≤ 2 ^ (params self.now.public.set).hp }
        requires same_height { rec.old.height ≡ (params self.now.public.set).hp }
        ensures cover { let p = params self.now.public.set in let pk_seed = self.now.public.pk_seed.now in
            IsCover (xmss_tree p self.now.sk_seed.now pk_seed layer tree) lo hi result.nodes.items }
        ensures lo { result.lo ≡ lo }
        ensures hi { result.hi ≡ hi }
        ensures block { (z i : ℕ) → lo ≡ first_leaf z i → hi ≡ past_leaf z i
            → (p : Placed) × (result.nodes.items ≡ p ∷ []) × (p.z ≡ z) × (p.i ≡ i) }
        ensures gained { let p = params self.now.public.set in let sk_seed = self.now.sk_seed.now in
            let pk_seed = self.now.public.pk_seed.now in
            Gains (xmss_tree p sk_seed pk_seed layer tree) (LiesInRange lo hi rec.old.leaf) rec.old rec.new }
    {
        hash_range(&self.xmss_nodes(layer, tree), lo, hi, rec)
    }

    /// The tree over a place, of which the leaf there is known, and all eight below its node of height 3 if they are in
    /// the range. Into `checkpoints` it writes `key_checkpoints_len` bytes: the checkpoints of the key at the place.
    #[tactic(auto, unfolding(crate::specs::Trees::xmss_nodes_of))]
    fn xmss_nodes_with_checkpoints(
        &self,
        at: Place,
        lo: u32,
        hi: u32,
        checkpoints: &mut [u8],
    ) -> XmssNodes<'_, 'a>
        requires { length checkpoints.old ≡ key_checkpoints_len (params self.now.public.set) }
        ensures tree { let p = params self.now.public.set in let pk_seed = self.now.public.pk_seed.now in
            xmss_nodes_of result ≡ xmss_tree p self.now.sk_seed.now pk_seed at.layer at.tree }
        ensures checkpoints { let p = params self.now.public.set in let pk_seed = self.now.public.pk_seed.now in
            checkpoints.new ≡ key_checkpoints p self.now.sk_seed.now pk_seed at }
    {
        if has_eight_in_range(at, lo, hi) {
            let first = first_of_eight(at);
            let lane = lane_among_eight(at);
            let group = eight_keys(
                self.lanes(),
                self.sk_seed,
                first,
                &LaneCheckpoints { lane },
                checkpoints,
            );
            self.xmss_nodes_knowing(first, group)
        } else {
            let mut known = Leaves::new();
            known.push(self.wots_pk_with_checkpoints(at, checkpoints));
            self.xmss_nodes_knowing(at, known)
        }
    }

    /// The cover that `xmss_range` returns, of the tree over a place. This call also writes the checkpoints of the key
    /// at the place into `checkpoints`, `key_checkpoints_len` bytes. `wots_sign_from_checkpoints` signs from them.
    ///
    /// If the key's leaf is in the range, no chain is computed twice. If the range has all eight leaves below the
    /// leaf's node of height 3, the eight keys are made at once.
    pub fn xmss_range_with_checkpoints(
        &self,
        at: Place,
        lo: u32,
        hi: u32,
        checkpoints: &mut [u8],
        rec: &mut PathRec,
    ) -> Cover
        requires order { lo < hi }
        requires within { hi ≤ 2 ^ (params self.now.public.set).hp }
        requires same_height { rec.old.height ≡ (params self.now.public.set).hp }
        requires checkpoints { length checkpoints.old ≡ key_checkpoints_len (params self.now.public.set) }
        ensures cover { let p = params self.now.public.set in let pk_seed = self.now.public.pk_seed.now in
            IsCover (xmss_tree p self.now.sk_seed.now pk_seed at.layer at.tree) lo hi result.nodes.items }
        ensures lo { result.lo ≡ lo }
        ensures hi { result.hi ≡ hi }
        ensures block { (z i : ℕ) → lo ≡ first_leaf z i → hi ≡ past_leaf z i
            → (p : Placed) × (result.nodes.items ≡ p ∷ []) × (p.z ≡ z) × (p.i ≡ i) }
        ensures gained { let p = params self.now.public.set in let sk_seed = self.now.sk_seed.now in
            let pk_seed = self.now.public.pk_seed.now in
            Gains (xmss_tree p sk_seed pk_seed at.layer at.tree) (LiesInRange lo hi rec.old.leaf) rec.old rec.new }
        ensures checkpoints { let p = params self.now.public.set in let pk_seed = self.now.public.pk_seed.now in
            checkpoints.new ≡ key_checkpoints p self.now.sk_seed.now pk_seed at }
    {
        let tree = self.xmss_nodes_with_checkpoints(at, lo, hi, checkpoints);
        hash_range(&tree, lo, hi, rec)
    }

    /// The cover of the leaves from `lo` to `hi`, `hi` left out, of FORS tree `tree_no` of the key at leaf `idx_leaf`
    /// of tree `idx_tree`. The record, of a leaf of that FORS tree, gains exactly those nodes of its path whose leaves
    /// are all in the range.
    #[tactic(auto, unfolding(crate::specs::Trees::fors_nodes_of))]
    pub fn fors_range(
        &self,
        idx_tree: u64,
        idx_leaf: u32,
        tree_no: u32,
        lo: u32,
        hi: u32,
        rec: &mut PathRec,
    ) -> Cover
        requires tree { tree_no < (params self.now.public.set).k }
        requires order { lo < hi }
        requires within { hi ≤ 2 ^ (params self.now.public.set).a }
        requires same_height { rec.old.height ≡ (params self.now.public.set).a }
        ensures cover { let p = params self.now.public.set in let pk_seed = self.now.public.pk_seed.now in
            IsCover (fors_tree p self.now.sk_seed.now pk_seed idx_tree idx_leaf tree_no) lo hi result.nodes.items }
        ensures lo { result.lo ≡ lo }
        ensures hi { result.hi ≡ hi }
        ensures block { (z i : ℕ) → lo ≡ first_leaf z i → hi ≡ past_leaf z i
            → (p : Placed) × (result.nodes.items ≡ p ∷ []) × (p.z ≡ z) × (p.i ≡ i) }
        ensures gained { let p = params self.now.public.set in let sk_seed = self.now.sk_seed.now in
            let pk_seed = self.now.public.pk_seed.now in
            Gains (fors_tree p sk_seed pk_seed idx_tree idx_leaf tree_no) (LiesInRange lo hi rec.old.leaf)
            rec.old rec.new }
    {
        let at = ForsPlace {
            idx_tree,
            idx_leaf,
            tree_no,
        };
        let tree = ForsNodes { signer: self, at };
        if let Some(z) = block_height(lo, hi) {
            return tree.hash_block(z, lo, hi, rec);
        }
        hash_range(&tree, lo, hi, rec)
    }
}
