//! The XMSS tree of the top layer, whose root is PK.root (FIPS 205, Algorithm 18).
ghost use Rattle.std.specs.Prelude.{◌≡◌, ℕ, ◌<◌, ◌≤◌, ◌^◌, Some, length, slice_get, slice_index_or};
ghost use Rattle.slh_params.specs.ParamSet.{params};
ghost use Rattle.slh_tree.specs.Tree.{root};
ghost use Rattle.slh_tree.specs.Cover.{IsCover};
ghost use Rattle.slh_tree.specs.declared.cover.Cover.{Cover};
ghost use Rattle.slh_subtrees.specs.Jobs.{key_generation_jobs};
ghost use Rattle.slh_subtrees.specs.declared.range.JobRange.{JobRange};
ghost use Rattle.slh_par.specs.TopTree.{top_tree, IsTopAnswer};

use slh_few::SigningContext;
use slh_params::Node;
use slh_subtrees::{Cutting, keygen_job, keygen_jobs, top_layer};
use slh_tree::{Cover, PathRec, gather};
use slh_workers::{NoMemory, Work};

/// The ranges of the tree.
#[derive(Drop)]
pub(crate) struct TopRanges<'w, 's> {
    pub(crate) signer: &'w SigningContext<'s>,
    pub(crate) cutting: &'w Cutting,
    ghost same_set: { cutting.now.set ≡ signer.now.public.set },
}

impl<'w, 's> Work for TopRanges<'w, 's> {
    type Out = Cover;

    ghost jobs = { λ w. length (key_generation_jobs w.cutting.now) };

    ghost is_right = { λ w n x. (job : JobRange)
        → slice_get (key_generation_jobs w.cutting.now) n ≡ Some job
        → IsTopAnswer (top_tree w.signer.now) job x };

    fn count(&self) -> u32 {
        keygen_jobs(self.cutting)
    }

    fn run(&self, i: u32) -> Result<Cover, NoMemory> {
        let range = keygen_job(self.cutting, i);
        Ok(top_range(self.signer, range.lo, range.hi))
    }
}

/// The cover of the leaves from `lo` to `hi`, `hi` left out.
#[tactic(auto, using(slh_params::proofs::Bounds::bounds))]
fn top_range(signer: &SigningContext<'_>, lo: u32, hi: u32) -> Cover
    requires some { lo < hi }
    requires within { hi ≤ 2 ^ (params signer.now.public.set).hp }
    ensures cover { IsCover (top_tree signer.now) lo hi result.nodes.items }
    ensures lo { result.lo ≡ lo }
    ensures hi { result.hi ≡ hi }
{
    // No leaf's path is needed.
    let set = signer.public.set;
    let mut path = PathRec::for_leaf(set.hp(), 0);
    signer.xmss_range(top_layer(set), 0, lo, hi, &mut path)
}

/// The root of the tree, from the covers of its ranges.
#[tactic(auto, using(slh_params::proofs::Bounds::bounds))]
pub(crate) fn gathered_top(signer: &SigningContext<'_>, cutting: &Cutting, covers: &[Cover]) -> Node
    requires set { cutting.now.set ≡ signer.now.public.set }
    requires count { length covers.now ≡ length (key_generation_jobs cutting.now) }
    requires each { (n : ℕ) (job : JobRange) (c : Cover)
        → slice_get (key_generation_jobs cutting.now) n ≡ Some job
        → IsTopAnswer (top_tree signer.now) job (slice_index_or covers.now n c) }
    ensures { result.items ≡ root (top_tree signer.now) }
{
    // For the prover: the ranges lie end to end.
    let _ranges = cutting.xmss_ranges();
    let set = signer.public.set;
    let mut path = PathRec::for_leaf(set.hp(), 0);
    gather(&signer.xmss_nodes(top_layer(set), 0), covers, &mut path)
}
