//! The cutting of all trees of a parameter set (ours).
ghost use Rattle.std.specs.Prelude.{◌≡◌, ℕ, ◌+◌, ◌<◌, ◌≤◌, ◌^◌, ◌↔◌, ◌∷◌, ◌++◌, [], length, Some, None, IsOk, IfOk, OnOk, IfErr, slice_get, slice_index_or};
ghost use Rattle.slh_params.specs.ParamSet.{params};
ghost use Rattle.slh_subtrees.specs.Points.{EndToEnd, ranges};
ghost use Rattle.slh_subtrees.specs.CutFaults.{cut_points, IsInRule, cut_fault};
ghost use Rattle.slh_subtrees.specs.Jobs.{IsTreeOf, height_of, cut_points_of, tree_ranges, tree_jobs, signing_jobs, first_job_of};

use crate::cuts::{CutPoints, Cuts, leaf_count, points_of};
use crate::fault::{CutFault, CutTree};
use crate::range::{JobRange, JobTree};
use slh_params::ParamSet;
use std::marker::Model;

/// How the trees of a parameter set are cut into ranges of leaves: all XMSS trees in one way, and all FORS trees in one
/// way. Contracts see the set and, for either kind, the cut points: the first leaves of all ranges but the first.
#[derive(Drop)]
pub struct Cutting {
    set: ParamSet,
    xmss: CutPoints,
    fors: CutPoints,
}

impl Model for Cutting {
    ghost use Rattle.slh_subtrees.specs.CutTrees.{CutTrees};

    ghost Value = { CutTrees };

    ghost use Rattle.slh_subtrees.specs.CuttingFields.{cut_trees_of, HasGoodPoints};

    ghost view = { cut_trees_of };

    ghost invariant = { HasGoodPoints };
}

impl Cutting {
    /// The trees of the set, cut as asked for. Refused if the levels or the points of the XMSS trees, or else of the
    /// FORS trees, are invalid.
    pub fn new(set: ParamSet, xmss: Cuts<'_>, fors: Cuts<'_>) -> Result<Cutting, CutFault>
        ensures points { IfOk result (λ c. c ≡ record {
          set = set;
          xmss = cut_points (params set).hp xmss.entry;
          fors = cut_points (params set).a fors.entry;
        }) }
        ensures in_rule { IsOk result ↔ IsInRule (params set).hp xmss.entry × IsInRule (params set).a fors.entry }
        ensures accepted { OnOk result (cut_fault (params set) xmss.entry fors.entry ≡ None) }
        ensures refused { IfErr result (λ e. cut_fault (params set) xmss.entry fors.entry ≡ Some e) }
    {
        let xmss = points_of(CutTree::Xmss, set.hp(), xmss)?;
        let fors = points_of(CutTree::Fors, set.a(), fors)?;
        Ok(Cutting { set, xmss, fors })
    }

    /// The parameter set.
    pub fn set(&self) -> ParamSet
        ensures { result ≡ self.now.set }
    {
        self.set
    }

    /// The number of ranges of each XMSS tree, at most 256. They have some leaves each and lie end to end, from leaf 0
    /// to the last one.
    pub fn xmss_ranges(&self) -> u32
        ensures count { result ≡ length self.now.xmss + 1 }
        ensures few { result ≤ 256 }
        ensures end_to_end { EndToEnd 0 (2 ^ (params self.now.set).hp)
            (ranges 0 self.now.xmss (2 ^ (params self.now.set).hp)) }
    {
        self.xmss.len() as u32 + 1
    }

    /// The number of ranges of each FORS tree, at most 256. They have some leaves each and lie end to end, from leaf 0
    /// to the last one.
    pub fn fors_ranges(&self) -> u32
        ensures count { result ≡ length self.now.fors + 1 }
        ensures few { result ≤ 256 }
        ensures end_to_end { EndToEnd 0 (2 ^ (params self.now.set).a)
            (ranges 0 self.now.fors (2 ^ (params self.now.set).a)) }
    {
        self.fors.len() as u32 + 1
    }

    /// The number of the tree's first signing job. Its other ranges have the numbers after it.
    pub fn first_job(&self, tree: JobTree) -> u32
        requires { IsTreeOf (params self.now.set) tree }
        ensures number { result ≡ first_job_of self.now tree }
        ensures ranges { (r : ℕ) → r < length (tree_jobs self.now tree)
            → slice_get (signing_jobs self.now) (result + r) ≡ slice_get (tree_jobs self.now tree) r }
    {
        match tree {
            JobTree::Xmss(layer) => u32::from(layer) * self.xmss_ranges(),
            JobTree::Fors(number) => {
                self.set.d() * self.xmss_ranges() + number * self.fors_ranges()
            }
        }
    }

    /// The range `r` of the tree as a job.
    pub(crate) fn job_in(&self, tree: JobTree, r: u32) -> JobRange
        requires { r < length (tree_jobs self.now tree) }
        ensures tree { result.tree ≡ tree }
        ensures leaves { slice_get (tree_ranges self.now tree) r ≡ Some (result.lo, result.hi) }
        ensures job { slice_get (tree_jobs self.now tree) r ≡ Some result }
        ensures some { result.lo < result.hi }
        ensures within { result.hi ≤ 2 ^ height_of (params self.now.set) tree }
    {
        let points = self.points(tree);
        JobRange {
            tree,
            lo: range_start(points, r as usize),
            hi: range_end(points, tree.height(self.set()), r as usize),
        }
    }

    /// The points at which the tree is cut.
    fn points(&self, tree: JobTree) -> &[u32]
        ensures points { result.now ≡ cut_points_of self.now tree }
        ensures end_to_end { EndToEnd 0 (2 ^ height_of (params self.now.set) tree) (tree_ranges self.now tree) }
    {
        match tree {
            JobTree::Xmss(_) => self.xmss.as_slice(),
            JobTree::Fors(_) => self.fors.as_slice(),
        }
    }
}

/// The first leaf of the range `r` of a tree that is cut at these points.
fn range_start(points: &[u32], r: usize) -> u32
    requires { r ≤ length points.now }
    ensures { result ≡ slice_index_or (0 ∷ points.now) r 0 }
{
    if r == 0 { 0 } else { points[r - 1] }
}

/// The leaf after the last one of that range.
fn range_end(points: &[u32], height: u32, r: usize) -> u32
    requires height { height ≤ 14 }
    requires there { r ≤ length points.now }
    ensures { result ≡ slice_index_or (points.now ++ 2 ^ height ∷ []) r 0 }
{
    if r == points.len() {
        leaf_count(height)
    } else {
        points[r]
    }
}
