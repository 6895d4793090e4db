//! The numbers of the ranges as jobs (ours).
ghost use Rattle.std.specs.Prelude.{◌≡◌, ℕ, ◌+◌, ◌-◌, ◌*◌, ◌<◌, ◌≤◌, ◌^◌, length, Some, slice_get};
ghost use Rattle.slh_params.specs.ParamSet.{params};
ghost use Rattle.slh_subtrees.specs.Jobs.{IsTreeOf, height_of, signing_jobs, key_generation_jobs};
ghost use Rattle.slh_subtrees.specs.declared.jobs.TheConstants.{MOST_JOBS_OF_A_KIND};

use crate::cutting::Cutting;
use crate::range::{JobRange, JobTree};
use slh_params::ParamSet;

/// At least the jobs of all trees of one kind in any set: 65 trees of 256 ranges.
pub const MOST_JOBS_OF_A_KIND: u32 = 65 * 256;

/// The number of jobs of a signature: the ranges of its d XMSS trees and of its k FORS trees.
pub fn sign_jobs(cutting: &Cutting) -> u32
    ensures jobs { result ≡ length (signing_jobs cutting.now) }
    ensures sum { result ≡ (params cutting.now.set).d * (length cutting.now.xmss + 1)
        + (params cutting.now.set).k * (length cutting.now.fors + 1) }
{
    let set = cutting.set();
    ranges_of(set.d(), cutting.xmss_ranges()) + ranges_of(set.k(), cutting.fors_ranges())
}

/// The number of jobs of key generation: the ranges of one XMSS tree.
pub fn keygen_jobs(cutting: &Cutting) -> u32
    ensures jobs { result ≡ length (key_generation_jobs cutting.now) }
    ensures ranges { result ≡ length cutting.now.xmss + 1 }
{
    cutting.xmss_ranges()
}

/// The signing job of this number: first come the ranges of the XMSS trees, from layer 0 on, and then those of the FORS
/// trees.
pub fn job(cutting: &Cutting, number: u32) -> JobRange
    requires { number < length (signing_jobs cutting.now) }
    ensures job { slice_get (signing_jobs cutting.now) number ≡ Some result }
    ensures tree { IsTreeOf (params cutting.now.set) result.tree }
    ensures some { result.lo < result.hi }
    ensures within { result.hi ≤ 2 ^ height_of (params cutting.now.set) result.tree }
{
    let set = cutting.set();
    let each = cutting.xmss_ranges();
    let xmss_jobs = ranges_of(set.d(), each);
    if number < xmss_jobs {
        cutting.job_in(JobTree::Xmss((number / each) as u8), number % each)
    } else {
        let rest = number - xmss_jobs;
        let each = cutting.fors_ranges();
        cutting.job_in(JobTree::Fors(rest / each), rest % each)
    }
}

/// The top layer, whose tree's root is in the public key.
pub fn top_layer(set: ParamSet) -> u8
    ensures { result ≡ (params set).d - 1 }
{
    set.d() as u8 - 1
}

/// The key generation job of this number: that range of the XMSS tree of the top layer. The signing job of the same
/// number has the same leaves of the tree of layer 0.
pub fn keygen_job(cutting: &Cutting, number: u32) -> JobRange
    requires { number < length (key_generation_jobs cutting.now) }
    ensures job { slice_get (key_generation_jobs cutting.now) number ≡ Some result }
    ensures tree { result.tree ≡ JobTree.Xmss ((params cutting.now.set).d - 1) }
    ensures leaves { slice_get (signing_jobs cutting.now) number
        ≡ Some record { tree = JobTree.Xmss 0; lo = result.lo; hi = result.hi } }
    ensures some { result.lo < result.hi }
    ensures within { result.hi ≤ 2 ^ (params cutting.now.set).hp }
{
    cutting.job_in(JobTree::Xmss(top_layer(cutting.set())), number)
}

/// The ranges of this many trees, each of which is cut into `ranges`.
pub fn ranges_of(trees: u32, ranges: u32) -> u32
    requires trees { trees ≤ 65 }
    requires ranges { ranges ≤ 256 }
    ensures product { result ≡ trees * ranges }
    ensures few { result ≤ MOST_JOBS_OF_A_KIND }
{
    trees * ranges
}
