//! The jobs of a signature, and the places of their answers (ours).
ghost use Rattle.std.specs.Prelude.{◌≡◌, ℕ, ◌+◌, ◌*◌, ◌^◌, ◌<◌, ◌≤◌, Some, slice_get};
ghost use Rattle.slh_jobs.specs.Ranges.{IsShape};
ghost use Rattle.slh_params.specs.ParamSet.{params};
ghost use Rattle.slh_subtrees.specs.Jobs.{IsTreeOf, signing_jobs};
ghost use Rattle.slh_jobs.specs.declared.levels.Levels.{Levels};
ghost use Rattle.slh_jobs.specs.Jobs.{xmss_shape, fors_shape, shape_of, xmss_jobs, fors_jobs, jobs, first_of_kind, first_job, tree_at, range_at, cut_by, job_at, start_of, len_of, answers_len};
ghost use Rattle.slh_subtrees.specs.declared.jobs.TheConstants.{MOST_JOBS_OF_A_KIND};
ghost use Rattle.slh_jobs.specs.declared.shape.TheConstants.{MOST_OWN_LEN};

use crate::levels::Levels;
use crate::shape::Shape;
use slh_few::key_checkpoints_len;
use slh_subtrees::{JobTree, ranges_of};

impl Levels {
    /// How the XMSS trees are cut.
    pub(crate) fn xmss_shape(&self) -> Shape
        ensures value { result ≡ xmss_shape self.now }
        ensures shape { IsShape result }
        ensures own { result.own ≤ MOST_OWN_LEN }
    {
        let set = self.set;
        Shape {
            n: set.n(),
            height: set.hp(),
            levels: self.xmss,
            own: (set.hp() - self.xmss) as usize * set.n() + key_checkpoints_len(set),
        }
    }

    /// How the FORS trees are cut.
    pub(crate) fn fors_shape(&self) -> Shape
        ensures value { result ≡ fors_shape self.now }
        ensures shape { IsShape result }
        ensures own { result.own ≤ MOST_OWN_LEN }
    {
        let set = self.set;
        Shape {
            n: set.n(),
            height: set.a(),
            levels: self.fors,
            own: (set.a() - self.fors) as usize * set.n() + set.n(),
        }
    }

    /// How a tree is cut.
    pub(crate) fn shape(&self, tree: JobTree) -> Shape
        ensures value { result ≡ shape_of self.now tree }
        ensures shape { IsShape result }
        ensures own { result.own ≤ MOST_OWN_LEN }
    {
        match tree {
            JobTree::Xmss(_) => self.xmss_shape(),
            JobTree::Fors(_) => self.fors_shape(),
        }
    }

    /// The first job of a tree, counted from that of the first tree of its kind.
    pub(crate) fn first_of_kind(&self, tree: JobTree) -> u32
        requires { IsTreeOf (params self.now.set) tree }
        ensures value { result ≡ first_of_kind self.now tree }
        ensures few { result ≤ MOST_JOBS_OF_A_KIND }
    {
        match tree {
            JobTree::Xmss(layer) => ranges_of(u32::from(layer), ranges(self.xmss)),
            JobTree::Fors(number) => ranges_of(number, ranges(self.fors)),
        }
    }

    /// The first job of a tree.
    pub(crate) fn first_job(&self, tree: JobTree) -> u32
        requires { IsTreeOf (params self.now.set) tree }
        ensures value { result ≡ first_job self.now tree }
        ensures few { result ≤ 2 * MOST_JOBS_OF_A_KIND }
    {
        match tree {
            JobTree::Xmss(_) => self.first_of_kind(tree),
            JobTree::Fors(_) => self.xmss_jobs() + self.first_of_kind(tree),
        }
    }

    /// The tree of a job, and the range of it.
    pub(crate) fn tree_and_range(&self, job: u32) -> (JobTree, u32)
        requires { job < jobs self.now }
        ensures tree { result.0 ≡ tree_at self.now job }
        ensures is_tree { IsTreeOf (params self.now.set) result.0 }
        ensures range { result.1 ≡ range_at self.now job }
        ensures within { result.1 < 2 ^ (shape_of self.now result.0).levels }
        ensures job { first_job self.now result.0 + result.1 ≡ job }
    {
        let xmss_jobs = self.xmss_jobs();
        if job < xmss_jobs {
            let each = ranges(self.xmss);
            (JobTree::Xmss((job / each) as u8), job % each)
        } else {
            let rest = job - xmss_jobs;
            let each = ranges(self.fors);
            (JobTree::Fors(rest / each), rest % each)
        }
    }

    /// The number of jobs of the XMSS trees.
    pub(crate) fn xmss_jobs(&self) -> u32
        ensures value { result ≡ xmss_jobs self.now }
        ensures few { result ≤ MOST_JOBS_OF_A_KIND }
    {
        ranges_of(self.set.d(), ranges(self.xmss))
    }

    /// The number of jobs of the FORS trees.
    pub(crate) fn fors_jobs(&self) -> u32
        ensures value { result ≡ fors_jobs self.now }
        ensures few { result ≤ MOST_JOBS_OF_A_KIND }
    {
        ranges_of(self.set.k(), ranges(self.fors))
    }
}

/// The number of ranges of a tree that is cut by this many levels.
pub(crate) fn ranges(levels: u32) -> u32
    requires { levels ≤ 8 }
    ensures value { result ≡ 2 ^ levels }
    ensures few { result ≤ 256 }
{
    1 << levels
}

/// The law that levels are a cutting: job n is job n of `slh_subtrees`, if the trees are cut by these levels. It does
/// nothing: the law is its contract.
pub fn levels_are_a_cutting()
    ensures { (c : Levels) (n : ℕ) → n < jobs c → slice_get (signing_jobs (cut_by c)) n ≡ Some (job_at c n) }
{}

/// The number of jobs of a signature: first the ranges of the XMSS trees, from layer 0 on, and then those of the FORS
/// trees.
pub fn sign_jobs(levels: &Levels) -> u32
    ensures value { result ≡ jobs levels.now }
    ensures few { result ≤ 2 * MOST_JOBS_OF_A_KIND }
{
    levels.xmss_jobs() + levels.fors_jobs()
}

/// The place of a job's answer among the answers of all jobs, end to end, in bytes.
pub fn answer_start(levels: &Levels, job: u32) -> usize
    requires { job < jobs levels.now }
    ensures { result ≡ start_of levels.now job }
{
    let xmss = levels.xmss_jobs();
    let xmss_len = levels.xmss_shape().answer_len();
    if job < xmss {
        job as usize * xmss_len
    } else {
        xmss as usize * xmss_len + (job - xmss) as usize * levels.fors_shape().answer_len()
    }
}

/// The length of the answer of a job, in bytes.
pub fn answer_len(levels: &Levels, job: u32) -> usize
    requires { job < jobs levels.now }
    ensures { result ≡ len_of levels.now job }
{
    if job < levels.xmss_jobs() {
        levels.xmss_shape().answer_len()
    } else {
        levels.fors_shape().answer_len()
    }
}

/// The length of the answers of all jobs, in bytes.
pub fn answers_len(levels: &Levels) -> usize
    ensures { result ≡ answers_len levels.now }
{
    levels.xmss_jobs() as usize * levels.xmss_shape().answer_len()
        + levels.fors_jobs() as usize * levels.fors_shape().answer_len()
}
