//! The ranges of a signature's trees, as jobs (ours).
ghost use Rattle.std.specs.Prelude.{◌≡◌, IfOk, length};
ghost use Rattle.slh_subtrees.specs.Jobs.{signing_jobs};
ghost use Rattle.slh_par.specs.JobAnswers.{IsRight};

use crate::key_checkpoints::KeyCheckpoints;
use slh_few::key_checkpoints_len;
use slh_subtrees::{Cutting, HashedRange, JobRange, JobTree, SigningTrees, job, sign_jobs};
use slh_workers::{NoMemory, Work};
use std::alloc::Allocator;
use std::boxed::Box;
use std::marker::Model;

/// The answer of a job: the result of its range, and the checkpoints of the key that signs, if its leaf is in the
/// range. The range has room for a cover of any tree, some 2 KB. So it stands apart: an answer is moved several times
/// on its way from the worker to the signature.
#[derive(Drop)]
pub(crate) struct JobAnswer<A: Allocator> {
    range: Box<HashedRange, A>,
    checkpoints: Option<KeyCheckpoints<A>>,
}

impl<A: Allocator> Model for JobAnswer<A> {
    ghost use Rattle.std.specs.Prelude.{ℕ, List, Option};
    ghost use Rattle.slh_subtrees.specs.declared.hashed_range.HashedRange.{HashedRange};

    ghost Value = { HashedRange × Option (List ℕ) };

    ghost view = { λ answer. (answer.range.value, answer.checkpoints) };
}

impl<A: Allocator> JobAnswer<A> {
    /// This range and its checkpoints. Refuses `NoMemory` if a growth was refused.
    fn new(
        alloc: A,
        range: HashedRange,
        checkpoints: Option<KeyCheckpoints<A>>,
    ) -> Result<JobAnswer<A>, NoMemory>
        ensures { IfOk result (λ answer. answer ≡ (range, checkpoints)) }
    {
        let range = Box::new(alloc, range)?;
        Ok(JobAnswer { range, checkpoints })
    }

    /// The range and its checkpoints.
    pub(crate) fn into_parts(self) -> (HashedRange, Option<KeyCheckpoints<A>>)
        ensures { result ≡ self }
    {
        let JobAnswer { range, checkpoints } = self;
        (Box::into_inner(range), checkpoints)
    }
}

/// The ranges of all trees of one signature. Checkpoints are memory of the allocator.
#[derive(Drop)]
pub(crate) struct TreeRanges<'w, 's, A: Allocator + Clone + Send + Sync> {
    pub(crate) trees: &'w SigningTrees<'s>,
    pub(crate) cutting: &'w Cutting,
    pub(crate) alloc: A,
    ghost same_set: { cutting.now.set ≡ trees.now.signer.now.public.set },
}

impl<'w, 's, A: Allocator + Clone + Send + Sync> Work for TreeRanges<'w, 's, A> {
    type Out = JobAnswer<A>;

    ghost jobs = { λ w. length (signing_jobs w.cutting.now) };

    ghost is_right = { λ w n x. IsRight w.trees.now w.cutting.now n x };

    fn count(&self) -> u32 {
        sign_jobs(self.cutting)
    }

    fn run(&self, i: u32) -> Result<JobAnswer<A>, NoMemory> {
        let trees = self.trees;
        let JobRange { tree, lo, hi } = job(self.cutting, i);
        match tree {
            JobTree::Xmss(layer) if trees.signs_in(layer, lo, hi) => {
                let mut checkpoints = vec![in self.alloc.clone()?; 0; key_checkpoints_len(
                    trees.signer.public.set
                )]?;
                let range = trees.hashed_with_checkpoints(layer, lo, hi, &mut checkpoints);
                JobAnswer::new(
                    self.alloc.clone()?,
                    range,
                    Some(KeyCheckpoints::new(checkpoints)),
                )
            }
            other => JobAnswer::new(self.alloc.clone()?, trees.hashed(other, lo, hi), None),
        }
    }
}
