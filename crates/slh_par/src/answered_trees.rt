//! The trees of a signature after all their ranges are hashed (ours).
ghost use Rattle.std.specs.Prelude.{◌≡◌, ◌+◌, ◌<◌, ◌≤◌, ◌^◌, IfOk, length, take, drop};
ghost use Rattle.slh_params.specs.ParamSet.{params};
ghost use Rattle.slh_subtrees.specs.Assembled.{answers_of};
ghost use Rattle.slh_subtrees.specs.Jobs.{IsTreeOf, height_of, signing_jobs, tree_ranges, tree_jobs};
ghost use Rattle.slh_subtrees.specs.Gathered.{IsGathered};
ghost use Rattle.slh_subtrees.specs.Points.{EndToEnd};
ghost use Rattle.slh_subtrees.specs.SigningTrees.{set_in, source_of, tree_in, leaf_in};
ghost use Rattle.slh_par.specs.JobAnswers.{AreRangeAnswers, AreCheckpoints, IsRight};
ghost use Rattle.slh_workers.specs.Answers.{RightByPlace};

use crate::key_checkpoints::KeyCheckpoints;
use crate::ranges::JobAnswer;
use crate::splitting::split_answers;
use slh_few::put_known_nodes;
use slh_params::Node;
use slh_subtrees::{Answers, Cutting, GatheredTree, JobTree, SigningTrees};
use slh_tree::{Cover, PathRec};
use slh_workers::NoMemory;
use std::alloc::Allocator;

/// All trees of a signature, with the results of their ranges, and the checkpoints of the keys that sign.
#[derive(Drop)]
pub(crate) struct AnsweredTrees<'t, 's, A: Allocator> {
    /// The inputs of the trees.
    pub(crate) trees: &'t SigningTrees<'s>,
    /// How they are cut into ranges.
    pub(crate) cutting: &'t Cutting,
    /// The covers of the ranges, in the order of the jobs.
    pub(crate) covers: Vec<Cover, A>,
    /// For each range the nodes of its tree's path whose leaves are in it, in this order.
    pub(crate) records: Vec<PathRec, A>,
    /// The checkpoints of the key that signs on each layer, from 0 on.
    pub(crate) chains: Vec<KeyCheckpoints<A>, A>,
    ghost same_set: { cutting.now.set ≡ set_in trees.now },
    ghost all_answers: { ∥ AreRangeAnswers trees.now cutting.now covers.items records.items ∥₁ },
    ghost all_chains: { ∥ AreCheckpoints (source_of trees.now) chains.items ∥₁ },
}

impl<'t, 's, A: Allocator + Clone> AnsweredTrees<'t, 's, A> {
    /// The trees, from the answers of all jobs in the order of their numbers. Refuses `NoMemory` if a growth was
    /// refused.
    pub(crate) fn new(
        alloc: A,
        trees: &'t SigningTrees<'s>,
        cutting: &'t Cutting,
        answers: Vec<JobAnswer<A>, A>,
    ) -> Result<Self, NoMemory>
        requires set { cutting.now.set ≡ set_in trees.now }
        requires count { length answers.items ≡ length (signing_jobs cutting.now) }
        requires right { RightByPlace (IsRight trees.now cutting.now) answers.items }
        ensures { IfOk result (λ x. x.trees.now ≡ trees.now) }
    {
        let (covers, records, chains) = split_answers(alloc, answers)?;
        // For the prover: the ranges lie end to end, so that each signing leaf is in one of them.
        let _ranges = cutting.xmss_ranges();
        Ok(AnsweredTrees {
            trees,
            cutting,
            covers,
            records,
            chains,
        })
    }
}

/// How many ranges the tree has.
fn range_count(cutting: &Cutting, tree: JobTree) -> u32
    ensures count { result ≡ length (tree_jobs cutting.now tree) }
    ensures some { 0 < result }
    ensures few { result ≤ 256 }
    ensures end_to_end { let cut = cutting.now in
        EndToEnd 0 (2 ^ height_of (params cut.set) tree) (tree_ranges cut tree) }
{
    match tree {
        JobTree::Xmss(_) => cutting.xmss_ranges(),
        JobTree::Fors(_) => cutting.fors_ranges(),
    }
}

/// `count` elements of the list, from place `first` on.
fn part<X>(all: &[X], first: u32, count: u32) -> &[X]
    requires { first + count ≤ length all.now }
    ensures { result.now ≡ take count (drop first all.now) }
{
    let start = first as usize;
    &all[start..start + count as usize]
}

/// One tree, from the covers and the records of the ranges of all trees.
fn tree_of_ranges(
    trees: &SigningTrees<'_>,
    cutting: &Cutting,
    tree: JobTree,
    covers: &[Cover],
    records: &[PathRec],
) -> GatheredTree
    requires set { cutting.now.set ≡ set_in trees.now }
    requires tree { IsTreeOf (params cutting.now.set) tree }
    requires answers { AreRangeAnswers trees.now cutting.now covers.now records.now }
    ensures { IsGathered (tree_in trees.now tree) (leaf_in trees.now tree) result }
{
    let first = cutting.first_job(tree);
    let count = range_count(cutting, tree);
    trees.gathered(
        tree,
        part(covers, first, count),
        part(records, first, count),
    )
}

impl<'t, 's, A: Allocator> Answers for AnsweredTrees<'t, 's, A> {
    ghost set = { λ x. set_in x.trees.now };

    ghost says = { λ x. answers_of (source_of x.trees.now) };

    fn put_secret(&self, number: u32, out: &mut [u8]) {
        out.copy_from_slice(&self.trees.fors_secret(number));
    }

    fn put_signing_path(&self, tree: JobTree, out: &mut [u8]) -> Node {
        let set = self.trees.signer.public.set;
        let gathered = tree_of_ranges(self.trees, self.cutting, tree, &self.covers, &self.records);
        put_known_nodes(&gathered.path, tree.height(set), set.n(), out);
        gathered.root
    }

    fn chains(&self, layer: u8) -> &[u8] {
        self.chains[layer as usize].bytes()
    }
}
