//! The answers of the jobs of a signature (ours).
ghost use Rattle.std.specs.Prelude.{◌≡◌, ◌+◌, ◌*◌, ◌/◌, ◌^◌, ◌<◌, ◌≤◌, ◌++◌, ◌↔◌, IsOk, OnOk, OnErr, Err, length, [], ◌∷◌, ℕ};
ghost use Rattle.slh_params.specs.ParamSet.{params};
ghost use Rattle.slh_tree.specs.Tree.{node};
ghost use Rattle.slh_tree.specs.Climb.{path_below};
ghost use Rattle.slh_tree.specs.Cover.{first_leaf, past_leaf};
ghost use Rattle.slh_tree.specs.declared.cover.Placed.{Placed};
ghost use Rattle.slh_subtrees.specs.Gathered.{IsHashed};
ghost use Rattle.slh_subtrees.specs.Jobs.{IsTreeOf, height_of};
ghost use Rattle.slh_subtrees.specs.SigningTrees.{source_of, tree_in, leaf_in};
ghost use Rattle.slh_jobs.specs.Ranges.{below, own_part};
ghost use Rattle.slh_jobs.specs.Jobs.{shape_of, jobs, len_of, first_job, rest_of, rest_len, tree_answer, answer_of, tag_of};
ghost use Rattle.slh_jobs.specs.Starts.{IsStart};
ghost use Rattle.slh_jobs.specs.Tags.{start_len};
ghost use Rattle.slh_jobs.specs.declared.fault.JobFault.TheVariants.{BadStart};

use crate::fault::JobFault;
use crate::levels::Levels;
use crate::signing::Signing;
use crate::start::copy_of_start;
use crate::tag::{answer_tag, keyed_for_answers};
use slh_core::SecretKey;
use slh_few::put_known_nodes;
use slh_params::{Node, copy_of};
use slh_subtrees::{HashedRange, JobTree};

impl<'a> Signing<'a> {
    /// The result of the leaves from `lo` to before `hi` of a tree, its signing leaf among them. Writes the bytes after
    /// the path in the answer.
    fn hashed_with_rest(&self, tree: JobTree, lo: u32, hi: u32, rest: &mut [u8]) -> HashedRange
        requires tree { IsTreeOf (params self.now.levels.set) tree }
        requires some { lo < hi }
        requires within { hi ≤ 2 ^ height_of (params self.now.levels.set) tree }
        requires rest { length rest.old ≡ rest_len (params self.now.levels.set) tree }
        ensures lo { result.cover.lo ≡ lo }
        ensures hi { result.cover.hi ≡ hi }
        ensures hashed { IsHashed (tree_in self.now.trees tree) (leaf_in self.now.trees tree) result.cover result.path }
        ensures block { (z i : ℕ) → lo ≡ first_leaf z i → hi ≡ past_leaf z i
            → (p : Placed) × (result.cover.nodes.items ≡ p ∷ []) × (p.z ≡ z) × (p.i ≡ i) }
        ensures rest { rest.new ≡ rest_of (source_of self.now.trees) tree }
    {
        match tree {
            JobTree::Xmss(layer) => self.trees.hashed_with_checkpoints(layer, lo, hi, rest),
            JobTree::Fors(number) => {
                rest.copy_from_slice(&self.trees.fors_secret(number));
                self.trees.hashed(tree, lo, hi)
            }
        }
    }

    /// The node of the range of a tree in which its signing leaf is. Writes that leaf's path below this node, and then
    /// the checkpoints of the leaf's key, or the leaf's secret.
    fn signing_node(&self, tree: JobTree, own: &mut [u8]) -> Node
        requires tree { IsTreeOf (params self.now.levels.set) tree }
        requires own { length own.old ≡ (shape_of self.now.levels tree).own }
        ensures node { let v = leaf_in self.now.trees tree in let z = below (shape_of self.now.levels tree) in
            result.items ≡ node (tree_in self.now.trees tree) z (v / 2 ^ z) }
        ensures own { let v = leaf_in self.now.trees tree in let z = below (shape_of self.now.levels tree) in
            own.new ≡ path_below (tree_in self.now.trees tree) v z ++ rest_of (source_of self.now.trees) tree }
    {
        let shape = self.levels.shape(tree);
        let (lo, hi) = shape.leaves(self.trees.leaf(tree) >> shape.below());
        let (lower, rest) = own.split_at_mut(shape.path_len());
        let hashed = self.hashed_with_rest(tree, lo, hi, rest);
        put_known_nodes(&hashed.path, shape.below(), shape.n, lower);
        copy_of(&hashed.cover.nodes[0].node)
    }

    /// The node of a range of a tree. Writes its answer, without the node and the tag.
    fn put_own(&self, tree: JobTree, range: u32, own: &mut [u8]) -> Node
        requires tree { IsTreeOf (params self.now.levels.set) tree }
        requires range { range < 2 ^ (shape_of self.now.levels tree).levels }
        requires own { length own.old ≡ (shape_of self.now.levels tree).own }
        ensures node { result.items ≡ node (tree_in self.now.trees tree) (below (shape_of self.now.levels tree)) range }
        ensures own { own.new ≡ own_part (tree_in self.now.trees tree) (shape_of self.now.levels tree)
            (leaf_in self.now.trees tree) (rest_of (source_of self.now.trees) tree) range }
    {
        let below = self.levels.shape(tree).below();
        if self.trees.leaf(tree) >> below == range {
            self.signing_node(tree, own)
        } else {
            own.fill(0);
            self.trees.node(tree, below, range)
        }
    }

    /// Writes a node and its tag.
    fn put_front(&self, job: u32, node: &Node, front: &mut [u8])
        requires node { length node.now.items ≡ (params self.now.levels.set).n }
        requires front { length front.old ≡ 2 * (params self.now.levels.set).n }
        ensures { front.new ≡ node.now.items
            ++ tag_of self.now.levels self.now.sk.now self.now.start.now job node.now.items }
    {
        let (first, second) = front.split_at_mut(self.levels.set.n());
        first.copy_from_slice(node);
        let keyed = keyed_for_answers(&self.levels, self.sk, self.start);
        second.copy_from_slice(&answer_tag(&keyed, job, node));
    }

    /// Writes the answer of a job, which is of this range of this tree.
    fn put_tree_answer(&self, tree: JobTree, range: u32, job: u32, answer: &mut [u8])
        requires tree { IsTreeOf (params self.now.levels.set) tree }
        requires range { range < 2 ^ (shape_of self.now.levels tree).levels }
        requires job { first_job self.now.levels tree + range ≡ job }
        requires answer { length answer.old ≡ 2 * (params self.now.levels.set).n + (shape_of self.now.levels tree).own }
        ensures { answer.new ≡ tree_answer self.now.levels (source_of self.now.trees)
            (tag_of self.now.levels self.now.sk.now self.now.start.now) tree range }
    {
        let (front, own) = answer.split_at_mut(2 * self.levels.set.n());
        let node = self.put_own(tree, range, own);
        self.put_front(job, &node, front);
    }

    /// Writes the answer of a job.
    fn put_answer(&self, job: u32, answer: &mut [u8])
        requires job { job < jobs self.now.levels }
        requires answer { length answer.old ≡ len_of self.now.levels job }
        ensures { answer.new ≡ answer_of self.now.levels self.now.sk.now self.now.start.now job }
    {
        let (tree, range) = self.levels.tree_and_range(job);
        self.put_tree_answer(tree, range, job, answer);
    }
}

/// Writes the answer of a job of the signature that `start` begins, `answer_len` bytes. It depends only on its
/// arguments: any thread may call it, in any order. Refused, with nothing written, as `BadStart` if `start` does not
/// have its tag under this key, which is checked before the job.
pub fn sign_job(
    levels: &Levels,
    sk: &SecretKey,
    start: &[u8],
    job: u32,
    answer: &mut [u8],
) -> Result<(), JobFault>
    requires set { sk.now.set ≡ levels.now.set }
    requires start { length start.now ≡ start_len (params levels.now.set) }
    requires job { job < jobs levels.now }
    requires answer { length answer.old ≡ len_of levels.now job }
    ensures start { (result ≡ Err BadStart) ↔ (IsStart sk.now start.now → ⊥) }
    ensures accepted { IsOk result ↔ IsStart sk.now start.now }
    ensures answer { OnOk result (answer.new ≡ answer_of levels.now sk.now start.now job) }
    ensures refused { OnErr result (answer.new ≡ answer.old) }
{
    let start = copy_of_start(start);
    let signer = sk.signer();
    let Some(signing) = Signing::new(levels, sk, &signer, start.as_slice()) else {
        return Err(JobFault::BadStart);
    };
    signing.put_answer(job, answer);
    Ok(())
}
