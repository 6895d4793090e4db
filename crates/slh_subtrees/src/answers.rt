//! The parts of a signature, from the answers of all jobs (ours).
ghost use Rattle.std.specs.Prelude.{◌≡◌, ◌+◌, ◌*◌, ◌<◌, ◌≤◌, ◌++◌, length, take};
ghost use Rattle.slh_params.specs.ParamSet.{params};
ghost use Rattle.slh_params.specs.declared.param_set.ParamSet.{ParamSet};
ghost use Rattle.slh_few.specs.Fors.{fors_part_len};
ghost use Rattle.slh_few.specs.KeyCheckpoints.{key_checkpoints_len};
ghost use Rattle.slh_few.specs.Chunks.{end_to_end};
ghost use Rattle.slh_few.specs.Xmss.{xmss_sig_len};
ghost use Rattle.slh_subtrees.specs.Jobs.{IsTreeOf, height_of};
ghost use Rattle.slh_subtrees.specs.SigningTrees.{set_in, source_of};
ghost use Rattle.slh_subtrees.specs.Assembled.{TreeAnswers, fors_part_by, signed_by, layer_part_by, sig_fors_by, sig_ht_by};
ghost use Rattle.slh_subtrees.specs.declared.answers.TheConstants.{MOST_ROOTS_LEN};

use crate::range::JobTree;
use crate::signing_trees::SigningTrees;
use slh_few::{MOST_TREES, fors_part_len, wots_sig_len, xmss_sig_len};
use slh_params::{Node, ParamSet, copy_of, put_node};

/// The values of the trees of a signature, from the answers of all jobs, in any representation.
pub trait Answers {
    /// The parameter set.
    ghost set: { Self → ParamSet };

    /// The values that they give: for right answers, those of the trees.
    ghost says: { Self → TreeAnswers };

    /// Writes the secret value of the leaf of FORS tree `number` that the digest asks for, n bytes.
    fn put_secret(&self, number: u32, out: &mut [u8])
        requires tree { number < (params (set self.now)).k }
        requires out { length out.old ≡ (params (set self.now)).n }
        ensures { out.new ≡ (says self.now).secret number };

    /// Writes the path of the tree's signing leaf, n bytes for each height, and returns the root, of n bytes.
    fn put_signing_path(&self, tree: JobTree, out: &mut [u8]) -> Node
        requires tree { IsTreeOf (params (set self.now)) tree }
        requires out { length out.old ≡ height_of (params (set self.now)) tree * (params (set self.now)).n }
        ensures path { out.new ≡ (says self.now).path tree }
        ensures root { result.items ≡ (says self.now).root tree }
        ensures len { length result.items ≡ (params (set self.now)).n };

    /// The checkpoints of the key that signs on the layer, `key_checkpoints_len` bytes.
    fn chains(&self, layer: u8) -> &[u8]
        requires { layer < (params (set self.now)).d }
        ensures value { result.now ≡ (says self.now).chains layer }
        ensures len { length result.now ≡ key_checkpoints_len (params (set self.now)) };
}

/// Writes the part of FORS tree `number` in the signature, the secret value and the path (FIPS 205, Algorithm 16), and
/// returns the tree's root.
fn fors_part<A: Answers>(answers: &A, set: ParamSet, number: u32, out: &mut [u8]) -> Node
    requires set { A.set answers.now ≡ set }
    requires tree { number < (params set).k }
    requires out { length out.old ≡ fors_part_len (params set) }
    ensures part { out.new ≡ fors_part_by (A.says answers.now) number }
    ensures root { result.items ≡ (A.says answers.now).root (JobTree.Fors number) }
    ensures len { length result.items ≡ (params set).n }
{
    let (secret, auth) = out.split_at_mut(set.n());
    answers.put_secret(number, secret);
    answers.put_signing_path(JobTree::Fors(number), auth)
}

/// As `fors_part`, from `start` on.
fn put_fors_part<A: Answers>(
    answers: &A,
    set: ParamSet,
    number: u32,
    out: &mut [u8],
    start: usize,
) -> Node
    requires set { A.set answers.now ≡ set }
    requires tree { number < (params set).k }
    requires out { start + fors_part_len (params set) ≤ length out.old }
    ensures part_len { length (fors_part_by (A.says answers.now) number) ≡ fors_part_len (params set) }
    ensures part { take (start + fors_part_len (params set)) out.new
        ≡ take start out.old ++ fors_part_by (A.says answers.now) number }
    ensures root { result.items ≡ (A.says answers.now).root (JobTree.Fors number) }
    ensures len { length result.items ≡ (params set).n }
{
    let end = start + fors_part_len(set);
    fors_part(answers, set, number, &mut out[start..end])
}

/// At least the length of the roots of all FORS trees in any set, of 32 bytes each.
pub const MOST_ROOTS_LEN: usize = MOST_TREES * 32;

/// The length of the roots of all FORS trees, in bytes.
pub fn roots_len(set: ParamSet) -> usize
    ensures value { result ≡ (params set).k * (params set).n }
    ensures small { result ≤ MOST_ROOTS_LEN }
{
    set.k() as usize * set.n()
}

/// Writes the FORS signature that the answers make (FIPS 205, Algorithm 16), and the roots that they say, n bytes each.
fn put_fors_parts<A: Answers>(answers: &A, set: ParamSet, out: &mut [u8], roots: &mut [u8])
    requires set { A.set answers.now ≡ set }
    requires out { length out.old ≡ (params set).k * fors_part_len (params set) }
    requires roots { length roots.old ≡ (params set).k * (params set).n }
    ensures sig_fors { out.new ≡ end_to_end (fors_part_by (A.says answers.now)) (params set).k }
    ensures roots { roots.new ≡ end_to_end (λ j. (A.says answers.now).root (JobTree.Fors j)) (params set).k }
{
    let (n, size) = (set.n(), fors_part_len(set));
    for j in 0..set.k() {
        let root = put_fors_part(answers, set, j, out, j as usize * size);
        put_node(roots, j as usize * n, &root);
    }
}

/// Writes the FORS signature from the answers (FIPS 205, Algorithm 16). Returns T over the roots that they give
/// (Algorithm 17, lines 21 to 24): for right answers, the FORS public key.
pub fn put_fors<A: Answers>(trees: &SigningTrees, answers: &A, out: &mut [u8]) -> Node
    requires set { A.set answers.now ≡ set_in trees.now }
    requires out { length out.old ≡ (params (set_in trees.now)).k * fors_part_len (params (set_in trees.now)) }
    ensures sig_fors { out.new ≡ sig_fors_by (source_of trees.now) (A.says answers.now) }
    ensures pk_fors { result.items ≡ signed_by (source_of trees.now) (A.says answers.now) 0 }
    ensures len { length result.items ≡ (params (set_in trees.now)).n }
{
    let public = &trees.signer.public;
    let mut buffer = [0; MOST_ROOTS_LEN];
    let roots = &mut buffer[..roots_len(public.set)];
    put_fors_parts(answers, public.set, out, roots);
    public.fors_pk(trees.idx_tree, trees.idx_leaf, roots)
}

/// Writes a layer's part of the signature, if its key signs `msg` (FIPS 205, Algorithm 10): the WOTS+ signature, from
/// the key's checkpoints, and the path of the key's leaf. Returns the root that the answers say.
fn layer_part<A: Answers>(
    trees: &SigningTrees,
    answers: &A,
    layer: u8,
    msg: &Node,
    out: &mut [u8],
) -> Node
    requires set { A.set answers.now ≡ set_in trees.now }
    requires layer { layer < (params (set_in trees.now)).d }
    requires msg { length msg.now.items ≡ (params (set_in trees.now)).n }
    requires out { length out.old ≡ xmss_sig_len (params (set_in trees.now)) }
    ensures part { out.new ≡ layer_part_by (source_of trees.now) (A.says answers.now) layer msg.now.items }
    ensures root { result.items ≡ (A.says answers.now).root (JobTree.Xmss layer) }
    ensures len { length result.items ≡ (params (set_in trees.now)).n }
{
    let public = &trees.signer.public;
    let (wots, auth) = out.split_at_mut(wots_sig_len(public.set));
    let at = trees.layer_place(layer);
    public.wots_sign_from_checkpoints(at, msg, answers.chains(layer), wots);
    answers.put_signing_path(JobTree::Xmss(layer), auth)
}

/// As `layer_part`, from `start` on.
fn put_layer_part<A: Answers>(
    trees: &SigningTrees,
    answers: &A,
    layer: u8,
    msg: &Node,
    out: &mut [u8],
    start: usize,
) -> Node
    requires set { A.set answers.now ≡ set_in trees.now }
    requires layer { layer < (params (set_in trees.now)).d }
    requires msg { length msg.now.items ≡ (params (set_in trees.now)).n }
    requires out { start + xmss_sig_len (params (set_in trees.now)) ≤ length out.old }
    ensures part_len { length (layer_part_by (source_of trees.now) (A.says answers.now) layer msg.now.items)
        ≡ xmss_sig_len (params (set_in trees.now)) }
    ensures part { take (start + xmss_sig_len (params (set_in trees.now))) out.new
        ≡ take start out.old ++ layer_part_by (source_of trees.now) (A.says answers.now) layer msg.now.items }
    ensures root { result.items ≡ (A.says answers.now).root (JobTree.Xmss layer) }
    ensures len { length result.items ≡ (params (set_in trees.now)).n }
{
    let end = start + xmss_sig_len(trees.signer.public.set);
    layer_part(trees, answers, layer, msg, &mut out[start..end])
}

/// Writes the hypertree signature of `pk_fors` from the answers (FIPS 205, Algorithm 12). Each layer signs the root
/// that they give for the tree below it; layer 0 signs `pk_fors`.
pub fn put_layers<A: Answers>(trees: &SigningTrees, answers: &A, pk_fors: &Node, out: &mut [u8])
    requires set { A.set answers.now ≡ set_in trees.now }
    requires pk_fors { pk_fors.now.items ≡ signed_by (source_of trees.now) (A.says answers.now) 0 }
    requires len { length pk_fors.now.items ≡ (params (set_in trees.now)).n }
    requires out { length out.old ≡ (params (set_in trees.now)).d * xmss_sig_len (params (set_in trees.now)) }
    ensures { out.new ≡ sig_ht_by (source_of trees.now) (A.says answers.now) }
{
    let set = trees.signer.public.set;
    let size = xmss_sig_len(set);
    let mut msg = copy_of(pk_fors);
    for layer in 0..set.d() as u8 {
        let start = layer as usize * size;
        msg = put_layer_part(trees, answers, layer, &msg, out, start);
    }
}
