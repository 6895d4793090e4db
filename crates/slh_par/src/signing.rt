//! Signing by several threads (FIPS 205, Algorithms 22 and 23).
ghost use Rattle.std.specs.Prelude.{◌≡◌, ◌≤◌, ◌++◌, ◌↔◌, Err, length, OnOk, OnErr, IfOk, IfErr};
ghost use Rattle.slh_params.specs.Params.{m, sig_len};
ghost use Rattle.slh_params.specs.ParamSet.{params};
ghost use Rattle.slh_hash.specs.Keyed.{joined};
ghost use Rattle.slh_core.specs.Keys.{public_of, IsGeneratedKey};
ghost use Rattle.slh_core.specs.Randomizers.{HasLength};
ghost use Rattle.slh_core.specs.Signatures.{signature_by, IsValid};
ghost use Rattle.slh_subtrees.specs.Assembled.{answers_of, sig_fors_by, sig_ht_by};
ghost use Rattle.slh_subtrees.specs.SigningTrees.{set_in, source_of};
ghost use Rattle.slh_subtrees.specs.Jobs.{signing_jobs};
ghost use Rattle.slh_par.specs.JobAnswers.{IsRight, source_by};
ghost use Rattle.slh_workers.specs.Answers.{RightByPlace};
ghost use Rattle.slh_workers.specs.declared.fault.RunFault.TheVariants.{NoMemory as NoMemoryFault, Stopped};

use crate::answered_trees::AnsweredTrees;
use crate::ranges::{JobAnswer, TreeRanges};
use slh_core::signing_steps::{MOST_DIGEST_LEN, fors_sig_len, randomized_digest};
use slh_core::{Randomizer, SecretKey, digest_indices};
use slh_few::SigningContext;
use slh_params::Node;
use slh_subtrees::{Cutting, SigningTrees, put_fors, put_layers};
use slh_workers::{Gate, NoMemory, RunFault, Workers, run_all};
use std::alloc::Allocator;
use std::thread::Threads;

/// Writes a signature: R, the FORS signature, and the hypertree signature of the FORS public key (Algorithm 19).
fn put_signature<A: Allocator>(r: &Node, answered: &AnsweredTrees<'_, '_, A>, out: &mut [u8])
    requires r { length r.now.items ≡ (params (set_in answered.now.trees.now)).n }
    requires out { length out.old ≡ sig_len (params (set_in answered.now.trees.now)) }
    ensures { let s = source_of answered.now.trees.now in
        out.new ≡ r.now.items ++ (sig_fors_by s (answers_of s) ++ sig_ht_by s (answers_of s)) }
{
    let trees = answered.trees;
    let set = trees.signer.public.set;
    let (front, rest) = out.split_at_mut(set.n());
    front.copy_from_slice(r.as_slice());
    let (sig_fors, sig_ht) = rest.split_at_mut(fors_sig_len(set));
    let pk_fors = put_fors(trees, answered, sig_fors);
    put_layers(trees, answered, &pk_fors, sig_ht);
}

/// The trees of the signature of a digest (Algorithm 19, lines 6 to 10).
fn trees_of<'a>(signer: &'a SigningContext<'a>, digest: &'a [u8]) -> SigningTrees<'a>
    requires { length digest.now ≡ m (params signer.now.public.set) }
    ensures set { set_in result ≡ signer.now.public.set }
    ensures source { source_of result ≡ source_by signer.now digest.now }
{
    let set = signer.public.set;
    let md = &digest[..set.md_len()];
    let indices = digest_indices(set, digest);
    SigningTrees::new(signer, indices.idx_tree, indices.idx_leaf, md)
}

/// Writes the signature from the result of a run of all jobs, or writes nothing. It has no gate to ask: it refuses
/// `Stopped` exactly if the run was stopped, and `NoMemory` if the run was refused memory, or a growth here is.
fn write_signature<A: Allocator + Clone>(
    kept: A,
    r: &Node,
    trees: &SigningTrees<'_>,
    cutting: &Cutting,
    answers: Result<Vec<JobAnswer<A>, A>, RunFault>,
    out: &mut [u8],
) -> Result<(), RunFault>
    requires r { length r.now.items ≡ (params (set_in trees.now)).n }
    requires set { cutting.now.set ≡ set_in trees.now }
    requires count { IfOk answers (λ a. length a.items ≡ length (signing_jobs cutting.now)) }
    requires right { IfOk answers (λ a. RightByPlace (IsRight trees.now cutting.now) a.items) }
    requires out { length out.old ≡ sig_len (params (set_in trees.now)) }
    ensures signature { OnOk result (let s = source_of trees.now in
        out.new ≡ r.now.items ++ (sig_fors_by s (answers_of s) ++ sig_ht_by s (answers_of s))) }
    ensures refused { OnErr result (out.new ≡ out.old) }
    ensures no_memory { answers ≡ Err NoMemoryFault → result ≡ Err NoMemoryFault }
    ensures stopped { (result ≡ Err Stopped) ↔ (answers ≡ Err Stopped) }
{
    let answered = AnsweredTrees::new(kept, trees, cutting, answers?)?;
    put_signature(r, &answered, out);
    Ok(())
}

/// Writes the signature of the parts put end to end, `sig_len` bytes (Algorithm 19), by workers that share the ranges of
/// the cutting. The bytes are written last, so that a refusal writes none.
pub(crate) fn sign_parts_par<R: Threads + Sync, A: Allocator + Clone + Send + Sync, G: Gate>(
    rt: &R,
    alloc: A,
    parts: &[&[u8]],
    sk: &SecretKey,
    randomizer: Randomizer,
    workers: Workers,
    cutting: &Cutting,
    gate: &G,
    out: &mut [u8],
) -> Result<(), RunFault>
    requires randomizer { HasLength randomizer (params sk.now.set).n }
    requires cutting { cutting.now.set ≡ sk.now.set }
    requires out { length out.old ≡ sig_len (params sk.now.set) }
    ensures signature { OnOk result (out.new ≡ signature_by sk.now (joined parts.now) randomizer.entry) }
    ensures authentic { OnOk result (IsGeneratedKey sk.now → IsValid (public_of sk.now) (joined parts.now) out.new) }
    ensures refused { OnErr result (out.new ≡ out.old) }
    ensures stopped { IfErr result (λ fault. fault ≡ Stopped → G.may_stop gate.now) }
{
    let set = sk.set();
    let mut buffer = [0; MOST_DIGEST_LEN];
    let digest = &mut buffer[..set.m()];
    let r = randomized_digest(parts, sk, randomizer, digest);
    let signer = sk.signer();
    let trees = trees_of(&signer, digest);
    let work = TreeRanges {
        trees: &trees,
        cutting,
        alloc: alloc.clone().map_err(NoMemory::from)?,
    };
    let kept = alloc.clone().map_err(NoMemory::from)?;
    let answers = run_all(rt, alloc, &work, workers, gate);
    write_signature(kept, &r, &trees, cutting, answers, out)?;
    Ok(())
}
