//! Key generation as jobs (FIPS 205, Algorithm 18).
ghost use Rattle.std.specs.Prelude.{◌≡◌, ◌↔◌, ℕ, ◌+◌, ◌*◌, ◌^◌, ◌<◌, ◌≤◌, ◌++◌, IsOk, IsSome, IfSome, IfOk, Err, length};
ghost use Rattle.slh_params.specs.ParamSet.{params};
ghost use Rattle.slh_tree.specs.Tree.{node};
ghost use Rattle.slh_core.specs.Keys.{generated_key, IsGeneratedKey};
ghost use Rattle.slh_jobs.specs.Ranges.{IsShape, below, answer_len};
ghost use Rattle.slh_jobs.specs.KeyJobs.{key_shape, key_jobs, key_tree, key_answer, key_root, AreKeyAnswers, AreTagged};
ghost use Rattle.slh_jobs.specs.declared.fault.JobFault.TheVariants.{BadAnswersLength};

use crate::answer_bytes::{AnswerBytes, MOST_NODES_LEN, TreeRanges, are_judged};
use crate::fault::JobFault;
use crate::jobs::ranges;
use crate::levels::Levels;
use crate::shape::Shape;
use crate::tag::{answer_tag, keyed_for_key, tags_of_key};
use crate::upper_tree::{top_root, xmss_joins};
use slh_core::SecretKey;
use slh_few::{HashContext, Seeds, xmss_node};
use slh_params::{Node, ParamSet};
use slh_subtrees::top_layer;

/// How the tree of the top layer is cut.
fn key_shape(levels: &Levels) -> Shape
    ensures value { result ≡ key_shape levels.now }
    ensures shape { IsShape result }
{
    Shape {
        n: levels.set.n(),
        height: levels.set.hp(),
        levels: levels.xmss,
        own: 0,
    }
}

/// The number of jobs of key generation: the ranges of the XMSS tree of the top layer.
pub fn keygen_jobs(levels: &Levels) -> u32
    ensures value { result ≡ key_jobs levels.now }
    ensures few { result ≤ 256 }
{
    ranges(levels.xmss)
}

/// The length of the answer of a job of key generation, in bytes: 2n.
pub fn key_answer_len(set: ParamSet) -> usize
    ensures { result ≡ 2 * (params set).n }
{
    2 * set.n()
}

/// The node of a range of the tree.
fn key_node(levels: &Levels, sk_seed: &[u8], pk_seed: &[u8], range: u32) -> Node
    requires sk_seed { length sk_seed.now ≡ (params levels.now.set).n }
    requires pk_seed { length pk_seed.now ≡ (params levels.now.set).n }
    requires range { range < key_jobs levels.now }
    ensures value { result.items
        ≡ node (key_tree levels.now sk_seed.now pk_seed.now) (below (key_shape levels.now)) range }
    ensures len { length result.items ≡ (params levels.now.set).n }
{
    let set = levels.set;
    let seeds = Seeds {
        set,
        sk_seed,
        pk_seed,
    };
    xmss_node(&seeds, top_layer(set), 0, key_shape(levels).below(), range)
}

/// Writes the answer of a job of the generation of the key of three seeds of n bytes each, 2n bytes. It depends only on
/// its arguments: any thread may call it, in any order.
pub fn keygen_job(
    levels: &Levels,
    sk_seed: &[u8],
    sk_prf: &[u8],
    pk_seed: &[u8],
    job: u32,
    answer: &mut [u8],
)
    requires sk_seed { length sk_seed.now ≡ (params levels.now.set).n }
    requires sk_prf { length sk_prf.now ≡ (params levels.now.set).n }
    requires pk_seed { length pk_seed.now ≡ (params levels.now.set).n }
    requires job { job < key_jobs levels.now }
    requires answer { length answer.old ≡ 2 * (params levels.now.set).n }
    ensures { answer.new ≡ key_answer levels.now sk_seed.now sk_prf.now pk_seed.now job }
{
    let node = key_node(levels, sk_seed, pk_seed, job);
    let (first, second) = answer.split_at_mut(levels.set.n());
    first.copy_from_slice(&node);
    let keyed = keyed_for_key(levels, sk_seed, sk_prf, pk_seed);
    second.copy_from_slice(&answer_tag(&keyed, job, &node));
}

/// The root that the answers give, of n bytes; `None` if a node does not have its tag. Each node is read once: the copy
/// that is compared is hashed.
fn judged_root(
    levels: &Levels,
    sk_seed: &[u8],
    sk_prf: &[u8],
    pk_seed: &[u8],
    given: &AnswerBytes,
) -> Option<Node>
    requires sk_seed { length sk_seed.now ≡ (params levels.now.set).n }
    requires sk_prf { length sk_prf.now ≡ (params levels.now.set).n }
    requires pk_seed { length pk_seed.now ≡ (params levels.now.set).n }
    requires shape { given.now.shape ≡ key_shape levels.now }
    requires there { length given.now.bytes.now ≡ key_jobs levels.now * answer_len (key_shape levels.now) }
    ensures fit { IsSome result ↔ AreTagged levels.now sk_seed.now sk_prf.now pk_seed.now given.now.bytes.now }
    ensures root { IfSome result (λ root. root.items
        ≡ key_root levels.now sk_seed.now pk_seed.now given.now.bytes.now) }
    ensures len { IfSome result (λ root. length root.items ≡ (params levels.now.set).n) }
{
    let set = levels.set;
    let tags = tags_of_key(levels, sk_seed, sk_prf, pk_seed);
    let mut copies = [0; MOST_NODES_LEN];
    let copies = &mut copies[..keygen_jobs(levels) as usize * set.n()];
    if !are_judged(given, 0, &tags, 0, copies) {
        return None;
    }
    let context = HashContext::new(set, pk_seed);
    let tree = xmss_joins(&context, top_layer(set), 0);
    let own = TreeRanges {
        given: *given,
        first: 0,
    };
    Some(top_root(&tree, &own, copies))
}

/// The secret key of three seeds of n bytes each (FIPS 205, Algorithm 18), from the answers of all jobs, end to end in
/// the order of the jobs. If each answer is that of `keygen_job`, it is the key of `keygen_internal` of `slh_core`.
///
/// The answers may be any bytes. Refused: `BadAnswersLength` unless they have 2n bytes for each job; `AnswersDisagree`
/// if a node does not have the tag of its job under these seeds and these levels.
pub fn keygen_join(
    levels: &Levels,
    sk_seed: &[u8],
    sk_prf: &[u8],
    pk_seed: &[u8],
    answers: &[u8],
) -> Result<SecretKey, JobFault>
    requires sk_seed { length sk_seed.now ≡ (params levels.now.set).n }
    requires sk_prf { length sk_prf.now ≡ (params levels.now.set).n }
    requires pk_seed { length pk_seed.now ≡ (params levels.now.set).n }
    ensures length { (result ≡ Err BadAnswersLength)
        ↔ (length answers.now ≡ key_jobs levels.now * answer_len (key_shape levels.now) → ⊥) }
    ensures fit { IsOk result ↔ ((length answers.now ≡ key_jobs levels.now * answer_len (key_shape levels.now))
        × AreTagged levels.now sk_seed.now sk_prf.now pk_seed.now answers.now) }
    ensures joined { IfOk result (λ key. key ≡ record {
      set = levels.now.set;
      bytes = sk_seed.now ++ sk_prf.now ++ pk_seed.now
          ++ key_root levels.now sk_seed.now pk_seed.now answers.now;
    }) }
    ensures right { AreKeyAnswers levels.now sk_seed.now sk_prf.now pk_seed.now answers.now
        → length answers.now ≡ key_jobs levels.now * answer_len (key_shape levels.now) → IsOk result }
    ensures key { AreKeyAnswers levels.now sk_seed.now sk_prf.now pk_seed.now answers.now
        → IfOk result (λ key. key ≡ generated_key levels.now.set sk_seed.now sk_prf.now pk_seed.now) }
    ensures generated { AreKeyAnswers levels.now sk_seed.now sk_prf.now pk_seed.now answers.now
        → IfOk result IsGeneratedKey }
{
    let shape = key_shape(levels);
    if answers.len() != keygen_jobs(levels) as usize * shape.answer_len() {
        return Err(JobFault::BadAnswersLength);
    }
    let given = AnswerBytes {
        shape,
        bytes: answers,
    };
    let Some(root) = judged_root(levels, sk_seed, sk_prf, pk_seed, &given) else {
        return Err(JobFault::AnswersDisagree);
    };
    Ok(SecretKey::from_parts(levels.set, sk_seed, sk_prf, pk_seed, &root))
}
