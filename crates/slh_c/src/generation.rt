//! Exports for key generation as jobs, for the caller's own threads (FIPS 205, Algorithm 18).
ghost use Rattle.std.specs.Prelude.{◌≡◌, ◌≢◌, ◌↔◌, ◌*◌, ◌++◌, length, Some, IsOk, IfOk, IfErr};
ghost use Rattle.slh_params.specs.Params.{sk_len};
ghost use Rattle.slh_params.specs.ParamSet.{params};
ghost use Rattle.slh_core.specs.Keys.{generated_key, IsGeneratedKey};
ghost use Rattle.slh_jobs.specs.KeyJobs.{key_jobs, key_answer, key_root, AreKeyAnswers, AreTagged};
ghost use Rattle.slh_c.specs.Cuttings.{WithLevels, levels_of};
ghost use Rattle.slh_c.specs.Keys.{key};
ghost use Rattle.slh_c.specs.Numbers.{set_numbered};
ghost use Rattle.slh_c.specs.Refusals.{number};
ghost use Rattle.slh_c.specs.Rules.{first_refusal, keygen_jobs_rules, keygen_job_rules, keygen_join_rules};
ghost use Rattle.slh_c.specs.declared.refusal.Refusal.TheVariants.{AnswersDisagree};

use crate::cuttings::cut_of;
use crate::refusal::{DONE, Refusal, or_refuse};
use crate::rules::{self, judge};
use slh_jobs::{Levels, key_answer_len, keygen_job, keygen_jobs, keygen_join};

/// Writes the number of jobs of key generation, if the XMSS tree of the top layer is cut by these levels, and the
/// length of an answer in bytes. Refused, with nothing written, by `keygen_jobs_rules`: a number of no set, levels that
/// are not valid.
#[unsafe(no_mangle)]
pub extern "C" fn slh_keygen_jobs(
    set: u32,
    xmss_levels: u32,
    jobs: &mut u32,
    answer: &mut usize,
) -> u32
    ensures answer { result ≡ first_refusal (keygen_jobs_rules set xmss_levels) }
    ensures numbers { result ≡ DONE → WithLevels set xmss_levels 0 (λ c.
        (jobs.new ≡ key_jobs c) × (answer.new ≡ 2 * (params c.set).n)) }
    ensures refused { result ≢ DONE → (jobs.new ≡ jobs.old) × (answer.new ≡ answer.old) }
{
    let levels = or_refuse!(cut_of(set, xmss_levels, 0));
    *jobs = keygen_jobs(&levels);
    *answer = key_answer_len(levels.set);
    DONE
}

/// Writes the answer of a job of the generation of the key of three seeds of n bytes each. Refused, with nothing
/// written, by `keygen_job_rules`: as `slh_keygen_jobs` is, for a number of no job, and for a seed or an output of
/// another length.
#[unsafe(no_mangle)]
pub extern "C" fn slh_keygen_job(
    set: u32,
    xmss_levels: u32,
    sk_seed: &[u8],
    sk_prf: &[u8],
    pk_seed: &[u8],
    job: u32,
    answer: &mut [u8],
) -> u32
    ensures answer { result ≡ first_refusal
        (keygen_job_rules set xmss_levels sk_seed.now sk_prf.now pk_seed.now job answer.old) }
    ensures written { result ≡ DONE → WithLevels set xmss_levels 0 (λ c.
        answer.new ≡ key_answer c sk_seed.now sk_prf.now pk_seed.now job) }
    ensures refused { result ≢ DONE → answer.new ≡ answer.old }
{
    let levels = or_refuse!(cut_of(set, xmss_levels, 0));
    if job >= keygen_jobs(&levels) {
        return Refusal::NoSuchJob.number();
    }
    or_refuse!(judge(&[
        rules::seed(levels.set, sk_seed),
        rules::seed(levels.set, sk_prf),
        rules::seed(levels.set, pk_seed),
        rules::output(key_answer_len(levels.set), answer),
    ]));
    keygen_job(&levels, sk_seed, sk_prf, pk_seed, job, answer);
    DONE
}

/// The levels of the arguments of `slh_keygen_join`. Refused by `keygen_join_rules`.
#[tactic(auto, using(slh_params::proofs::Bounds::bounds))]
fn join_levels(
    set: u32,
    xmss_levels: u32,
    sk_seed: &[u8],
    sk_prf: &[u8],
    pk_seed: &[u8],
    answers: &[u8],
    sk: &[u8],
) -> Result<Levels, Refusal>
    ensures ok { let rules = keygen_join_rules set xmss_levels sk_seed.now sk_prf.now pk_seed.now answers.now sk.now in
        IsOk result ↔ (first_refusal rules ≡ DONE) }
    ensures refused { let rules =
        keygen_join_rules set xmss_levels sk_seed.now sk_prf.now pk_seed.now answers.now sk.now in
        IfErr result (λ refusal. number refusal ≡ first_refusal rules) }
    ensures set { IfOk result (λ levels. set_numbered set ≡ Some levels.set) }
    ensures levels { IfOk result (λ levels. levels_of levels.set xmss_levels 0 ≡ Some levels) }
    ensures sk_seed { IfOk result (λ levels. length sk_seed.now ≡ (params levels.set).n) }
    ensures sk_prf { IfOk result (λ levels. length sk_prf.now ≡ (params levels.set).n) }
    ensures pk_seed { IfOk result (λ levels. length pk_seed.now ≡ (params levels.set).n) }
    ensures answers { IfOk result (λ levels. length answers.now ≡ key_jobs levels * (2 * (params levels.set).n)) }
    ensures sk { IfOk result (λ levels. length sk.now ≡ sk_len (params levels.set)) }
{
    let levels = cut_of(set, xmss_levels, 0)?;
    let answers_len = keygen_jobs(&levels) as usize * key_answer_len(levels.set);
    judge(&[
        rules::seed(levels.set, sk_seed),
        rules::seed(levels.set, sk_prf),
        rules::seed(levels.set, pk_seed),
        rules::output(levels.set.sk_len(), sk),
        rules::has_len(answers, answers_len, Refusal::BadAnswersLength),
    ])?;
    Ok(levels)
}

/// Writes the secret key, 4n bytes, of three seeds of n bytes each, from the answers of all jobs, end to end in the
/// order of the jobs. If each is that of `slh_keygen_job`, these are the bytes of `slh_keygen`. Refused, with nothing
/// written, by `keygen_join_rules`: as `slh_keygen_jobs` is, and for a seed, an output or answers of another length;
/// then if a node does not have its tag.
#[unsafe(no_mangle)]
pub extern "C" fn slh_keygen_join(
    set: u32,
    xmss_levels: u32,
    sk_seed: &[u8],
    sk_prf: &[u8],
    pk_seed: &[u8],
    answers: &[u8],
    sk: &mut [u8],
) -> u32
    ensures ruled { let rules =
        keygen_join_rules set xmss_levels sk_seed.now sk_prf.now pk_seed.now answers.now sk.old in
        first_refusal rules ≢ DONE → result ≡ first_refusal rules }
    ensures judged { let rules =
        keygen_join_rules set xmss_levels sk_seed.now sk_prf.now pk_seed.now answers.now sk.old in
        first_refusal rules ≡ DONE → result ≢ DONE → result ≡ number AnswersDisagree }
    ensures fit { let rules = keygen_join_rules set xmss_levels sk_seed.now sk_prf.now pk_seed.now answers.now sk.old in
        first_refusal rules ≡ DONE → WithLevels set xmss_levels 0 (λ c.
        (result ≡ DONE) ↔ AreTagged c sk_seed.now sk_prf.now pk_seed.now answers.now) }
    ensures joined { result ≡ DONE → WithLevels set xmss_levels 0 (λ c.
        sk.new ≡ sk_seed.now ++ sk_prf.now ++ pk_seed.now ++ key_root c sk_seed.now pk_seed.now answers.now) }
    ensures right { let rules =
        keygen_join_rules set xmss_levels sk_seed.now sk_prf.now pk_seed.now answers.now sk.old in
        first_refusal rules ≡ DONE → WithLevels set xmss_levels 0 (λ c.
        AreKeyAnswers c sk_seed.now sk_prf.now pk_seed.now answers.now → result ≡ DONE) }
    ensures key { result ≡ DONE → WithLevels set xmss_levels 0 (λ c.
        AreKeyAnswers c sk_seed.now sk_prf.now pk_seed.now answers.now
        → key c.set sk.new ≡ generated_key c.set sk_seed.now sk_prf.now pk_seed.now) }
    ensures generated { result ≡ DONE → WithLevels set xmss_levels 0 (λ c.
        AreKeyAnswers c sk_seed.now sk_prf.now pk_seed.now answers.now → IsGeneratedKey (key c.set sk.new)) }
    ensures refused { result ≢ DONE → sk.new ≡ sk.old }
{
    let levels = or_refuse!(join_levels(set, xmss_levels, sk_seed, sk_prf, pk_seed, answers, sk));
    match keygen_join(&levels, sk_seed, sk_prf, pk_seed, answers) {
        Ok(key) => {
            sk.copy_from_slice(key.bytes());
            DONE
        }
        Err(_) => Refusal::AnswersDisagree.number(),
    }
}
