//! Exports for a signature as jobs, for the caller's own threads: the number of jobs, and the work of each (ours).
ghost use Rattle.std.specs.Prelude.{◌≡◌, ◌≢◌, ◌↔◌, ◌<◌, length, Some, IsOk, IfOk, IfErr};
ghost use Rattle.slh_params.specs.ParamSet.{params};
ghost use Rattle.slh_core.specs.Messages.{pure_message, pre_hash_message};
ghost use Rattle.slh_core.specs.PreHash.{PH};
ghost use Rattle.slh_jobs.specs.Jobs.{jobs, start_of, len_of, answers_len, answer_of};
ghost use Rattle.slh_jobs.specs.Starts.{IsStart};
ghost use Rattle.slh_jobs.specs.Tags.{start_len};
ghost use Rattle.slh_c.specs.Cuttings.{WithLevels, levels_of};
ghost use Rattle.slh_c.specs.Keys.{key, start_under};
ghost use Rattle.slh_c.specs.Numbers.{InSet, WithFunction, set_numbered};
ghost use Rattle.slh_c.specs.Refusals.{number};
ghost use Rattle.slh_c.specs.Rules.{first_refusal, sign_jobs_rules, answer_rules, sign_start_rules, hash_sign_start_rules, sign_job_rules};
ghost use Rattle.slh_c.specs.declared.refusal.Refusal.TheVariants.{BadStart};

use crate::cuttings::cut_of;
use crate::keys::secret_key;
use crate::numbers::{function_of, set_of};
use crate::randomizer::randomizer_of;
use crate::refusal::{DONE, Refusal, or_refuse};
use crate::rules::{self, judge};
use slh_core::{Form, SecretKey, SignFault};
use slh_jobs::{
    Levels, answer_len, answer_start, answers_len, sign_job, sign_jobs, sign_start, start_len,
};

/// Writes the number of jobs of a signature, if its XMSS trees and its FORS trees are cut by these levels. Writes also
/// the length of a start and that of the answers of all jobs, in bytes. Refused, with nothing written, by
/// `sign_jobs_rules`: a number of no set, levels that are not valid.
#[unsafe(no_mangle)]
pub extern "C" fn slh_sign_jobs(
    set: u32,
    xmss_levels: u32,
    fors_levels: u32,
    count: &mut u32,
    start: &mut usize,
    answers: &mut usize,
) -> u32
    ensures answer { result ≡ first_refusal (sign_jobs_rules set xmss_levels fors_levels) }
    ensures numbers { result ≡ DONE → WithLevels set xmss_levels fors_levels (λ c. (count.new ≡ jobs c)
        × (start.new ≡ start_len (params c.set)) × (answers.new ≡ answers_len c)) }
    ensures refused { result ≢ DONE → (count.new ≡ count.old) × (start.new ≡ start.old) × (answers.new ≡ answers.old) }
{
    let levels = or_refuse!(cut_of(set, xmss_levels, fors_levels));
    *count = sign_jobs(&levels);
    *start = start_len(levels.set);
    *answers = answers_len(&levels);
    DONE
}

/// Writes the place of a job's answer among the answers of all jobs, and its length, in bytes. Refused, with nothing
/// written, by `answer_rules`: as `slh_sign_jobs` is, and for a number of no job.
#[unsafe(no_mangle)]
pub extern "C" fn slh_answer_place(
    set: u32,
    xmss_levels: u32,
    fors_levels: u32,
    job: u32,
    at: &mut usize,
    len: &mut usize,
) -> u32
    ensures answer { result ≡ first_refusal (answer_rules set xmss_levels fors_levels job) }
    ensures place { result ≡ DONE → WithLevels set xmss_levels fors_levels (λ c.
        (at.new ≡ start_of c job) × (len.new ≡ len_of c job)) }
    ensures refused { result ≢ DONE → (at.new ≡ at.old) × (len.new ≡ len.old) }
{
    let levels = or_refuse!(cut_of(set, xmss_levels, fors_levels));
    if job >= sign_jobs(&levels) {
        return Refusal::NoSuchJob.number();
    }
    *at = answer_start(&levels, job);
    *len = answer_len(&levels, job);
    DONE
}

/// Begins the signature of a message under a context (FIPS 205, Algorithm 22): writes R, the digest of M' and their tag
/// under this key, `start_len` bytes. The other lengths are those of `slh_sign`. Refused, with nothing written, by
/// `sign_start_rules`: as `slh_sign` is.
#[unsafe(no_mangle)]
pub extern "C" fn slh_sign_start(
    set: u32,
    sk: &[u8],
    msg: &[u8],
    ctx: &[u8],
    randomizer: &[u8],
    start: &mut [u8],
) -> u32
    ensures answer { result ≡ first_refusal (sign_start_rules set sk.now ctx.now randomizer.now start.old) }
    ensures start { result ≡ DONE → InSet set (λ s.
        start.new ≡ start_under (key s sk.now) (pure_message ctx.now msg.now) randomizer.now) }
    ensures tagged { result ≡ DONE → InSet set (λ s. IsStart (key s sk.now) start.new) }
    ensures refused { result ≢ DONE → start.new ≡ start.old }
{
    let set = or_refuse!(set_of(set));
    let sk = or_refuse!(secret_key(set, sk));
    let randomizer = or_refuse!(randomizer_of(set, randomizer));
    or_refuse!(judge(&[rules::output(start_len(set), start)]));
    match sign_start(Form::Pure, msg, ctx, &sk, randomizer, start) {
        Ok(()) => DONE,
        Err(SignFault::ContextTooLong) => Refusal::ContextTooLong.number(),
    }
}

/// Begins the signature of a message by its digest under a pre-hash function, and under a context (FIPS 205, Algorithm
/// 23): writes R, the digest of M' and their tag under this key, `start_len` bytes. The other lengths are those of
/// `slh_hash_sign`. Refused, with nothing written, by `hash_sign_start_rules`: as `slh_hash_sign` is.
#[unsafe(no_mangle)]
pub extern "C" fn slh_hash_sign_start(
    set: u32,
    function: u32,
    sk: &[u8],
    msg: &[u8],
    ctx: &[u8],
    randomizer: &[u8],
    start: &mut [u8],
) -> u32
    ensures answer { result ≡ first_refusal
        (hash_sign_start_rules set function sk.now ctx.now randomizer.now start.old) }
    ensures start { result ≡ DONE → InSet set (λ s. WithFunction function (λ f.
        start.new ≡ start_under (key s sk.now) (pre_hash_message ctx.now f (PH f msg.now)) randomizer.now)) }
    ensures tagged { result ≡ DONE → InSet set (λ s. IsStart (key s sk.now) start.new) }
    ensures refused { result ≢ DONE → start.new ≡ start.old }
{
    let set = or_refuse!(set_of(set));
    let function = or_refuse!(function_of(function));
    let sk = or_refuse!(secret_key(set, sk));
    let randomizer = or_refuse!(randomizer_of(set, randomizer));
    or_refuse!(judge(&[rules::output(start_len(set), start)]));
    match sign_start(Form::PreHash(function), msg, ctx, &sk, randomizer, start) {
        Ok(()) => DONE,
        Err(SignFault::ContextTooLong) => Refusal::ContextTooLong.number(),
    }
}

/// The levels and the secret key of the arguments of `slh_sign_job`. Refused by `sign_job_rules`.
fn job_arguments(
    set: u32,
    xmss_levels: u32,
    fors_levels: u32,
    sk: &[u8],
    start: &[u8],
    job: u32,
    answer: &[u8],
) -> Result<(Levels, SecretKey), Refusal>
    ensures ok { IsOk result
        ↔ (first_refusal (sign_job_rules set xmss_levels fors_levels sk.now start.now job answer.now) ≡ DONE) }
    ensures refused { IfErr result (λ refusal. number refusal
        ≡ first_refusal (sign_job_rules set xmss_levels fors_levels sk.now start.now job answer.now)) }
    ensures set { IfOk result (λ it. set_numbered set ≡ Some it.0.set) }
    ensures levels { IfOk result (λ it. levels_of it.0.set xmss_levels fors_levels ≡ Some it.0) }
    ensures key { IfOk result (λ it. it.1 ≡ key it.0.set sk.now) }
    ensures start { IfOk result (λ it. length start.now ≡ start_len (params it.0.set)) }
    ensures job { IfOk result (λ it. job < jobs it.0) }
    ensures answer { IfOk result (λ it. length answer.now ≡ len_of it.0 job) }
{
    let levels = cut_of(set, xmss_levels, fors_levels)?;
    if job >= sign_jobs(&levels) {
        return Err(Refusal::NoSuchJob);
    }
    let sk = secret_key(levels.set, sk)?;
    judge(&[
        rules::begun(levels.set, start),
        rules::output(answer_len(&levels, job), answer),
    ])?;
    Ok((levels, sk))
}

/// Writes the answer of a job of the signature that `start` begins. Refused, with nothing written, by `sign_job_rules`:
/// as `slh_answer_place` is, and for a key, a start or an output of another length; then if the start does not have its
/// tag under this key.
#[unsafe(no_mangle)]
pub extern "C" fn slh_sign_job(
    set: u32,
    xmss_levels: u32,
    fors_levels: u32,
    sk: &[u8],
    start: &[u8],
    job: u32,
    answer: &mut [u8],
) -> u32
    ensures ruled { let rules = sign_job_rules set xmss_levels fors_levels sk.now start.now job answer.old in
        first_refusal rules ≢ DONE → result ≡ first_refusal rules }
    ensures start { let rules = sign_job_rules set xmss_levels fors_levels sk.now start.now job answer.old in
        first_refusal rules ≡ DONE → WithLevels set xmss_levels fors_levels (λ c.
        (result ≡ number BadStart) ↔ (IsStart (key c.set sk.now) start.now → ⊥)) }
    ensures accepted { let rules = sign_job_rules set xmss_levels fors_levels sk.now start.now job answer.old in
        first_refusal rules ≡ DONE → WithLevels set xmss_levels fors_levels (λ c.
        (result ≡ DONE) ↔ IsStart (key c.set sk.now) start.now) }
    ensures written { result ≡ DONE → WithLevels set xmss_levels fors_levels (λ c.
        answer.new ≡ answer_of c (key c.set sk.now) start.now job) }
    ensures refused { result ≢ DONE → answer.new ≡ answer.old }
{
    let (levels, sk) = or_refuse!(job_arguments(
        set,
        xmss_levels,
        fors_levels,
        sk,
        start,
        job,
        answer
    ));
    match sign_job(&levels, &sk, start, job, answer) {
        Ok(()) => DONE,
        Err(_) => Refusal::BadStart.number(),
    }
}
