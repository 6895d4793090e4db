//! The export that joins the answers of all jobs to the signature (FIPS 205, Algorithms 22 and 23).
ghost use Rattle.std.specs.Prelude.{◌≡◌, ◌≢◌, ◌↔◌, ℕ, List, length, Some, IfOk, IfErr, IsOk};
ghost use Rattle.slh_params.specs.Params.{sig_len};
ghost use Rattle.slh_params.specs.ParamSet.{params};
ghost use Rattle.slh_jobs.specs.Jobs.{AreAnswers, answers_len};
ghost use Rattle.slh_jobs.specs.Tags.{start_len};
ghost use Rattle.slh_core.specs.Keys.{public_of, IsGeneratedKey};
ghost use Rattle.slh_core.specs.Signatures.{IsValid};
ghost use Rattle.slh_jobs.specs.Joined.{FitTogether, signature_given};
ghost use Rattle.slh_jobs.specs.Starts.{IsStart};
ghost use Rattle.slh_c.specs.Cuttings.{WithLevels, levels_of};
ghost use Rattle.slh_c.specs.Keys.{key, start_under, signature_under};
ghost use Rattle.slh_c.specs.Numbers.{set_numbered};
ghost use Rattle.slh_c.specs.Refusals.{number};
ghost use Rattle.slh_c.specs.Rules.{first_refusal, sign_join_rules};
ghost use Rattle.slh_c.specs.declared.refusal.Refusal.TheVariants.{AnswersDisagree, BadStart};

use crate::cuttings::cut_of;
use crate::keys::secret_key;
use crate::refusal::{DONE, Refusal, or_refuse};
use crate::rules::{self, judge};
use slh_core::SecretKey;
use slh_jobs::{JobFault, Levels, answers_len, sign_join};

/// The levels and the secret key of the arguments of `slh_sign_join`. Refused by `sign_join_rules`.
fn join_arguments(
    set: u32,
    xmss_levels: u32,
    fors_levels: u32,
    sk: &[u8],
    start: &[u8],
    answers: &[u8],
    sig: &[u8],
) -> Result<(Levels, SecretKey), Refusal>
    ensures ok { IsOk result
        ↔ (first_refusal (sign_join_rules set xmss_levels fors_levels sk.now start.now answers.now sig.now) ≡ DONE) }
    ensures refused { IfErr result (λ refusal. number refusal
        ≡ first_refusal (sign_join_rules set xmss_levels fors_levels sk.now start.now answers.now sig.now)) }
    ensures set { IfOk result (λ it. set_numbered set ≡ Some it.0.set) }
    ensures levels { IfOk result (λ it. levels_of it.0.set xmss_levels fors_levels ≡ Some it.0) }
    ensures key { IfOk result (λ it. it.1 ≡ key it.0.set sk.now) }
    ensures start { IfOk result (λ it. length start.now ≡ start_len (params it.0.set)) }
    ensures answers { IfOk result (λ it. length answers.now ≡ answers_len it.0) }
    ensures sig { IfOk result (λ it. length sig.now ≡ sig_len (params it.0.set)) }
{
    let levels = cut_of(set, xmss_levels, fors_levels)?;
    let sk = secret_key(levels.set, sk)?;
    judge(&[
        rules::begun(levels.set, start),
        rules::output(levels.set.sig_len(), sig),
        rules::has_len(answers, answers_len(&levels), Refusal::BadAnswersLength),
    ])?;
    Ok((levels, sk))
}

/// Writes the signature that `start` begins, `sig_len` bytes, from the answers of all its jobs, end to end in the order
/// of the jobs. If each is that of `slh_sign_job`, these are the bytes of `slh_sign` or `slh_hash_sign`. For any
/// answers, the written bytes are a valid signature of the message of `start`, under this key. Refused, with nothing
/// written, by `sign_join_rules`: a number of no set, levels that are not valid, a key, a start, an output or answers
/// of another length. Then it is refused if the start does not have its tag under this key, and then if the answers
/// don't fit together. Right answers don't, either, under a key whose PK.root is not the root that its seeds give.
#[unsafe(no_mangle)]
pub extern "C" fn slh_sign_join(
    set: u32,
    xmss_levels: u32,
    fors_levels: u32,
    sk: &[u8],
    start: &[u8],
    answers: &[u8],
    sig: &mut [u8],
) -> u32
    ensures ruled { let rules = sign_join_rules set xmss_levels fors_levels sk.now start.now answers.now sig.old in
        first_refusal rules ≢ DONE → result ≡ first_refusal rules }
    ensures start { let rules = sign_join_rules set xmss_levels fors_levels sk.now start.now answers.now sig.old in
        first_refusal rules ≡ DONE → WithLevels set xmss_levels fors_levels (λ c.
        (result ≡ number BadStart) ↔ (IsStart (key c.set sk.now) start.now → ⊥)) }
    ensures judged { let rules = sign_join_rules set xmss_levels fors_levels sk.now start.now answers.now sig.old in
        first_refusal rules ≡ DONE → result ≢ DONE → WithLevels set xmss_levels fors_levels (λ c.
        IsStart (key c.set sk.now) start.now → result ≡ number AnswersDisagree) }
    ensures fit { let rules = sign_join_rules set xmss_levels fors_levels sk.now start.now answers.now sig.old in
        first_refusal rules ≡ DONE → WithLevels set xmss_levels fors_levels (λ c. (result ≡ DONE)
        ↔ (IsStart (key c.set sk.now) start.now × FitTogether c (key c.set sk.now) start.now answers.now)) }
    ensures joined { result ≡ DONE → WithLevels set xmss_levels fors_levels (λ c.
        sig.new ≡ signature_given c (key c.set sk.now) start.now answers.now) }
    ensures authentic { result ≡ DONE → WithLevels set xmss_levels fors_levels (λ c. (msg randomizer : List ℕ)
        → start.now ≡ start_under (key c.set sk.now) msg randomizer
        → IsValid (public_of (key c.set sk.now)) msg sig.new) }
    ensures right { let rules = sign_join_rules set xmss_levels fors_levels sk.now start.now answers.now sig.old in
        first_refusal rules ≡ DONE → WithLevels set xmss_levels fors_levels (λ c.
        IsGeneratedKey (key c.set sk.now) → IsStart (key c.set sk.now) start.now
        → AreAnswers c (key c.set sk.now) start.now answers.now → result ≡ DONE) }
    ensures signature { result ≡ DONE → WithLevels set xmss_levels fors_levels (λ c. (msg randomizer : List ℕ)
        → start.now ≡ start_under (key c.set sk.now) msg randomizer
        → AreAnswers c (key c.set sk.now) start.now answers.now
        → sig.new ≡ signature_under (key c.set sk.now) msg randomizer) }
    ensures refused { result ≢ DONE → sig.new ≡ sig.old }
{
    let (levels, sk) = or_refuse!(join_arguments(
        set,
        xmss_levels,
        fors_levels,
        sk,
        start,
        answers,
        sig,
    ));
    match sign_join(&levels, &sk, start, answers, sig) {
        Ok(()) => DONE,
        Err(JobFault::BadAnswersLength) => Refusal::BadAnswersLength.number(),
        Err(JobFault::BadStart) => Refusal::BadStart.number(),
        Err(JobFault::AnswersDisagree) => Refusal::AnswersDisagree.number(),
    }
}
