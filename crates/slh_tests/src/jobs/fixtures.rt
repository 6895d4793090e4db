//! The fixtures of the tests of jobs.
ghost use Rattle.std.specs.Prelude.{◌≡◌, IfOk, length};
ghost use Rattle.slh_params.specs.ParamSet.{params};
ghost use Rattle.slh_core.specs.Randomizers.{HasLength};
ghost use Rattle.slh_jobs.specs.Tags.{start_len as length_of_start};

use sha2::{Digest, Sha256};
use slh_core::{Form, Randomizer, SecretKey};
use slh_jobs::{
    JobFault, Levels, answer_len, answer_start, answers_len, sign_job, sign_jobs, sign_join,
    sign_start, start_len,
};
use slh_params::ParamSet;
use std::alloc::Global;
use std::process::Abort;
use std::test::Fail;

/// The SHA-256 of the bytes, in hexadecimal digits.
pub(crate) fn sha256_hex(alloc: Global, bytes: &[u8]) -> Result<String, Fail> {
    Ok(hex::encode(alloc, Sha256::digest(bytes).as_slice())?)
}

/// Flips the first bit of the byte at a place.
pub(crate) fn flip(rt: &impl Abort, bytes: &mut [u8], at: usize)
    ensures { length bytes.new ≡ length bytes.old }
{
    assert!(rt; at < bytes.len());
    bytes[at] ^= 0x80;
}

/// The SHA-256 of the deterministic signature of "abc" under 128f and the seeds 00, 01, 02, ..
pub(crate) const OF_ABC: &str = "7c4622720e758897ec5f2089049bb5e5d98fc2e88bfdacf4fad3a1e20f80d5f8";

/// The trees of a set, cut by these levels.
pub(crate) fn levels(set: ParamSet, xmss: u32, fors: u32) -> Result<Levels, Fail>
    ensures { IfOk result (λ levels. levels.set ≡ set) }
{
    Ok(Levels::new(set, xmss, fors).ok_or("no such levels")?)
}

/// The begin of a signature.
pub(crate) fn begin(
    alloc: Global,
    form: Form,
    msg: &[u8],
    ctx: &[u8],
    sk: &SecretKey,
    randomizer: Randomizer,
) -> Result<Vec<u8>, Fail>
    requires { HasLength randomizer (params sk.now.set).n }
    ensures { IfOk result (λ start. length start.items ≡ length_of_start (params sk.now.set)) }
{
    let mut start = vec![in alloc; 0; start_len(sk.set())]?;
    sign_start(form, msg, ctx, sk, randomizer, &mut start)?;
    Ok(start)
}

/// The begin of the deterministic signature of a message under the empty context.
pub(crate) fn begin_pure(alloc: Global, msg: &[u8], sk: &SecretKey) -> Result<Vec<u8>, Fail>
    ensures { IfOk result (λ start. length start.items ≡ length_of_start (params sk.now.set)) }
{
    begin(alloc, Form::Pure, msg, b"", sk, Randomizer::Deterministic)
}

/// The answers of all jobs of a signature, of which the last is made first.
pub(crate) fn answers(
    rt: &impl Abort,
    alloc: Global,
    levels: &Levels,
    sk: &SecretKey,
    start: &[u8],
) -> Result<Vec<u8>, Fail>
    requires set { sk.now.set ≡ levels.now.set }
    requires start { length start.now ≡ length_of_start (params levels.now.set) }
{
    let mut answers = vec![in alloc; 0xaa; answers_len(levels)]?;
    for job in (0..sign_jobs(levels)).rev() {
        let first = answer_start(levels, job);
        let len = answer_len(levels, job);
        assert!(rt; first <= answers.len() && len <= answers.len() - first);
        sign_job(levels, sk, start, job, &mut answers[first..][..len])?;
    }
    Ok(answers)
}

/// The signature that answers give, in a buffer of bytes 55; that buffer is unchanged if they are refused.
pub(crate) fn join(
    rt: &impl Abort,
    alloc: Global,
    levels: &Levels,
    sk: &SecretKey,
    start: &[u8],
    answers: &[u8],
) -> Result<Result<Vec<u8>, JobFault>, Fail>
    requires set { sk.now.set ≡ levels.now.set }
    requires start { length start.now ≡ length_of_start (params levels.now.set) }
{
    let mut sig = vec![in alloc; 0x55; levels.set.sig_len()]?;
    match sign_join(levels, sk, start, answers, &mut sig) {
        Ok(()) => Ok(Ok(sig)),
        Err(fault) => {
            assert!(rt; sig.iter().all(|&byte| byte == 0x55));
            Ok(Err(fault))
        }
    }
}
