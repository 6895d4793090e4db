//! The commands `check` and `verify` over known bytes, with contracts that state their answers.
ghost use Rattle.std.specs.Prelude.{◌≢◌, IfOk};
ghost use Rattle.slh_tool_tests.specs.Answers.{TellsConsistency, TellsValidity};

use super::answer::{Answer, answer_over, words_of};
use std::alloc::AllocError;
use std::thread::Threads;

/// The answer of `check` over these bytes of a key file.
pub fn check_known<R: AllocGlobal + Threads + Sync>(
    rt: &R,
    key: &[u8],
) -> Result<Answer, AllocError>
    ensures { IfOk result (λ answer. answer.status ≢ 2 → TellsConsistency key.now answer.status answer.output.items) }
{
    let words = words_of(rt.alloc(), &["check", "--key", "key"])?;
    Ok(answer_over(rt, words.as_slice(), &[("key", key)]))
}

/// The answer of `verify` over these bytes of a key file, of a message and of a signature, in the pure form with an
/// empty context.
pub fn verify_known<R: AllocGlobal + Threads + Sync>(
    rt: &R,
    key: &[u8],
    message: &[u8],
    signature: &[u8],
) -> Result<Answer, AllocError>
    ensures { IfOk result (λ answer. answer.status ≢ 2
        → TellsValidity key.now message.now signature.now answer.status answer.output.items) }
{
    let words = words_of(
        rt.alloc(),
        &[
            "verify",
            "--key",
            "key",
            "--message",
            "message",
            "--signature",
            "signature",
        ],
    )?;
    let files = [("key", key), ("message", message), ("signature", signature)];
    Ok(answer_over(rt, words.as_slice(), &files))
}
