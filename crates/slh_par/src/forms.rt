//! Signing a message under a context, in either form (FIPS 205, section 10.2).
ghost use Rattle.std.specs.Prelude.{◌≡◌, ◌↔◌, ◌<◌, ◌≤◌, OnOk, OnErr, IfErr, Err, length};
ghost use Rattle.slh_params.specs.Params.{sig_len};
ghost use Rattle.slh_params.specs.ParamSet.{params};
ghost use Rattle.slh_core.specs.Keys.{public_of, IsGeneratedKey};
ghost use Rattle.slh_core.specs.Messages.{message_in_form, pure_message, pre_hash_message};
ghost use Rattle.slh_core.specs.PreHash.{PH};
ghost use Rattle.slh_core.specs.Randomizers.{HasLength};
ghost use Rattle.slh_core.specs.Signatures.{signature_by, IsValid};
ghost use Rattle.slh_par.specs.declared.fault.ParFault.TheVariants.{Stopped};

use crate::fault::ParFault;
use crate::signing::sign_parts_par;
use slh_core::{Form, FormattedMessage, MessageDigest, PreHash, Randomizer, SecretKey};
use slh_subtrees::Cutting;
use slh_workers::{Gate, Workers};
use std::alloc::Allocator;
use std::thread::Threads;

/// Signs a message in a form, under a context (FIPS 205, Algorithms 22 and 23), by several workers, writing `sig_len`
/// bytes: those of `Form::sign` of `slh_core`. In the pre-hash form the message is hashed first. Refused, with nothing
/// written: first `ContextTooLong`, before any thread is started, if the context has over 255 bytes. Then `NoMemory` if
/// a growth was refused; then `Stopped` if the gate stopped the run. It waits only for the threads that it started.
pub fn sign_form_par<R: Threads + Sync, A: Allocator + Clone + Send + Sync, G: Gate>(
    rt: &R,
    alloc: A,
    form: Form,
    msg: &[u8],
    ctx: &[u8],
    sk: &SecretKey,
    randomizer: Randomizer,
    workers: Workers,
    cutting: &Cutting,
    gate: &G,
    out: &mut [u8],
) -> Result<(), ParFault>
    requires randomizer { HasLength randomizer (params sk.now.set).n }
    requires cutting { cutting.now.set ≡ sk.now.set }
    requires out { length out.old ≡ sig_len (params sk.now.set) }
    ensures signature { OnOk result (out.new
        ≡ signature_by sk.now (message_in_form form ctx.now msg.now) randomizer.entry) }
    ensures authentic { OnOk result (IsGeneratedKey sk.now
        → IsValid (public_of sk.now) (message_in_form form ctx.now msg.now) out.new) }
    ensures refused { OnErr result (out.new ≡ out.old) }
    ensures len { length out.new ≡ length out.old }
    ensures too_long { (result ≡ Err ParFault.ContextTooLong) ↔ (255 < length ctx.now) }
    ensures stopped { IfErr result (λ fault. fault ≡ Stopped → G.may_stop gate.now) }
{
    let Some(message) = form.message(msg, ctx) else {
        return Err(ParFault::ContextTooLong);
    };
    let parts = message.parts();
    sign_parts_par(
        rt, alloc, &parts, sk, randomizer, workers, cutting, gate, out,
    )?;
    Ok(())
}

/// Signs a message under a context (FIPS 205, Algorithm 22) by several workers, writing `sig_len` bytes: those of
/// `slh_core::sign`. It is `sign_form_par` in the pure form, and refused as that is.
pub fn sign_par<R: Threads + Sync, A: Allocator + Clone + Send + Sync, G: Gate>(
    rt: &R,
    alloc: A,
    msg: &[u8],
    ctx: &[u8],
    sk: &SecretKey,
    randomizer: Randomizer,
    workers: Workers,
    cutting: &Cutting,
    gate: &G,
    out: &mut [u8],
) -> Result<(), ParFault>
    requires randomizer { HasLength randomizer (params sk.now.set).n }
    requires cutting { cutting.now.set ≡ sk.now.set }
    requires out { length out.old ≡ sig_len (params sk.now.set) }
    ensures signature { OnOk result (out.new
        ≡ signature_by sk.now (pure_message ctx.now msg.now) randomizer.entry) }
    ensures authentic { OnOk result (IsGeneratedKey sk.now
        → IsValid (public_of sk.now) (pure_message ctx.now msg.now) out.new) }
    ensures refused { OnErr result (out.new ≡ out.old) }
    ensures len { length out.new ≡ length out.old }
    ensures too_long { (result ≡ Err ParFault.ContextTooLong) ↔ (255 < length ctx.now) }
    ensures stopped { IfErr result (λ fault. fault ≡ Stopped → G.may_stop gate.now) }
{
    let form = Form::Pure;
    sign_form_par(
        rt, alloc, form, msg, ctx, sk, randomizer, workers, cutting, gate, out,
    )
}

/// Signs a message by its digest under `function`, and under a context (FIPS 205, Algorithm 23), by several workers,
/// writing `sig_len` bytes: those of `slh_core::hash_sign`. It is `sign_form_par` in the pre-hash form, and refused as
/// that is.
pub fn hash_sign_par<R: Threads + Sync, A: Allocator + Clone + Send + Sync, G: Gate>(
    rt: &R,
    alloc: A,
    msg: &[u8],
    ctx: &[u8],
    function: PreHash,
    sk: &SecretKey,
    randomizer: Randomizer,
    workers: Workers,
    cutting: &Cutting,
    gate: &G,
    out: &mut [u8],
) -> Result<(), ParFault>
    requires randomizer { HasLength randomizer (params sk.now.set).n }
    requires cutting { cutting.now.set ≡ sk.now.set }
    requires out { length out.old ≡ sig_len (params sk.now.set) }
    ensures signature { OnOk result (out.new
        ≡ signature_by sk.now (pre_hash_message ctx.now function (PH function msg.now)) randomizer.entry) }
    ensures authentic { OnOk result (IsGeneratedKey sk.now
        → IsValid (public_of sk.now) (pre_hash_message ctx.now function (PH function msg.now)) out.new) }
    ensures refused { OnErr result (out.new ≡ out.old) }
    ensures len { length out.new ≡ length out.old }
    ensures too_long { (result ≡ Err ParFault.ContextTooLong) ↔ (255 < length ctx.now) }
    ensures stopped { IfErr result (λ fault. fault ≡ Stopped → G.may_stop gate.now) }
{
    let form = Form::PreHash(function);
    sign_form_par(
        rt, alloc, form, msg, ctx, sk, randomizer, workers, cutting, gate, out,
    )
}

/// Signs a message by its digest, under a context (FIPS 205, Algorithm 23 after its pre-hash), by several workers,
/// writing `sig_len` bytes: those of `slh_core::hash_sign_digest`. Refused as `sign_form_par` is.
pub fn hash_sign_digest_par<R: Threads + Sync, A: Allocator + Clone + Send + Sync, G: Gate>(
    rt: &R,
    alloc: A,
    digest: &MessageDigest,
    ctx: &[u8],
    sk: &SecretKey,
    randomizer: Randomizer,
    workers: Workers,
    cutting: &Cutting,
    gate: &G,
    out: &mut [u8],
) -> Result<(), ParFault>
    requires randomizer { HasLength randomizer (params sk.now.set).n }
    requires cutting { cutting.now.set ≡ sk.now.set }
    requires out { length out.old ≡ sig_len (params sk.now.set) }
    ensures signature { OnOk result (out.new
        ≡ signature_by sk.now (pre_hash_message ctx.now digest.now.function digest.now.bytes) randomizer.entry) }
    ensures authentic { OnOk result (IsGeneratedKey sk.now
        → IsValid (public_of sk.now) (pre_hash_message ctx.now digest.now.function digest.now.bytes) out.new) }
    ensures refused { OnErr result (out.new ≡ out.old) }
    ensures len { length out.new ≡ length out.old }
    ensures too_long { (result ≡ Err ParFault.ContextTooLong) ↔ (255 < length ctx.now) }
    ensures stopped { IfErr result (λ fault. fault ≡ Stopped → G.may_stop gate.now) }
{
    let Some(message) = FormattedMessage::of_digest(digest, ctx) else {
        return Err(ParFault::ContextTooLong);
    };
    let parts = message.parts();
    sign_parts_par(
        rt, alloc, &parts, sk, randomizer, workers, cutting, gate, out,
    )?;
    Ok(())
}
