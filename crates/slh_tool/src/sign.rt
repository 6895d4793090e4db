//! The command `sign` (FIPS 205, section 10.2).
ghost use Rattle.std.specs.Prelude.{◌≡◌, ◌↔◌, ◌<◌, ◌≤◌, ◌⊎◌, IsTrue, IfOk, IfErr, IfSome, OnOk, length, option_map};
ghost use Rattle.slh_params.specs.ParamSet.{params};
ghost use Rattle.slh_tool.specs.Contents.{formatted};
ghost use Rattle.slh_tool.specs.Options.{signature_of};
ghost use Rattle.slh_tool.specs.Reading.{AreKeptUnlessFailed};
ghost use Rattle.slh_tool.specs.Replies.{RefusesSign, RefusesSigning, SignsMessage, SignsWith};
ghost use Rattle.slh_tool.specs.Requests.{sign_asked};
ghost use Rattle.slh_tool.specs.declared.fault.Fault.TheVariants.{ContextTooLong, NoMemory};

use super::content::{Content, content_of};
use super::cuts::{cutting_of, workers_of};
use super::fault::Fault;
use super::keys::secret_key;
use super::options::{Random, form_and_context, random_of};
use super::request::SignWords;
use slh_core::{Randomizer, SecretKey};
use slh_io::Files;
use slh_par::{Cutting, ParFault, Workers};
use std::alloc::Allocator;
use std::thread::Threads;

/// The signature of a message file.
#[inline(never)]
pub(crate) fn sign_file<R: Threads + Sync, A: Allocator + Clone + Send + Sync, F: Files>(
    rt: &R,
    alloc: A,
    words: SignWords<'_>,
    files: &mut F,
) -> Result<Vec<u8, A>, Fault>
    ensures done { IfOk result (λ bytes. SignsMessage (sign_asked words.entry) (F.state files.old) bytes.items) }
    ensures refused { IfErr result (RefusesSign (sign_asked words.entry) (F.state files.old) (F.state files.new)) }
    ensures kept { AreKeptUnlessFailed (F.state files.old) (F.state files.new) result }
{
    let key = secret_key(alloc.clone()?, files, words.key)?;
    sign_with(rt, alloc, words, files, &key)
}

/// The signature of a message file with a key.
fn sign_with<R: Threads + Sync, A: Allocator + Clone + Send + Sync, F: Files>(
    rt: &R,
    alloc: A,
    words: SignWords<'_>,
    files: &mut F,
    key: &SecretKey,
) -> Result<Vec<u8, A>, Fault>
    ensures done { IfOk result (λ bytes. SignsWith (sign_asked words.entry) (F.state files.old) key.now bytes.items) }
    ensures refused { IfErr result (RefusesSigning (sign_asked words.entry) key.now.set
        (F.state files.old) (F.state files.new)) }
    ensures kept { AreKeptUnlessFailed (F.state files.old) (F.state files.new) result }
{
    let form = form_and_context(alloc.clone()?, words.form)?;
    let Some(random) = random_of(key.set(), words) else {
        return Err(Fault::BadOption);
    };
    let cutting = cutting_of(key.set(), words.work)?;
    let content = content_of(alloc.clone()?, files, words.message, form.form)?;
    let context = form.context.as_slice();
    let workers = workers_of(words.work.workers);
    signature_of(
        rt,
        alloc,
        key,
        &content,
        context,
        &random,
        workers,
        &cutting,
        words.twice,
    )
}

/// The signature under a context of the content of a message file, by several workers. If `twice` is given, it is
/// computed two times into two buffers, and refused as 38 unless all bytes agree. Hardware that fails can make them
/// differ; the proof assumes that none does, so no contract allows this refusal.
fn signature_of<R: Threads + Sync, A: Allocator + Clone + Send + Sync>(
    rt: &R,
    alloc: A,
    key: &SecretKey,
    content: &Content<A>,
    context: &[u8],
    random: &Option<Random>,
    workers: Workers,
    cutting: &Cutting,
    twice: bool,
) -> Result<Vec<u8, A>, Fault>
    requires random { IfSome random.now (λ bytes. length bytes.items ≡ (params key.now.set).n) }
    requires cutting { cutting.now.set ≡ key.now.set }
    ensures short { OnOk result (length context.now ≤ 255) }
    ensures done { IfOk result (λ bytes. bytes.items
        ≡ signature_of key.now (formatted content.now context.now) (option_map (λ r. r.items) random.now)) }
    ensures refused { IfErr result (λ e. (e ≡ NoMemory)
        ⊎ ((e ≡ ContextTooLong) × (255 < length context.now))) }
{
    let memory = alloc.clone()?;
    let first = signed_once(rt, memory, key, content, context, random, workers, cutting)?;
    if twice {
        let second = signed_once(rt, alloc, key, content, context, random, workers, cutting)?;
        if !are_same(&first, &second) {
            return Err(Fault::RunsDiffer);
        }
    }
    Ok(first)
}

/// Whether two runs gave the same bytes.
fn are_same(first: &[u8], second: &[u8]) -> bool
    ensures { IsTrue result ↔ (first.now ≡ second.now) }
{
    first == second
}

/// The signature, computed once. It is never inlined: two calls that take memory and start threads are not joined to
/// one.
#[inline(never)]
fn signed_once<R: Threads + Sync, A: Allocator + Clone + Send + Sync>(
    rt: &R,
    alloc: A,
    key: &SecretKey,
    content: &Content<A>,
    context: &[u8],
    random: &Option<Random>,
    workers: Workers,
    cutting: &Cutting,
) -> Result<Vec<u8, A>, Fault>
    requires random { IfSome random.now (λ bytes. length bytes.items ≡ (params key.now.set).n) }
    requires cutting { cutting.now.set ≡ key.now.set }
    ensures short { OnOk result (length context.now ≤ 255) }
    ensures done { IfOk result (λ bytes. bytes.items
        ≡ signature_of key.now (formatted content.now context.now) (option_map (λ r. r.items) random.now)) }
    ensures refused { IfErr result (λ e. (e ≡ NoMemory)
        ⊎ ((e ≡ ContextTooLong) × (255 < length context.now))) }
{
    let randomizer = match random {
        Some(bytes) => Randomizer::Given(bytes.as_slice()),
        None => Randomizer::Deterministic,
    };
    let mut signature = Vec::new(alloc.clone()?);
    signature.resize(key.set().sig_len(), 0)?;
    let out = signature.as_mut_slice();
    match content.sign(rt, alloc, context, key, randomizer, workers, cutting, out) {
        Ok(()) => Ok(signature),
        Err(ParFault::NoMemory) => Err(Fault::NoMemory),
        Err(ParFault::ContextTooLong) => Err(Fault::ContextTooLong),
        Err(ParFault::Stopped) => unreachable!(),
    }
}
