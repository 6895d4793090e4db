//! The message of `sign`: its bytes, or its digest in the pre-hash form.
ghost use Rattle.std.specs.Prelude.{◌≡◌, ◌↔◌, ◌<◌, Err, IfOk, IfErr, OnOk, length};
ghost use Rattle.slh_core.specs.Randomizers.{HasLength};
ghost use Rattle.slh_core.specs.Signatures.{signature_by};
ghost use Rattle.slh_params.specs.Params.{sig_len};
ghost use Rattle.slh_params.specs.ParamSet.{params};
ghost use Rattle.slh_par.specs.declared.fault.ParFault.TheVariants.{Stopped};
ghost use Rattle.slh_tool.specs.Contents.{IsContentOf, formatted};
ghost use Rattle.slh_tool.specs.Reading.{AreKeptUnlessFailed, RefusesFile};

use super::fault::Fault;
use super::reading::{digest_file, read_file};
use slh_core::{Form, MessageDigest, Randomizer, SecretKey};
use slh_io::Files;
use slh_par::{Cutting, NoGate, ParFault, Workers, hash_sign_digest_par, sign_par};
use std::alloc::Allocator;
use std::thread::Threads;

/// What is signed of a message file.
#[derive(Drop)]
pub(crate) enum Content<A: Allocator> {
    /// Its bytes, in the pure form.
    Message(Vec<u8, A>),
    /// Their digest, in the pre-hash form. None of the bytes is held.
    Digest(MessageDigest),
}

/// The signed content of a message file in a form.
pub(crate) fn content_of<A: Allocator, F: Files>(
    alloc: A,
    files: &mut F,
    path: &str,
    form: Form,
) -> Result<Content<A>, Fault>
    ensures done { IfOk result (IsContentOf (F.state files.old) path.now form) }
    ensures refused { IfErr result (RefusesFile (F.state files.old) (F.state files.new) path.now) }
    ensures kept { AreKeptUnlessFailed (F.state files.old) (F.state files.new) result }
{
    match form {
        Form::Pure => Ok(Content::Message(read_file(alloc, files, path)?)),
        Form::PreHash(function) => Ok(Content::Digest(digest_file(files, path, function)?)),
    }
}

impl<A: Allocator + Clone + Send + Sync> Content<A> {
    /// Writes its signature under a context, by several workers.
    pub(crate) fn sign<R: Threads + Sync>(
        &self,
        rt: &R,
        alloc: A,
        context: &[u8],
        key: &SecretKey,
        randomizer: Randomizer,
        workers: Workers,
        cutting: &Cutting,
        out: &mut [u8],
    ) -> Result<(), ParFault>
        requires randomizer { HasLength randomizer (params key.now.set).n }
        requires cutting { cutting.now.set ≡ key.now.set }
        requires out { length out.old ≡ sig_len (params key.now.set) }
        ensures signature { OnOk result (out.new
            ≡ signature_by key.now (formatted self.now context.now) randomizer.entry) }
        ensures too_long { (result ≡ Err ParFault.ContextTooLong) ↔ (255 < length context.now) }
        ensures not_stopped { IfErr result (λ fault. fault ≡ Stopped → ⊥) }
    {
        match self {
            Content::Message(message) => {
                let message = message.as_slice();
                sign_par(
                    rt, alloc, message, context, key, randomizer, workers, cutting, &NoGate, out,
                )
            }
            Content::Digest(digest) => hash_sign_digest_par(
                rt, alloc, digest, context, key, randomizer, workers, cutting, &NoGate, out,
            ),
        }
    }
}
