//! The command `verify` (FIPS 205, section 10.3).
ghost use Rattle.std.specs.Prelude.{◌≡◌, ◌↔◌, IsTrue, IfOk, IfErr};
ghost use Rattle.slh_params.specs.Params.{sig_len};
ghost use Rattle.slh_params.specs.ParamSet.{params};
ghost use Rattle.slh_core.specs.declared.form.Form.TheVariants as forms;
ghost use Rattle.slh_tool.specs.Options.{HasForm};
ghost use Rattle.slh_tool.specs.Reading.{AreKeptUnlessFailed, IsFrontOfFile, IsLater, RefusesFile};
ghost use Rattle.slh_tool.specs.Replies.{IsValidIn, JudgesFiles, JudgesMessage, JudgesWith, RefusesFiles, RefusesVerify, RefusesVerifying, VerifiesMessage};
ghost use Rattle.slh_tool.specs.Requests.{verify_asked};

use super::fault::Fault;
use super::keys::public_key;
use super::options::{FormAndContext, form_and_context};
use super::reading::{digest_file, read_front, read_past, read_through};
use super::reply::Reply;
use super::request::VerifyWords;
use slh_core::{Form, PreHash, PublicKey, Verifier, hash_verify_digest};
use slh_io::Files;
use std::alloc::Allocator;

/// Whether the signature of a message file is valid.
#[inline(never)]
pub(crate) fn verify_file<A: Allocator + Clone, F: Files>(
    alloc: A,
    words: VerifyWords<'_>,
    files: &mut F,
) -> Result<Reply<A>, Fault>
    ensures done { IfOk result (λ r. VerifiesMessage (verify_asked words.entry)
        (F.state files.old) r.status r.output.items) }
    ensures refused { IfErr result (RefusesVerify (verify_asked words.entry) (F.state files.old) (F.state files.new)) }
    ensures kept { AreKeptUnlessFailed (F.state files.old) (F.state files.new) result }
{
    let key = public_key(alloc.clone()?, files, words.key)?;
    let answer = verify_with(alloc.clone()?, words, files, &key)?;
    Ok(Reply::verdict(alloc, answer, "valid\n", "invalid\n")?)
}

/// Whether the signature of a message file is valid under a key.
fn verify_with<A: Allocator + Clone, F: Files>(
    alloc: A,
    words: VerifyWords<'_>,
    files: &mut F,
    key: &PublicKey,
) -> Result<bool, Fault>
    ensures done { IfOk result (JudgesWith (verify_asked words.entry) (F.state files.old) key.now) }
    ensures refused { IfErr result (RefusesVerifying (verify_asked words.entry)
        (F.state files.old) (F.state files.new)) }
    ensures kept { AreKeptUnlessFailed (F.state files.old) (F.state files.new) result }
{
    let FormAndContext { form, context } = form_and_context(alloc.clone()?, words.form)?;
    let context = context.as_slice();
    match form {
        Form::Pure => verify_pure(alloc, words, files, key, context),
        Form::PreHash(function) => verify_digest(alloc, words, files, key, context, function),
    }
}

/// `verify` in the pure form. The signature is read first, since the message is hashed after its R, by pieces and never
/// held. If both files are refused, the refusal is that of the message.
fn verify_pure<A: Allocator, F: Files>(
    alloc: A,
    words: VerifyWords<'_>,
    files: &mut F,
    key: &PublicKey,
    context: &[u8],
) -> Result<bool, Fault>
    ensures done { IfOk result (JudgesFiles (verify_asked words.entry)
        (F.state files.old) key.now context.now forms.Pure) }
    ensures refused { IfErr result (RefusesFiles (verify_asked words.entry) (F.state files.old) (F.state files.new)) }
    ensures kept { AreKeptUnlessFailed (F.state files.old) (F.state files.new) result }
{
    match signature_in(alloc, words, files, key) {
        Ok(signature) => verdict_on(files, words.message, context, signature.as_slice(), key),
        Err(fault) => {
            read_past(files, words.message)?;
            Err(fault)
        }
    }
}

/// Whether the signature is one of a message file, of which no more than a piece is held.
fn verdict_on<F: Files>(
    files: &mut F,
    path: &str,
    context: &[u8],
    signature: &[u8],
    key: &PublicKey,
) -> Result<bool, Fault>
    ensures done { IfOk result (JudgesMessage (F.state files.old) path.now key.now context.now signature.now) }
    ensures refused { IfErr result (RefusesFile (F.state files.old) (F.state files.new) path.now) }
    ensures kept { AreKeptUnlessFailed (F.state files.old) (F.state files.new) result }
{
    let mut verifier = Verifier::new(context, signature, key);
    read_through(files, path, &mut verifier)?;
    Ok(verifier.finish())
}

/// `verify` in the pre-hash form. The message is hashed by pieces and never held.
fn verify_digest<A: Allocator, F: Files>(
    alloc: A,
    words: VerifyWords<'_>,
    files: &mut F,
    key: &PublicKey,
    context: &[u8],
    function: PreHash,
) -> Result<bool, Fault>
    ensures done { IfOk result (JudgesFiles (verify_asked words.entry)
        (F.state files.old) key.now context.now (forms.PreHash function)) }
    ensures refused { IfErr result (RefusesFiles (verify_asked words.entry) (F.state files.old) (F.state files.new)) }
    ensures kept { AreKeptUnlessFailed (F.state files.old) (F.state files.new) result }
{
    let digest = digest_file(files, words.message, function)?;
    let signature = signature_in(alloc, words, files, key)?;
    Ok(hash_verify_digest(&digest, context, signature.as_slice(), key))
}

/// The signature of a file, as far as it is looked at: one that is longer than the set's is held up to the byte that
/// is one too many.
fn signature_in<A: Allocator, F: Files>(
    alloc: A,
    words: VerifyWords<'_>,
    files: &mut F,
    key: &PublicKey,
) -> Result<Vec<u8, A>, Fault>
    ensures done { IfOk result (λ bytes. IsFrontOfFile (F.state files.old) words.entry.signature.now
        (sig_len (params key.now.set)) bytes.items) }
    ensures refused { IfErr result (RefusesFile (F.state files.old) (F.state files.new) words.entry.signature.now) }
    ensures kept { AreKeptUnlessFailed (F.state files.old) (F.state files.new) result }
    ensures later { IsLater (F.state files.old) (F.state files.new) }
{
    read_front(alloc, files, words.signature, key.set().sig_len())
}
