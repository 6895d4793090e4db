//! The program: takes the arguments, runs the command, and writes the reply or the refusal.
ghost use Rattle.std.specs.Prelude.{◌≡◌, ◌≢◌, ◌⊎◌, map, IfOk, IfErr, string_bytes, Some};
ghost use Rattle.std.specs.Io.KnownBytes.{Appends};
ghost use Rattle.clap.specs.Words.{Text};
ghost use Rattle.slh_io.specs.Devices.{TakesAtMost};
ghost use Rattle.slh_tool.specs.Faults.{line};
ghost use Rattle.slh_tool.specs.Reading.{AreKeptUnlessFailed};
ghost use Rattle.slh_tool.specs.Replies.{IsRefusal, IsReply, input_limit, version_line, words_limit};
ghost use Rattle.slh_tool.specs.Requests.{asked};
ghost use Rattle.slh_tool.specs.Runs.{BreaksOff, FailsOnlyAsRefused, IsTold, Refuses, Replies};
ghost use Rattle.slh_tool.specs.Seeds.{IsUnfailedUnlessRefused};
ghost use Rattle.slh_tool.specs.declared.fault.Fault.{Fault};
ghost use Rattle.slh_tool.specs.declared.fault.Fault.TheVariants.{WriteFailed};

use super::cuts::workers_of;
use super::fault::Fault;
use super::generate::{keygen, root};
use super::keys::{check, public, upgrade};
use super::params::{all_sets, named_set};
use super::reply::Reply;
use super::request::{Refusal, Request, parsed};
use super::sign::sign_file;
use super::tell::tell;
use super::vectors::run_file;
use super::verify::verify_file;
use slh_io::{Files, Sink, Source, put_all};
use std::alloc::{AllocError, Allocator, Global};
use std::thread::Threads;

/// Runs the command of the arguments after the program's name, and gives the exit status: 0 for done, valid,
/// consistent or all tests passed, 1 for invalid, inconsistent or a failed test, 2 for refused.
///
/// `clap`, `serde_json` and the tests of a vector file take their memory from the runtime, and all else takes it from
/// `alloc`. Each of several workers of `keygen`, `sign` and `vectors` runs in another thread. These wait only for the
/// threads that they started.
pub fn command<
    R: AllocGlobal + Threads + Sync,
    A: Allocator + Clone + Send + Sync,
    F: Files,
    S: Source,
    O: Sink,
    E: Sink,
>(
    rt: &R,
    alloc: A,
    words: &[String],
    files: &mut F,
    input: &mut S,
    output: &mut O,
    errors: &mut E,
) -> u8
    // The output and the status follow from the arguments, the files and the input.
    ensures done { result ≢ 2 → (text : Text)
        × Replies (map string_bytes words.now) (F.state files.old) (S.state input.old) (S.state input.new) result text
        × Appends (O.state output.old).contents (O.state output.new).contents text
        × (errors.new ≡ errors.old) }
    // The refusal has its cause, and nothing was written; or a write failed, after a prefix of the answer was written. No
    // read failed, unless the refusal is one that admits it.
    ensures refused { result ≡ 2 → (fault : Fault) × IsTold (E.state errors.old) (E.state errors.new) (line fault)
        × FailsOnlyAsRefused (F.state files.old) (F.state files.new) (S.state input.old) (S.state input.new) fault
        × ((Refuses (map string_bytes words.now) (F.state files.old) (F.state files.new)
        (S.state input.old) (S.state input.new) fault
        × (output.new ≡ output.old))
        ⊎ ((fault ≡ WriteFailed) × BreaksOff (O.state output.old) (O.state output.new)
        (Replies (map string_bytes words.now) (F.state files.old) (S.state input.old) (S.state input.new)))) }
    // A run that is not refused has met no failure, and the files are as they were.
    ensures files { result ≢ 2 → F.state files.new ≡ F.state files.old }
    ensures input { result ≢ 2 → (S.state input.new).failures ≡ (S.state input.old).failures }
    ensures output { result ≢ 2 → (O.state output.new).failures ≡ (O.state output.old).failures }
    // The command takes only the input that it reads, and none if the arguments are refused or ask for help or the
    // version.
    ensures at_most { TakesAtMost (S.state input.old).left (S.state input.new).left
        (words_limit (map string_bytes words.now)) }
{
    match respond(rt, alloc, words, files, input) {
        Ok(reply) => match put_all(output, reply.output.as_slice()) {
            Ok(()) => reply.status,
            Err(_) => refuse(errors, Fault::WriteFailed),
        },
        Err(fault) => refuse(errors, fault),
    }
}

/// Writes a refusal to the errors, and ignores a failure of that write.
pub fn refuse<E: Sink>(errors: &mut E, fault: Fault) -> u8
    ensures status { result ≡ 2 }
    ensures told { IsTold (E.state errors.old) (E.state errors.new) (line fault) }
{
    let _ = tell(errors, fault);
    2
}

/// The answer to the arguments, or the refusal.
fn respond<
    R: AllocGlobal + Threads + Sync,
    A: Allocator + Clone + Send + Sync,
    F: Files,
    S: Source,
>(rt: &R, alloc: A, words: &[String], files: &mut F, input: &mut S) -> Result<Reply<A>, Fault>
    ensures done { IfOk result (λ r. Replies (map string_bytes words.now) (F.state files.old)
        (S.state input.old) (S.state input.new) r.status r.output.items) }
    ensures refused { IfErr result (Refuses (map string_bytes words.now) (F.state files.old) (F.state files.new)
        (S.state input.old) (S.state input.new)) }
    ensures at_most { TakesAtMost (S.state input.old).left (S.state input.new).left
        (words_limit (map string_bytes words.now)) }
    ensures kept { AreKeptUnlessFailed (F.state files.old) (F.state files.new) result }
    ensures unfailed { IsUnfailedUnlessRefused (S.state input.old) (S.state input.new) result }
    ensures one { (F.state files.new ≡ F.state files.old)
        ⊎ ((S.state input.new).failures ≡ (S.state input.old).failures) }
{
    match parsed(rt.alloc(), words) {
        Ok(request) => run(rt, alloc, request, files, input),
        Err(Refusal::Help(error)) => Ok(help(rt.alloc(), alloc, &error)?),
        Err(Refusal::Version) => Ok(version(alloc)?),
        Err(Refusal::BadWords) => Err(Fault::BadWords),
        Err(Refusal::NoMemory) => Err(Fault::NoMemory),
    }
}

/// The help that the arguments ask for.
fn help<A: Allocator>(global: Global, alloc: A, error: &clap::Error) -> Result<Reply<A>, AllocError>
    ensures { IfOk result (λ r. r.status ≡ 0) }
{
    let text = error.to_string(global)?;
    Ok(Reply::text(String::from_str(alloc, text.as_str())?))
}

/// The version that the arguments ask for. No clause of `clap` has the text that it makes of a version.
fn version<A: Allocator>(alloc: A) -> Result<Reply<A>, AllocError>
    ensures status { IfOk result (λ r. r.status ≡ 0) }
    ensures output { IfOk result (λ r. r.output.items ≡ version_line) }
{
    Ok(Reply::text(String::from_str(alloc, "slh 1.0.0\n")?))
}

/// The answer to a request, or the refusal. No command is inlined, so that the stack holds the locals of only one.
fn run<R: AllocGlobal + Threads + Sync, A: Allocator + Clone + Send + Sync, F: Files, S: Source>(
    rt: &R,
    alloc: A,
    request: Request<'_>,
    files: &mut F,
    input: &mut S,
) -> Result<Reply<A>, Fault>
    ensures done { IfOk result (λ r. IsReply (asked request.entry) (F.state files.old)
        (S.state input.old) (S.state input.new) r.status r.output.items) }
    ensures refused { IfErr result (IsRefusal (asked request.entry) (F.state files.old) (F.state files.new)
        (S.state input.old) (S.state input.new)) }
    ensures at_most { TakesAtMost (S.state input.old).left (S.state input.new).left
        (input_limit (Some (asked request.entry))) }
    ensures kept { AreKeptUnlessFailed (F.state files.old) (F.state files.new) result }
    ensures unfailed { IsUnfailedUnlessRefused (S.state input.old) (S.state input.new) result }
    ensures one { (F.state files.new ≡ F.state files.old)
        ⊎ ((S.state input.new).failures ≡ (S.state input.old).failures) }
{
    match request {
        Request::Params(Some(name)) => Ok(Reply::text(named_set(alloc, name)?)),
        Request::Params(None) => Ok(Reply::text(all_sets(alloc)?)),
        Request::Root(name) => Ok(Reply::text(root(alloc, name, input)?)),
        Request::Keygen(words) => Ok(Reply::text(keygen(rt, alloc, words, input)?)),
        Request::Public(path) => Ok(Reply::text(public(alloc, path, files)?)),
        Request::Check(path) => check(alloc, path, files),
        Request::Upgrade(path) => Ok(Reply::text(upgrade(alloc, path, files)?)),
        Request::Sign(words) => Ok(Reply::done(sign_file(rt, alloc, words, files)?)),
        Request::Verify(words) => verify_file(alloc, words, files),
        Request::Vectors(path, workers) => run_file(rt, alloc, path, workers_of(workers), files),
    }
}
