//! One signature by threads of the caller's own.
ghost use Rattle.std.specs.Prelude.{◌≡◌, ◌+◌, ◌<◌, ◌≤◌, ◌++◌, [], OnOk, OnErr, length, take};
ghost use Rattle.std.specs.Thread.{IsSync};
ghost use Rattle.slh_params.specs.Params.{sig_len};
ghost use Rattle.slh_params.specs.ParamSet.{params};
ghost use Rattle.slh_core.specs.Messages.{pure_message};
ghost use Rattle.slh_core.specs.Keys.{public_of, IsGeneratedKey};
ghost use Rattle.slh_core.specs.Signatures.{signature_by, IsValid};
ghost use Rattle.slh_core.specs.declared.randomizer.Randomizer.TheVariants.{Deterministic};
ghost use Rattle.slh_jobs.specs.Jobs.{AreAnswers, answer_of, answers_len, jobs, len_of, start_of};
ghost use Rattle.slh_jobs.specs.Starts.{IsStart};
ghost use Rattle.slh_jobs.specs.Tags.{start_len};
ghost use Rattle.slh_examples.specs.JobRanges.{AreAnswersOf, IsRoomFor};

use slh_core::{Form, Randomizer, SecretKey};
use slh_jobs::{
    Levels, MOST_START_LEN, answer_len, answer_start, answers_len, sign_job, sign_jobs, sign_join,
    sign_start, start_len,
};
use std::alloc::{AllocError, Allocator};
use std::thread::{Threads, join_mut};

/// What the jobs of one signature are given.
#[derive(Clone, Copy)]
struct Begun<'a> {
    levels: &'a Levels,
    sk: &'a SecretKey,
    start: &'a [u8],
    ghost set: { sk.now.set ≡ levels.now.set },
    ghost len: { length start.now ≡ start_len (params levels.now.set) },
    ghost tagged: { IsStart sk.now start.now },
}

/// Writes the answer of one job, from `at` on.
fn put_answer(begun: &Begun, job: u32, out: &mut [u8], at: usize)
    requires job { job < jobs begun.now.levels.now }
    requires room { at + len_of begun.now.levels.now job ≤ length out.old }
    ensures len { length (answer_of begun.now.levels.now begun.now.sk.now begun.now.start.now job)
        ≡ len_of begun.now.levels.now job }
    ensures answer { take (at + len_of begun.now.levels.now job) out.new
        ≡ take at out.old ++ answer_of begun.now.levels.now begun.now.sk.now begun.now.start.now job }
{
    let end = at + answer_len(begun.levels, job);
    let Ok(()) = sign_job(begun.levels, begun.sk, begun.start, job, &mut out[at..end]) else {
        unreachable!()
    };
}

/// Writes the answers of the jobs from `first` on, below `end`, one after another.
fn answer_in_turn(begun: &Begun, first: u32, end: u32, out: &mut [u8])
    requires some { first < end }
    requires room { IsRoomFor begun.now.levels.now first end out.old }
    ensures { AreAnswersOf begun.now.levels.now begun.now.sk.now begun.now.start.now first end out.new }
{
    let before = answer_start(begun.levels, first);
    for job in first..end {
        let at = answer_start(begun.levels, job) - before;
        put_answer(begun, job, out, at);
    }
}

/// Writes the answers of the jobs from `first` on, below `end`, by that many threads, this one among them.
#[cycle(halves)]
fn answer_by_threads<R: Threads + Sync>(
    rt: &R,
    begun: &Begun,
    threads: u32,
    first: u32,
    end: u32,
    out: &mut [u8],
)
    requires some { first < end }
    requires room { IsRoomFor begun.now.levels.now first end out.old }
    ensures { AreAnswersOf begun.now.levels.now begun.now.sk.now begun.now.start.now first end out.new }
{
    if threads < 2 || end - first < 2 {
        answer_in_turn(begun, first, end, out);
        return;
    }
    let middle = first + (end - first) / 2;
    let cut = answer_start(begun.levels, middle) - answer_start(begun.levels, first);
    let (front, back) = out.split_at_mut(cut);
    answer_halves(rt, begun, threads, first, middle, front, end, back);
}

/// Writes the answers of the jobs from `first` on, below `middle`, in a new thread, and of those below `end` in this
/// one, with half of the threads for each.
#[cycle(halves)]
fn answer_halves<R: Threads + Sync>(
    rt: &R,
    begun: &Begun,
    threads: u32,
    first: u32,
    middle: u32,
    front: &mut [u8],
    end: u32,
    back: &mut [u8],
)
    requires some { first < middle }
    requires front { IsRoomFor begun.now.levels.now first middle front.old }
    requires more { middle < end }
    requires back { IsRoomFor begun.now.levels.now middle end back.old }
    ensures front { AreAnswersOf begun.now.levels.now begun.now.sk.now begun.now.start.now first middle front.new }
    ensures back { AreAnswersOf begun.now.levels.now begun.now.sk.now begun.now.start.now middle end back.new }
{
    let half = threads / 2;
    let rest = threads - half;
    let mut first_half = ||
        requires { IsSync R.row × (first < middle) × IsRoomFor begun.now.levels.now first middle front.now }
        ensures { AreAnswersOf begun.entry.now.levels.now begun.entry.now.sk.now begun.entry.now.start.now
            first middle front.exit.now }
    { answer_by_threads(rt, begun, half, first, middle, front) };
    let mut second_half = ||
        requires { IsSync R.row × (middle < end) × IsRoomFor begun.now.levels.now middle end back.now }
        ensures { AreAnswersOf begun.entry.now.levels.now begun.entry.now.sk.now begun.entry.now.start.now
            middle end back.exit.now }
    { answer_by_threads(rt, begun, rest, middle, end, back) };
    join_mut(rt, &mut first_half, &mut second_half);
}

/// Writes the answers of all jobs by that many threads.
fn answer_all<R: Threads + Sync>(rt: &R, begun: &Begun, threads: u32, answers: &mut [u8])
    requires { length answers.old ≡ answers_len begun.now.levels.now }
    ensures len { length answers.new ≡ answers_len begun.now.levels.now }
    ensures answers { AreAnswers begun.now.levels.now begun.now.sk.now begun.now.start.now answers.new }
{
    answer_by_threads(rt, begun, threads, 0, sign_jobs(begun.levels), answers);
}

/// Signs a message with no context under a generated key, as jobs of that many threads, this one among them. The bytes
/// are those that one thread writes. Refused, with nothing written, if memory for the answers was refused.
pub fn sign_by_own_threads<R: Threads + Sync, A: Allocator>(
    rt: &R,
    alloc: A,
    sk: &SecretKey,
    msg: &[u8],
    levels: &Levels,
    threads: u32,
    sig: &mut [u8],
) -> Result<(), AllocError>
    requires generated { IsGeneratedKey sk.now }
    requires set { sk.now.set ≡ levels.now.set }
    requires sig { length sig.old ≡ sig_len (params sk.now.set) }
    ensures signature { OnOk result (sig.new ≡ signature_by sk.now (pure_message [] msg.now) Deterministic) }
    ensures authentic { OnOk result (IsValid (public_of sk.now) (pure_message [] msg.now) sig.new) }
    ensures refused { OnErr result (sig.new ≡ sig.old) }
{
    let mut buffer = [0; MOST_START_LEN];
    let start = &mut buffer[..start_len(sk.set())];
    let Ok(()) = sign_start(Form::Pure, msg, &[], sk, Randomizer::Deterministic, start) else {
        unreachable!()
    };
    let mut answers = vec![in alloc; 0; answers_len(levels)]?;
    answer_all(rt, &Begun { levels, sk, start }, threads, &mut answers);
    let Ok(()) = sign_join(levels, sk, start, &answers, sig) else {
        unreachable!()
    };
    Ok(())
}
