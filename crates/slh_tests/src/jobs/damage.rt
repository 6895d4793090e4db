//! Answers that don't fit together, which `sign_join` refuses.
ghost use Rattle.std.specs.Prelude.{◌≡◌, ◌<◌, length};
ghost use Rattle.slh_params.specs.ParamSet.{params};
ghost use Rattle.slh_jobs.specs.Tags.{start_len as length_of_start};

use super::fixtures::{OF_ABC, answers, begin_pure, flip, join, levels, sha256_hex};
use crate::seeds::{key, key_from};
use crate::shared::equal;
use slh_core::SecretKey;
use slh_jobs::{JobFault, Levels, answer_len, answer_start, answers_len, sign_jobs};
use slh_params::ParamSet;
use std::alloc::Global;
use std::process::Abort;
use std::test::Fail;

/// Checks that answers are refused as not fitting together if a bit is flipped: the first one of every `step`-th byte
/// of `count` from `from` on.
fn check_flipped(
    rt: &impl Abort,
    alloc: Global,
    levels: &Levels,
    sk: &SecretKey,
    start: &[u8],
    answers: &mut [u8],
    places: (usize, usize, usize),
) -> Result<(), Fail>
    requires set { sk.now.set ≡ levels.now.set }
    requires start { length start.now ≡ length_of_start (params levels.now.set) }
    ensures { length answers.new ≡ length answers.old }
{
    let (from, step, count) = places;
    for i in 0..count {
        flip(rt, answers, from.wrapping_add(i.wrapping_mul(step)));
    }
    let refused = join(rt, alloc, levels, sk, start, answers)?;
    assert_eq!(rt;
        refused.err(),
        Some(JobFault::AnswersDisagree),
        "from {from} on"
    );
    for i in 0..count {
        flip(rt, answers, from.wrapping_add(i.wrapping_mul(step)));
    }
    Ok(())
}

/// The first of two jobs in whose answer bytes after the tag are not zero.
fn signing_job(rt: &impl Abort, levels: &Levels, answers: &[u8], first: u32) -> u32 {
    assert!(rt; first < sign_jobs(levels));
    let start = answer_start(levels, first);
    let len = answer_len(levels, first);
    assert!(rt; start <= answers.len() && len <= answers.len() - start && 32 <= len);
    if answers[start..][..len][32..].iter().all(|&byte| byte == 0) {
        first.wrapping_add(1)
    } else {
        first
    }
}

/// The place of a job's answer.
fn place(rt: &impl Abort, levels: &Levels, job: u32) -> usize
    ensures { result < 1000000000 }
{
    assert!(rt; job < sign_jobs(levels));
    let start = answer_start(levels, job);
    assert!(rt; start < 1_000_000_000);
    start
}

/// 128f with levels 1 and 1: an answer of an XMSS tree has a node and a tag of 16 bytes, a path of 2 nodes and 35
/// chains of 16 values. An answer of a FORS tree has a node, a tag, a path of 5 nodes and a secret.
#[test]
fn one_bit_in_each_field(rt: HostRuntime) -> Result<(), Fail> {
    let alloc = rt.alloc();
    let sk = key(ParamSet::S128f);
    let levels = levels(sk.set(), 1, 1)?;
    let start = begin_pure(alloc, b"abc", &sk)?;
    let mut answers = answers(&rt, alloc, &levels, &sk, &start)?;
    equal(&rt, &sign_jobs(&levels), &110);
    for first in [0, 6, 42, 44, 108] {
        let signing = signing_job(&rt, &levels, &answers, first);
        let at = place(&rt, &levels, signing);
        // The node and the tag of both ranges, and then the path of the one that signs.
        let other = place(
            &rt,
            &levels,
            if signing == first { first + 1 } else { first },
        );
        for from in [at, at + 16, other, other + 16, at + 32, at + 48] {
            check_flipped(&rt, alloc, &levels, &sk, &start, &mut answers, (from, 1, 1))?;
        }
        // All checkpoints of the last chain, or the secret.
        let own = if first < 44 {
            (at + 64 + 34 * 256, 16, 16)
        } else {
            (at + 112, 1, 1)
        };
        check_flipped(&rt, alloc, &levels, &sk, &start, &mut answers, own)?;
        // The bytes after the tag, in the answer of the other range, are not read.
        flip(&rt, &mut answers, other + 40);
        let sig = join(&rt, alloc, &levels, &sk, &start, &answers)??;
        equal(&rt, &sha256_hex(alloc, &sig)?.as_str(), &OF_ABC);
    }
    Ok(())
}

/// Checks that answers are refused if those of one job are in the place of those of another.
fn check_moved(
    rt: &impl Abort,
    alloc: Global,
    levels: &Levels,
    sk: &SecretKey,
    start: &[u8],
    answers: &[u8],
    from: &[u8],
    jobs: (u32, u32),
) -> Result<(), Fail>
    requires set { sk.now.set ≡ levels.now.set }
    requires start { length start.now ≡ length_of_start (params levels.now.set) }
{
    let (source, target) = jobs;
    assert!(rt; source < sign_jobs(levels) && target < sign_jobs(levels));
    let source_at = answer_start(levels, source);
    let target_at = answer_start(levels, target);
    let len = answer_len(levels, source);
    let mut moved = answers.to_vec(alloc)?;
    assert!(rt; source_at <= from.len() && len <= from.len() - source_at);
    assert!(rt; target_at <= moved.len() && len <= moved.len() - target_at);
    moved[target_at..][..len].copy_from_slice(&from[source_at..][..len]);
    let refused = join(rt, alloc, levels, sk, start, &moved)?;
    assert_eq!(rt;
        refused.err(),
        Some(JobFault::AnswersDisagree),
        "{source} at {target}"
    );
    Ok(())
}

#[test]
fn answers_of_others(rt: HostRuntime) -> Result<(), Fail> {
    let alloc = rt.alloc();
    let sk = key(ParamSet::S128f);
    let levels = levels(sk.set(), 1, 1)?;
    let start = begin_pure(alloc, b"abc", &sk)?;
    let own = answers(&rt, alloc, &levels, &sk, &start)?;
    // Another job's: of its tree, of another layer, of another FORS tree.
    for jobs in [
        (0, 1),
        (1, 0),
        (0, 2),
        (42, 43),
        (44, 45),
        (46, 44),
        (109, 107),
    ] {
        check_moved(&rt, alloc, &levels, &sk, &start, &own, &own, jobs)?;
    }
    // Another message's, and another key's.
    let other_start = begin_pure(alloc, b"abd", &sk)?;
    let of_message = answers(&rt, alloc, &levels, &sk, &other_start)?;
    let other = key_from(sk.set(), 1);
    let start_of_key = begin_pure(alloc, b"abc", &other)?;
    let of_key = answers(&rt, alloc, &levels, &other, &start_of_key)?;
    for job in [0, 1, 42, 43, 44, 109] {
        check_moved(
            &rt,
            alloc,
            &levels,
            &sk,
            &start,
            &own,
            &of_message,
            (job, job),
        )?;
        check_moved(&rt, alloc, &levels, &sk, &start, &own, &of_key, (job, job))?;
    }
    for given in [&of_message, &of_key] {
        let refused = join(&rt, alloc, &levels, &sk, &start, given)?;
        equal(&rt, &refused.err(), &Some(JobFault::AnswersDisagree));
    }
    // Too short, too long, none, and any bytes.
    let mut longer = own.as_slice().to_vec(alloc)?;
    longer.push(0)?;
    assert!(rt; 1 <= own.len());
    for given in [&own[..own.len() - 1], longer.as_slice(), &[]] {
        let refused = join(&rt, alloc, &levels, &sk, &start, given)?;
        equal(&rt, &refused.err(), &Some(JobFault::BadAnswersLength));
    }
    for byte in [0x00, 0xff] {
        let any = vec![in alloc; byte; answers_len(&levels)]?;
        let refused = join(&rt, alloc, &levels, &sk, &start, &any)?;
        equal(&rt, &refused.err(), &Some(JobFault::AnswersDisagree));
    }
    Ok(())
}
