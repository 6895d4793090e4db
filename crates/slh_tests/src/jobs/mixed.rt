//! Starts and answers of keys that differ in one bit.
ghost use Rattle.std.specs.Prelude.{◌≡◌, IfOk, length};
ghost use Rattle.slh_params.specs.ParamSet.{params};
ghost use Rattle.slh_jobs.specs.Tags.{start_len as length_of_start};

use super::fixtures::{answers, begin_pure, flip, join, levels};
use crate::seeds::key;
use crate::shared::equal;
use slh_core::SecretKey;
use slh_jobs::{JobFault, Levels, answer_len, answer_start, sign_job, sign_jobs};
use slh_params::ParamSet;
use std::alloc::Global;
use std::process::Abort;
use std::test::Fail;

/// Sets of few hashes, each with levels: the standard's 128f, one of w = 256, one of 65 layers, one of high FORS trees.
const CUT: [(&str, u32, u32); 6] = [
    ("SLH-DSA-SHA2-128f", 0, 0),
    ("SLH-DSA-SHA2-128f", 1, 1),
    ("SLH-DSA-SHA2-128f", 2, 0),
    ("custom:24,8,1,2,5,7", 1, 1),
    ("custom:24,2,1,65,1,8", 1, 0),
    ("custom:32,4,2,2,14,2", 2, 3),
];

/// The key with the first bit of the byte at a place flipped.
fn changed_key(rt: &impl Abort, alloc: Global, sk: &SecretKey, at: usize) -> Result<SecretKey, Fail>
    ensures { IfOk result (λ other. other.set ≡ sk.now.set) }
{
    let mut bytes = sk.bytes().to_vec(alloc)?;
    flip(rt, &mut bytes, at);
    Ok(SecretKey::from_bytes(sk.set(), &bytes)?)
}

/// Checks that a job and joining refuse a start, with nothing written.
fn check_bad_start(
    rt: &impl Abort,
    alloc: Global,
    levels: &Levels,
    sk: &SecretKey,
    start: &[u8],
    answers: &[u8],
) -> Result<(), Fail>
    requires set { sk.now.set ≡ levels.now.set }
    requires start { length start.now ≡ length_of_start (params levels.now.set) }
{
    assert!(rt; 0 < sign_jobs(levels));
    let mut answer = vec![in alloc; 0x55; answer_len(levels, 0)]?;
    let refused = sign_job(levels, sk, start, 0, &mut answer);
    equal(rt, &refused.err(), &Some(JobFault::BadStart));
    assert!(rt; answer.iter().all(|&byte| byte == 0x55));
    let refused = join(rt, alloc, levels, sk, start, answers)?;
    equal(rt, &refused.err(), &Some(JobFault::BadStart));
    Ok(())
}

/// As above, for a start with the first bit of the byte at a place flipped.
fn check_changed_start(
    rt: &impl Abort,
    alloc: Global,
    levels: &Levels,
    sk: &SecretKey,
    start: &[u8],
    answers: &[u8],
    at: usize,
) -> Result<(), Fail>
    requires set { sk.now.set ≡ levels.now.set }
    requires start { length start.now ≡ length_of_start (params levels.now.set) }
{
    let mut changed = start.to_vec(alloc)?;
    flip(rt, &mut changed, at);
    check_bad_start(rt, alloc, levels, sk, &changed, answers)
}

/// The answers, with those of others for the jobs from `first` on, `count` of them.
fn mixed(
    rt: &impl Abort,
    alloc: Global,
    levels: &Levels,
    own: &[u8],
    others: &[u8],
    jobs: (u32, u32),
) -> Result<Vec<u8>, Fail> {
    let (first, count) = jobs;
    let mut mixed = own.to_vec(alloc)?;
    for i in 0..count {
        let job = first.wrapping_add(i);
        assert!(rt; job < sign_jobs(levels));
        let at = answer_start(levels, job);
        let len = answer_len(levels, job);
        assert!(rt; at <= mixed.len() && len <= mixed.len() - at);
        assert!(rt; at <= others.len() && len <= others.len() - at);
        mixed[at..][..len].copy_from_slice(&others[at..][..len]);
    }
    Ok(mixed)
}

/// Checks that answers are refused among which those of `count` jobs from `first` on are of others.
fn check_mixed(
    rt: &impl Abort,
    alloc: Global,
    levels: &Levels,
    sk: &SecretKey,
    start: &[u8],
    own: &[u8],
    others: &[u8],
    jobs: (u32, u32),
) -> Result<(), Fail>
    requires set { sk.now.set ≡ levels.now.set }
    requires start { length start.now ≡ length_of_start (params levels.now.set) }
{
    let given = mixed(rt, alloc, levels, own, others, jobs)?;
    let refused = join(rt, alloc, levels, sk, start, &given)?;
    equal(rt, &refused.err(), &Some(JobFault::AnswersDisagree));
    Ok(())
}

/// The trees of the lowest and of the top layer, and the first and the last FORS tree: the first job and the number of
/// jobs of each. After them all jobs.
fn trees(levels: &Levels) -> [(u32, u32); 5] {
    let xmss = 1_u32.wrapping_shl(levels.xmss);
    let fors = 1_u32.wrapping_shl(levels.fors);
    let all = sign_jobs(levels);
    let past_xmss = levels.set.d().wrapping_mul(xmss);
    [
        (0, xmss),
        (past_xmss.wrapping_sub(xmss), xmss),
        (past_xmss, fors),
        (all.wrapping_sub(fors), fors),
        (0, all),
    ]
}

/// Checks that the answers of another key, for its start, are refused under this key. They are all of a tree, those of
/// each of its ranges, and all of them.
fn check_other_key(
    rt: &impl Abort,
    alloc: Global,
    levels: &Levels,
    sk: &SecretKey,
    start: &[u8],
    own: &[u8],
    other: &SecretKey,
) -> Result<(), Fail>
    requires set { sk.now.set ≡ levels.now.set }
    requires other { other.now.set ≡ levels.now.set }
    requires start { length start.now ≡ length_of_start (params levels.now.set) }
{
    check_bad_start(rt, alloc, levels, other, start, own)?;
    let other_start = begin_pure(alloc, b"abc", other)?;
    let others = answers(rt, alloc, levels, other, &other_start)?;
    for (first, count) in trees(levels) {
        check_mixed(rt, alloc, levels, sk, start, own, &others, (first, count))?;
        for i in 0..count.min(4) {
            let job = first.wrapping_add(i);
            check_mixed(rt, alloc, levels, sk, start, own, &others, (job, 1))?;
        }
    }
    Ok(())
}

/// One bit in SK.seed, SK.prf, PK.seed and PK.root.
#[test]
fn answers_of_keys_with_one_bit_changed(rt: HostRuntime) -> Result<(), Fail> {
    let alloc = rt.alloc();
    for (label, xmss, fors) in CUT {
        let set = ParamSet::from_label(label.as_bytes()).ok_or("no label of a set")?;
        let sk = key(set);
        let cut = levels(set, xmss, fors)?;
        let start = begin_pure(alloc, b"abc", &sk)?;
        let own = answers(&rt, alloc, &cut, &sk, &start)?;
        let joined = join(&rt, alloc, &cut, &sk, &start, &own)?;
        assert!(rt; joined.is_ok(), "{label} {xmss} {fors}");
        for part in 0..4_usize {
            let other = changed_key(&rt, alloc, &sk, part.wrapping_mul(set.n()))?;
            check_other_key(&rt, alloc, &cut, &sk, &start, &own, &other)?;
        }
    }
    Ok(())
}

/// One bit in R, in the digest and in the tag.
#[test]
fn starts_with_one_bit_changed(rt: HostRuntime) -> Result<(), Fail> {
    let alloc = rt.alloc();
    for (label, xmss, fors) in CUT {
        let set = ParamSet::from_label(label.as_bytes()).ok_or("no label of a set")?;
        let sk = key(set);
        let cut = levels(set, xmss, fors)?;
        let start = begin_pure(alloc, b"abc", &sk)?;
        let own = answers(&rt, alloc, &cut, &sk, &start)?;
        for at in [0, set.n(), start.len().wrapping_sub(set.n())] {
            check_changed_start(&rt, alloc, &cut, &sk, &start, &own, at)?;
        }
    }
    Ok(())
}

/// With the same wrong PK.root in every call all tags fit, and only the root of the top tree is another.
#[test]
fn a_wrong_root_of_the_top_tree(rt: HostRuntime) -> Result<(), Fail> {
    let alloc = rt.alloc();
    for (label, xmss, fors) in CUT {
        let set = ParamSet::from_label(label.as_bytes()).ok_or("no label of a set")?;
        let sk = changed_key(&rt, alloc, &key(set), set.n().wrapping_mul(3))?;
        let cut = levels(set, xmss, fors)?;
        let start = begin_pure(alloc, b"abc", &sk)?;
        let own = answers(&rt, alloc, &cut, &sk, &start)?;
        let refused = join(&rt, alloc, &cut, &sk, &start, &own)?;
        equal(&rt, &refused.err(), &Some(JobFault::AnswersDisagree));
    }
    Ok(())
}
