//! Keys from jobs, and the refusals.
use super::fixtures::{flip, levels};
use crate::seeds::{counting, key};
use crate::shared::equal;
use slh_core::{Form, Randomizer, SecretKey};
use slh_jobs::{
    JobFault, Levels, key_answer_len, keygen_job, keygen_jobs, keygen_join, sign_start, start_len,
};
use slh_params::ParamSet;
use std::alloc::Global;
use std::process::Abort;
use std::test::Fail;

/// The answers of all jobs of the generation of the key of the seeds 00, 01, 02, ..
fn key_answers(rt: &impl Abort, alloc: Global, levels: &Levels) -> Result<Vec<u8>, Fail> {
    let seeds = counting(0);
    let n = levels.set.n();
    let len = key_answer_len(levels.set);
    let mut answers = vec![in alloc; 0xaa; keygen_jobs(levels) as usize * len]?;
    for job in (0..keygen_jobs(levels)).rev() {
        let first = job as usize * len;
        assert!(rt; first <= answers.len() && len <= answers.len() - first);
        let answer = &mut answers[first..][..len];
        keygen_job(
            levels,
            &seeds[..n],
            &seeds[n..2 * n],
            &seeds[2 * n..3 * n],
            job,
            answer,
        );
    }
    Ok(answers)
}

/// The key of three seeds, end to end, that these answers give.
fn join_key(levels: &Levels, seeds: &[u8; 96], answers: &[u8]) -> Result<SecretKey, JobFault> {
    let n = levels.set.n();
    keygen_join(
        levels,
        &seeds[..n],
        &seeds[n..2 * n],
        &seeds[2 * n..3 * n],
        answers,
    )
}

#[test]
fn keys(rt: HostRuntime) -> Result<(), Fail> {
    let alloc = rt.alloc();
    for (set, xmss) in [
        (ParamSet::S128f, 0),
        (ParamSet::S128f, 1),
        (ParamSet::S128f, 2),
        (ParamSet::S128f, 3),
        (ParamSet::S192f, 2),
        (ParamSet::S256f, 4),
        (ParamSet::S128s, 8),
    ] {
        let levels = levels(set, xmss, 0)?;
        let mut answers = key_answers(&rt, alloc, &levels)?;
        let mut seeds = counting(0);
        let sk = join_key(&levels, &seeds, &answers)?;
        assert!(rt; sk.bytes() == key(set).bytes(), "{} {xmss}", set.name());
        // One bit in each seed, one in the node and in the tag of the last job, and an answer too few.
        let n = set.n();
        for from in [0, n, 2 * n] {
            flip(&rt, &mut seeds, from);
            let refused = join_key(&levels, &seeds, &answers).err();
            equal(&rt, &refused, &Some(JobFault::AnswersDisagree));
            flip(&rt, &mut seeds, from);
        }
        assert!(rt; 2 * n <= answers.len());
        for from in [answers.len() - 2 * n, answers.len() - n] {
            flip(&rt, &mut answers, from);
            let refused = join_key(&levels, &seeds, &answers).err();
            equal(&rt, &refused, &Some(JobFault::AnswersDisagree));
            flip(&rt, &mut answers, from);
        }
        let refused = join_key(&levels, &seeds, &answers[..answers.len() - 2 * n]).err();
        equal(&rt, &refused, &Some(JobFault::BadAnswersLength));
    }
    Ok(())
}

/// The answers of a set are refused for another with equal n and as many jobs.
#[test]
fn key_answers_of_another_set(rt: HostRuntime) -> Result<(), Fail> {
    for (small, fast) in [
        (ParamSet::S128s, ParamSet::S128f),
        (ParamSet::S192s, ParamSet::S192f),
        (ParamSet::S256s, ParamSet::S256f),
    ] {
        let answers = key_answers(&rt, rt.alloc(), &levels(small, 3, 0)?)?;
        let refused = join_key(&levels(fast, 3, 0)?, &counting(0), &answers).err();
        equal(&rt, &refused, &Some(JobFault::AnswersDisagree));
    }
    Ok(())
}

#[test]
fn exchanged_key_answers_and_refusals(rt: HostRuntime) -> Result<(), Fail> {
    let alloc = rt.alloc();
    let levels = levels(ParamSet::S128f, 1, 0)?;
    let answers = key_answers(&rt, alloc, &levels)?;
    let (first, second) = answers.as_slice().split_at(answers.len() / 2);
    let mut exchanged = second.to_vec(alloc)?;
    exchanged.extend_from_slice(first)?;
    let refused = join_key(&levels, &counting(0), &exchanged).err();
    equal(&rt, &refused, &Some(JobFault::AnswersDisagree));
    for (fault, number, name) in [
        (JobFault::BadAnswersLength, 20, "BadAnswersLength"),
        (JobFault::AnswersDisagree, 25, "AnswersDisagree"),
        (JobFault::BadStart, 28, "BadStart"),
    ] {
        equal(&rt, &fault.number(), &number);
        equal(&rt, &fault.name(), &name);
    }
    let sk = key(ParamSet::S128f);
    let mut start = vec![in alloc; 0x55; start_len(sk.set())]?;
    let long = [0; 256];
    let refused = sign_start(
        Form::Pure,
        b"abc",
        &long,
        &sk,
        Randomizer::Deterministic,
        &mut start,
    );
    equal(&rt, &refused.err().map(|fault| fault.number()), &Some(2));
    assert!(rt; start.iter().all(|&byte| byte == 0x55));
    Ok(())
}
