//! Gates that hold a worker at a job until another has run one: the bytes stay those of one thread.
use super::fixtures::{SET, key_par, whole_trees, workers};
use super::gates::{FirstMeetsSecond, FirstWaitsFor, Watch};
use super::signing::{FORMS, Form};
use crate::seeds::key;
use crate::shared::equal;
use slh_par::{Cuts, Cutting};
use std::alloc::Global;
use std::process::Abort;
use std::test::Fail;
use std::thread::Threads;

/// Signs by two workers under the gate.
fn sign_by_two<R: Abort + Threads + Sync, W: Watch>(
    rt: &R,
    alloc: Global,
    form: Form,
    gate: &W,
) -> Result<(), Fail> {
    let sk = key(SET);
    let sig = form.abc_par(rt, alloc, &sk, workers(2)?, &whole_trees(sk.set())?, gate)?;
    equal(rt, &gate.gave_up(), &false);
    equal(rt, &(sig == form.abc(alloc, &sk)?), &true);
    Ok(())
}

#[test]
fn two_signing_jobs_run_at_the_same_time(rt: HostRuntime) -> Result<(), Fail> {
    for form in FORMS {
        sign_by_two(&rt, rt.alloc(), form, &FirstMeetsSecond::new())?;
    }
    Ok(())
}

#[test]
fn two_key_generation_jobs_run_at_the_same_time(rt: HostRuntime) -> Result<(), Fail> {
    let gate = FirstMeetsSecond::new();
    let cutting = Cutting::new(SET, Cuts::Levels(1), Cuts::Levels(1))?;
    let sk = key_par(&rt, rt.alloc(), workers(2)?, &cutting, &gate)?;
    equal(&rt, &gate.gave_up(), &false);
    equal(&rt, &sk.bytes(), &key(SET).bytes());
    Ok(())
}

#[test]
fn one_worker_runs_the_54_jobs_that_a_busy_one_leaves(rt: HostRuntime) -> Result<(), Fail> {
    sign_by_two(&rt, rt.alloc(), Form::Pure, &FirstWaitsFor::new(54))
}
