//! Refusals: gates that stop the run, and contexts that are too long.
use super::fixtures::{SET, is_unwritten, key_par, unwritten, whole_trees, workers};
use super::signing::FORMS;
use crate::seeds::key;
use crate::shared::{StopAt, equal};
use slh_par::ParFault;
use std::process::Abort;
use std::sync::atomic::Ordering;
use std::test::Fail;

#[test]
fn numbers_and_names(rt: HostRuntime) {
    for (fault, number, name) in [
        (ParFault::NoMemory, 1u8, "NoMemory"),
        (ParFault::ContextTooLong, 2, "ContextTooLong"),
        (ParFault::Stopped, 6, "Stopped"),
    ] {
        equal(&rt, &fault.number(), &number);
        equal(&rt, &fault.name(), &name);
    }
}

#[test]
fn a_gate_stops_key_generation(rt: HostRuntime) -> Result<(), Fail> {
    let cutting = whole_trees(SET)?;
    for number in [1u8, 2] {
        let outcome = key_par(&rt, rt.alloc(), workers(number)?, &cutting, &StopAt::new(0));
        equal(&rt, &outcome.err(), &Some(ParFault::Stopped));
        let gate = StopAt::new(1);
        key_par(&rt, rt.alloc(), workers(number)?, &cutting, &gate)?;
        check_calls(&rt, &gate, 1);
    }
    Ok(())
}

/// Checks that the gate was asked and informed of so many jobs.
fn check_calls(rt: &impl Abort, gate: &StopAt, jobs: u64) {
    equal(rt, &gate.entered.load(Ordering::SeqCst), &jobs);
    equal(rt, &gate.left.load(Ordering::SeqCst), &jobs);
}

/// A gate that stops at job 5, and contexts of 256 bytes under a gate that would stop at job 55, of jobs 0 to 54. A
/// context that is too long is refused before any job is entered.
#[test]
fn refused_signing_writes_nothing(rt: HostRuntime) -> Result<(), Fail> {
    let sk = key(SET);
    let cutting = whole_trees(sk.set())?;
    for (ctx, job, fault) in [
        (b"".as_slice(), 5u32, ParFault::Stopped),
        (&[7; 256], 55, ParFault::ContextTooLong),
    ] {
        for form in FORMS {
            for number in [1u8, 2] {
                let mut out = unwritten(rt.alloc(), sk.set())?;
                let some = workers(number)?;
                let gate = StopAt::new(job);
                let outcome = form.sign_par(
                    &rt,
                    rt.alloc(),
                    b"abc",
                    ctx,
                    &sk,
                    some,
                    &cutting,
                    &gate,
                    &mut out,
                );
                equal(&rt, &outcome.err(), &Some(fault));
                equal(&rt, &is_unwritten(&out), &true);
                let entered = gate.entered.load(Ordering::SeqCst);
                equal(&rt, &(entered > 0), &(fault == ParFault::Stopped));
            }
        }
    }
    Ok(())
}

#[test]
fn a_gate_that_waits_for_job_55_of_55_stops_nothing(rt: HostRuntime) -> Result<(), Fail> {
    let sk = key(SET);
    let cutting = whole_trees(sk.set())?;
    for form in FORMS {
        let expected = form.abc(rt.alloc(), &sk)?;
        for number in [1u8, 2] {
            let gate = StopAt::new(55);
            let sig = form.abc_par(&rt, rt.alloc(), &sk, workers(number)?, &cutting, &gate)?;
            equal(&rt, &(sig == expected), &true);
            check_calls(&rt, &gate, 55);
        }
    }
    Ok(())
}
