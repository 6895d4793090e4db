//! Tests of runs of all jobs: places, threads, gates, stops and want of memory.
use super::gates::{BothThenStop, Numbered};
use super::works::{FirstWaits, Meeting, Recorded, Squares};
use crate::shared::{StopAt, equal};
use slh_workers::{NoGate, RunFault, Workers, run_all};
use std::sync::atomic::{AtomicU64, Ordering};
use std::test::Fail;

#[test]
fn workers_are_from_1_to_64(rt: HostRuntime) -> Result<(), Fail> {
    for number in [0u8, 65, 255] {
        assert!(rt; Workers::new(number).is_none(), "{number}");
    }
    for number in [1u8, 64] {
        let workers = Workers::new(number).ok_or("workers")?;
        equal(&rt, &workers.number(), &number);
    }
    Ok(())
}

#[test]
fn each_answer_is_in_its_place(rt: HostRuntime) -> Result<(), Fail> {
    for number in [1u8, 2, 3, 64] {
        let workers = Workers::new(number).ok_or("workers")?;
        for jobs in [0u32, 1, 10, 65] {
            let squares = run_all(&rt, rt.alloc(), &Squares::new(jobs), workers, &NoGate)?;
            let wanted = (0..u64::from(jobs)).map(|i| i.wrapping_mul(i));
            assert!(rt;
                squares.iter().copied().eq(wanted),
                "{jobs} jobs, {number} workers"
            );
        }
    }
    Ok(())
}

#[test]
fn two_workers_run_two_jobs_at_the_same_time(rt: HostRuntime) -> Result<(), Fail> {
    let workers = Workers::new(2).ok_or("workers")?;
    let work = Meeting {
        called: AtomicU64::new(0),
    };
    let answers = run_all(&rt, rt.alloc(), &work, workers, &NoGate)?;
    equal(&rt, &answers.len(), &2);
    Ok(())
}

#[test]
fn a_worker_takes_the_jobs_that_a_busy_one_leaves(rt: HostRuntime) -> Result<(), Fail> {
    let workers = Workers::new(2).ok_or("workers")?;
    let work = FirstWaits {
        others: 9,
        ran: AtomicU64::new(0),
    };
    let answers = run_all(&rt, rt.alloc(), &work, workers, &NoGate)?;
    equal(&rt, &answers.len(), &10);
    Ok(())
}

#[test]
fn the_gate_gets_the_number_of_each_worker(rt: HostRuntime) -> Result<(), Fail> {
    let workers = Workers::new(3).ok_or("workers")?;
    let gate = Numbered {
        workers: 3,
        entered: AtomicU64::new(0),
        asked: AtomicU64::new(0),
        told: AtomicU64::new(0),
    };
    let answers = run_all(&rt, rt.alloc(), &Squares::new(3), workers, &gate)?;
    equal(&rt, &answers.len(), &3);
    equal(&rt, &gate.asked.load(Ordering::SeqCst), &0b111);
    equal(&rt, &gate.told.load(Ordering::SeqCst), &0b111);
    Ok(())
}

#[test]
fn a_refused_job_refuses_the_run(rt: HostRuntime) -> Result<(), Fail> {
    for number in [1u8, 3] {
        let workers = Workers::new(number).ok_or("workers")?;
        for refused in 0u32..10 {
            let work = Squares { jobs: 10, refused };
            let outcome = run_all(&rt, rt.alloc(), &work, workers, &NoGate);
            assert_eq!(rt;
                outcome.err(),
                Some(RunFault::NoMemory),
                "job {refused}, {number} workers"
            );
        }
    }
    Ok(())
}

#[test]
fn a_gate_stops_the_run(rt: HostRuntime) -> Result<(), Fail> {
    for number in [1u8, 3] {
        let workers = Workers::new(number).ok_or("workers")?;
        for job in 0u32..10 {
            let gate = StopAt::new(job);
            let outcome = run_all(&rt, rt.alloc(), &Squares::new(10), workers, &gate);
            assert_eq!(rt;
                outcome.err(),
                Some(RunFault::Stopped),
                "job {job}, {number} workers"
            );
        }
        let gate = StopAt::new(10);
        let squares = run_all(&rt, rt.alloc(), &Squares::new(10), workers, &gate)?;
        equal(&rt, &squares.len(), &10);
        equal(&rt, &gate.entered.load(Ordering::SeqCst), &10);
        equal(&rt, &gate.left.load(Ordering::SeqCst), &10);
    }
    Ok(())
}

#[test]
fn each_job_is_entered_then_run_then_left(rt: HostRuntime) -> Result<(), Fail> {
    let all = 0b11_1111_1111u64;
    for number in [1u8, 3] {
        let workers = Workers::new(number).ok_or("workers")?;
        let recorded = Recorded::new(None, None);
        let answers = run_all(&rt, rt.alloc(), &recorded, workers, &recorded)?;
        assert!(rt; answers.iter().copied().eq(0..10));
        equal(&rt, &recorded.entered.load(Ordering::SeqCst), &all);
        equal(&rt, &recorded.ran.load(Ordering::SeqCst), &all);
        equal(&rt, &recorded.left.load(Ordering::SeqCst), &all);
        equal(&rt, &recorded.out_of_turn.load(Ordering::SeqCst), &0);
    }
    Ok(())
}

#[test]
fn a_job_at_which_the_gate_stops_is_not_run(rt: HostRuntime) -> Result<(), Fail> {
    for number in [1u8, 3] {
        let workers = Workers::new(number).ok_or("workers")?;
        for job in 0u32..10 {
            let recorded = Recorded::new(Some(job), None);
            let outcome = run_all(&rt, rt.alloc(), &recorded, workers, &recorded);
            assert_eq!(rt; outcome.err(), Some(RunFault::Stopped), "job {job}");
            let bit = 1u64.unbounded_shl(job);
            let ran = recorded.ran.load(Ordering::SeqCst);
            equal(&rt, &(ran | bit), &recorded.entered.load(Ordering::SeqCst));
            assert_eq!(rt; ran & bit, 0, "job {job}");
            equal(&rt, &recorded.left.load(Ordering::SeqCst), &ran);
            equal(&rt, &recorded.out_of_turn.load(Ordering::SeqCst), &0);
        }
    }
    Ok(())
}

#[test]
fn a_job_that_is_refused_memory_is_left(rt: HostRuntime) -> Result<(), Fail> {
    for number in [1u8, 3] {
        let workers = Workers::new(number).ok_or("workers")?;
        for job in 0u32..10 {
            let recorded = Recorded::new(None, Some(job));
            let outcome = run_all(&rt, rt.alloc(), &recorded, workers, &recorded);
            assert_eq!(rt; outcome.err(), Some(RunFault::NoMemory), "job {job}");
            let ran = recorded.ran.load(Ordering::SeqCst);
            assert!(rt; ran & 1u64.unbounded_shl(job) > 0, "job {job}");
            equal(&rt, &recorded.entered.load(Ordering::SeqCst), &ran);
            equal(&rt, &recorded.left.load(Ordering::SeqCst), &ran);
            equal(&rt, &recorded.out_of_turn.load(Ordering::SeqCst), &0);
        }
    }
    Ok(())
}

#[test]
fn want_of_memory_comes_before_a_stop(rt: HostRuntime) -> Result<(), Fail> {
    let workers = Workers::new(2).ok_or("workers")?;
    let gate = BothThenStop {
        entered: AtomicU64::new(0),
        gave_up: AtomicU64::new(0),
    };
    let work = Squares {
        jobs: 2,
        refused: 0,
    };
    let outcome = run_all(&rt, rt.alloc(), &work, workers, &gate);
    equal(&rt, &outcome.err(), &Some(RunFault::NoMemory));
    equal(&rt, &gate.entered.load(Ordering::SeqCst), &2);
    equal(&rt, &gate.gave_up.load(Ordering::SeqCst), &0);
    Ok(())
}

#[test]
fn refusals_have_numbers_and_names(rt: HostRuntime) {
    equal(&rt, &RunFault::NoMemory.number(), &1);
    equal(&rt, &RunFault::NoMemory.name(), &"NoMemory");
    equal(&rt, &RunFault::Stopped.number(), &6);
    equal(&rt, &RunFault::Stopped.name(), &"Stopped");
}
