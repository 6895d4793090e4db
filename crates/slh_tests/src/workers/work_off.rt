//! Tests of one worker after another at the seats of a board, on one thread.
use super::works::Squares;
use crate::shared::{StopAt, equal};
use slh_board::{Board, Tally};
use slh_workers::{End, NoGate, work_off};
use std::process::Abort;
use std::sync::atomic::Ordering;
use std::test::Fail;

#[test]
fn the_first_worker_leaves_no_job_to_the_second(rt: HostRuntime) -> Result<(), Fail> {
    let (board, mut seats) = Board::start(rt.alloc(), 10, 2)?;
    let work = Squares::new(10);
    let first = work_off(rt.alloc(), &board, &mut seats[0], &work, 0, &NoGate);
    equal(&rt, &first.end, &End::Done);
    let wanted = (0..10u32).map(|i| (i, u64::from(i).wrapping_mul(u64::from(i))));
    assert!(rt; first.answers.iter().copied().eq(wanted));
    let second = work_off(rt.alloc(), &board, &mut seats[1], &work, 1, &NoGate);
    equal(&rt, &second.end, &End::Done);
    assert!(rt; second.answers.is_empty());
    equal(
        &rt,
        &board.finish(seats),
        &Tally {
            drawn: 10,
            stopped: false,
        },
    );
    Ok(())
}

// Job 3 ends the first worker by `end`, and the second one finds the board stopped. The gate was informed of `left`
// ends of jobs.
fn check_end_at_job_3<R: Abort + AllocGlobal>(
    rt: &R,
    work: &Squares,
    gate: &StopAt,
    end: End,
    left: u64,
) -> Result<(), Fail> {
    let (board, mut seats) = Board::start(rt.alloc(), work.jobs, 2)?;
    let first = work_off(rt.alloc(), &board, &mut seats[0], work, 0, gate);
    equal(rt, &first.end, &end);
    assert!(rt; first.answers.iter().copied().eq([(0, 0), (1, 1), (2, 4)]));
    equal(rt, &gate.entered.load(Ordering::SeqCst), &4);
    equal(rt, &gate.left.load(Ordering::SeqCst), &left);
    let second = work_off(rt.alloc(), &board, &mut seats[1], work, 1, gate);
    equal(rt, &second.end, &End::Stopped);
    assert!(rt; second.answers.is_empty());
    equal(
        rt,
        &board.finish(seats),
        &Tally {
            drawn: 4,
            stopped: true,
        },
    );
    Ok(())
}

#[test]
fn a_stop_of_the_gate_ends_both_workers(rt: HostRuntime) -> Result<(), Fail> {
    check_end_at_job_3(&rt, &Squares::new(10), &StopAt::new(3), End::GateStop, 3)
}

#[test]
fn want_of_memory_ends_both_workers(rt: HostRuntime) -> Result<(), Fail> {
    let work = Squares {
        jobs: 10,
        refused: 3,
    };
    check_end_at_job_3(&rt, &work, &StopAt::new(10), End::NoMemory, 4)
}
