//! Tests of runs with the 1st growth refused, then the 2nd, and so on until a call meets no refusal.
use super::works::{AfterRefusal, Lists, Recorded, Squares};
use crate::shared::{MANY, check_count, equal};
use refusing_allocator::Refusing;
use slh_board::Board;
use slh_workers::{End, NoGate, RunFault, Work, Workers, run_all, work_off};
use std::alloc::Global;
use std::process::Abort;
use std::sync::atomic::Ordering;
use std::test::Fail;
use std::thread::Threads;

// The answers of that many workers if each growth is granted. If growth `nth` was refused, they report that, and the
// result is `None`.
fn run_if_granted<R: Abort + AllocGlobal + Threads + Sync, W: Work>(
    rt: &R,
    alloc: &Refusing<Global>,
    work: &W,
    number: u8,
    nth: u64,
) -> Result<Option<Vec<W::Out, Refusing<Global>>>, Fail> {
    let workers = Workers::new(number).ok_or("workers")?;
    let outcome = run_all(rt, alloc.clone()?, work, workers, &NoGate);
    if !alloc.has_refused() {
        return Ok(Some(outcome?));
    }
    assert_eq!(rt;
        outcome.err(),
        Some(RunFault::NoMemory),
        "growth {nth}, {number} workers"
    );
    Ok(None)
}

#[test]
fn run_all_refuses_at_each_growth(rt: HostRuntime) -> Result<(), Fail> {
    for number in [1u8, 2, 3] {
        let mut refusals = 0u64;
        for nth in 1..MANY {
            let alloc = Refusing::new(rt.alloc(), rt.alloc(), nth)?;
            if let Some(squares) = run_if_granted(&rt, &alloc, &Squares::new(10), number, nth)? {
                let wanted = (0..10u64).map(|i| i.wrapping_mul(i));
                assert!(rt; squares.iter().copied().eq(wanted));
                break;
            }
            refusals = nth;
        }
        check_count(&rt, 4, refusals, number);
    }
    Ok(())
}

#[test]
fn run_all_refuses_at_each_growth_of_its_jobs(rt: HostRuntime) -> Result<(), Fail> {
    for number in [1u8, 3] {
        let mut refusals = 0u64;
        for nth in 1..MANY {
            let alloc = Refusing::new(rt.alloc(), rt.alloc(), nth)?;
            let work = Lists {
                alloc: alloc.clone()?,
            };
            if let Some(lists) = run_if_granted(&rt, &alloc, &work, number, nth)? {
                assert!(rt; lists.iter().map(|list| list.len()).eq(1..6));
                break;
            }
            refusals = nth;
        }
        check_count(&rt, 9, refusals, number);
    }
    Ok(())
}

#[test]
fn work_off_stops_the_board_at_each_growth(rt: HostRuntime) -> Result<(), Fail> {
    let mut refusals = 0u64;
    for nth in 1..MANY {
        let alloc = Refusing::new(rt.alloc(), rt.alloc(), nth)?;
        let (board, mut seats) = Board::start(rt.alloc(), 10, 1)?;
        let work = Squares::new(10);
        let worked = work_off(alloc.clone()?, &board, &mut seats[0], &work, 0, &NoGate);
        let tally = board.finish(seats);
        if !alloc.has_refused() {
            equal(&rt, &worked.end, &End::Done);
            equal(&rt, &worked.answers.len(), &10);
            assert!(rt; !tally.stopped);
            break;
        }
        assert_eq!(rt; worked.end, End::NoMemory, "growth {nth}");
        assert!(rt; tally.stopped);
        refusals = nth;
    }
    check_count(&rt, 1, refusals, 1);
    Ok(())
}

#[test]
fn room_for_an_answer_is_made_before_its_job_is_entered(rt: HostRuntime) -> Result<(), Fail> {
    let mut refusals = 0u64;
    for nth in 1..MANY {
        let alloc = Refusing::new(rt.alloc(), rt.alloc(), nth)?;
        let (board, mut seats) = Board::start(rt.alloc(), 10, 1)?;
        let recorded = Recorded::new(None, None);
        let worked = work_off(
            alloc.clone()?,
            &board,
            &mut seats[0],
            &recorded,
            0,
            &recorded,
        );
        let answered = worked.answers.len();
        equal(
            &rt,
            &(recorded.entered.load(Ordering::SeqCst).count_ones() as usize),
            &answered,
        );
        equal(
            &rt,
            &(recorded.ran.load(Ordering::SeqCst).count_ones() as usize),
            &answered,
        );
        if !alloc.has_refused() {
            break;
        }
        refusals = nth;
    }
    check_count(&rt, 1, refusals, 1);
    Ok(())
}

// Growths up to the first answer of three workers. Each is refused before a job has run, so that no worker runs all of
// the jobs that are left.
#[test]
fn a_refusal_before_the_first_answer_stops_all_workers(rt: HostRuntime) -> Result<(), Fail> {
    let mut refusals = 0u64;
    for nth in 1..MANY {
        let alloc = Refusing::new(rt.alloc(), rt.alloc(), nth)?;
        let work = AfterRefusal::new(alloc.clone()?);
        let workers = Workers::new(3).ok_or("workers")?;
        let outcome = run_all(&rt, alloc.clone()?, &work, workers, &NoGate);
        if work.gave_up.load(Ordering::SeqCst) > 0 {
            break;
        }
        assert_eq!(rt; outcome.err(), Some(RunFault::NoMemory), "growth {nth}");
        let ran = work.ran.load(Ordering::SeqCst);
        assert!(rt;
            ran < u64::from(work.count()),
            "growth {nth}: {ran} jobs ran"
        );
        refusals = nth;
    }
    check_count(&rt, 6, refusals, 3);
    Ok(())
}
