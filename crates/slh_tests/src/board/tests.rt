//! Tests of the board: draws, stops, and each growth of `start` refused.
use super::threads::run;
use crate::shared::equal;
use linked_list_allocator::LocalHeap;
use slh_board::{Board, BoardFault, Claim, Seat, Tally};
use std::alloc::AllocError;
use std::test::Fail;

#[test]
fn seats_share_the_jobs_in_their_order(rt: HostRuntime) -> Result<(), Fail> {
    let (board, mut seats) = Board::start(rt.alloc(), 3, 2)?;
    let mut b = seats.pop().ok_or("a seat")?;
    let mut a = seats.pop().ok_or("a seat")?;
    equal(&rt, &board.claim(&mut a), &Claim::Job(0));
    equal(&rt, &board.claim(&mut b), &Claim::Job(1));
    equal(&rt, &board.claim(&mut a), &Claim::Job(2));
    equal(&rt, &board.claim(&mut b), &Claim::Done);
    equal(&rt, &board.claim(&mut b), &Claim::Done);
    equal(&rt, &board.claim(&mut a), &Claim::Done);
    seats.push_reserved(a);
    seats.push_reserved(b);
    equal(
        &rt,
        &board.finish(seats),
        &Tally {
            drawn: 3,
            stopped: false,
        },
    );
    Ok(())
}

#[test]
fn no_jobs_are_done_at_once(rt: HostRuntime) -> Result<(), Fail> {
    let (board, mut seats) = Board::start(rt.alloc(), 0, 1)?;
    let mut seat = seats.pop().ok_or("a seat")?;
    equal(&rt, &board.claim(&mut seat), &Claim::Done);
    seats.push_reserved(seat);
    equal(
        &rt,
        &board.finish(seats),
        &Tally {
            drawn: 0,
            stopped: false,
        },
    );
    Ok(())
}

#[test]
fn every_seat_sees_a_stop(rt: HostRuntime) -> Result<(), Fail> {
    let (board, mut seats) = Board::start(rt.alloc(), 5, 2)?;
    let mut b = seats.pop().ok_or("a seat")?;
    let mut a = seats.pop().ok_or("a seat")?;
    equal(&rt, &board.claim(&mut a), &Claim::Job(0));
    board.stop(&mut b);
    equal(&rt, &board.claim(&mut a), &Claim::Stopped);
    equal(&rt, &board.claim(&mut a), &Claim::Stopped);
    equal(&rt, &board.claim(&mut b), &Claim::Stopped);
    seats.push_reserved(a);
    seats.push_reserved(b);
    equal(
        &rt,
        &board.finish(seats),
        &Tally {
            drawn: 1,
            stopped: true,
        },
    );
    Ok(())
}

#[test]
fn threads_draw_each_job_once(rt: HostRuntime) -> Result<(), Fail> {
    for workers in [2u8, 3, 64] {
        let (board, seats) = Board::start(rt.alloc(), 1000, workers)?;
        let (seats, mut numbers) = run(&rt, rt.alloc(), &board, seats, u32::MAX).ok_or("memory")?;
        assert_eq!(rt;
            board.finish(seats),
            Tally {
                drawn: 1000,
                stopped: false
            },
            "{workers} seats"
        );
        numbers.sort()?;
        assert!(rt; numbers.iter().copied().eq(0..1000), "{workers} seats");
    }
    Ok(())
}

#[test]
fn threads_end_at_a_stop(rt: HostRuntime) -> Result<(), Fail> {
    for workers in [2u8, 3, 64] {
        let (board, seats) = Board::start(rt.alloc(), 1000, workers)?;
        let (seats, mut numbers) = run(&rt, rt.alloc(), &board, seats, 500).ok_or("memory")?;
        let tally = board.finish(seats);
        assert!(rt; tally.stopped && tally.drawn > 500, "{workers} seats");
        numbers.sort()?;
        assert!(rt;
            numbers.iter().copied().eq(0..tally.drawn),
            "{workers} seats"
        );
    }
    Ok(())
}

#[test]
fn each_growth_of_start_is_refused(rt: HostRuntime) -> Result<(), Fail> {
    let (mut seats_refused, mut words_refused) = (false, false);
    for budget in (0..1024).step_by(16) {
        let heap = LocalHeap::new(rt.alloc(), budget)?;
        match Board::start(&heap, 1000, 64) {
            Ok((board, seats)) => {
                assert!(rt; seats_refused && words_refused);
                equal(
                    &rt,
                    &board.finish(seats),
                    &Tally {
                        drawn: 0,
                        stopped: false,
                    },
                );
                return Ok(());
            }
            Err(fault) => equal(&rt, &fault, &BoardFault::NoMemory),
        }
        equal(&rt, &heap.used(), &0);
        let seats: Result<Vec<Seat, &LocalHeap>, AllocError> = Vec::with_capacity(&heap, 64);
        if seats.is_err() {
            assert!(rt; !words_refused);
            seats_refused = true;
        } else {
            words_refused = true;
        }
    }
    Err(Fail::from("no budget was enough"))
}

#[test]
fn the_refusal_has_a_number_and_a_name(rt: HostRuntime) {
    equal(&rt, &BoardFault::NoMemory.number(), &1);
    equal(&rt, &BoardFault::NoMemory.name(), &"NoMemory");
}
