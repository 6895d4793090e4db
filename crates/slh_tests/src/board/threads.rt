//! The pool of threads that the tests run: as many threads as seats, each claiming until it gets an end.
ghost use Rattle.std.specs.Prelude.{◌≡◌, ◌+◌, ◌≤◌, IfSome, vec_len};
ghost use Rattle.std.specs.List.{All};
ghost use Rattle.std.specs.Thread.{IsSync};
ghost use Rattle.slh_board.specs.Seats.{new_seat};

use slh_board::{Board, Claim, Seat};
use std::alloc::Global;
use std::thread::{Threads, join};

/// Claims until the seat is done or stopped, and stops the board at the job `last`. The jobs drawn, in their order, or
/// `None` if memory ran out.
pub fn claim_all(
    alloc: Global,
    board: &Board,
    mut seat: Seat,
    last: u32,
) -> (Seat, Option<Vec<u32>>)
    requires { seat ≡ new_seat board.now }
    ensures { result.0.board ≡ board.now }
{
    let mut numbers = Vec::new(alloc);
    let mut low = 0;
    while low <= board.jobs() {
        match board.claim(&mut seat) {
            Claim::Job(number) => {
                if numbers.push(number).is_err() {
                    return (seat, None);
                }
                if number == last {
                    board.stop(&mut seat);
                }
                low = number + 1;
            }
            Claim::Done | Claim::Stopped => return (seat, Some(numbers)),
        }
    }
    unreachable!()
}

/// The seats and the jobs drawn, after each seat has claimed on a separate thread.
pub fn run<R: Threads + Sync>(
    rt: &R,
    alloc: Global,
    board: &Board,
    mut seats: Vec<Seat>,
    last: u32,
) -> Option<(Vec<Seat>, Vec<u32>)>
    requires ready { All (λ s. s ≡ new_seat board.now) seats.items }
    requires some { 1 ≤ vec_len seats }
    ensures count { IfSome result (λ r. vec_len r.0 ≡ vec_len seats) }
    ensures mine { IfSome result (λ r. All (λ s. s.board ≡ board.now) r.0.items) }
{
    if seats.len() == 1 {
        return run_one(alloc, board, seats, last);
    }
    let half = seats.len() / 2;
    let others = seats.split_off(half).ok()?;
    let (one, other) = join(
        rt,
        move || -> Option<(Vec<Seat>, Vec<u32>)>
            requires { IsSync R.row × All (λ s. s ≡ new_seat board.now) seats.items × (1 ≤ vec_len seats) }
            ensures count { IfSome result (λ r. vec_len r.0 ≡ vec_len seats) }
            ensures mine { IfSome result (λ r. All (λ s. s.board ≡ board.entry.now) r.0.items) }
        { run(rt, alloc, board, seats, last) },
        move || -> Option<(Vec<Seat>, Vec<u32>)>
            requires { IsSync R.row × All (λ s. s ≡ new_seat board.now) others.items × (1 ≤ vec_len others) }
            ensures count { IfSome result (λ r. vec_len r.0 ≡ vec_len others) }
            ensures mine { IfSome result (λ r. All (λ s. s.board ≡ board.entry.now) r.0.items) }
        { run(rt, alloc, board, others, last) },
    );
    put_together(board, one?, other?)
}

// One seat, on this thread.
fn run_one(
    alloc: Global,
    board: &Board,
    mut seats: Vec<Seat>,
    last: u32,
) -> Option<(Vec<Seat>, Vec<u32>)>
    requires ready { All (λ s. s ≡ new_seat board.now) seats.items }
    requires one { vec_len seats ≡ 1 }
    ensures count { IfSome result (λ r. vec_len r.0 ≡ 1) }
    ensures mine { IfSome result (λ r. All (λ s. s.board ≡ board.now) r.0.items) }
{
    let Some(seat) = seats.pop() else {
        unreachable!()
    };
    let (seat, numbers) = claim_all(alloc, board, seat, last);
    seats.push_reserved(seat);
    Some((seats, numbers?))
}

// The seats and the jobs of both.
fn put_together(
    board: &Board,
    one: (Vec<Seat>, Vec<u32>),
    other: (Vec<Seat>, Vec<u32>),
) -> Option<(Vec<Seat>, Vec<u32>)>
    requires mine { All (λ s. s.board ≡ board.now) one.0.items × All (λ s. s.board ≡ board.now) other.0.items }
    ensures count { IfSome result (λ r. vec_len r.0 ≡ vec_len one.0 + vec_len other.0) }
    ensures mine { IfSome result (λ r. All (λ s. s.board ≡ board.now) r.0.items) }
{
    let (mut seats, mut numbers) = one;
    let (mut more_seats, mut more_numbers) = other;
    seats.append(&mut more_seats).ok()?;
    numbers.append(&mut more_numbers).ok()?;
    Some((seats, numbers))
}
