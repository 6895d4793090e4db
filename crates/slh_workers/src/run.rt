//! All jobs of a work, run by several workers.
ghost use Rattle.std.specs.Prelude.{◌≡◌, ◌↔◌, ℕ, ◌<◌, Err, IfOk, IfErr};
ghost use Rattle.std.specs.Vec.{vec_len};
ghost use Rattle.slh_workers.specs.declared.fault.RunFault.TheVariants.{NoMemory as NoMemoryFault, Stopped};
ghost use Rattle.slh_workers.specs.Answers.{RightByPlace};
ghost use Rattle.slh_workers.specs.Runs.{HaveAnswered, HaveEnded, HaveStopped, IsReported, WereRefused};

use crate::fault::RunFault;
use crate::gate::Gate;
use crate::order::by_number;
use crate::seats::{Worked, run_seats};
use crate::work::{NoMemory, Work};
use crate::workers::Workers;
use slh_board::Board;
use std::alloc::Allocator;
use std::thread::Threads;

/// The answers of all jobs, in the order of their numbers. The workers share one board: each has a seat of it and works
/// as `work_off` does. One worker works on this thread. If there are several, each gets a new thread, or if the system
/// gives none, a thread that another worker has left. This thread waits for them. Refuses `NoMemory` if a growth of
/// memory was refused, and else `Stopped` if the gate stopped the run. Waits only for the threads that it started.
pub fn run_all<R: Threads + Sync, A: Allocator + Clone + Send + Sync, W: Work, G: Gate>(
    rt: &R,
    alloc: A,
    work: &W,
    workers: Workers,
    gate: &G,
) -> Result<Vec<W::Out, A>, RunFault>
    ensures count { IfOk result (λ outs. vec_len outs ≡ W.jobs work.now) }
    ensures right { IfOk result (λ outs. RightByPlace (W.is_right work.now) outs.items) }
    ensures reported { IfOk result (λ outs. (job : ℕ) → job < W.jobs work.now
        → IsReported (G.reported gate.now) 0 workers job) }
    ensures stopped { IfErr result (λ fault. fault ≡ Stopped → G.may_stop gate.now) }
{
    let places = alloc.clone().map_err(NoMemory::from)?;
    let boards = alloc.clone().map_err(NoMemory::from)?;
    let (board, seats) = Board::start(boards, work.count(), workers.number())?;
    let worked = run_seats(rt, alloc, &board, seats, work, 0, gate);
    outcome(places, board, worked)
}

// The answers in the order of their numbers, or why there are none. It has no gate to ask, so it goes by the ends of
// the workers: `NoMemory` if memory was refused to one of them, and else `Stopped` if one of them stopped the board.
fn outcome<T: Drop, A: Allocator + Clone>(
    places: A,
    board: Board<A>,
    worked: Worked<T, A>,
) -> Result<Vec<T, A>, RunFault>
    requires { HaveEnded board worked }
    ensures no_memory { WereRefused worked → result ≡ Err NoMemoryFault }
    ensures stopped { (result ≡ Err Stopped) ↔ HaveStopped worked }
    ensures answered { IfOk result (λ outs. HaveAnswered board.jobs outs.items worked) }
{
    let (seats, answers) = match worked {
        Ok(ran) => ran,
        Err(_seat) => return Err(RunFault::NoMemory),
    };
    let count = board.jobs();
    if board.finish(seats).stopped {
        return Err(RunFault::Stopped);
    }
    Ok(by_number(places, count, answers)?)
}
