//! The workers at all seats of a board, each in a thread of its own if the system gives one.
ghost use Rattle.std.specs.Prelude.{◌≡◌, ◌≢◌, ◌≤◌, ◌++◌, ◌∷◌, [], IfOk, IfErr, OnErr, length};
ghost use Rattle.std.specs.List.{All};
ghost use Rattle.std.specs.Thread.{IsSync, IsSend};
ghost use denote.Param.Send.{Frees};
ghost use Rattle.slh_workers.specs.Runs.{AreTogether, HasStopped, HaveWorked, IsReady};
ghost use Rattle.slh_workers.specs.declared.worker.End.TheVariants.{NoMemory as ByNoMemory};

use crate::gate::Gate;
use crate::steps::Worker;
use crate::work::{NoMemory, Work};
use crate::worker::{End, WorkerEnd, run_steps};
use slh_board::{Board, Seat};
use std::alloc::Allocator;
use std::thread::{Threads, join};

// The seats, and the answers of their workers.
pub type Ran<T, A> = (Vec<Seat, A>, Vec<(u32, T), A>);

// A `Ran`; or, if memory was refused, one of the seats, which stopped the board.
pub type Worked<T, A> = Result<Ran<T, A>, Seat>;

// The workers at these seats of the board, numbered from `first` on: a single one on this thread, and several each on a
// new thread, if the system gives one. The list of seats is halved, so that 64 seats nest 6 deep: the stack of a thread
// bounds the depth. If memory is refused, one of the seats has stopped the board.
#[cycle(run_seats)]
pub fn run_seats<R: Threads + Sync, A: Allocator + Clone + Send + Sync, W: Work, G: Gate>(
    rt: &R,
    alloc: A,
    board: &Board<A>,
    mut seats: Vec<Seat, A>,
    work: &W,
    first: u8,
    gate: &G,
) -> Worked<W::Out, A>
    requires { IsReady board.now (W.jobs work.now) first seats.items }
    ensures { HaveWorked board.now (G.may_stop gate.now) (G.reported gate.now) (W.is_right work.now)
        (W.jobs work.now) first (length seats.items) result }
{
    if seats.len() == 1 {
        let steps = Worker::new(work, gate, first);
        let WorkerEnd { answers, end } = run_steps(alloc, board, &mut seats[0], &steps);
        return ended(seats, answers, end);
    }
    let Ok((others, theirs)) = second_half(&alloc, &mut seats) else {
        return Err(stopped(board, seats));
    };
    let next = first + seats.len() as u8;
    let front = move || -> Worked<W::Out, A>
        requires { IsSync R.row × IsSync W.row × IsSync G.row × IsSync A.row × IsSend A.row × IsSend W.Out.row
            × Frees A.Allocator A.dealloc_token × IsReady board.now (W.jobs work.now) first seats.items }
        ensures { HaveWorked board.entry.now (G.may_stop gate.entry.now) (G.reported gate.entry.now)
            (W.is_right work.entry.now) (W.jobs work.entry.now) first (length seats.items) result }
    { run_elsewhere(rt, alloc, board, seats, work, first, gate) };
    let back = move || -> Worked<W::Out, A>
        requires { IsSync R.row × IsSync W.row × IsSync G.row × IsSync A.row × IsSend A.row × IsSend W.Out.row
            × Frees A.Allocator A.dealloc_token × IsReady board.now (W.jobs work.now) next others.items }
        ensures { HaveWorked board.entry.now (G.may_stop gate.entry.now) (G.reported gate.entry.now)
            (W.is_right work.entry.now) (W.jobs work.entry.now) next (length others.items) result }
    { run_seats(rt, theirs, board, others, work, next, gate) };
    let (back, front) = join(rt, back, front);
    both(board, front, back)
}

// As `run_seats`, but a single worker gets a new thread, too, if the system gives one. The system may put a thread on
// the processor of the one that started it: there it waits while that one works. So a thread that has started another
// does no work, and waits for it.
#[cycle(run_seats)]
fn run_elsewhere<R: Threads + Sync, A: Allocator + Clone + Send + Sync, W: Work, G: Gate>(
    rt: &R,
    alloc: A,
    board: &Board<A>,
    seats: Vec<Seat, A>,
    work: &W,
    first: u8,
    gate: &G,
) -> Worked<W::Out, A>
    requires { IsReady board.now (W.jobs work.now) first seats.items }
    ensures { HaveWorked board.now (G.may_stop gate.now) (G.reported gate.now) (W.is_right work.now)
        (W.jobs work.now) first (length seats.items) result }
{
    if seats.len() > 1 {
        return run_seats(rt, alloc, board, seats, work, first, gate);
    }
    let only = move || -> Worked<W::Out, A>
        requires { IsSync R.row × IsSync W.row × IsSync G.row × IsSync A.row × IsSend A.row × IsSend W.Out.row
            × Frees A.Allocator A.dealloc_token × IsReady board.now (W.jobs work.now) first seats.items }
        ensures { HaveWorked board.entry.now (G.may_stop gate.entry.now) (G.reported gate.entry.now)
            (W.is_right work.entry.now) (W.jobs work.entry.now) first (length seats.items) result }
    { run_seats(rt, alloc, board, seats, work, first, gate) };
    let (worked, ()) = join(rt, only, || ());
    worked
}

// The result of the worker at the only seat, by its end. Neither this nor `both` is compiled into the recursion over
// seats: each level would then reserve stack for an answer that it drops.
#[inline(never)]
fn ended<T: Drop, A: Allocator>(
    mut seats: Vec<Seat, A>,
    answers: Vec<(u32, T), A>,
    end: End,
) -> Worked<T, A>
    requires { length seats.items ≡ 1 }
    ensures memory { IfOk result (λ r. end ≢ ByNoMemory) }
    ensures seats { IfOk result (λ r. r.0.items ≡ seats.items) }
    ensures answers { IfOk result (λ r. r.1.items ≡ answers.items) }
    ensures refused { IfErr result (λ s. (end ≡ ByNoMemory) × (seats.items ≡ s ∷ [])) }
{
    if end == End::NoMemory {
        return Err(seats.swap_remove(0));
    }
    Ok((seats, answers))
}

// The seats and the answers of both halves.
#[inline(never)]
fn both<T: Drop, A: Allocator>(
    board: &Board<A>,
    front: Worked<T, A>,
    back: Worked<T, A>,
) -> Worked<T, A>
    requires front { IfOk front (λ f. (1 ≤ length f.0.items) × All (λ s. s.board ≡ board.now) f.0.items) }
    requires back { IfOk back (λ b. All (λ s. s.board ≡ board.now) b.0.items) }
    requires refused { IfErr front (HasStopped board.now) × IfErr back (HasStopped board.now) }
    ensures { AreTogether board.now front back result }
{
    let (mut seats, mut answers) = front?;
    let (mut more_seats, mut more_answers) = back?;
    let Ok(()) = seats.append(&mut more_seats) else {
        return Err(stopped(board, seats));
    };
    let Ok(()) = answers.append(&mut more_answers) else {
        return Err(stopped(board, seats));
    };
    Ok((seats, answers))
}

// The first of the seats, after it stopped the board.
fn stopped<A: Allocator>(board: &Board<A>, mut seats: Vec<Seat, A>) -> Seat
    requires some { 1 ≤ length seats.items }
    requires mine { All (λ s. s.board ≡ board.now) seats.items }
    ensures { HasStopped board.now result }
{
    board.stop(&mut seats[0]);
    seats.swap_remove(0)
}

// Takes the second half of the seats off, with an allocator for the thread that gets it.
fn second_half<A: Allocator + Clone>(
    alloc: &A,
    seats: &mut Vec<Seat, A>,
) -> Result<(Vec<Seat, A>, A), NoMemory>
    requires { 2 ≤ length seats.old.items }
    ensures parts { IfOk result (λ r. seats.old.items ≡ seats.new.items ++ r.0.items) }
    ensures some { IfOk result (λ r. (1 ≤ length seats.new.items) × (1 ≤ length r.0.items)) }
    ensures err { OnErr result (seats.new.items ≡ seats.old.items) }
{
    let theirs = alloc.clone()?;
    let others = seats.split_off(seats.len() / 2)?;
    Ok((others, theirs))
}
