//! One worker at a seat of a board.
ghost use Rattle.std.specs.Prelude.{◌≡◌};
ghost use Rattle.std.specs.List.{All};
ghost use Rattle.slh_workers.specs.Answers.{AllRight, numbers};
ghost use Rattle.slh_workers.specs.Ends.{IsFresh, EndFits, IsAnswered, IsTold, HasWorked, may_hide, may_lack};

use crate::gate::{Gate, Go};
use crate::steps::{Steps, Worker};
use crate::work::Work;
use slh_board::{Board, Claim, Seat};
use std::alloc::Allocator;

/// The cause that ended a worker.
#[derive(Clone, Copy, PartialEq, Eq, Debug, Drop)]
pub enum End {
    /// No job was left.
    Done,
    /// Another seat stopped the board.
    Stopped,
    /// The gate answered Stop to this worker, which stopped the board.
    GateStop,
    /// This worker was refused memory, and stopped the board.
    NoMemory,
}

/// The answers of a worker by the numbers of their jobs, in the order in which it ran them, and the cause of its end.
#[derive(Drop)]
pub struct WorkerEnd<T, A: Allocator> {
    /// The numbers, with their answers.
    pub answers: Vec<(u32, T), A>,
    /// The cause that ended the worker.
    pub end: End,
}

/// The work of one worker: it draws jobs by its seat and runs each, until no job is left or the board is stopped. It
/// asks the gate before each job and informs it afterwards, also of a job whose run was refused memory. If the gate
/// answers Stop, or a growth of memory is refused, it stops the board and ends. After Stop it does not call `run` and
/// `leave` of that job. The seat is one of the board's, fresh and not raised, and the board has as many jobs as the
/// work. Waits for nobody.
pub fn work_off<A: Allocator, B: Allocator, W: Work, G: Gate>(
    alloc: A,
    board: &Board<B>,
    seat: &mut Seat,
    work: &W,
    worker: u8,
    gate: &G,
) -> WorkerEnd<W::Out, A>
    requires mine { seat.old.board ≡ board.now }
    requires fresh { IsFresh seat.old }
    requires jobs { board.now.jobs ≡ W.jobs work.now }
    ensures mine { seat.new.board ≡ board.now }

    // The numbers of the answers are those that the seat drew in this call, in their order, and each answer is right
    // for its number. The last number may lack its answer only if this worker stopped the board.
    ensures numbers { IsAnswered (may_lack result.end) seat.old.drawn seat.new.drawn (numbers result.answers.items) }
    ensures right { AllRight (W.is_right work.now) (W.jobs work.now) result.answers.items }

    // Each job that is answered was reported to the gate under the worker's number, so the gate had admitted it.
    ensures reported { All (G.reported gate.now worker) (numbers result.answers.items) }

    // Each number that the seat drew in this call was so reported, answered or not. Only the last one may not be, if
    // the gate answered Stop.
    ensures told { IsTold (G.reported gate.now worker) (may_hide result.end) seat.old.drawn seat.new.drawn }

    ensures ended { EndFits (G.may_stop gate.now) result.end seat.new }
{
    run_steps(alloc, board, seat, &Worker::new(work, gate, worker))
}

// `work_off` over the steps, so that no other order of them can be proved. It is not compiled into the recursion over
// seats, which would else hold the locals of a job at each level.
#[inline(never)]
pub fn run_steps<A: Allocator, B: Allocator, S: Steps>(
    alloc: A,
    board: &Board<B>,
    seat: &mut Seat,
    steps: &S,
) -> WorkerEnd<S::Out, A>
    requires mine { seat.old.board ≡ board.now }
    requires fresh { IsFresh seat.old }
    requires jobs { board.now.jobs ≡ S.jobs steps.now }
    ensures { HasWorked board.now (S.may_stop steps.now) (S.reported steps.now) (S.is_right steps.now)
        (S.jobs steps.now) seat.old seat.new result.end result.answers.items }
{
    let mut answers = Vec::new(alloc);
    let end = loop {
        // Room for an answer is made before its job is drawn. So none is drawn that has no room for its answer.
        if answers.reserve(1).is_err() {
            board.stop(seat);
            break End::NoMemory;
        }
        let number = match board.claim(seat) {
            Claim::Job(number) => number,
            Claim::Done => break End::Done,
            Claim::Stopped => break End::Stopped,
        };
        if steps.enter(number) == Go::Stop {
            board.stop(seat);
            break End::GateStop;
        }
        let outcome = steps.run(number);
        steps.leave(number);
        let Ok(answer) = outcome else {
            board.stop(seat);
            break End::NoMemory;
        };
        answers.push_reserved((number, answer));
    };
    WorkerEnd { answers, end }
}
