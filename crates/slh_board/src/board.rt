//! The board: its table, and the calls on it.
ghost use Rattle.std.specs.Prelude.{◌≡◌, ℕ, ◌+◌, ◌<◌, ◌≤◌, ◌++◌, [], ◌∷◌, IsTrue, ◌↔◌, replicate, IfOk};
ghost use Rattle.std.specs.List.{All, Any, sum_by};
ghost use Rattle.std.specs.Vec.{vec_len};
ghost use Rattle.slh_board.specs.Seats.{new_seat};
ghost use Rattle.slh_board.specs.Counts.{times, once_below};
ghost use Rattle.slh_board.specs.Claims.{IfJob};
ghost use Rattle.slh_board.specs.History.{OneHistory};

use crate::fault::BoardFault;
use crate::seat::{Claim, Mark, Seat};
use crate::steps::{HALT, NEXT, draw, is_halted, join, raise, split};
use crate::view::{DrawnOnce, Plan, View};
use atomic_table::Table;
use std::alloc::{Allocator, Global};
use std::marker::Model;

/// The outcome of a board.
#[derive(Clone, Copy, PartialEq, Eq, Debug, Drop)]
pub struct Tally {
    /// How many jobs were drawn: they are the numbers below it.
    pub drawn: u32,
    /// Whether a seat stopped the board.
    pub stopped: bool,
}

/// Job numbers that the holders of its seats draw, each once, from several threads over one shared board. Contracts see
/// which board it is, its number of jobs and its number of seats.
#[derive(Drop)]
pub struct Board<A: Allocator = Global> {
    table: Table<u8, View, Plan, DrawnOnce, A>,
    jobs: u32,
}

impl<A: Allocator> Model for Board<A> {
    ghost use Rattle.slh_board.specs.Seats.{BoardState};

    ghost Value = { BoardState };

    ghost use Rattle.slh_board.specs.Kept.{IsBoard, board_state};

    ghost view = { λ b. board_state b.table.shared.table_id b.table.shared.key };

    ghost invariant = { λ b. IsBoard b.table.shared.table_id b.table.shared.key b.jobs };
}

impl<A: Allocator> Board<A> {
    /// A board whose jobs are the numbers below `jobs`, and its 1 to 64 seats, each with no numbers, fresh and not
    /// raised. Refuses `NoMemory` if the memory for the seats or for the board was refused, and nothing else.
    pub fn start(alloc: A, jobs: u32, seats: u8) -> Result<(Board<A>, Vec<Seat, A>), BoardFault>
    where
        A: Clone,
        requires { (1 ≤ seats) × (seats ≤ 64) }
        ensures board { IfOk result (λ r. (r.0.jobs ≡ jobs) × (r.0.seats ≡ seats)) }
        ensures seats { IfOk result (λ r. r.1.items ≡ replicate seats (new_seat r.0)) }
    {
        let mut fresh = Vec::with_capacity(alloc.clone()?, usize::from(seats))?;
        let plan = Plan {
            jobs,
            seats: u32::from(seats),
        };
        let (table, mut first) = Table::of_words(alloc, &[0, 0], &plan)?;
        'deal: for _ in 0..seats - 1 {
            let seat = split(&table.shared, &mut first);
            fresh.push_reserved(Seat {
                mark: Mark::Fresh,
                seat,
            });
        }
        fresh.push_reserved(Seat {
            mark: Mark::Fresh,
            seat: first,
        });
        Ok((Board { table, jobs }, fresh))
    }

    /// The number of jobs: each number below it is a job.
    pub fn jobs(&self) -> u32
        ensures { result ≡ self.now.jobs }
    {
        self.jobs
    }

    /// Draws the next job. A seat that got `Done` or `Stopped` once gets it again, with no further step. Any other seat
    /// first looks whether the board is stopped, and draws only where it is not. Takes no memory and waits for nobody.
    #[tactic(auto, using(crate::proofs::Rising::rising_push))]
    pub fn claim(&self, seat: &mut Seat) -> Claim
        requires { seat.old.board ≡ self.now }
        ensures kept { (seat.new.board ≡ seat.old.board) × (seat.new.raised ≡ seat.old.raised) }

        ensures below { IfJob result (λ x. x < self.now.jobs) }
        ensures rises { IfJob result (λ x. All (λ y. y < x) seat.old.drawn) }
        ensures listed { IfJob result (λ x. seat.new.drawn ≡ seat.old.drawn ++ x ∷ []) }
        ensures still_fresh { IfJob result (λ _. seat.new.mark ≡ Mark.Fresh) }

        ensures done { result ≡ Claim.Done → (seat.new.drawn ≡ seat.old.drawn) × (seat.new.mark ≡ Mark.Done) }
        ensures stopped { result ≡ Claim.Stopped → (seat.new.drawn ≡ seat.old.drawn) × (seat.new.mark ≡ Mark.Stopped) }
        ensures again_done { seat.old.mark ≡ Mark.Done → result ≡ Claim.Done }
        ensures again_stopped { seat.old.mark ≡ Mark.Stopped → result ≡ Claim.Stopped }
        ensures raised { seat.old.mark ≡ Mark.Fresh → IsTrue seat.old.raised → result ≡ Claim.Stopped }
    {
        match seat.mark {
            Mark::Done => return Claim::Done,
            Mark::Stopped => return Claim::Stopped,
            Mark::Fresh => {}
        }
        if is_halted(&self.table.shared, &mut seat.seat) {
            seat.mark = Mark::Stopped;
            return Claim::Stopped;
        }
        match draw(&self.table.shared, &mut seat.seat, self.jobs) {
            Some(number) => Claim::Job(number),
            None => {
                seat.mark = Mark::Done;
                Claim::Done
            }
        }
    }

    /// Stops the board: a fresh seat that looks from now on is answered `Stopped`. Takes no memory and waits for
    /// nobody.
    pub fn stop(&self, seat: &mut Seat)
        requires { seat.old.board ≡ self.now }
        ensures kept { (seat.new.board ≡ seat.old.board) × (seat.new.drawn ≡ seat.old.drawn)
            × (seat.new.mark ≡ seat.old.mark) }
        ensures raised { IsTrue seat.new.raised }
    {
        raise(&self.table.shared, &mut seat.seat);
    }

    /// Ends the board, once all its seats have come back: how many jobs were drawn, and whether a seat stopped the
    /// board. Takes no memory and waits for nobody.
    pub fn finish(self, mut seats: Vec<Seat, A>) -> Tally
        requires mine { All (λ s. s.board ≡ self) seats.items }
        requires all { vec_len seats ≡ self.seats }

        // The seats' lists together hold the numbers below `drawn`, each once, and nothing else.
        ensures each_once { (x : ℕ) → sum_by (λ s. times x s.drawn) seats.items ≡ once_below x result.drawn }
        ensures within { result.drawn ≤ self.jobs }
        ensures done { Any (λ s. s.mark ≡ Mark.Done) seats.items → result.drawn ≡ self.jobs }
        ensures stopped { IsTrue result.stopped ↔ Any (λ s. IsTrue s.raised) seats.items }
        ensures seen { Any (λ s. s.mark ≡ Mark.Stopped) seats.items → IsTrue result.stopped }
        ensures history { OneHistory self.jobs seats.items }
    {
        let Board { table, jobs } = self;
        let Some(first) = seats.pop() else {
            unreachable!()
        };
        let Seat {
            mark: _,
            seat: mut whole,
        } = first;
        while let Some(seat) = seats.pop() {
            let Seat {
                mark: _,
                seat: other,
            } = seat;
            join(&table.shared, &mut whole, other);
        }
        let closed = table.close_with(whole);
        let next = closed.word(NEXT);
        let halt = closed.word(HALT);
        closed.free();
        let drawn = next.min(u64::from(jobs));
        Tally {
            drawn: drawn as u32,
            stopped: halt != 0,
        }
    }
}
