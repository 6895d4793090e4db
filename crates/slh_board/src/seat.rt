//! A seat at a board, which one caller has, and the answer to its claim.
use crate::view::View;
use std::marker::Model;

/// The end that a seat has seen, if any.
#[derive(Clone, Copy, PartialEq, Eq, Debug, Drop)]
pub enum Mark {
    /// Nothing yet: a claim of this seat looks, and may draw.
    Fresh,
    /// That no job is left.
    Done,
    /// That the board was stopped.
    Stopped,
}

/// The answer to a claim.
#[derive(Clone, Copy, PartialEq, Eq, Debug, Drop)]
pub enum Claim {
    /// The number of a job, which no other claim answers.
    Job(u32),
    /// No job is left.
    Done,
    /// The board was stopped.
    Stopped,
}

/// One caller's place at a board. It cannot be copied, and may move to another thread. Contracts see its board, the
/// list of the numbers that it drew, its mark, and as `raised` whether it stopped the board.
#[derive(Drop)]
pub struct Seat {
    pub(crate) mark: Mark,
    pub(crate) seat: atomic_table::Seat<u8, View>,
}

impl Model for Seat {
    ghost use Rattle.slh_board.specs.Seats.{SeatState};

    ghost Value = { SeatState };

    ghost use Rattle.slh_board.specs.Kept.{seat_state, IsSeat};

    ghost view = { seat_state };

    ghost invariant = { IsSeat };
}
