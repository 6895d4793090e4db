//! The knowledge of a seat, the rule of the board's table, and the effect of each step. None of it has bytes or code:
//! the proofs of the steps cite it.
use atomic_table::{Join, Play, Split, TableRule};
use std::collections::LinkedList;

// How many jobs and how many seats the board has.
#[derive(Drop)]
pub struct Plan {
    pub jobs: u32,
    pub seats: u32,
}

// The knowledge of a seat. No value of it is made.
pub struct View {
    // How many jobs and how many seats the board has.
    pub jobs: u32,
    pub board_seats: u32,
    // The number of seats that this one represents: more than one while `start` deals and while `finish` gathers.
    pub seats: u32,
    // The jobs drawn, in their order.
    pub drawn: LinkedList<u32>,
    // How many draws found no job left.
    pub done: u32,
    // Whether a look found the board stopped.
    pub stopped: bool,
    // Whether the seat stopped the board.
    pub raised: bool,
}

// The rule: the seats' lists hold the numbers below the lesser of `next` and `jobs`, each once.
pub struct DrawnOnce;

impl TableRule<u8, View, Plan> for DrawnOnce {
    ghost use Rattle.slh_board.specs.Views.{first_view};
    ghost use Rattle.slh_board.specs.Rule.{Holds};

    ghost holds = { Holds };

    ghost first = { first_view };
}

// A load of `halt`.
pub struct Look;

impl Play<u8, View> for Look {
    ghost use Rattle.slh_board.specs.Rule.{Looks};

    ghost then = { Looks };
}

// A draw from `next`.
pub struct Draw;

impl Play<u8, View> for Draw {
    ghost use Rattle.slh_board.specs.Rule.{Draws};

    ghost then = { Draws };
}

// Halt is set.
pub struct Raise;

impl Play<u8, View> for Raise {
    ghost use Rattle.slh_board.specs.Rule.{Raises};

    ghost then = { Raises };
}

// One seat more, which the first hands over.
pub struct OneSeat;

impl Split<View> for OneSeat {
    ghost use Rattle.slh_board.specs.Views.{one_less, one_seat};

    ghost left = { one_less };

    ghost right = { one_seat };
}

// A seat takes over all that another knows.
pub struct Together;

impl Join<View> for Together {
    ghost use Rattle.slh_board.specs.Views.{both, spent};

    ghost both = { both };

    ghost spent = { spent };
}
