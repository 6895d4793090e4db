//! Job numbers that threads draw from one shared board, each once, and a way to stop the board.
//!
//! `Board::start` makes a board and its seats. Each thread gets a seat and a `&` to the board. It draws jobs by
//! `claim`, and stops the board by `stop`. `finish` takes all seats back. The threads share two words of memory and
//! nothing else: each call makes at most two atomic exchanges, and none waits. crates/slh_board/README.md explains the
//! rule of the two words.
#![tactic(auto)]

mod board;
mod fault;
mod seat;
mod steps;
mod view;

pub use board::{Board, Tally};
pub use fault::BoardFault;
pub use seat::{Claim, Mark, Seat};
