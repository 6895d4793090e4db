//! Tests of four crates, the lowest first:
//!
//! - `board`: the seats of a board of `slh_board` draw each job once and see a stop, also on threads;
//! - `workers`: the workers of `slh_workers`, on one and more threads, run, enter and leave each job once and in turn;
//! - `par`: keys, signatures and verdicts by the workers of `slh_par` are those of one thread;
//! - `jobs`: keys and signatures by the jobs of `slh_jobs`, and starts and answers that don't fit together.
//!
//! Of the first three also if memory is refused: each growth that a call asks for is refused in turn.
#![tactic(auto, using(slh_params::proofs::Bounds::bounds))]

#[cfg(test)]
mod board;
#[cfg(test)]
mod jobs;
#[cfg(test)]
mod par;
#[cfg(test)]
mod seeds;
#[cfg(test)]
mod shared;
#[cfg(test)]
mod workers;
