//! Tests of the board, with the pool of threads that they run.
mod tests;
mod threads;
