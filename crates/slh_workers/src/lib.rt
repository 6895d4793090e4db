//! Numbered jobs, run by several threads that share a board.
//!
//! A `Work` has jobs numbered from 0, and says which answers of each are right. `run_all` runs all of them on 1 to 64
//! workers and gives the answers by number. `work_off` is the work of one worker: it draws jobs from a
//! `slh_board::Board` and runs them. A caller may call it in threads of the caller. A worker asks a `Gate` before each
//! job and informs it afterwards. A gate may stop the run. `answer_all` asks one question about each item of a list,
//! and `by_number` puts numbered answers in order. No call waits for anything but the threads that it started.
#![tactic(auto)]

mod batches;
mod fault;
mod gate;
mod items;
mod order;
mod run;
mod seats;
mod steps;
mod work;
mod worker;
mod workers;

pub use batches::{BATCH, BatchQuestion, answer_batches, push_batches};
pub use fault::RunFault;
pub use gate::{Gate, Go, NoGate};
pub use items::{Question, answer_all};
pub use order::by_number;
pub use run::run_all;
pub use work::{NoMemory, Work};
pub use worker::{End, WorkerEnd, work_off};
pub use workers::Workers;
