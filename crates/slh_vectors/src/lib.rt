//! Vector files: tests of key generation, signing and verifying, their outcomes and the report on them.
#![tactic(auto)]

pub use fault::{Member, VectorFault};
pub use lines::report;
pub use outcome::{Outcome, all_passed};
pub use reading::read_vectors;
pub use running::run_test;
pub use runs::run_vectors;
pub use test::{Input, Interface, KeygenTest, Kind, Seeds, SignTest, Test, VerifyTest};

mod eight_tests;
mod fault;
mod kinds;
mod lines;
mod members;
mod names;
mod outcome;
mod reading;
mod running;
mod runs;
mod test;
