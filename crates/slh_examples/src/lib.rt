//! Callers of the library, each proved, to copy from: crates/slh_examples/README.md shows them.
#![tactic(auto, using(slh_params::proofs::Bounds::bounds))]

mod key;
mod letter;
mod many;
mod own_threads;
mod stop;
mod stream;
mod threads;
mod twice;

pub use key::new_key;
pub use letter::{is_letter_of, sign_letter};
pub use many::{Signed, both_valid};
pub use own_threads::sign_by_own_threads;
pub use stop::StopFlag;
pub use stream::{is_valid_package, sign_package};
pub use threads::{sign_by_threads, sign_unless_stopped};
pub use twice::join_of_two_runs;

#[cfg(test)]
mod tests;
