//! Tests of the program's commands through `command`, and callers that show the use of its contract over files whose
//! bytes are known.
#![tactic(auto)]

pub use answer::{Answer, answer_over, words_of};
pub use folder::Folder;
pub use known::{check_known, verify_known};

mod answer;
mod folder;
mod known;
#[cfg(test)]
mod tests;
