//! The trait of work: jobs with numbers, which threads may run at the same time.
ghost use Rattle.std.specs.Prelude.{◌≡◌, ℕ, ◌<◌, IfOk};

use std::alloc::{AllocError, AllocFailed};
use thiserror::Error;

/// A growth of memory was refused.
#[derive(Clone, Copy, Debug, PartialEq, Eq, Error)]
#[error("a growth of memory was refused")]
pub struct NoMemory;

impl From<AllocError> for NoMemory {
    fn from(_error: AllocError) -> NoMemory {
        NoMemory
    }
}

impl<T: Drop> From<AllocFailed<T>> for NoMemory {
    fn from(_error: AllocFailed<T>) -> NoMemory {
        NoMemory
    }
}

/// Jobs numbered from 0, which threads may run at the same time.
pub trait Work: Sync {
    /// The answer of a job.
    type Out: Send + Drop;

    // the number of jobs
    ghost jobs: { Self → ℕ };

    // whether an answer is right for the job of that number
    ghost is_right: { Self → ℕ → Self.Out → Type 0 };

    /// The number of jobs: each number below it is a job.
    fn count(&self) -> u32
        ensures { result ≡ jobs self.now };

    /// The answer of the job `i`. Refuses `NoMemory` if a growth of memory was refused.
    fn run(&self, i: u32) -> Result<Self::Out, NoMemory>
        requires { i < jobs self.now }
        ensures { IfOk result (λ out. is_right self.now i out) };
}
