//! The reasons why jobs are refused (ours).
ghost use Rattle.std.specs.Prelude.{◌≡◌};
ghost use Rattle.slh_jobs.specs.JobFault.{fault_number, fault_name};

use thiserror::Error;

/// Why a job is not done, or answers are not joined.
#[derive(Clone, Copy, PartialEq, Eq, Debug, Error)]
pub enum JobFault {
    /// The answers have another length than those of all jobs.
    #[error("the answers have another length than those of all jobs")]
    BadAnswersLength,
    /// The answers don't fit together.
    #[error("the answers don't fit together")]
    AnswersDisagree,
    /// The start does not have its tag under this key.
    #[error("the start was not made under this key, or was changed")]
    BadStart,
}

impl JobFault {
    /// The number of the refusal.
    pub fn number(&self) -> u8
        ensures { result ≡ fault_number self.now }
    {
        match self {
            JobFault::BadAnswersLength => 20,
            JobFault::AnswersDisagree => 25,
            JobFault::BadStart => 28,
        }
    }

    /// The name of the refusal.
    pub fn name(&self) -> &'static str
        ensures { result.now ≡ fault_name self.now }
    {
        match self {
            JobFault::BadAnswersLength => "BadAnswersLength",
            JobFault::AnswersDisagree => "AnswersDisagree",
            JobFault::BadStart => "BadStart",
        }
    }
}
