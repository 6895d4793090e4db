//! The reason why a run gave no answers.
ghost use Rattle.std.specs.Prelude.{◌≡◌};
ghost use Rattle.slh_workers.specs.declared.fault.RunFault.TheVariants.{NoMemory as NoMemoryFault};
ghost use Rattle.slh_workers.specs.RunFault.{fault_number, fault_name};

use crate::work::NoMemory;
use slh_board::BoardFault;
use thiserror::Error;

/// Why a run of all jobs gave no answers.
#[derive(Clone, Copy, PartialEq, Eq, Debug, Error)]
pub enum RunFault {
    /// A growth of memory was refused.
    #[error("a growth of memory was refused")]
    NoMemory,
    /// The gate stopped the run.
    #[error("the gate stopped the run")]
    Stopped,
}

impl RunFault {
    /// The number of the refusal.
    pub fn number(&self) -> u8
        ensures { result ≡ fault_number self.now }
    {
        match self {
            RunFault::NoMemory => 1,
            RunFault::Stopped => 6,
        }
    }

    /// The name of the refusal.
    pub fn name(&self) -> &'static str
        ensures { result.now ≡ fault_name self.now }
    {
        match self {
            RunFault::NoMemory => "NoMemory",
            RunFault::Stopped => "Stopped",
        }
    }
}

impl From<NoMemory> for RunFault {
    ghost from_gives = { λ _ fault. fault ≡ NoMemoryFault };

    fn from(_refused: NoMemory) -> RunFault {
        RunFault::NoMemory
    }
}

impl From<BoardFault> for RunFault {
    ghost from_gives = { λ _ fault. fault ≡ NoMemoryFault };

    fn from(fault: BoardFault) -> RunFault {
        match fault {
            BoardFault::NoMemory => RunFault::NoMemory,
        }
    }
}
