//! The reason why a parallel call gives no answer (ours).
ghost use Rattle.std.specs.Prelude.{◌≡◌};
ghost use Rattle.slh_par.specs.ParFault.{fault_number, fault_name, fault_of_run};
ghost use Rattle.slh_par.specs.declared.fault.ParFault.TheVariants.{NoMemory as NoMemoryFault};

use slh_workers::{NoMemory, RunFault};
use thiserror::Error;

/// Why a parallel call gives no answer.
#[derive(Clone, Copy, PartialEq, Eq, Debug, Error)]
pub enum ParFault {
    /// A growth of memory was refused.
    #[error("a growth of memory was refused")]
    NoMemory,
    /// The context has over 255 bytes.
    #[error("the context has over 255 bytes")]
    ContextTooLong,
    /// The gate stopped the run.
    #[error("the gate stopped the run")]
    Stopped,
}

impl ParFault {
    /// The number of the refusal.
    pub fn number(&self) -> u8
        ensures { result ≡ fault_number self.now }
    {
        match self {
            ParFault::NoMemory => 1,
            ParFault::ContextTooLong => 2,
            ParFault::Stopped => 6,
        }
    }

    /// The name of the refusal.
    pub fn name(&self) -> &'static str
        ensures { result.now ≡ fault_name self.now }
    {
        match self {
            ParFault::NoMemory => "NoMemory",
            ParFault::ContextTooLong => "ContextTooLong",
            ParFault::Stopped => "Stopped",
        }
    }
}

impl From<RunFault> for ParFault {
    ghost from_gives = { λ run fault. fault ≡ fault_of_run run };

    fn from(fault: RunFault) -> ParFault {
        match fault {
            RunFault::NoMemory => ParFault::NoMemory,
            RunFault::Stopped => ParFault::Stopped,
        }
    }
}

impl From<NoMemory> for ParFault {
    ghost from_gives = { λ _ fault. fault ≡ NoMemoryFault };

    fn from(_refused: NoMemory) -> ParFault {
        ParFault::NoMemory
    }
}
