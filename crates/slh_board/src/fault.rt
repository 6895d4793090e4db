//! The reason why no board was made.
ghost use Rattle.std.specs.Prelude.{◌≡◌, codes};

use std::alloc::AllocError;
use thiserror::Error;

/// Why a board was not made.
#[derive(Clone, Copy, PartialEq, Eq, Debug, Drop, Error)]
pub enum BoardFault {
    /// The memory for the board or for its seats was refused.
    #[error("out of memory")]
    NoMemory,
}

impl BoardFault {
    /// The number of the refusal.
    pub fn number(&self) -> u8
        ensures { result ≡ 1 }
    {
        match self {
            BoardFault::NoMemory => 1,
        }
    }

    /// The name of the refusal.
    pub fn name(&self) -> &'static str
        ensures { result.now ≡ codes "NoMemory" }
    {
        match self {
            BoardFault::NoMemory => "NoMemory",
        }
    }
}

impl From<AllocError> for BoardFault {
    fn from(_error: AllocError) -> BoardFault {
        BoardFault::NoMemory
    }
}
