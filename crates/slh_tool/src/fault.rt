//! The refusals of the program: numbers, names and the heads of their lines.
ghost use Rattle.std.specs.Prelude.{◌≡◌};
ghost use Rattle.slh_tool.specs.Faults.{head, name, number, of_file, of_vectors};
ghost use Rattle.slh_tool.specs.declared.fault.Fault.TheVariants.{NoMemory};

use slh_key_files::FileFault;
use slh_vectors::{Member, VectorFault};
use std::alloc::AllocError;
use thiserror::Error;

/// Why a run of the program is refused.
#[derive(Clone, Copy, Debug, PartialEq, Eq, Error)]
pub enum Fault {
    #[error("a growth of memory was refused")]
    NoMemory,
    #[error("the context has over 255 bytes")]
    ContextTooLong,
    #[error("the levels or cut points are invalid")]
    BadCutting,
    #[error("the file is no key file of the kind that is asked for")]
    NotAKeyFile,
    #[error("no parameter set has this name")]
    UnknownSet,
    #[error("the key has a byte that is no hexadecimal digit")]
    BadHex,
    #[error("the key has another length than its set's")]
    BadKeyLength,
    #[error("bytes follow the key")]
    TrailingBytes,
    #[error("the vector file is no JSON")]
    NotJson,
    #[error("the vector file is no list")]
    NotAList,
    #[error("a member of the vector file is missing")]
    Missing { test: u64, member: Member },
    #[error("a member of the vector file is invalid")]
    Bad { test: u64, member: Member },
    #[error("the arguments are no command of the program")]
    BadWords,
    #[error("a file or the standard input could not be read")]
    ReadFailed,
    #[error("the standard output could not be written")]
    WriteFailed,
    #[error("the standard input does not hold the seeds of a key")]
    BadSeeds,
    #[error("the value of an option is not of its form")]
    BadOption,
    #[error("the file has over 2^30 bytes")]
    FileTooLong,
    /// Reported as `Fault`. It is proved never to be reported, so the memory or the processor failed.
    #[error("two computations of one signature differ")]
    RunsDiffer,
}

impl Fault {
    /// The refusal's number.
    pub fn number(&self) -> u8
        ensures { result ≡ number self.now }
    {
        match self {
            Fault::NoMemory => 1,
            Fault::ContextTooLong => 2,
            Fault::BadCutting => 4,
            Fault::NotAKeyFile => 11,
            Fault::UnknownSet => 12,
            Fault::BadHex => 13,
            Fault::BadKeyLength => 14,
            Fault::TrailingBytes => 15,
            Fault::NotJson => 21,
            Fault::NotAList => 22,
            Fault::Missing { .. } => 23,
            Fault::Bad { .. } => 24,
            Fault::BadWords => 31,
            Fault::ReadFailed => 32,
            Fault::WriteFailed => 33,
            Fault::BadSeeds => 34,
            Fault::BadOption => 35,
            Fault::FileTooLong => 36,
            Fault::RunsDiffer => 38,
        }
    }

    /// The refusal's name.
    pub fn name(&self) -> &'static str
        ensures { result.now ≡ name self.now }
    {
        match self {
            Fault::NoMemory => "NoMemory",
            Fault::ContextTooLong => "ContextTooLong",
            Fault::BadCutting => "BadCutting",
            Fault::NotAKeyFile => "NotAKeyFile",
            Fault::UnknownSet => "UnknownSet",
            Fault::BadHex => "BadHex",
            Fault::BadKeyLength => "BadKeyLength",
            Fault::TrailingBytes => "TrailingBytes",
            Fault::NotJson => "NotJson",
            Fault::NotAList => "NotAList",
            Fault::Missing { .. } => "Missing",
            Fault::Bad { .. } => "Bad",
            Fault::BadWords => "BadWords",
            Fault::ReadFailed => "ReadFailed",
            Fault::WriteFailed => "WriteFailed",
            Fault::BadSeeds => "BadSeeds",
            Fault::BadOption => "BadOption",
            Fault::FileTooLong => "FileTooLong",
            Fault::RunsDiffer => "Fault",
        }
    }

    /// The program's name, the number and the name. It is a constant, since a refusal for lack of memory has none
    /// to write with.
    pub(crate) fn head(&self) -> &'static str
        ensures { result.now ≡ head self.now }
    {
        match self {
            Fault::NoMemory => "slh: 1 NoMemory",
            Fault::ContextTooLong => "slh: 2 ContextTooLong",
            Fault::BadCutting => "slh: 4 BadCutting",
            Fault::NotAKeyFile => "slh: 11 NotAKeyFile",
            Fault::UnknownSet => "slh: 12 UnknownSet",
            Fault::BadHex => "slh: 13 BadHex",
            Fault::BadKeyLength => "slh: 14 BadKeyLength",
            Fault::TrailingBytes => "slh: 15 TrailingBytes",
            Fault::NotJson => "slh: 21 NotJson",
            Fault::NotAList => "slh: 22 NotAList",
            Fault::Missing { .. } => "slh: 23 Missing",
            Fault::Bad { .. } => "slh: 24 Bad",
            Fault::BadWords => "slh: 31 BadWords",
            Fault::ReadFailed => "slh: 32 ReadFailed",
            Fault::WriteFailed => "slh: 33 WriteFailed",
            Fault::BadSeeds => "slh: 34 BadSeeds",
            Fault::BadOption => "slh: 35 BadOption",
            Fault::FileTooLong => "slh: 36 FileTooLong",
            Fault::RunsDiffer => "slh: 38 Fault",
        }
    }
}

impl From<AllocError> for Fault {
    ghost from_gives = { λ _ e. e ≡ NoMemory };

    fn from(_error: AllocError) -> Fault {
        Fault::NoMemory
    }
}

impl From<FileFault> for Fault {
    ghost from_gives = { λ fault e. e ≡ of_file fault };

    fn from(fault: FileFault) -> Fault {
        match fault {
            FileFault::NoMemory => Fault::NoMemory,
            FileFault::NotAKeyFile => Fault::NotAKeyFile,
            FileFault::UnknownSet => Fault::UnknownSet,
            FileFault::BadHex => Fault::BadHex,
            FileFault::BadKeyLength => Fault::BadKeyLength,
            FileFault::TrailingBytes => Fault::TrailingBytes,
        }
    }
}

impl From<VectorFault> for Fault {
    ghost from_gives = { λ fault e. e ≡ of_vectors fault };

    fn from(fault: VectorFault) -> Fault {
        match fault {
            VectorFault::NoMemory => Fault::NoMemory,
            VectorFault::NotJson => Fault::NotJson,
            VectorFault::NotAList => Fault::NotAList,
            VectorFault::Missing { test, member } => Fault::Missing { test, member },
            VectorFault::Bad { test, member } => Fault::Bad { test, member },
        }
    }
}
