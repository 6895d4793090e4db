//! The refusals of this crate (ours).
ghost use Rattle.std.specs.Prelude.{◌≡◌, codes};

use thiserror::Error;

/// Why bytes are not a key.
#[derive(Debug, Drop, Error)]
pub enum KeyFault {
    /// They are more or fewer than a key of the set has.
    #[error("a key of this parameter set has another length")]
    BadLength,
}

impl KeyFault {
    /// The refusal's number.
    pub fn number(&self) -> u8
        ensures { result ≡ 3 }
    {
        match self {
            KeyFault::BadLength => 3,
        }
    }

    /// The refusal's name.
    pub fn name(&self) -> &'static str
        ensures { result.now ≡ codes "BadLength" }
    {
        match self {
            KeyFault::BadLength => "BadLength",
        }
    }
}

/// Why a message is not signed.
#[derive(Debug, Drop, Error)]
pub enum SignFault {
    /// The context has over 255 bytes.
    #[error("the context has over 255 bytes")]
    ContextTooLong,
}

impl SignFault {
    /// The refusal's number.
    pub fn number(&self) -> u8
        ensures { result ≡ 2 }
    {
        match self {
            SignFault::ContextTooLong => 2,
        }
    }

    /// The refusal's name.
    pub fn name(&self) -> &'static str
        ensures { result.now ≡ codes "ContextTooLong" }
    {
        match self {
            SignFault::ContextTooLong => "ContextTooLong",
        }
    }
}

/// Why key generation failed.
#[derive(Debug, Drop, Error)]
pub enum KeygenFault {
    /// A draw of random bytes failed.
    #[error("the source of random bytes failed")]
    RandomFailed,
}

impl KeygenFault {
    /// The refusal's number.
    pub fn number(&self) -> u8
        ensures { result ≡ 7 }
    {
        match self {
            KeygenFault::RandomFailed => 7,
        }
    }

    /// The refusal's name.
    pub fn name(&self) -> &'static str
        ensures { result.now ≡ codes "RandomFailed" }
    {
        match self {
            KeygenFault::RandomFailed => "RandomFailed",
        }
    }
}
