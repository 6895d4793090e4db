//! The tasks that are timed.

use crate::by_workers::{key_par, sign_in_each, sign_message_par, verify_many};
use crate::one_thread::{MOST_BYTES, key, sign_message, verify_message};
use crate::sharing::Sharing;
use sha2::{Digest, Sha256, Sha512};
use slh_core::SecretKey;
use std::alloc::Global;
use std::thread::Threads;

/// The work of one run.
#[derive(Clone, Copy)]
pub enum Task {
    Keygen,
    Sign,
    Verify,
    Sha256,
    Sha512,
    KeygenPar,
    SignPar,
    VerifyAll,
    Independent,
}

/// The inputs that all runs share.
#[derive(Drop)]
pub struct Setting {
    pub sk: SecretKey,
    pub sharing: Sharing,
    pub alloc: Global,
}

impl Task {
    /// The task of this name.
    pub fn from_name(name: &str) -> Option<Task> {
        match name {
            "keygen" => Some(Task::Keygen),
            "sign" => Some(Task::Sign),
            "verify" => Some(Task::Verify),
            "sha256" => Some(Task::Sha256),
            "sha512" => Some(Task::Sha512),
            "keygen_par" => Some(Task::KeygenPar),
            "sign_par" => Some(Task::SignPar),
            "verify_all" => Some(Task::VerifyAll),
            "independent" => Some(Task::Independent),
            _ => None,
        }
    }

    /// Runs once, with a signature in the first bytes of the buffer. Whether the outcome is as it should be: the same
    /// key, a signature, a valid one, a digest that is not zero.
    pub fn run<R: Threads + Sync>(
        self,
        rt: &R,
        setting: &Setting,
        buffer: &mut [u8; MOST_BYTES],
    ) -> bool {
        let Setting { sk, sharing, alloc } = setting;
        match self {
            Task::Keygen => key(sk.set()).bytes() == sk.bytes(),
            Task::Sign => sign_message(sk, buffer),
            Task::Verify => verify_message(sk, buffer),
            Task::Sha256 => Sha256::digest(&buffer[..]) != [0; 32],
            Task::Sha512 => Sha512::digest(&buffer[..]) != [0; 64],
            Task::KeygenPar => key_par(rt, *alloc, sk, *sharing),
            Task::SignPar => sign_message_par(rt, *alloc, sk, *sharing, buffer),
            Task::VerifyAll => verify_many(rt, *alloc, sk, *sharing, buffer),
            Task::Independent => sign_in_each(rt, sk, sharing.workers.number()),
        }
    }
}
