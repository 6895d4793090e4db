//! The tasks of one thread.

ghost use Rattle.std.specs.Prelude.{◌≡◌, ◌≤◌, IfSome};
ghost use Rattle.slh_params.specs.Params.{sig_len};
ghost use Rattle.slh_params.specs.ParamSet.{params};

use slh_core::{Randomizer, SecretKey, keygen_internal, sign, verify};
use slh_params::ParamSet;

/// No set of the standard has longer signatures. So many bytes are hashed in one run.
pub const MOST_BYTES: usize = 65536;

/// The message that is signed.
pub const MESSAGE: &[u8] = b"abc";

/// The length of a signature, if a buffer has room for it.
pub fn sig_len(set: ParamSet) -> Option<usize>
    ensures value { IfSome result (λ length. length ≡ sig_len (params set)) }
    ensures fits { IfSome result (λ length. length ≤ MOST_BYTES) }
{
    let length = set.sig_len();
    if length <= MOST_BYTES {
        Some(length)
    } else {
        None
    }
}

/// The seeds 00, 01, 02, .., of which a set takes the first 3n bytes.
pub fn seeds() -> [u8; 96] {
    let mut seeds = [0; 96];
    for i in 0..96 {
        seeds[i] = i as u8;
    }
    seeds
}

/// The key of these seeds.
pub fn key(set: ParamSet) -> SecretKey {
    let seeds = seeds();
    let n = set.n();
    keygen_internal(set, &seeds[..n], &seeds[n..2 * n], &seeds[2 * n..3 * n])
}

/// Signs the message into the first bytes of the buffer; its context is not too long.
pub fn sign_message(sk: &SecretKey, buffer: &mut [u8; MOST_BYTES]) -> bool {
    let Some(length) = sig_len(sk.set()) else {
        return false;
    };
    let out = &mut buffer[..length];
    sign(MESSAGE, b"", sk, Randomizer::Deterministic, out).is_ok()
}

/// Whether the first bytes of the buffer are a signature of the message.
pub fn verify_message(sk: &SecretKey, buffer: &[u8; MOST_BYTES]) -> bool {
    let Some(length) = sig_len(sk.set()) else {
        return false;
    };
    verify(MESSAGE, b"", &buffer[..length], &sk.public())
}
