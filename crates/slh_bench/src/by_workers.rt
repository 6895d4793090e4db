//! The tasks of several threads.

ghost use Rattle.std.specs.Prelude.{◌≡◌, ◌≤◌, length};
ghost use Rattle.std.specs.Thread.{IsSync};

use crate::one_thread::{MESSAGE, MOST_BYTES, seeds, sig_len, sign_message};
use crate::sharing::Sharing;
use slh_core::{Randomizer, SecretKey};
use slh_par::{Cuts, Cutting, NoGate, VerifyItem, keygen_par, sign_par, verify_all};
use std::alloc::Global;
use std::thread::{Threads, join};

/// How many signatures one run of `verify_all` verifies.
const ITEMS: usize = 64;

/// Makes the key. Whether it is this one.
pub fn key_par<R: Threads + Sync>(rt: &R, alloc: Global, sk: &SecretKey, sharing: Sharing) -> bool {
    let set = sk.set();
    let seeds = seeds();
    let n = set.n();
    let Ok(cutting) = Cutting::new(set, Cuts::Levels(sharing.top), Cuts::Levels(0)) else {
        return false;
    };
    let (sk_seed, sk_prf, pk_seed) = (&seeds[..n], &seeds[n..2 * n], &seeds[2 * n..3 * n]);
    keygen_par(
        rt,
        alloc,
        set,
        sk_seed,
        sk_prf,
        pk_seed,
        sharing.workers,
        &cutting,
        &NoGate,
    )
    .is_ok_and(|made| made.bytes() == sk.bytes())
}

/// Signs the message into the first bytes of the buffer.
pub fn sign_message_par<R: Threads + Sync>(
    rt: &R,
    alloc: Global,
    sk: &SecretKey,
    sharing: Sharing,
    buffer: &mut [u8; MOST_BYTES],
) -> bool {
    let Some(length) = sig_len(sk.set()) else {
        return false;
    };
    let (xmss, fors) = (Cuts::Levels(sharing.xmss), Cuts::Levels(sharing.fors));
    let Ok(cutting) = Cutting::new(sk.set(), xmss, fors) else {
        return false;
    };
    sign_par(
        rt,
        alloc,
        MESSAGE,
        b"",
        sk,
        Randomizer::Deterministic,
        sharing.workers,
        &cutting,
        &NoGate,
        &mut buffer[..length],
    )
    .is_ok()
}

/// Whether each of many times the first bytes of the buffer are a signature of the message.
pub fn verify_many<R: Threads + Sync>(
    rt: &R,
    alloc: Global,
    sk: &SecretKey,
    sharing: Sharing,
    buffer: &[u8; MOST_BYTES],
) -> bool {
    let Some(length) = sig_len(sk.set()) else {
        return false;
    };
    let pk = sk.public();
    let item = VerifyItem {
        pk: &pk,
        msg: MESSAGE,
        ctx: b"",
        prehash: None,
        sig: &buffer[..length],
    };
    verify_all(rt, alloc, &[item; ITEMS], sharing.workers).is_ok_and(|answers| answers
        .iter()
        .all(|&valid| valid))
}

/// Signs the message into a separate buffer.
fn sign_alone(sk: &SecretKey) -> bool {
    let mut buffer = [0; MOST_BYTES];
    sign_message(sk, &mut buffer)
}

/// Signs the message once in each of this many threads.
pub fn sign_in_each<R: Threads + Sync>(rt: &R, sk: &SecretKey, threads: u8) -> bool {
    if threads <= 1 {
        return sign_alone(sk);
    }
    let half = threads / 2;
    let rest = threads - half;
    let front = move || sign_in_each(rt, sk, half);
    let back = move || sign_in_each(rt, sk, rest);
    let (one, other) = join(rt, front, back);
    one && other
}
