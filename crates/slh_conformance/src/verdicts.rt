//! Rows about signatures of another message, key or form, which are invalid (FIPS 205, sections 9.3 and 10.3).

use crate::keys::key_of;
use crate::row::Row;
use crate::way::{Way, way_of};
use slh_core::{PublicKey, Randomizer, SecretKey};

/// The next field is whether these bytes are a valid signature.
fn is_verdict(row: &mut Row, valid: bool) {
    row.is_text(if valid { "valid" } else { "invalid" });
}

/// A set, SK.seed, SK.prf, PK.seed, a way, a message and a context, and all these again. Whether the signature of the
/// first message is valid for the second one. It is valid for the first one.
pub fn verdict(row: &mut Row) {
    let set = row.set();
    let sk = key_of(row, set);
    let way = way_of(row);
    let (msg, ctx) = (row.bytes(), row.bytes());
    let Some(sig) = way.signature(row, &msg, &ctx, &sk, Randomizer::Deterministic) else {
        return;
    };
    row.is_true(way.verify(&msg, &ctx, &sig, &sk.public()));
    let set = row.set();
    let sk = key_of(row, set);
    let way = way_of(row);
    let (msg, ctx) = (row.bytes(), row.bytes());
    let valid = way.verify(&msg, &ctx, &sig, &sk.public());
    is_verdict(row, valid);
}

/// A set, the bytes of a secret key, a message; whether its pure signature is valid.
pub fn verdict_by_key(row: &mut Row) {
    let set = row.set();
    let Ok(sk) = SecretKey::from_bytes(set, &row.bytes()) else {
        return row.refuse();
    };
    let msg = row.bytes();
    if let Some(sig) = Way::Pure.signature(row, &msg, b"", &sk, Randomizer::Deterministic) {
        is_verdict(row, Way::Pure.verify(&msg, b"", &sig, &sk.public()));
    }
}

/// A set, SK.seed, SK.prf, PK.seed, two messages; whether the first one's pure signature is valid with the other one's
/// R. Without it, it is.
pub fn exchanged_r(row: &mut Row) {
    let set = row.set();
    let sk = key_of(row, set);
    let (msg, other) = (row.bytes(), row.bytes());
    let deterministic = Randomizer::Deterministic;
    let Some(mut sig) = Way::Pure.signature(row, &msg, b"", &sk, deterministic) else {
        return;
    };
    row.is_true(Way::Pure.verify(&msg, b"", &sig, &sk.public()));
    let Some(donor) = Way::Pure.signature(row, &other, b"", &sk, deterministic) else {
        return;
    };
    row.is_true(Way::Pure.verify(&other, b"", &donor, &sk.public()));
    for (byte, of_other) in sig.iter_mut().zip(&donor).take(set.n()) {
        *byte = *of_other;
    }
    is_verdict(row, Way::Pure.verify(&msg, b"", &sig, &sk.public()));
}

/// A set, SK.seed, SK.prf, PK.seed, a message; the length of its pure signature. It is not valid without its last byte,
/// with a byte more, and with none.
pub fn other_lengths(row: &mut Row) {
    let set = row.set();
    let sk = key_of(row, set);
    let msg = row.bytes();
    let signed = Way::Pure.signature(row, &msg, b"", &sk, Randomizer::Deterministic);
    let Some(mut sig) = signed else {
        return;
    };
    row.is_number(sig.len() as u64);
    let pk = sk.public();
    row.is_true(Way::Pure.verify(&msg, b"", &sig, &pk));
    row.is_true(!Way::Pure.verify(&msg, b"", b"", &pk));
    row.is_true(!Way::Pieces.verify(&msg, b"", b"", &pk));
    if sig.push(0).is_err() {
        row.refuse();
    }
    row.is_true(!Way::Pure.verify(&msg, b"", &sig, &pk));
    row.is_true(!Way::Pieces.verify(&msg, b"", &sig, &pk));
    sig.pop();
    sig.pop();
    row.is_true(!Way::Pure.verify(&msg, b"", &sig, &pk));
    row.is_true(!Way::Pieces.verify(&msg, b"", &sig, &pk));
}

/// A set, SK.seed, SK.prf, PK.seed, a message, a first byte, a step. The number of places at which the first bit of a
/// byte of the pure signature was flipped: at R, at the FORS signature, and from the first byte on at each step. It is
/// valid for none of these, and before and after them.
pub fn flipped_bits(row: &mut Row) {
    let set = row.set();
    let sk = key_of(row, set);
    let msg = row.bytes();
    let (first, step) = (row.word() as usize, row.word() as usize);
    let signed = Way::Pure.signature(row, &msg, b"", &sk, Randomizer::Deterministic);
    let Some(mut sig) = signed else {
        return;
    };
    let pk = sk.public();
    row.is_true(Way::Pure.verify(&msg, b"", &sig, &pk));
    let mut count = 0u64;
    let steps = (first..sig.len()).step_by(step.max(1));
    for at in [0, set.n()].into_iter().chain(steps) {
        count = count.saturating_add(1);
        refuse_flip(row, &msg, &mut sig, at, &pk);
    }
    row.is_true(Way::Pure.verify(&msg, b"", &sig, &pk));
    row.is_number(count);
}

/// Flips the first bit of a byte for one verdict, which is not valid.
fn refuse_flip(row: &mut Row, msg: &[u8], sig: &mut [u8], at: usize, pk: &PublicKey) {
    if at >= sig.len() {
        return row.refuse();
    }
    sig[at] ^= 0x80;
    row.is_true(!Way::Pure.verify(msg, b"", sig, pk));
    sig[at] ^= 0x80;
}
