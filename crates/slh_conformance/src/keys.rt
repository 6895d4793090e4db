//! Rows about keys (FIPS 205, sections 9.1 and 10.1).
ghost use Rattle.std.specs.Prelude.{◌≡◌};

use crate::row::Row;
use crate::sources::Counting;
use rand_pcg::Pcg32;
use slh_core::{FromRng, PublicKey, SecretKey, check_pair, keygen, keygen_internal};
use slh_params::ParamSet;

/// The key of SK.seed, SK.prf and PK.seed.
pub fn key_of(row: &mut Row, set: ParamSet) -> SecretKey
    ensures { result.set ≡ set }
{
    let sk_seed = row.node(set);
    let sk_prf = row.node(set);
    let pk_seed = row.node(set);
    keygen_internal(set, &sk_seed, &sk_prf, &pk_seed)
}

/// A set, SK.seed, SK.prf, PK.seed; the public key. The pair is consistent.
pub fn keygen_row(row: &mut Row) {
    let set = row.set();
    let sk = key_of(row, set);
    row.is_bytes(sk.public_bytes());
    row.is_true(check_pair(&sk));
}

/// A set, and the draw at which a source that counts from 00 fails, or 0. If it fails, the refusal and the draws made.
/// Then the public key of the next three draws.
pub fn keygen_from_source(row: &mut Row) {
    let set = row.set();
    let mut source = Counting::new(row.below(4) as u32);
    let made = match keygen(set, &mut source) {
        Ok(sk) => Ok(sk),
        Err(fault) => {
            row.is_refusal(fault.number(), fault.name());
            row.is_number(source.draws as u64);
            keygen(set, &mut source)
        }
    };
    match made {
        Ok(sk) => {
            row.is_bytes(sk.public_bytes());
            row.is_true(check_pair(&sk));
        }
        Err(_) => row.is_true(false),
    }
}

/// A set, a state and a stream of the generator PCG32; the secret key of its bytes.
pub fn keygen_from_pcg32(row: &mut Row) {
    let set = row.set();
    let (state, stream) = (row.number(), row.number());
    let mut source = FromRng {
        rng: Pcg32::new(state, stream),
    };
    match keygen(set, &mut source) {
        Ok(sk) => {
            row.is_bytes(sk.bytes());
            row.is_true(check_pair(&sk));
        }
        Err(_) => row.is_true(false),
    }
}

/// A set, bytes; the parts of the secret key that they are and whether it is consistent, or the refusal.
pub fn secret_key(row: &mut Row) {
    let set = row.set();
    match SecretKey::from_bytes(set, &row.bytes()) {
        Ok(sk) => {
            row.is_bytes(sk.sk_seed());
            row.is_bytes(sk.sk_prf());
            row.is_bytes(sk.pk_seed());
            row.is_bytes(sk.pk_root());
            row.is_true(sk.public().bytes() == sk.public_bytes());
            row.is_display(&check_pair(&sk));
        }
        Err(fault) => row.is_refusal(fault.number(), fault.name()),
    }
}

/// A set, bytes; the parts of the public key that they are, or the refusal.
pub fn public_key(row: &mut Row) {
    let set = row.set();
    match PublicKey::from_bytes(set, &row.bytes()) {
        Ok(pk) => {
            row.is_bytes(pk.pk_seed());
            row.is_bytes(pk.pk_root());
        }
        Err(fault) => row.is_refusal(fault.number(), fault.name()),
    }
}
