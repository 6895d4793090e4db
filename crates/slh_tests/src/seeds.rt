//! Keys whose seeds are counted up.
ghost use Rattle.std.specs.Prelude.{◌≡◌};

use slh_core::{SecretKey, keygen_internal};
use slh_params::ParamSet;

/// The bytes from `first` on.
pub(crate) fn counting(first: u8) -> [u8; 96] {
    let mut bytes = [0; 96];
    let mut next = first;
    for byte in &mut bytes {
        *byte = next;
        next = next.wrapping_add(1);
    }
    bytes
}

/// The key whose seeds are the bytes from `first` on.
pub(crate) fn key_from(set: ParamSet, first: u8) -> SecretKey
    ensures { result.set ≡ set }
{
    let bytes = counting(first);
    let n = set.n();
    keygen_internal(set, &bytes[..n], &bytes[n..2 * n], &bytes[2 * n..3 * n])
}

/// The key whose seeds are the bytes 00, 01, 02, ...
pub(crate) fn key(set: ParamSet) -> SecretKey
    ensures { result.set ≡ set }
{
    key_from(set, 0)
}
