//! The first bytes of a key file, on which its key or its first fault depends.
ghost use Rattle.std.specs.Prelude.{◌≡◌, ◌++◌, not, OnOk};
ghost use Rattle.std.specs.List.{find};
ghost use Rattle.hex.specs.Hex.{is_hex_digit};
ghost use Rattle.slh_key_files.specs.KeyFile.{AreReadAlike, IsKeyFront};

use super::digits::is_hex_digit;
use std::alloc::{AllocError, Allocator};

/// More bytes than a key file of either kind has.
const MOST: usize = 512;

/// Pushes the next bytes of a key file to those that were stored before, as far as its key or its first fault depends
/// on them.
///
/// A file of over 512 bytes is not a key file. Its fault depends only on its first 512 bytes and on the first one after
/// them that is not a hexadecimal digit. So no more than 513 bytes are held. The call fails if the allocator refuses
/// memory.
pub fn push_key_bytes<A: Allocator>(front: &mut Vec<u8, A>, part: &[u8]) -> Result<(), AllocError>
    requires front { IsKeyFront front.old.items }
    ensures front { OnOk result (IsKeyFront front.new.items) }
    ensures alike { OnOk result (AreReadAlike front.new.items (front.old.items ++ part.now)) }
{
    if front.len() > MOST {
        return Ok(());
    }
    let (near, far) = part.split_at(part.len().min(MOST - front.len()));
    front.extend_from_slice(near)?;
    match first_other(far) {
        Some(byte) => Ok(front.push(byte)?),
        None => Ok(()),
    }
}

/// The first byte that is not a hexadecimal digit.
fn first_other(bytes: &[u8]) -> Option<u8>
    ensures { result ≡ find (λ byte. not (is_hex_digit byte)) bytes.now }
{
    bytes.iter().copied().find(|byte| !is_hex_digit(*byte))
}
