//! The trait of the hash functions over which HMAC, MGF1 and the message hashes run (FIPS 205, section 11.2).
ghost use Rattle.std.specs.Prelude.{◌≡◌, ◌++◌, ◌≤◌, ℕ, List, [], length};
ghost use Rattle.sha2.specs.Hashers.{Holds256, Holds512};
ghost use Rattle.slh_hash.specs.HashFunctions.{HashFunction, IsSized, SHA_256, SHA_512, sized_256, sized_512};
ghost use Rattle.slh_hash.specs.Keyed.{joined};

use arrayvec::ArrayVec;
use sha2::{Digest, Sha256, Sha512};

/// The length of the longest block, that of SHA-512.
pub(crate) const MOST_BLOCK_LEN: usize = 128;

/// A digest, of at most 64 bytes.
pub(crate) type DigestBytes = ArrayVec<u8, 64>;

/// SHA-256 or SHA-512, as HMAC, MGF1 and the tweakable hashes use them.
pub(crate) trait HashFunctionOf: Digest {
    // The function, with the lengths of its blocks and digests.
    ghost function: { HashFunction };

    /// The length of a block in bytes.
    fn block_len() -> usize
        ensures { result ≡ function.block };

    /// The length of a digest in bytes.
    fn digest_len() -> usize
        ensures { result ≡ function.size };

    /// The digest of the message that the hasher holds.
    fn finish(self) -> DigestBytes
        ensures value { (m : List ℕ) → Self.holds self m → result.items ≡ function.hash m }
        ensures len { length result.items ≡ function.size };

    ghost sized: { IsSized function };
}

impl HashFunctionOf for Sha256 {
    ghost function = { SHA_256 };

    fn block_len() -> usize {
        64
    }

    fn digest_len() -> usize {
        32
    }

    fn finish(self) -> DigestBytes {
        digest_of(&self.finalize())
    }

    ghost sized = { sized_256 };
}

impl HashFunctionOf for Sha512 {
    ghost function = { SHA_512 };

    fn block_len() -> usize {
        128
    }

    fn digest_len() -> usize {
        64
    }

    fn finish(self) -> DigestBytes {
        digest_of(&self.finalize())
    }

    ghost sized = { sized_512 };
}

/// The digest of these bytes.
fn digest_of(bytes: &[u8]) -> DigestBytes
    requires { length bytes.now ≤ 64 }
    ensures { result.items ≡ bytes.now }
{
    let mut digest = DigestBytes::new();
    let _ = digest.try_extend_from_slice(bytes);
    digest
}

/// Adds the parts to the message.
pub(crate) fn absorb<D: Digest>(hasher: &mut D, parts: &[&[u8]])
    ensures { (m : List ℕ) → D.holds hasher.old m → D.holds hasher.new (m ++ joined parts.now) }
{
    for part in parts {
        hasher.update(*part);
    }
}
