//! The running hash of a security category: SHA-256 or SHA-512 (FIPS 205, section 11.2).
ghost use Rattle.std.specs.Prelude.{◌≡◌, ◌≤◌, ◌^◌, ◌++◌, ℕ, List, [], take, length};
ghost use Rattle.slh_params.specs.Params.{Params};
ghost use Rattle.slh_params.specs.ParamSet.{params};
ghost use Rattle.slh_hash.specs.HashFunctions.{category_function};
ghost use Rattle.slh_hash.specs.Keyed.{mgf1};

use crate::hash_function::{DigestBytes, HashFunctionOf};
use crate::mgf1::{mgf1_sha256, mgf1_sha512};
use crate::tweakable::truncated;
use sha2::{Digest, Sha256, Sha512};
use slh_params::{Node, ParamSet};

/// The hash function of H, T_l and H_msg, and of HMAC in pieces: SHA-256 where n is 16, which is category 1, else
/// SHA-512.
#[derive(Drop)]
pub(crate) enum CategoryHasher {
    Short(Sha256),
    Long(Sha512),
}

impl CategoryHasher {
    ghost use Rattle.slh_hash.specs.Stream.{HoldsFor};

    /// The hasher of the set's category, before any byte.
    pub(crate) fn new(set: ParamSet) -> Self
        ensures { HoldsFor result (params set) [] }
    {
        if set.n() == 16 {
            CategoryHasher::Short(Sha256::new())
        } else {
            CategoryHasher::Long(Sha512::new())
        }
    }

    /// Adds the bytes to the message.
    pub(crate) fn update(&mut self, bytes: &[u8])
        ensures { (p : Params) (m : List ℕ) → HoldsFor self.old p m → HoldsFor self.new p (m ++ bytes.now) }
    {
        match self {
            CategoryHasher::Short(hasher) => hasher.update(bytes),
            CategoryHasher::Long(hasher) => hasher.update(bytes),
        }
    }

    /// A copy of the hasher.
    pub(crate) fn copy(&self) -> Self
        ensures { result ≡ self.now }
    {
        match self {
            CategoryHasher::Short(hasher) => {
                let Ok(copy) = hasher.clone() else {
                    unreachable!()
                };
                CategoryHasher::Short(copy)
            }
            CategoryHasher::Long(hasher) => {
                let Ok(copy) = hasher.clone() else {
                    unreachable!()
                };
                CategoryHasher::Long(copy)
            }
        }
    }

    /// The digest.
    pub(crate) fn digest(self) -> DigestBytes
        ensures { (p : Params) (m : List ℕ) → HoldsFor self p m → result.items ≡ (category_function p).hash m }
    {
        match self {
            CategoryHasher::Short(hasher) => hasher.finish(),
            CategoryHasher::Long(hasher) => hasher.finish(),
        }
    }

    /// MGF1 of R, PK.seed and the digest, put end to end: as many bytes as `out` has.
    pub(crate) fn put_mgf1(self, r: &[u8], pk_seed: &[u8], out: &mut [u8])
        requires { length out.old ≤ 2 ^ 32 }
        ensures { (p : Params) (m : List ℕ) → HoldsFor self p m → out.new
            ≡ mgf1 (category_function p) (r.now ++ pk_seed.now ++ (category_function p).hash m) (length out.old) }
    {
        match self {
            CategoryHasher::Short(hasher) => mgf1_sha256(&[r, pk_seed, &hasher.finalize()], out),
            CategoryHasher::Long(hasher) => mgf1_sha512(&[r, pk_seed, &hasher.finalize()], out),
        }
    }

    /// The first n bytes of the digest.
    pub(crate) fn finish(self, n: usize) -> Node
        requires { n ≤ 32 }
        ensures { (p : Params) (m : List ℕ) → HoldsFor self p m → result.items ≡ take n ((category_function p).hash m) }
    {
        match self {
            CategoryHasher::Short(hasher) => truncated(&hasher.finalize(), n),
            CategoryHasher::Long(hasher) => truncated(&hasher.finalize(), n),
        }
    }
}
