//! The parts of a message digest (FIPS 205, section 9.2).
ghost use Rattle.std.specs.Prelude.{◌≡◌, ◌-◌, ◌%◌, ◌^◌, ◌<◌, ◌≤◌, length};
ghost use Rattle.slh_params.specs.Params.{h, m};
ghost use Rattle.slh_params.specs.ParamSet.{params};
ghost use Rattle.slh_core.specs.DigestParts.{idx_tree, idx_leaf};

use slh_params::{ParamSet, to_int};

/// The most bytes that a message digest has in any set.
pub const MOST_DIGEST_LEN: usize = 122;

/// The key pair that signs a message digest: a tree of layer 0 and a leaf of it.
#[derive(Clone, Copy)]
pub struct DigestIndices {
    pub idx_tree: u64,
    pub idx_leaf: u32,
}

/// `x` modulo 2 ^ `count`.
fn low_bits(x: u64, count: u32) -> u64
    requires { count ≤ 64 }
    ensures { result ≡ x % 2 ^ count }
{
    match 1u64.checked_shl(count) {
        Some(bound) => x % bound,
        None => x,
    }
}

/// The key pair that a message digest of m bytes names: what follows its first `md_len` bytes, which FORS
/// signs (FIPS 205, Algorithm 19, lines 7 to 10).
#[tactic(auto, using(slh_params::proofs::Bounds::digest_bounds), unfolding(crate::specs::DigestParts::idx_tree, crate::specs::DigestParts::idx_leaf))]
pub fn digest_indices(set: ParamSet, digest: &[u8]) -> DigestIndices
    requires { length digest.now ≡ m (params set) }
    ensures few { length digest.now ≤ MOST_DIGEST_LEN }
    ensures tree { result.idx_tree ≡ idx_tree (params set) digest.now }
    ensures leaf { result.idx_leaf ≡ idx_leaf (params set) digest.now }
    ensures tree_range { result.idx_tree < 2 ^ (h (params set) - (params set).hp) }
    ensures leaf_range { result.idx_leaf < 2 ^ (params set).hp }
{
    let tree_start = set.md_len();
    let leaf_start = tree_start + set.tree_len();
    let tree = to_int(&digest[tree_start..leaf_start]);
    let leaf = to_int(&digest[leaf_start..]);
    DigestIndices {
        idx_tree: low_bits(tree, set.h() - set.hp()),
        idx_leaf: low_bits(leaf, set.hp()) as u32,
    }
}
