//! F, H and PRF of one input each (FIPS 205, section 11.2).
ghost use Rattle.std.specs.Prelude.{◌≡◌, ◌-◌, ◌≤◌, ◌++◌, [], length, take};
ghost use Rattle.sha2.specs.Hashers.{Holds256, Holds512};
ghost use Rattle.slh_params.specs.Params.{Params};
ghost use Rattle.slh_params.specs.ParamSet.{params};
ghost use Rattle.slh_params.specs.Bits.{to_byte};
ghost use Rattle.slh_params.specs.Address.{compressed};
ghost use Rattle.slh_hash.specs.Hash.{F, PRF, T, H, tweaked};
ghost use Rattle.slh_hash.specs.declared.hash_function.TheConstants.{MOST_BLOCK_LEN};

use crate::hash_function::MOST_BLOCK_LEN;
use crate::seeded_hash::SeededHash;
use crate::t_stream::SeededTreeHash;
use slh_params::{Adrs, Node, ParamSet};

const ZEROS: [u8; MOST_BLOCK_LEN] = [0; MOST_BLOCK_LEN];

/// The zeros that fill a block after PK.seed.
pub(crate) fn zeros(count: usize) -> &'static [u8]
    requires { count ≤ MOST_BLOCK_LEN }
    ensures { result.now ≡ to_byte 0 count }
{
    &ZEROS[..count]
}

/// The first n bytes of a digest.
pub(crate) fn truncated(digest: &[u8], n: usize) -> Node
    requires digest { n ≤ length digest.now }
    requires node { n ≤ 32 }
    ensures front { result.items ≡ take n digest.now }
    ensures len { length result.items ≡ n }
{
    let mut node = Node::new();
    let _ = node.try_extend_from_slice(&digest[..n]);
    node
}

/// F (FIPS 205, section 11.2): the hash of a node of n bytes at an address, under PK.seed of n bytes.
pub fn f(set: ParamSet, pk_seed: &[u8], adrs: &Adrs, x: &Node) -> Node
    ensures value { result.items ≡ F (params set) pk_seed.now adrs.now x.now.items }
    ensures len { length result.items ≡ (params set).n }
{
    SeededHash::new(set, pk_seed).f(adrs, x)
}

/// PRF (section 11.2): the secret at an address, from PK.seed and SK.seed of n bytes each.
pub fn prf(set: ParamSet, pk_seed: &[u8], sk_seed: &[u8], adrs: &Adrs) -> Node
    ensures value { result.items ≡ PRF (params set) pk_seed.now sk_seed.now adrs.now }
    ensures len { length result.items ≡ (params set).n }
{
    SeededHash::new(set, pk_seed).prf(sk_seed, adrs)
}

/// H (section 11.2): the hash of two nodes of n bytes at an address, under PK.seed of n bytes.
pub fn h(set: ParamSet, pk_seed: &[u8], adrs: &Adrs, left: &Node, right: &Node) -> Node
    ensures value { result.items ≡ H (params set) pk_seed.now adrs.now left.now.items right.now.items }
    ensures len { length result.items ≡ (params set).n }
{
    SeededTreeHash::new(set, pk_seed).h(adrs, left, right)
}
