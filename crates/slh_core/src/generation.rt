//! Key generation from seeds (FIPS 205, section 9.1).
ghost use Rattle.std.specs.Prelude.{◌≡◌, ◌↔◌, IsTrue, length};
ghost use Rattle.slh_params.specs.ParamSet.{params};
ghost use Rattle.slh_core.specs.Keys.{top_root, generated_key, IsGeneratedKey};

use crate::secret_key::SecretKey;
use slh_few::{Seeds, xmss_node};
use slh_params::{Node, ParamSet};

/// The root of the one tree of the top layer.
#[tactic(auto, using(slh_params::proofs::Bounds::layer_bounds), unfolding(crate::specs::Keys::top_root))]
fn top_root(seeds: &Seeds) -> Node
    ensures value { result.items ≡ top_root (params seeds.now.set) seeds.now.sk_seed.now seeds.now.pk_seed.now }
    ensures len { length result.items ≡ (params seeds.now.set).n }
{
    let layer = seeds.set.d() - 1;
    xmss_node(seeds, layer as u8, 0, seeds.set.hp(), 0)
}

/// The secret key of three seeds of n bytes each (FIPS 205, Algorithm 18).
pub fn keygen_internal(set: ParamSet, sk_seed: &[u8], sk_prf: &[u8], pk_seed: &[u8]) -> SecretKey
    requires sk_seed { length sk_seed.now ≡ (params set).n }
    requires sk_prf { length sk_prf.now ≡ (params set).n }
    requires pk_seed { length pk_seed.now ≡ (params set).n }
    ensures key { result ≡ generated_key set sk_seed.now sk_prf.now pk_seed.now }
    ensures generated { IsGeneratedKey result }
{
    let seeds = Seeds {
        set,
        sk_seed,
        pk_seed,
    };
    SecretKey::from_parts(set, sk_seed, sk_prf, pk_seed, &top_root(&seeds))
}

/// Whether PK.root is the root that the key's seeds give.
#[tactic(auto, unfolding(crate::specs::Keys::IsGeneratedKey))]
pub fn check_pair(sk: &SecretKey) -> bool
    ensures { IsTrue result ↔ IsGeneratedKey sk.now }
{
    let seeds = Seeds {
        set: sk.set(),
        sk_seed: sk.sk_seed(),
        pk_seed: sk.pk_seed(),
    };
    top_root(&seeds).as_slice() == sk.pk_root()
}
