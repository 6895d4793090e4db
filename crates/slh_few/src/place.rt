//! The arguments of the public calls: seeds, and the place of a key (FIPS 205, sections 5 to 8).
ghost use Rattle.std.specs.Prelude.{◌≡◌, length};
ghost use Rattle.slh_params.specs.ParamSet.{params};

use slh_params::ParamSet;

/// The seeds that signing needs: SK.seed and PK.seed, of n bytes each.
#[derive(Clone, Copy)]
pub struct Seeds<'a> {
    pub set: ParamSet,
    pub sk_seed: &'a [u8],
    pub pk_seed: &'a [u8],
    pub ghost sk_seed_len: { length sk_seed.now ≡ (params set).n },
    pub ghost pk_seed_len: { length pk_seed.now ≡ (params set).n },
}

/// The seed that verifying needs: PK.seed, of n bytes.
#[derive(Clone, Copy)]
pub struct Public<'a> {
    pub set: ParamSet,
    pub pk_seed: &'a [u8],
    pub ghost pk_seed_len: { length pk_seed.now ≡ (params set).n },
}

/// The place of a WOTS+ key: a layer of the hypertree, a tree of that layer and a leaf of that tree.
#[derive(Clone, Copy)]
pub struct Place {
    pub layer: u8,
    pub tree: u64,
    pub pair: u32,
}
