//! The leaves of the FORS trees that a digest asks for (FIPS 205, section 8).
ghost use Rattle.std.specs.Prelude.{◌≡◌, ℕ, ◌≤◌, ◌<◌, length, slice_index};
ghost use Rattle.slh_params.specs.Params.{md_len};
ghost use Rattle.slh_params.specs.ParamSet.{params};
ghost use Rattle.slh_few.specs.Fors.{fors_index};

use slh_params::{ParamSet, base_2b};

/// At least the FORS trees of any set.
pub const MOST_TREES: usize = 64;

/// The leaf of each tree that a digest of md_len bytes asks for, with zeros after them (Algorithm 16,
/// line 2).
#[tactic(auto, using(slh_params::proofs::Bounds::k_high, slh_params::proofs::Bounds::a_low, slh_params::proofs::Bounds::a_high))]
pub fn fors_indices(set: ParamSet, md: &[u8]) -> [u32; MOST_TREES]
    requires { length md.now ≡ md_len (params set) }
    ensures few { (params set).k ≤ MOST_TREES }
    ensures indices { (j : ℕ) → j < (params set).k → slice_index result j
        ≡ fors_index (params set) md.now j }
    ensures rest { (j : ℕ) → (params set).k ≤ j → slice_index result j ≡ 0 }
{
    let mut indices = [0; MOST_TREES];
    let count = set.k() as usize;
    base_2b(md, set.a(), &mut indices[..count]);
    indices
}
