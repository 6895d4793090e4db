//! The levels by which the trees of a signature are cut (ours).
ghost use Rattle.std.specs.Prelude.{◌≡◌, ◌↔◌, ◌≤◌, IsSome, IfSome};
ghost use Rattle.slh_params.specs.ParamSet.{params};

use slh_params::ParamSet;
use slh_subtrees::MOST_LEVELS;

/// How the trees of a signature are cut into jobs: each XMSS tree into 2^xmss ranges of its leaves, and each FORS tree
/// into 2^fors.
#[derive(Clone, Copy)]
pub struct Levels {
    /// The parameter set.
    pub set: ParamSet,
    /// The levels of the XMSS trees.
    pub xmss: u32,
    /// The levels of the FORS trees.
    pub fors: u32,
    ghost xmss_high: { xmss ≤ (params set).hp },
    ghost xmss_few: { xmss ≤ 8 },
    ghost fors_high: { fors ≤ (params set).a },
    ghost fors_few: { fors ≤ 8 },
}

impl Levels {
    /// The trees of the set, cut by these levels. `None` if a level is above the height of its trees (h' and a of FIPS
    /// 205, section 11, Table 2) or above 8.
    pub fn new(set: ParamSet, xmss: u32, fors: u32) -> Option<Levels>
        ensures some { IsSome result ↔ ((xmss ≤ (params set).hp) × (xmss ≤ 8) × (fors ≤ (params set).a) × (fors ≤ 8)) }
        ensures set { IfSome result (λ levels. levels.set ≡ set) }
        ensures xmss { IfSome result (λ levels. levels.xmss ≡ xmss) }
        ensures fors { IfSome result (λ levels. levels.fors ≡ fors) }
    {
        if xmss > set.hp() || xmss > MOST_LEVELS {
            return None;
        }
        if fors > set.a() || fors > MOST_LEVELS {
            return None;
        }
        Some(Levels { set, xmss, fors })
    }
}
