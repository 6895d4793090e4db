//! The split depths that a caller of C passes, as `Levels` (ours).
ghost use Rattle.std.specs.Prelude.{◌≡◌, List, Some, IfOk, IfErr, IfSome};
ghost use Rattle.slh_jobs.specs.declared.levels.Levels.{Levels};
ghost use Rattle.slh_c.specs.Cuttings.{levels_of};
ghost use Rattle.slh_c.specs.Numbers.{set_numbered};
ghost use Rattle.slh_c.specs.Refusals.{number};
ghost use Rattle.slh_c.specs.Rules.{first_refusal, cut_in};
ghost use Rattle.slh_c.specs.declared.rules.Rule.{Rule};

use crate::numbers::set_of;
use crate::refusal::Refusal;
use slh_jobs::Levels;
use slh_params::ParamSet;

/// The trees of the set, cut by these levels. `None` if a level is above the height of its trees or above 8.
fn levels_of(set: ParamSet, xmss: u32, fors: u32) -> Option<Levels>
    ensures value { result ≡ levels_of set xmss fors }
    ensures set { IfSome result (λ levels. levels.set ≡ set) }
{
    Levels::new(set, xmss, fors)
}

/// The trees of the set of a number, cut by these levels. Refused: a number of no set, levels that are not valid.
pub fn cut_of(set: u32, xmss: u32, fors: u32) -> Result<Levels, Refusal>
    ensures refused { (rules : Levels → List Rule)
        → IfErr result (λ refusal. first_refusal (cut_in set xmss fors rules) ≡ number refusal) }
    ensures rules { (rules : Levels → List Rule)
        → IfOk result (λ levels. first_refusal (cut_in set xmss fors rules) ≡ first_refusal (rules levels)) }
    ensures set { IfOk result (λ levels. set_numbered set ≡ Some levels.set) }
    ensures levels { IfOk result (λ levels. levels_of levels.set xmss fors ≡ Some levels) }
{
    let set = set_of(set)?;
    levels_of(set, xmss, fors).ok_or(Refusal::BadCutting)
}
