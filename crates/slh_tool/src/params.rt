//! The command `params`.
ghost use Rattle.std.specs.Prelude.{None, Some, IfOk, IfErr, string_bytes};
ghost use Rattle.slh_tool.specs.Replies.{RefusesSets, ShowsSets};

use super::fault::Fault;
use super::set::set_lines;
use slh_params::ParamSet;
use std::alloc::Allocator;

/// The line of the named set.
pub(crate) fn named_set<A: Allocator + Clone>(alloc: A, name: &str) -> Result<String<A>, Fault>
    ensures done { IfOk result (λ s. ShowsSets (Some name.now) (string_bytes s)) }
    ensures refused { IfErr result (RefusesSets (Some name.now)) }
{
    let Some(set) = ParamSet::from_label(name.as_bytes()) else {
        return Err(Fault::UnknownSet);
    };
    Ok(set_lines(alloc, &[set])?)
}

/// The lines of all sets.
pub(crate) fn all_sets<A: Allocator + Clone>(alloc: A) -> Result<String<A>, Fault>
    ensures done { IfOk result (λ s. ShowsSets None (string_bytes s)) }
    ensures refused { IfErr result (RefusesSets None) }
{
    Ok(set_lines(alloc, &ParamSet::all())?)
}
