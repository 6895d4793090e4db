//! Parameter sets and pre-hash functions by the numbers of the header (ours).
ghost use Rattle.std.specs.Prelude.{◌≡◌, None, Some, IfOk, IfErr};
ghost use Rattle.slh_c_verify.specs.Numbers.{at_place, set_numbered, function_numbered};
ghost use Rattle.slh_c_verify.specs.declared.refusal.Refusal.TheVariants.{NoSuchFunction, NoSuchSet};

use crate::refusal::Refusal;
use slh_core::PreHash;
use slh_params::ParamSet;

/// The pre-hash functions, in the order of their numbers.
const FUNCTIONS: [PreHash; 6] = [
    PreHash::Sha224,
    PreHash::Sha256,
    PreHash::Sha384,
    PreHash::Sha512,
    PreHash::Sha512_224,
    PreHash::Sha512_256,
];

/// The parameter set of a number. Refused if it is not a set's.
#[tactic(auto, unfolding(crate::specs::Numbers::set_numbered))]
pub fn set_of(number: u32) -> Result<ParamSet, Refusal>
    ensures set { IfOk result (λ set. set_numbered number ≡ Some set) }
    ensures refused { IfErr result (λ refusal. (refusal ≡ NoSuchSet) × (set_numbered number ≡ None)) }
{
    at_place(&ParamSet::all(), number).ok_or(Refusal::NoSuchSet)
}

/// The pre-hash function of a number. Refused if it is not a function's.
#[tactic(auto, unfolding(crate::specs::Numbers::function_numbered))]
pub fn function_of(number: u32) -> Result<PreHash, Refusal>
    ensures function { IfOk result (λ function. function_numbered number ≡ Some function) }
    ensures refused { IfErr result (λ refusal. (refusal ≡ NoSuchFunction) × (function_numbered number ≡ None)) }
{
    at_place(&FUNCTIONS, number).ok_or(Refusal::NoSuchFunction)
}

/// The item at a place of a list, counted from 1.
fn at_place<T: Copy>(items: &[T], place: u32) -> Option<T>
    ensures { result ≡ at_place items.now place }
{
    let index = place.checked_sub(1)?;
    items.get(index as usize).copied()
}
