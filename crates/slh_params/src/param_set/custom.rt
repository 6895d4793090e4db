//! Parameter sets of any six numbers that are a valid record (FIPS 205, section 11, has six records).
ghost use Rattle.std.specs.Prelude.{◌≡◌, ◌↔◌, Some, None, IsOk, IfOk, IfErr, MatchOption, IsTrue, ◌&&◌, nat_le, codes};
ghost use Rattle.slh_params.specs.Params.{numbers};
ghost use Rattle.slh_params.specs.ParamSet.{params};
ghost use Rattle.slh_params.specs.RecordFault.{member_of};
ghost use Rattle.slh_params.specs.Valid.{IsValidRecord, n_fits, lg_w_fits, d_fits, first_bad};

use super::ParamSet;
use thiserror::Error;

/// Why six numbers are no parameter set.
#[derive(Clone, Copy, PartialEq, Eq, Debug, Error)]
pub enum RecordFault {
    /// A member is invalid.
    #[error("the member {member} of the parameter set is invalid")]
    BadRecord {
        /// The first such member, in the order n, lg_w, hp, d, a, k.
        member: &'static str,
    },
}

impl RecordFault {
    /// The number of the refusal.
    pub fn number(&self) -> u8
        ensures { result ≡ 5 }
    {
        match self {
            RecordFault::BadRecord { .. } => 5,
        }
    }

    /// The name of the refusal.
    pub fn name(&self) -> &'static str
        ensures { result.now ≡ codes "BadRecord" }
    {
        match self {
            RecordFault::BadRecord { .. } => "BadRecord",
        }
    }
}

impl ParamSet {
    /// The set of these numbers: `n` is 16, 24 or 32, `lg_w` 2, 4 or 8, `hp` 1 to 12, `a` 1 to 14 and `k` 1 to 64; `d`
    /// is at least 1, and the trees below the top layer are at most 64 levels high together. Refused with the first
    /// member that is invalid.
    pub fn custom(
        n: u32,
        lg_w: u32,
        hp: u32,
        d: u32,
        a: u32,
        k: u32,
    ) -> Result<ParamSet, RecordFault>
        ensures made { IfOk result (λ set. params set ≡ numbers n lg_w hp d a k) }
        ensures refused { IfErr result (λ fault. Some (member_of fault) ≡ first_bad (numbers n lg_w hp d a k)) }
        ensures valid { IsOk result ↔ IsValidRecord (numbers n lg_w hp d a k) }
    {
        match first_bad(n, lg_w, hp, d, a, k) {
            None => Ok(ParamSet {
                n,
                lg_w,
                hp,
                d,
                a,
                k,
            }),
            Some(member) => Err(RecordFault::BadRecord { member }),
        }
    }
}

/// The first member that is invalid.
#[tactic(auto, unfolding(crate::specs::Valid::first_bad))]
fn first_bad(n: u32, lg_w: u32, hp: u32, d: u32, a: u32, k: u32) -> Option<&'static str>
    ensures { let bad = first_bad (numbers n lg_w hp d a k) in
        MatchOption result (bad ≡ None) (λ member. bad ≡ Some member.now) }
{
    if !n_fits(n) {
        Some("n")
    } else if !lg_w_fits(lg_w) {
        Some("lg_w")
    } else if !fits(hp, 12) {
        Some("hp")
    } else if !d_fits(hp, d) {
        Some("d")
    } else if !fits(a, 14) {
        Some("a")
    } else if !fits(k, 64) {
        Some("k")
    } else {
        None
    }
}

fn n_fits(n: u32) -> bool
    ensures { result ≡ n_fits (numbers n 0 0 0 0 0) }
{
    n == 16 || n == 24 || n == 32
}

fn lg_w_fits(lg_w: u32) -> bool
    ensures { result ≡ lg_w_fits (numbers 0 lg_w 0 0 0 0) }
{
    lg_w == 2 || lg_w == 4 || lg_w == 8
}

/// Whether the number is from 1 to `high`.
fn fits(number: u32, high: u32) -> bool
    ensures { result ≡ (nat_le 1 number && nat_le number high) }
{
    1 <= number && number <= high
}

/// Whether there is a layer, and the trees below the top layer have an index of at most 64 bits.
fn d_fits(hp: u32, d: u32) -> bool
    ensures { result ≡ d_fits (numbers 0 0 hp d 0 0) }
{
    1 <= d && hp as u64 * (d as u64 - 1) <= 64
}
