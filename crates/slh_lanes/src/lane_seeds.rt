//! The midstates of eight PK.seeds, one in each lane, and H under them (FIPS 205, section 11.2).
ghost use Rattle.std.specs.Prelude.{◌≡◌, ◌≢◌, ℕ, ◌<◌, List};
ghost use Rattle.slh_params.specs.Address.{Address};
ghost use Rattle.slh_params.specs.ParamSet.{params};
ghost use Rattle.slh_hash.specs.Hash.{H};
ghost use Rattle.slh_lanes.specs.Lanes.{HasAddress, value_at};
ghost use Rattle.slh_lanes.specs.LaneSeeds.{HasSeedAt};

use crate::block::splat_all;
use crate::lane_adrs::LaneAdrs;
use crate::lane_nodes::{LaneNodes, two_short};
use crate::long_block::splat_all as splat_all_long;
use crate::long_stream::{bare as bare_long, wrapped as wrapped_long};
use crate::long_words::{LongVector, put_words as put_long_words};
use crate::seeded_lanes::{SeededLanes, long_digests, short_digests};
use crate::short_stream::{bare, wrapped};
use crate::words::{GROUP, Vector, put_words};
use slh_params::ParamSet;

/// Eight PK.seeds of n bytes under one set, one in each lane: the hash values after the first block, which PK.seed and
/// zeros fill.
///
/// Contracts see it by the relation `HasSeedAt`.
#[derive(Clone, Copy)]
pub struct LaneSeeds {
    pub set: ParamSet,
    pub(crate) short: [Vector; 8],
    /// SHA-512's hash values. They are not read if n is 16.
    pub(crate) long: [LongVector; 8],
}

impl LaneSeeds {
    /// One PK.seed in all lanes.
    #[inline(always)]
    pub fn splat(seed: &SeededLanes) -> Self
        ensures set { result.set ≡ seed.now.set }
        ensures seeds { (j : ℕ) → j < GROUP → HasSeedAt result j seed.now.pk_seed.now }
    {
        LaneSeeds {
            set: seed.set,
            short: wrapped(&splat_all(&seed.short)),
            long: wrapped_long(&splat_all_long(&seed.long)),
        }
    }

    /// Puts a PK.seed under the same set into lane `j`.
    pub fn set_lane(&mut self, j: usize, seed: &SeededLanes)
        requires lane { j < GROUP }
        requires set { params seed.now.set ≡ params self.old.set }
        ensures set { self.new.set ≡ self.old.set }
        ensures seed { HasSeedAt self.new j seed.now.pk_seed.now }
        ensures others { (i : ℕ) (pk_seed : List ℕ) → i ≢ j → HasSeedAt self.old i pk_seed → HasSeedAt self.new i pk_seed }
    {
        let mut short = bare(&self.short);
        let mut long = bare_long(&self.long);
        put_words(&mut short, j, &seed.short);
        put_long_words(&mut long, j, &seed.long);
        self.short = wrapped(&short);
        self.long = wrapped_long(&long);
    }

    /// H (FIPS 205, section 11.2) of two nodes of n bytes in each lane: the hash of both at its address, under its
    /// PK.seed.
    pub fn h(&self, adrs: &LaneAdrs, left: &LaneNodes, right: &LaneNodes) -> LaneNodes
        ensures { (j : ℕ) (pk_seed : List ℕ) (a : Address) → j < GROUP → HasSeedAt self.now j pk_seed
            → HasAddress adrs.now j a → let p = params self.now.set in
            value_at result j p.n ≡ H p pk_seed a (value_at left.now j p.n) (value_at right.now j p.n) }
    {
        let n = self.set.n();
        if n == 16 {
            short_digests(bare(&self.short), 32, adrs, &two_short(left, right))
        } else {
            long_digests(bare_long(&self.long), n, adrs, left, right)
        }
    }
}
