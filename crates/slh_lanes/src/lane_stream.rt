//! T of eight messages, one in each lane, under one PK.seed (FIPS 205, section 11.2).
ghost use Rattle.std.specs.Prelude.{◌≡◌, ℕ, ◌^◌, ◌<◌, ◌++◌, List, [], length};
ghost use Rattle.slh_params.specs.Address.{Address};
ghost use Rattle.slh_params.specs.Params.{Params};
ghost use Rattle.slh_params.specs.ParamSet.{params};
ghost use Rattle.slh_hash.specs.Hash.{T};
ghost use Rattle.slh_lanes.specs.Lanes.{HasAddress, value_at};
ghost use Rattle.slh_lanes.specs.LaneSeeds.{HasSeedAt};
ghost use Rattle.slh_lanes.specs.LaneStreams.{HasAbsorbedAt};

use crate::lane_adrs::LaneAdrs;
use crate::lane_nodes::LaneNodes;
use crate::lane_seeds::LaneSeeds;
use crate::long_block::truncated;
use crate::long_stream::{LongStream, bare as bare_long};
use crate::seeded_lanes::SeededLanes;
use crate::short_stream::{ShortStream, bare};
use crate::words::GROUP;
use slh_params::ParamSet;

/// The hash function of T in eight lanes: SHA-256 if n is 16, else SHA-512.
#[derive(Clone, Copy)]
pub(crate) enum CategoryStream {
    Short(ShortStream),
    Long(LongStream),
}

/// T_l (FIPS 205, section 11.2) in eight lanes, over nodes that come one after another, l of them in the end.
///
/// Contracts see it by the relation `HasAbsorbedAt`.
#[derive(Clone, Copy)]
pub struct LaneStream {
    pub(crate) set: ParamSet,
    pub(crate) stream: CategoryStream,
}

impl LaneStream {
    /// T at the address in each lane, before any node.
    pub fn new(lanes: &SeededLanes, adrs: &LaneAdrs) -> Self
        ensures { (j : ℕ) → j < GROUP → (a : Address) → HasAddress adrs.now j a
            → HasAbsorbedAt result j (params lanes.now.set) lanes.now.pk_seed.now a [] }
    {
        LaneStream::under(&LaneSeeds::splat(lanes), adrs)
    }

    /// T at the address in each lane, under the lane's PK.seed, before any node.
    #[inline(always)]
    pub fn under(seeds: &LaneSeeds, adrs: &LaneAdrs) -> Self
        ensures { (j : ℕ) (pk_seed : List ℕ) (a : Address) → j < GROUP → HasSeedAt seeds.now j pk_seed
            → HasAddress adrs.now j a → HasAbsorbedAt result j (params seeds.now.set) pk_seed a [] }
    {
        let set = seeds.set;
        let stream = if set.n() == 16 {
            CategoryStream::Short(ShortStream::new(&bare(&seeds.short), adrs))
        } else {
            CategoryStream::Long(LongStream::new(&bare_long(&seeds.long), adrs))
        };
        LaneStream { set, stream }
    }

    /// The parameter set.
    pub fn set(&self) -> ParamSet
        ensures { (p : Params) (pk_seed : List ℕ) (j : ℕ) (a : Address) (x : List ℕ)
            → HasAbsorbedAt self.now j p pk_seed a x → params result ≡ p }
    {
        self.set
    }

    /// Adds the node of n bytes in each lane.
    pub fn absorb(&mut self, nodes: &LaneNodes)
        ensures { (p : Params) (pk_seed : List ℕ) (j : ℕ) (a : Address) (x : List ℕ) → j < GROUP
            → HasAbsorbedAt self.old j p pk_seed a x
            → HasAbsorbedAt self.new j p pk_seed a (x ++ value_at nodes.now j p.n) }
    {
        let count = self.set.n() / 4;
        match &mut self.stream {
            CategoryStream::Short(stream) => stream.absorb(nodes, count),
            CategoryStream::Long(stream) => stream.absorb(nodes, count),
        }
    }

    /// T of the nodes absorbed, in their order, in each lane. For 2^28 bytes or more nothing is promised.
    pub fn finish(self) -> LaneNodes
        ensures { (p : Params) (pk_seed : List ℕ) (j : ℕ) (a : Address) (x : List ℕ) → j < GROUP
            → HasAbsorbedAt self j p pk_seed a x → length x < 2 ^ 28 → value_at result j p.n ≡ T p pk_seed a x }
    {
        match self.stream {
            CategoryStream::Short(stream) => stream.finish(),
            CategoryStream::Long(stream) => truncated(&stream.finish()),
        }
    }
}
