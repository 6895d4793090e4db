//! The midstates of PK.seed: each hash function begins with a block that PK.seed fills (FIPS 205, section 11.2).
ghost use Rattle.std.specs.Prelude.{◌≡◌, IsSome, IfSome, ◌*◌, [], length};
ghost use Rattle.slh_params.specs.ParamSet.{params};
ghost use Rattle.slh_hash.specs.Hash.{F, PRF, T, H};
ghost use Rattle.slh_hash.specs.Seeded.{IsSeeded};
ghost use Rattle.slh_hash.specs.Stream.{HasAbsorbed, IsSeededTree};
ghost use Rattle.slh_few.specs.HashContext.{LanesUnder};

use crate::nodes::node_at;
use crate::place::Seeds;
use slh_hash::{SeededHash, SeededTreeHash, TStream};
use slh_lanes::{SeededLanes, Width, build_widths};
use slh_params::{Adrs, Node, ParamSet};

/// A parameter set and a PK.seed with its midstates. These are of SHA-256 for F and PRF, of the category's hash
/// function for H and T, and of both in SIMD lanes.
///
/// Each public call makes one and lends it to the functions below. Contracts see only the set and PK.seed.
#[derive(Drop)]
pub struct HashContext<'a> {
    pub set: ParamSet,
    pub pk_seed: &'a [u8],
    seeded: SeededHash,
    joins: SeededTreeHash,
    lanes: Option<SeededLanes<'a>>,
    ghost leaf_state: { ∥ IsSeeded seeded (params set) pk_seed.now ∥₁ },
    ghost join_state: { ∥ IsSeededTree joins (params set) pk_seed.now ∥₁ },
    ghost lane_state: { ∥ IfSome lanes (LanesUnder set pk_seed.now) ∥₁ },
}

impl<'a> HashContext<'a> {
    /// The midstates of this PK.seed of n bytes.
    pub fn new(set: ParamSet, pk_seed: &'a [u8]) -> Self
        requires { length pk_seed.now ≡ (params set).n }
        ensures set { result.set ≡ set }
        ensures pk_seed { result.pk_seed.now ≡ pk_seed.now }
    {
        let lanes = match build_widths().short {
            Width::One => None,
            Width::Four | Width::Eight | Width::Sixteen | Width::Instructions => {
                Some(lanes_under(set, pk_seed))
            }
        };
        HashContext::with_lanes(set, pk_seed, lanes)
    }

    /// The midstates of this PK.seed, of which these are in SIMD lanes.
    fn with_lanes(set: ParamSet, pk_seed: &'a [u8], lanes: Option<SeededLanes<'a>>) -> Self
        requires { IfSome lanes (LanesUnder set pk_seed.now) }
        ensures set { result.set ≡ set }
        ensures pk_seed { result.pk_seed.now ≡ pk_seed.now }
        ensures lanes { result.lanes ≡ lanes.entry }
    {
        HashContext {
            set,
            pk_seed,
            seeded: SeededHash::new(set, pk_seed),
            joins: SeededTreeHash::new(set, pk_seed),
            lanes,
        }
    }

    /// F (FIPS 205, section 11.2): the hash of a node of n bytes at an address.
    pub(crate) fn f(&self, adrs: &Adrs, x: &Node) -> Node
        ensures value { result.items ≡ F (params self.now.set) self.now.pk_seed.now adrs.now x.now.items }
        ensures len { length result.items ≡ (params self.now.set).n }
    {
        self.seeded.f(adrs, x)
    }

    /// H: the hash of two nodes of n bytes at an address.
    pub(crate) fn h(&self, adrs: &Adrs, left: &Node, right: &Node) -> Node
        ensures value { let p = params self.now.set in
            result.items ≡ H p self.now.pk_seed.now adrs.now left.now.items right.now.items }
        ensures len { length result.items ≡ (params self.now.set).n }
    {
        self.joins.h(adrs, left, right)
    }

    /// T at an address, before any node.
    pub(crate) fn t_stream(&self, adrs: &Adrs) -> TStream
        ensures { ∥ HasAbsorbed result (params self.now.set) self.now.pk_seed.now adrs.now [] ∥₁ }
    {
        self.joins.stream(adrs)
    }

    /// T: the hash of `count` nodes of n bytes each, put end to end, at an address.
    pub(crate) fn t(&self, adrs: &Adrs, nodes: &[u8], count: usize) -> Node
        requires { length nodes.now ≡ count * (params self.now.set).n }
        ensures value { result.items ≡ T (params self.now.set) self.now.pk_seed.now adrs.now nodes.now }
        ensures len { length result.items ≡ (params self.now.set).n }
    {
        let n = self.set.n();
        let mut stream = self.t_stream(adrs);
        for c in 0..count {
            stream.absorb(&node_at(nodes, n, c));
        }
        stream.finish()
    }

    /// The midstates in SIMD lanes. `None` if the build has one lane.
    pub(crate) fn lanes(&self) -> Option<&SeededLanes<'a>>
        ensures { IfSome result (λ lanes. LanesUnder self.now.set self.now.pk_seed.now lanes.now) }
    {
        match build_widths().short {
            Width::One => None,
            Width::Four | Width::Eight | Width::Sixteen | Width::Instructions => {
                self.lanes.as_ref()
            }
        }
    }
}

/// The midstates of this PK.seed of n bytes in SIMD lanes.
fn lanes_under(set: ParamSet, pk_seed: &[u8]) -> SeededLanes
    requires { length pk_seed.now ≡ (params set).n }
    ensures { LanesUnder set pk_seed.now result }
{
    let Some(lanes) = SeededLanes::new(set, pk_seed) else {
        unreachable!()
    };
    lanes
}

/// A key's SK.seed with the midstates of its PK.seed, for signing.
///
/// Each public call makes one and lends it to the functions below. Contracts see only the set and the seeds.
#[derive(Drop)]
pub struct SigningContext<'a> {
    pub public: HashContext<'a>,
    pub sk_seed: &'a [u8],
    ghost in_lanes: { IsSome public.lanes },
    pub ghost sk_seed_len: { length sk_seed.now ≡ (params public.set).n },
}

impl<'a> SigningContext<'a> {
    /// The midstates of these seeds.
    pub fn new(seeds: &Seeds<'a>) -> Self
        ensures set { result.public.set ≡ seeds.now.set }
        ensures sk_seed { result.sk_seed.now ≡ seeds.now.sk_seed.now }
        ensures pk_seed { result.public.pk_seed.now ≡ seeds.now.pk_seed.now }
    {
        let lanes = lanes_under(seeds.set, seeds.pk_seed);
        SigningContext {
            public: HashContext::with_lanes(seeds.set, seeds.pk_seed, Some(lanes)),
            sk_seed: seeds.sk_seed,
        }
    }

    /// PRF: the secret at an address.
    pub(crate) fn prf(&self, adrs: &Adrs) -> Node
        ensures value { let p = params self.now.public.set in let pk_seed = self.now.public.pk_seed.now in
            result.items ≡ PRF p pk_seed self.now.sk_seed.now adrs.now }
        ensures len { length result.items ≡ (params self.now.public.set).n }
    {
        self.public.seeded.prf(self.sk_seed, adrs)
    }

    /// The midstates in SIMD lanes, which signing has in each build.
    pub(crate) fn lanes(&self) -> &SeededLanes<'a>
        ensures set { result.now.set ≡ self.now.public.set }
        ensures pk_seed { result.now.pk_seed.now ≡ self.now.public.pk_seed.now }
    {
        let Some(lanes) = &self.public.lanes else {
            unreachable!()
        };
        lanes
    }
}
