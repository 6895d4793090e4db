//! The chains of eight WOTS+ keys at once, one key in each lane of a group (FIPS 205, section 5). Of one of the keys
//! values are stored on the way: those of a signature (Algorithm 7), checkpoints, or none.
ghost use Rattle.std.specs.Prelude.{◌≡◌, ◌≢◌, ◌⊎◌, ℕ, List, [], ◌+◌, ◌-◌, ◌*◌, ◌^◌, ◌≤◌, ◌<◌, length, slice_index};
ghost use Rattle.slh_params.specs.Params.{Params, len};
ghost use Rattle.slh_params.specs.ParamSet.{params};
ghost use Rattle.slh_lanes.specs.Lanes.{group, value_at};
ghost use Rattle.slh_few.specs.KeyCheckpoints.{chain_checkpoints, chain_checkpoints_len as chain_len, key_checkpoints_len as chains_len, checkpoint_count as checkpoint_count_of};
ghost use Rattle.slh_few.specs.KeyStreams.{AreAfter, AreEnds, key_at};
ghost use Rattle.slh_few.specs.Chunks.{chunk};
ghost use Rattle.slh_few.specs.SignedValues.{Fits, signed_value};

use crate::key_checkpoints::{checkpoint_count, put_checkpoint, spacing};
use crate::lanes::chains::ChainNumbers;
use crate::lanes::keys::key_adrs;
use crate::nodes::put_chunk;
use crate::place::Place;
use slh_lanes::{GROUP, LaneNodes, SeededLanes, lane_node};
use slh_params::{AdrsType, ParamSet};

/// The values that are stored of each chain while the chains of eight keys run to their ends, one key in each lane.
/// Every chain stores equally many bytes.
pub(crate) trait Stored {
    ghost use Rattle.slh_few.specs.declared.place.Place.{Place};

    /// Whether this can be stored for keys of a set.
    ghost fits: { Self → Params → Type 0 };

    /// The number of bytes that are stored of a chain.
    ghost size: { Self → Params → ℕ };

    /// The stored values of a chain of the eight keys from a place on, under SK.seed and PK.seed.
    ghost stored: { Self → Params → List ℕ → List ℕ → Place → ℕ → List ℕ };

    /// The ends of two chains of eight keys, of which the first is at this place: those of chain `c + g` in group `g`.
    /// The stored values of these chains are written into `out`.
    fn ends_of_two(
        &self,
        lanes: &SeededLanes,
        sk_seed: &[u8],
        at: Place,
        c: u32,
        out: &mut [u8],
    ) -> [LaneNodes; 2]
        requires sk_seed { length sk_seed.now ≡ (params lanes.now.set).n }
        requires pairs { at.pair + GROUP ≤ 2 ^ 32 }
        requires fits { fits self.now (params lanes.now.set) }
        requires chains { c + 2 ≤ len (params lanes.now.set) }
        requires out { length out.old ≡ len (params lanes.now.set) * size self.now (params lanes.now.set) }
        ensures ends { (g : ℕ) → g < 2
            → AreEnds (params lanes.now.set) sk_seed.now lanes.now.pk_seed.now at (c + g) (group result g) }
        ensures stored { let p = params lanes.now.set in (g : ℕ) → g < 2 → chunk (size self.now p) out.new (c + g)
            ≡ stored self.now p sk_seed.now lanes.now.pk_seed.now at (c + g) }
        ensures others { let p = params lanes.now.set in (i : ℕ) → (i < c) ⊎ (c + 2 ≤ i)
            → chunk (size self.now p) out.new i ≡ chunk (size self.now p) out.old i };

    /// The ends of chain `c` of eight keys, and its stored values, as `ends_of_two` has them of two chains.
    fn ends_of_one(
        &self,
        lanes: &SeededLanes,
        sk_seed: &[u8],
        at: Place,
        c: u32,
        out: &mut [u8],
    ) -> [LaneNodes; 1]
        requires sk_seed { length sk_seed.now ≡ (params lanes.now.set).n }
        requires pairs { at.pair + GROUP ≤ 2 ^ 32 }
        requires fits { fits self.now (params lanes.now.set) }
        requires chains { c + 1 ≤ len (params lanes.now.set) }
        requires out { length out.old ≡ len (params lanes.now.set) * size self.now (params lanes.now.set) }
        ensures ends { (g : ℕ) → g < 1
            → AreEnds (params lanes.now.set) sk_seed.now lanes.now.pk_seed.now at (c + g) (group result g) }
        ensures stored { let p = params lanes.now.set in (g : ℕ) → g < 1 → chunk (size self.now p) out.new (c + g)
            ≡ stored self.now p sk_seed.now lanes.now.pk_seed.now at (c + g) }
        ensures others { let p = params lanes.now.set in (i : ℕ) → (i < c) ⊎ (c + 1 ≤ i)
            → chunk (size self.now p) out.new i ≡ chunk (size self.now p) out.old i };
}

/// Nothing is stored.
#[derive(Drop)]
pub(crate) struct Nothing;

impl Stored for Nothing {
    ghost fits = { λ k p. Unit {0} };

    ghost size = { λ k p. 0 };

    ghost stored = { λ k p sk_seed pk_seed at c. [] };

    fn ends_of_two(
        &self,
        lanes: &SeededLanes,
        sk_seed: &[u8],
        at: Place,
        c: u32,
        _out: &mut [u8],
    ) -> [LaneNodes; 2] {
        whole_chains(lanes, sk_seed, at, c)
    }

    fn ends_of_one(
        &self,
        lanes: &SeededLanes,
        sk_seed: &[u8],
        at: Place,
        c: u32,
        _out: &mut [u8],
    ) -> [LaneNodes; 1] {
        whole_chains(lanes, sk_seed, at, c)
    }
}

/// The ends of `G` chains of eight keys, of which the first is at this place: those of chain `c + g` in group `g`.
fn whole_chains<const G: usize>(
    lanes: &SeededLanes,
    sk_seed: &[u8],
    at: Place,
    c: u32,
) -> [LaneNodes; G]
    requires few { G ≤ 2 }
    requires sk_seed { length sk_seed.now ≡ (params lanes.now.set).n }
    requires pairs { at.pair + GROUP ≤ 2 ^ 32 }
    requires chains { c + G ≤ 2 ^ 32 }
    ensures { (g : ℕ) → g < G
        → AreEnds (params lanes.now.set) sk_seed.now lanes.now.pk_seed.now at (c + g) (group result g) }
{
    let mut values = secrets(lanes, sk_seed, at, c);
    let adrs = key_adrs(at, AdrsType::WotsHash, c);
    lanes.chains(&adrs, &mut values, 0, lanes.set.w() - 1);
    values
}

/// The secrets of `G` chains of eight keys, of which the first is at this place: those of chain `c + g` in group `g`.
pub(crate) fn secrets<const G: usize>(
    lanes: &SeededLanes,
    sk_seed: &[u8],
    at: Place,
    c: u32,
) -> [LaneNodes; G]
    requires few { G ≤ 2 }
    requires sk_seed { length sk_seed.now ≡ (params lanes.now.set).n }
    requires pairs { at.pair + GROUP ≤ 2 ^ 32 }
    requires chains { c + G ≤ 2 ^ 32 }
    ensures { (g : ℕ) → g < G
        → AreAfter (params lanes.now.set) sk_seed.now lanes.now.pk_seed.now at (c + g) 0 (group result g) }
{
    lanes.prf(sk_seed, &key_adrs(at, AdrsType::WotsPrf, c))
}

/// The values that the chains of the key in this lane have after as many steps as their digits say: those of a
/// signature.
#[derive(Drop)]
pub(crate) struct SignedValues<'a> {
    pub(crate) lane: usize,
    pub(crate) digits: &'a ChainNumbers,
}

impl<'a> Stored for SignedValues<'a> {
    ghost fits = { Fits };

    ghost size = { λ k p. p.n };

    ghost stored = { signed_value };

    fn ends_of_two(
        &self,
        lanes: &SeededLanes,
        sk_seed: &[u8],
        at: Place,
        c: u32,
        out: &mut [u8],
    ) -> [LaneNodes; 2] {
        self.ends(lanes, sk_seed, at, c, out)
    }

    fn ends_of_one(
        &self,
        lanes: &SeededLanes,
        sk_seed: &[u8],
        at: Place,
        c: u32,
        out: &mut [u8],
    ) -> [LaneNodes; 1] {
        self.ends(lanes, sk_seed, at, c, out)
    }
}

impl<'a> SignedValues<'a> {
    /// As `ends_of_two`, of `G` chains. They are run to the lower digit of the signature, to the higher one, and to their
    /// ends.
    fn ends<const G: usize>(
        &self,
        lanes: &SeededLanes,
        sk_seed: &[u8],
        at: Place,
        c: u32,
        out: &mut [u8],
    ) -> [LaneNodes; G]
        requires some { 1 ≤ G }
        requires few { G ≤ 2 }
        requires sk_seed { length sk_seed.now ≡ (params lanes.now.set).n }
        requires pairs { at.pair + GROUP ≤ 2 ^ 32 }
        requires fits { Fits self.now (params lanes.now.set) }
        requires chains { c + G ≤ len (params lanes.now.set) }
        requires out { length out.old ≡ len (params lanes.now.set) * (params lanes.now.set).n }
        ensures ends { (g : ℕ) → g < G
            → AreEnds (params lanes.now.set) sk_seed.now lanes.now.pk_seed.now at (c + g) (group result g) }
        ensures stored { let p = params lanes.now.set in (g : ℕ) → g < G → chunk p.n out.new (c + g)
            ≡ signed_value self.now p sk_seed.now lanes.now.pk_seed.now at (c + g) }
        ensures others { let p = params lanes.now.set in (i : ℕ) → (i < c) ⊎ (c + G ≤ i)
            → chunk p.n out.new i ≡ chunk p.n out.old i }
    {
        let a = self.digits[c as usize];
        let b = self.digits[c as usize + (G - 1)];
        let low = a.min(b);
        let high = a.max(b);
        let adrs = key_adrs(at, AdrsType::WotsHash, c);
        let mut values = secrets(lanes, sk_seed, at, c);
        lanes.chains(&adrs, &mut values, 0, low);
        self.put_at(lanes.set, low, c, &values, out);
        lanes.chains(&adrs, &mut values, low, high - low);
        self.put_at(lanes.set, high, c, &values, out);
        lanes.chains(&adrs, &mut values, high, lanes.set.w() - 1 - high);
        values
    }

    /// Writes the values of the key's lane of those chains, from `c` on, whose values of the signature are those after
    /// `steps` steps.
    fn put_at<const G: usize>(
        &self,
        set: ParamSet,
        steps: u32,
        c: u32,
        values: &[LaneNodes; G],
        out: &mut [u8],
    )
        requires lane { self.now.lane < GROUP }
        requires chains { c + G ≤ len (params set) }
        requires out { length out.old ≡ len (params set) * (params set).n }
        ensures put { (g : ℕ) → g < G → slice_index self.now.digits.now (c + g) ≡ steps
            → chunk (params set).n out.new (c + g) ≡ value_at (group values.now g) self.now.lane (params set).n }
        ensures others { (i : ℕ) → (i < c) ⊎ ((c + G ≤ i) ⊎ (slice_index self.now.digits.now i ≢ steps))
            → chunk (params set).n out.new i ≡ chunk (params set).n out.old i }
    {
        let n = set.n();
        for g in 0..G {
            let chain = c as usize + g;
            if self.digits[chain] == steps {
                put_chunk(out, n, chain, &lane_node(&values[g], self.lane, n));
            }
        }
    }
}

/// The checkpoints of the chains of the key in this lane. The chains are run from one checkpoint to the next.
#[derive(Drop)]
pub(crate) struct LaneCheckpoints {
    pub(crate) lane: usize,
}

impl Stored for LaneCheckpoints {
    ghost use Rattle.slh_lanes.specs.declared.words.TheConstants.{GROUP};

    ghost fits = { λ k p. k.lane < GROUP };

    ghost size = { λ k p. chain_len p };

    ghost stored = { λ k p sk_seed pk_seed at c. chain_checkpoints p sk_seed pk_seed (key_at at k.lane) c };

    fn ends_of_two(
        &self,
        lanes: &SeededLanes,
        sk_seed: &[u8],
        at: Place,
        c: u32,
        out: &mut [u8],
    ) -> [LaneNodes; 2] {
        self.ends(lanes, sk_seed, at, c, out)
    }

    fn ends_of_one(
        &self,
        lanes: &SeededLanes,
        sk_seed: &[u8],
        at: Place,
        c: u32,
        out: &mut [u8],
    ) -> [LaneNodes; 1] {
        self.ends(lanes, sk_seed, at, c, out)
    }
}

impl LaneCheckpoints {
    /// As `ends_of_two`, of `G` chains. They are run from one checkpoint to the next.
    fn ends<const G: usize>(
        &self,
        lanes: &SeededLanes,
        sk_seed: &[u8],
        at: Place,
        c: u32,
        out: &mut [u8],
    ) -> [LaneNodes; G]
        requires few { G ≤ 2 }
        requires sk_seed { length sk_seed.now ≡ (params lanes.now.set).n }
        requires pairs { at.pair + GROUP ≤ 2 ^ 32 }
        requires lane { self.now.lane < GROUP }
        requires chains { c + G ≤ len (params lanes.now.set) }
        requires out { length out.old ≡ chains_len (params lanes.now.set) }
        ensures ends { (g : ℕ) → g < G
            → AreEnds (params lanes.now.set) sk_seed.now lanes.now.pk_seed.now at (c + g) (group result g) }
        ensures stored { let p = params lanes.now.set in (g : ℕ) → g < G → chunk (chain_len p) out.new (c + g)
            ≡ chain_checkpoints p sk_seed.now lanes.now.pk_seed.now (key_at at self.now.lane) (c + g) }
        ensures others { let p = params lanes.now.set in (i : ℕ) → (i < c) ⊎ (c + G ≤ i)
            → chunk (chain_len p) out.new i ≡ chunk (chain_len p) out.old i }
    {
        let every = spacing(lanes.set);
        let last = checkpoint_count(lanes.set) - 1;
        let adrs = key_adrs(at, AdrsType::WotsHash, c);
        let mut values = secrets(lanes, sk_seed, at, c);
        for j in 0..last {
            self.put_checkpoints(lanes.set, out, c, j, &values);
            lanes.chains(&adrs, &mut values, j * every, every);
        }
        self.put_checkpoints(lanes.set, out, c, last, &values);
        lanes.chains(&adrs, &mut values, last * every, every - 1);
        values
    }

    /// Writes checkpoint `j` of the chains from `c` on, from the key's lane of each group.
    fn put_checkpoints<const G: usize>(
        &self,
        set: ParamSet,
        checkpoints: &mut [u8],
        c: u32,
        j: u32,
        values: &[LaneNodes; G],
    )
        requires checkpoints { length checkpoints.old ≡ chains_len (params set) }
        requires chains { c + G ≤ len (params set) }
        requires number { j < checkpoint_count_of (params set) }
        requires lane { self.now.lane < GROUP }
        ensures set { (g : ℕ) → g < G → chunk (params set).n (chunk (chain_len (params set)) checkpoints.new (c + g)) j
            ≡ value_at (group values.now g) self.now.lane (params set).n }
        ensures others { (d i : ℕ) → i ≢ j → chunk (params set).n (chunk (chain_len (params set)) checkpoints.new d) i
            ≡ chunk (params set).n (chunk (chain_len (params set)) checkpoints.old d) i }
        ensures chains { (d : ℕ) → (d < c) ⊎ (c + G ≤ d) → chunk (chain_len (params set)) checkpoints.new d
            ≡ chunk (chain_len (params set)) checkpoints.old d }
    {
        for g in 0..G {
            let value = lane_node(&values[g], self.lane, set.n());
            put_checkpoint(set, checkpoints, c as usize + g, j as usize, &value);
        }
    }
}
