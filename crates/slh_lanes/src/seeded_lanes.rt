//! F, PRF and H of eight addresses under one PK.seed (FIPS 205, section 11.2), and steps of eight chains (section 5).
ghost use Rattle.std.specs.Prelude.{◌≡◌, ◌≢◌, ℕ, ◌+◌, ◌*◌, ◌^◌, ◌<◌, ◌≤◌, ◌⊎◌, ◌↔◌, List, length, slice_index, true, IsSome, IfSome};
ghost use Rattle.sha2.specs.Sha256.{add32, compress, initial_hash_256};
ghost use Rattle.sha2.specs.Sha512.{compress as compress_long, initial_hash_512};
ghost use Rattle.slh_params.specs.Address.{Address};
ghost use Rattle.slh_params.specs.Params.{Params};
ghost use Rattle.slh_params.specs.ParamSet.{params};
ghost use Rattle.slh_hash.specs.Hash.{F, H, PRF, tweaked_hash};
ghost use Rattle.slh_hash.specs.HashFunctions.{SHA_256};
ghost use Rattle.slh_lanes.specs.Block.{first_block};
ghost use Rattle.slh_lanes.specs.Columns.{column};
ghost use Rattle.slh_lanes.specs.LongBlock.{long_first_block};
ghost use Rattle.slh_lanes.specs.Lanes.{HasAddress, group, value_at};
ghost use Rattle.slh_lanes.specs.Steps.{steps};

use crate::block::{BLOCK_LEN, hash_after, second_block, splat_all};
use crate::bytes::load_all_long;
use crate::chains::{run, run_part, run_singles};
use crate::eight_blocks::{compress, compress_long};
use crate::joined::{TwoWords, join_adrs, join_nodes, join_words, split_nodes};
use crate::lane_adrs::LaneAdrs;
use crate::lane_nodes::{LaneNodes, node_lanes, two_short};
use crate::long_block::{
    first_lane, initial, second_block as second_long_block, splat_all as splat_all_long, truncated,
};
use crate::long_words::LongWords;
use crate::rounds::{self, Rounds};
use crate::single_block::Instructions;
use crate::words::{GROUP, Words};
use slh_params::ParamSet;
use slh_width::{Width, build_widths};
use std::simd::prelude::*;

/// F, PRF and H of eight addresses under one PK.seed of n bytes, after the first block, which PK.seed and zeros fill. They
/// are SHA-256 in eight lanes. H is SHA-512 if n is 24 or 32.
///
/// It is made once within a call that hashes often. Contracts see the set and PK.seed.
#[derive(Clone, Copy)]
pub struct SeededLanes<'a> {
    pub set: ParamSet,
    pub pk_seed: &'a [u8],
    pub(crate) short: [u32; 8],
    /// SHA-512's hash value. It is not read if n is 16.
    pub(crate) long: [u64; 8],
    pub ghost len: { length pk_seed.now ≡ (params set).n },
    ghost short_state: { short ≡ compress initial_hash_256 (first_block (params set) pk_seed.now) },
    ghost long_state: { (params set).n ≢ 16
        → long ≡ compress_long initial_hash_512 (long_first_block (params set) pk_seed.now) },
}

impl<'a> SeededLanes<'a> {
    /// The lanes under this PK.seed, if it has n bytes.
    pub fn new(set: ParamSet, pk_seed: &'a [u8]) -> Option<Self>
        ensures some { IsSome result ↔ (length pk_seed.now ≡ (params set).n) }
        ensures set { IfSome result (λ lanes. lanes.set ≡ set) }
        ensures pk_seed { IfSome result (λ lanes. lanes.pk_seed.now ≡ pk_seed.now) }
    {
        let n = set.n();
        if pk_seed.len() != n {
            return None;
        }
        let short = short_state(pk_seed);
        let long = if n == 16 { [0; 8] } else { long_state(pk_seed) };
        Some(SeededLanes {
            set,
            pk_seed,
            short,
            long,
        })
    }

    /// F (FIPS 205, section 11.2) in each lane of a batch: its value of n bytes becomes the hash at its address.
    pub fn f<const G: usize>(&self, adrs: &[LaneAdrs; G], x: &mut [LaneNodes; G])
        requires few { G ≤ 2 }
        ensures { (g j : ℕ) → g < G → j < GROUP → (a : Address) → HasAddress (group adrs.now g) j a
            → let p = params self.now.set in value_at (group x.new g) j p.n
            ≡ F p self.now.pk_seed.now a (value_at (group x.old g) j p.n) }
    {
        self.digests(adrs, x, self.set.n());
    }

    /// PRF (section 11.2), which is F of SK.seed, in each lane of a batch: the secret at its address, from SK.seed of n
    /// bytes.
    pub fn prf<const G: usize>(&self, sk_seed: &[u8], adrs: &[LaneAdrs; G]) -> [LaneNodes; G]
        requires few { G ≤ 2 }
        requires sk_seed { length sk_seed.now ≡ (params self.now.set).n }
        ensures { (g j : ℕ) → g < G → j < GROUP → (a : Address) → HasAddress (group adrs.now g) j a
            → let p = params self.now.set in value_at (group result g) j p.n
            ≡ PRF p self.now.pk_seed.now sk_seed.now a }
    {
        let mut secrets = [node_lanes(sk_seed); G];
        self.f(adrs, &mut secrets);
        secrets
    }

    /// H (section 11.2) in each lane of a batch: the left node of n bytes becomes the hash of both nodes at its address.
    /// If n is 24 or 32, one group is hashed after the other, by SHA-512.
    pub fn h<const G: usize>(
        &self,
        adrs: &[LaneAdrs; G],
        left: &mut [LaneNodes; G],
        right: &[LaneNodes; G],
    )
        requires few { G ≤ 2 }
        ensures { (g j : ℕ) → g < G → j < GROUP → (a : Address) → HasAddress (group adrs.now g) j a
            → let p = params self.now.set in value_at (group left.new g) j p.n
            ≡ H p self.now.pk_seed.now a (value_at (group left.old g) j p.n)
            (value_at (group right.now g) j p.n) }
    {
        let n = self.set.n();
        if n == 16 {
            'pairs: for g in 0..G {
                left[g] = two_short(&left[g], &right[g]);
            }
            self.digests(adrs, left, 32);
        } else {
            'groups: for g in 0..G {
                let state = splat_all_long(&self.long);
                left[g] = long_digests(state, n, &adrs[g], &left[g], &right[g]);
            }
        }
    }

    /// Runs the chains of a batch on from their values after `from` steps, each by `count` steps (section 5,
    /// Algorithm 5).
    pub fn chains<const G: usize>(
        &self,
        adrs: &[LaneAdrs; G],
        x: &mut [LaneNodes; G],
        from: u32,
        count: u32,
    )
        requires few { G ≤ 2 }
        requires steps { from + count ≤ 2 ^ 16 }
        ensures { (g j : ℕ) → g < G → j < GROUP → (a : Address) → HasAddress (group adrs.now g) j a
            → let p = params self.now.set in value_at (group x.new g) j p.n
            ≡ steps p self.now.pk_seed.now a (value_at (group x.old g) j p.n) from count }
    {
        let from = [Words::splat(from); G];
        let counts = [Words::splat(count); G];
        self.chains_each(adrs, x, &from, &counts);
    }

    /// Runs eight chains on, each from its first step by its number of steps.
    fn eight_chains(&self, adrs: &LaneAdrs, x: &LaneNodes, from: Words, counts: Words) -> LaneNodes
        requires { (j : ℕ) → j < GROUP → slice_index from j + slice_index counts j ≤ 2 ^ 16 }
        ensures { (j : ℕ) → j < GROUP → (a : Address) → HasAddress adrs.now j a
            → let p = params self.now.set in value_at result j p.n
            ≡ steps p self.now.pk_seed.now a (value_at x.now j p.n) (slice_index from j) (slice_index counts j) }
    {
        let n = self.set.n();
        let short = &self.short;
        match build_widths().short {
            Width::One => run_singles::<Rounds>(short, n, adrs, x, from, counts),
            Width::Instructions => run_singles::<Instructions>(short, n, adrs, x, from, counts),
            Width::Four => {
                let low = run_part::<u32x4, Rounds>(short, n, adrs, x, 0, from, counts);
                run_part::<u32x4, Rounds>(short, n, adrs, &low, 4, from, counts)
            }
            Width::Eight | Width::Sixteen => run::<Words, Rounds>(short, n, adrs, x, from, counts),
        }
    }

    /// Runs the chains of a batch on. Each lane has its own first step and its own number of steps. A lane that has ended
    /// keeps its value.
    pub fn chains_each<const G: usize>(
        &self,
        adrs: &[LaneAdrs; G],
        x: &mut [LaneNodes; G],
        from: &[Words; G],
        counts: &[Words; G],
    )
        requires few { G ≤ 2 }
        requires steps { (g j : ℕ) → g < G → j < GROUP
            → slice_index (group from.now g) j + slice_index (group counts.now g) j ≤ 2 ^ 16 }
        ensures { (g j : ℕ) → g < G → j < GROUP → (a : Address) → HasAddress (group adrs.now g) j a
            → let p = params self.now.set in value_at (group x.new g) j p.n
            ≡ steps p self.now.pk_seed.now a (value_at (group x.old g) j p.n)
            (slice_index (group from.now g) j) (slice_index (group counts.now g) j) }
    {
        if is_joined(G) {
            let joined = join_adrs(adrs);
            let nodes = join_nodes(x);
            let ends = run::<TwoWords, Rounds>(
                &self.short,
                self.set.n(),
                &joined,
                &nodes,
                join_words(from),
                join_words(counts),
            );
            split_nodes(&ends, x);
        } else {
            'groups: for g in 0..G {
                x[g] = self.eight_chains(&adrs[g], &x[g], from[g], counts[g]);
            }
        }
    }

    /// In each lane of a batch the first n bytes of the digest of PK.seed, zeros, the address and the value of `len`
    /// bytes.
    fn digests<const G: usize>(&self, adrs: &[LaneAdrs; G], x: &mut [LaneNodes; G], len: usize)
        requires few { G ≤ 2 }
        requires len { (len ≡ 16) ⊎ (len ≡ 24) ⊎ (len ≡ 32) }
        ensures { (g j : ℕ) → g < G → j < GROUP → (a : Address) → HasAddress (group adrs.now g) j a
            → let p = params self.now.set in value_at (group x.new g) j p.n
            ≡ tweaked_hash SHA_256 p self.now.pk_seed.now a (value_at (group x.old g) j len) }
    {
        if is_joined(G) {
            self.digests_of_two(adrs, x, len);
        } else {
            'groups: for g in 0..G {
                x[g] = short_digests(splat_all(&self.short), len, &adrs[g], &x[g]);
            }
        }
    }

    /// The digests that `digests` gives of two groups, in sixteen lanes.
    fn digests_of_two<const G: usize>(
        &self,
        adrs: &[LaneAdrs; G],
        x: &mut [LaneNodes; G],
        len: usize,
    )
        requires two { G ≡ 2 }
        requires len { (len ≡ 16) ⊎ (len ≡ 24) ⊎ (len ≡ 32) }
        ensures { (g j : ℕ) → g < G → j < GROUP → (a : Address) → HasAddress (group adrs.now g) j a
            → let p = params self.now.set in value_at (group x.new g) j p.n
            ≡ tweaked_hash SHA_256 p self.now.pk_seed.now a (value_at (group x.old g) j len) }
    {
        let mut state = splat_all(&self.short);
        let joined = join_adrs(adrs);
        let nodes = join_nodes(x);
        rounds::compress(&mut state, &second_block(len, &joined, &nodes));
        split_nodes(&state, x);
    }
}

/// Whether so many groups are hashed at once in sixteen lanes.
#[inline(always)]
fn is_joined(groups: usize) -> bool
    ensures { result ≡ true → groups ≡ 2 }
{
    groups == 2 && matches!(build_widths().short, Width::Sixteen)
}

/// SHA-256's hash value after its first block, which PK.seed of n bytes and zeros fill.
fn short_state(pk_seed: &[u8]) -> [u32; 8]
    requires { length pk_seed.now ≤ 32 }
    ensures { (p : Params) → length pk_seed.now ≡ p.n
        → result ≡ compress initial_hash_256 (first_block p pk_seed.now) }
{
    let mut block = [0; BLOCK_LEN];
    block[..pk_seed.len()].copy_from_slice(pk_seed);
    hash_after(&block)
}

/// SHA-512's hash value after its first block, which PK.seed of n bytes and zeros fill.
fn long_state(pk_seed: &[u8]) -> [u64; 8]
    requires { length pk_seed.now ≤ 32 }
    ensures { (p : Params) → length pk_seed.now ≡ p.n
        → result ≡ compress_long initial_hash_512 (long_first_block p pk_seed.now) }
{
    let mut bytes = [0; 128];
    bytes[..pk_seed.len()].copy_from_slice(pk_seed);
    let mut block = [LongWords::splat(0); 16];
    load_all_long(&mut block, &bytes);
    let mut state = initial();
    compress_long(&mut state, &block);
    first_lane(&state)
}

/// In each lane the digest by SHA-256 of an address and a value of `len` bytes, after the hash value of PK.seed's block.
#[inline(always)]
pub(crate) fn short_digests(
    mut state: [Words; 8],
    len: usize,
    adrs: &LaneAdrs,
    x: &LaneNodes,
) -> LaneNodes
    requires { (len ≡ 16) ⊎ (len ≡ 24) ⊎ (len ≡ 32) }
    ensures { (p : Params) (pk_seed : List ℕ) (j : ℕ) (a : Address) → p.n ≤ 32 → length pk_seed ≡ p.n → j < GROUP
        → column j state ≡ compress initial_hash_256 (first_block p pk_seed) → HasAddress adrs.now j a
        → value_at result j p.n ≡ tweaked_hash SHA_256 p pk_seed a (value_at x.now j len) }
{
    compress(&mut state, &second_block(len, adrs, x));
    state
}

/// H of two nodes of n bytes in each lane, of 24 or 32: the first bytes of SHA-512's digests, after the hash value of
/// PK.seed's block.
pub(crate) fn long_digests(
    mut state: [LongWords; 8],
    n: usize,
    adrs: &LaneAdrs,
    left: &LaneNodes,
    right: &LaneNodes,
) -> LaneNodes
    requires { (n ≡ 24) ⊎ (n ≡ 32) }
    ensures { (p : Params) (pk_seed : List ℕ) (j : ℕ) (a : Address) → p.n ≡ n → length pk_seed ≡ p.n → j < GROUP
        → column j state ≡ compress_long initial_hash_512 (long_first_block p pk_seed) → HasAddress adrs.now j a
        → value_at result j p.n ≡ H p pk_seed a (value_at left.now j p.n) (value_at right.now j p.n) }
{
    compress_long(&mut state, &second_long_block(n, adrs, left, right));
    truncated(&state)
}
