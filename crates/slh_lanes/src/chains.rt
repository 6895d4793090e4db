//! Steps of WOTS+ chains in lanes (FIPS 205, section 5), with the rounds that all steps of a chain have in common
//! computed once.
//!
//! From step to step only the hash number and the value change in the block that F hashes. Its first five words have no
//! part of either, so the first five rounds are the same, or the first four of the SHA instructions. The words of the
//! padding are constants.
ghost use Rattle.std.specs.Prelude.{◌≡◌, ℕ, ◌+◌, ◌%◌, ◌^◌, ◌<◌, ◌≤◌, ◌⊎◌, List, length, slice_index, take};
ghost use Rattle.sha2.specs.Sha256.{compress, digest_bytes, initial_hash_256};
ghost use Rattle.slh_params.specs.Address.{Address, compressed};
ghost use Rattle.slh_params.specs.Params.{Params};
ghost use Rattle.slh_lanes.specs.Block.{first_block};
ghost use Rattle.slh_lanes.specs.Columns.{column, lane_column};
ghost use Rattle.slh_lanes.specs.Lanes.{HasAddress, value_at};
ghost use Rattle.slh_lanes.specs.Room.{HasRoom};
ghost use Rattle.slh_lanes.specs.Steps.{steps};

use crate::block::{second_block, splat_all};
use crate::instructions::Word;
use crate::lane_adrs::LaneAdrs;
use crate::lane_nodes::LaneNodes;
use crate::part::{Part, part_of_eight, part_of_six, with_eight};
use crate::rounds::ChainCompression;
use crate::short_lanes::{ShortLanes, tell_all};
use crate::words::{GROUP, Words};

/// The addresses of step 0.
#[inline(always)]
fn at_step_0<W: ShortLanes>(adrs: &[W; 6]) -> [W; 6]
    ensures address { (j : ℕ) → j < W.LANES → (a : Address)
        → take 22 (digest_bytes (lane_column W.lane j adrs.now) 6) ≡ compressed a
        → take 22 (digest_bytes (lane_column W.lane j result) 6) ≡ compressed (record a { hash = 0 }) }
    ensures low { (j : ℕ) → j < W.LANES → slice_index (lane_column W.lane j result) 4 % 2 ^ 16 ≡ 0 }
{
    tell_all(adrs);
    let zero = W::splat(0);
    [
        adrs[0],
        adrs[1],
        adrs[2],
        adrs[3],
        adrs[4].high().halves(zero),
        zero.low(),
    ]
}

/// The addresses of other steps, each of a number below 2^16: the first five words stay.
#[inline(always)]
fn at_step<W: ShortLanes>(adrs: &[W; 6], numbers: W) -> [W; 6]
    requires low { (j : ℕ) → j < W.LANES → slice_index (lane_column W.lane j adrs.now) 4 % 2 ^ 16 ≡ 0 }
    ensures address { (j : ℕ) → j < W.LANES → W.lane numbers j < 2 ^ 16 → (a : Address)
        → take 22 (digest_bytes (lane_column W.lane j adrs.now) 6) ≡ compressed (record a { hash = 0 })
        → take 22 (digest_bytes (lane_column W.lane j result) 6)
        ≡ compressed (record a { hash = W.lane numbers j }) }
    ensures front { (j k : ℕ) → k < 5
        → slice_index (lane_column W.lane j result) k ≡ slice_index (lane_column W.lane j adrs.now) k }
{
    tell_all(adrs);
    [adrs[0], adrs[1], adrs[2], adrs[3], adrs[4], numbers.low()]
}

/// The next values in the lanes that have a step left, whose number in `counts` is above `step`. The others keep their
/// values. All lanes have `all` steps, so up to there nothing is chosen.
#[inline(always)]
fn take_step<W: ShortLanes>(step: u32, all: u32, counts: W, next: &[W; 8], x: &[W; 8]) -> [W; 8]
    requires { (j : ℕ) → j < W.LANES → all ≤ W.lane counts j }
    ensures taken { (j : ℕ) → j < W.LANES → step < W.lane counts j
        → lane_column W.lane j result ≡ lane_column W.lane j next.now }
    ensures kept { (j : ℕ) → j < W.LANES → W.lane counts j ≤ step
        → lane_column W.lane j result ≡ lane_column W.lane j x.now }
{
    if step < all {
        return *next;
    }
    let at = W::splat(step);
    [
        W::pick(at, counts, next[0], x[0]),
        W::pick(at, counts, next[1], x[1]),
        W::pick(at, counts, next[2], x[2]),
        W::pick(at, counts, next[3], x[3]),
        W::pick(at, counts, next[4], x[4]),
        W::pick(at, counts, next[5], x[5]),
        W::pick(at, counts, next[6], x[6]),
        W::pick(at, counts, next[7], x[7]),
    ]
}

/// Runs chains on from their values of n bytes (section 5, Algorithm 5). Each lane has its own first step and its own
/// number of steps. `short` is the hash value after PK.seed's block.
#[inline(always)]
fn run_known<W: ShortLanes, C: ChainCompression<W>>(
    short: &[u32; 8],
    n: usize,
    adrs: &[W; 6],
    x: &[W; 8],
    from: W,
    counts: W,
) -> [W; 8]
    requires room { HasRoom W.row }
    requires n { (n ≡ 16) ⊎ (n ≡ 24) ⊎ (n ≡ 32) }
    requires few { (j : ℕ) → j < W.LANES → W.lane from j + W.lane counts j ≤ 2 ^ 16 }
    ensures { (p : Params) (pk_seed : List ℕ) (j : ℕ) (a : Address) → p.n ≡ n → length pk_seed ≡ p.n → j < W.LANES
        → short.now ≡ compress initial_hash_256 (first_block p pk_seed)
        → take 22 (digest_bytes (lane_column W.lane j adrs.now) 6) ≡ compressed a
        → take p.n (digest_bytes (lane_column W.lane j result) 8) ≡ steps p pk_seed a
        (take p.n (digest_bytes (lane_column W.lane j x.now) 8)) (W.lane from j) (W.lane counts j) }
{
    let state = splat_all(short);
    let base = at_step_0(adrs);
    let begun = C::begin(&state, base[0], base[1], base[2], base[3], base[4]);
    let all = counts.least();
    let mut nodes = *x;
    for step in 0..counts.most() {
        let mut next = state;
        let block = second_block(n, &at_step(&base, from.more(step)), &nodes);
        C::compress_begun(&mut next, &begun, &block);
        nodes = take_step(step, all, counts, &next, &nodes);
    }
    nodes
}

/// The same. Each n has a loop of its own, in which it is a constant.
pub(crate) fn run<W: ShortLanes, C: ChainCompression<W>>(
    short: &[u32; 8],
    n: usize,
    adrs: &[W; 6],
    x: &[W; 8],
    from: W,
    counts: W,
) -> [W; 8]
    requires room { HasRoom W.row }
    requires n { (n ≡ 16) ⊎ (n ≡ 24) ⊎ (n ≡ 32) }
    requires few { (j : ℕ) → j < W.LANES → W.lane from j + W.lane counts j ≤ 2 ^ 16 }
    ensures { (p : Params) (pk_seed : List ℕ) (j : ℕ) (a : Address) → p.n ≡ n → length pk_seed ≡ p.n → j < W.LANES
        → short.now ≡ compress initial_hash_256 (first_block p pk_seed)
        → take 22 (digest_bytes (lane_column W.lane j adrs.now) 6) ≡ compressed a
        → take p.n (digest_bytes (lane_column W.lane j result) 8) ≡ steps p pk_seed a
        (take p.n (digest_bytes (lane_column W.lane j x.now) 8)) (W.lane from j) (W.lane counts j) }
{
    if counts.most() == 0 {
        return *x;
    }
    match n {
        16 => run_known::<W, C>(short, 16, adrs, x, from, counts),
        24 => run_known::<W, C>(short, 24, adrs, x, from, counts),
        _ => run_known::<W, C>(short, 32, adrs, x, from, counts),
    }
}

/// Runs the chains in the lanes from `first` on, each from its first step by its number of steps. The other lanes keep
/// their values.
pub(crate) fn run_part<W: ShortLanes + Part<Words>, C: ChainCompression<W>>(
    short: &[u32; 8],
    n: usize,
    adrs: &LaneAdrs,
    x: &LaneNodes,
    first: usize,
    from: Words,
    counts: Words,
) -> LaneNodes
    requires room { HasRoom W.row }
    requires n { (n ≡ 16) ⊎ (n ≡ 24) ⊎ (n ≡ 32) }
    requires few { (j : ℕ) → j < GROUP → slice_index from j + slice_index counts j ≤ 2 ^ 16 }
    requires lanes { first + W.LANES ≤ GROUP }
    ensures run { (p : Params) (pk_seed : List ℕ) (j : ℕ) (a : Address) → p.n ≡ n → length pk_seed ≡ p.n → j < W.LANES
        → short.now ≡ compress initial_hash_256 (first_block p pk_seed) → HasAddress adrs.now (first + j) a
        → value_at result (first + j) p.n ≡ steps p pk_seed a (value_at x.now (first + j) p.n)
        (slice_index from (first + j)) (slice_index counts (first + j)) }
    ensures others { (i : ℕ) → (i < first) ⊎ (first + W.LANES ≤ i) → column i result ≡ column i x.now }
{
    let own_adrs = part_of_six::<Words, W>(adrs, first);
    let own = part_of_eight::<Words, W>(x, first);
    let from = W::part(from, first);
    let counts = W::part(counts, first);
    let ends = run::<W, C>(short, n, &own_adrs, &own, from, counts);
    with_eight(x, &ends, first)
}

/// Runs eight chains, one after another.
pub(crate) fn run_singles<C: ChainCompression<Word>>(
    short: &[u32; 8],
    n: usize,
    adrs: &LaneAdrs,
    x: &LaneNodes,
    from: Words,
    counts: Words,
) -> LaneNodes
    requires n { (n ≡ 16) ⊎ (n ≡ 24) ⊎ (n ≡ 32) }
    requires few { (j : ℕ) → j < GROUP → slice_index from j + slice_index counts j ≤ 2 ^ 16 }
    ensures { (p : Params) (pk_seed : List ℕ) (j : ℕ) (a : Address) → p.n ≡ n → length pk_seed ≡ p.n → j < GROUP
        → short.now ≡ compress initial_hash_256 (first_block p pk_seed) → HasAddress adrs.now j a
        → value_at result j p.n ≡ steps p pk_seed a (value_at x.now j p.n) (slice_index from j)
        (slice_index counts j) }
{
    let mut nodes = *x;
    'lanes: for lane in 0..GROUP {
        nodes = run_part::<Word, C>(short, n, adrs, &nodes, lane, from, counts);
    }
    nodes
}
