//! Words of 32 bits side by side, in as many lanes as a type has: halves of words, and the facts of the type (ours).
ghost use Rattle.std.specs.Prelude.{◌≡◌, ℕ, ◌*◌, ◌/◌, ◌%◌, ◌^◌, ◌<◌, ◌≤◌, List, slice_index};
ghost use Rattle.sha2.specs.Sha256 as sha256;
ghost use Rattle.slh_lanes.specs.Block.{halves};
ghost use Rattle.slh_lanes.specs.Columns.{lane_column};
ghost use Rattle.slh_lanes.specs.Laws256 as laws_256;

use crate::lanes::Lanes;
use std::simd::prelude::*;

/// Lanes of 32 bits, whose compression is SHA-256's.
pub(crate) trait ShortLanes: Lanes {
    /// One word in all lanes.
    fn splat(word: u32) -> Self
        ensures { (j : ℕ) → j < Self.LANES → Self.lane result j ≡ word };

    /// The low half of each word above the high half of the next one's.
    fn halves(self, next: Self) -> Self
        ensures { (j : ℕ) → j < Self.LANES → Self.lane result j ≡ halves (Self.lane self j) (Self.lane next j) };

    /// The high half of each word.
    fn high(self) -> Self
        ensures { (j : ℕ) → j < Self.LANES → Self.lane result j ≡ Self.lane self j / 2 ^ 16 };

    /// The low half of each word, in the place of the high one.
    fn low(self) -> Self
        ensures { (j : ℕ) → j < Self.LANES → Self.lane result j ≡ Self.lane self j * 2 ^ 16 % 2 ^ 32 };

    /// In each lane the word of `x` if that of `a` is below that of `b`, else the word of `y`.
    fn pick(a: Self, b: Self, x: Self, y: Self) -> Self
        ensures below { (j : ℕ) → j < Self.LANES → Self.lane a j < Self.lane b j → Self.lane result j ≡ Self.lane x j }
        ensures others { (j : ℕ) → j < Self.LANES → Self.lane b j ≤ Self.lane a j → Self.lane result j ≡ Self.lane y j };

    /// Each word with this number more, modulo 2^32.
    fn more(self, number: u32) -> Self
        ensures { (j : ℕ) → j < Self.LANES → Self.lane result j ≡ sha256.add32 (Self.lane self j) number };

    /// The largest word of all lanes.
    fn most(self) -> u32
        ensures { (j : ℕ) → j < Self.LANES → Self.lane self j ≤ result };

    /// The smallest word of all lanes.
    fn least(self) -> u32
        ensures { (j : ℕ) → j < Self.LANES → result ≤ Self.lane self j };

    /// The fact of the type about its lanes. It runs no code.
    fn tell_short(self)
        ensures { (j : ℕ) → j < Self.LANES → Self.lane self j < 2 ^ 32 };

    ghost four_turns: { Self.TURNS ≡ 4 };

    ghost word_is: { (b : List ℕ) (k : ℕ) → Self.word b k ≡ sha256.word_at b (4 * k) };

    ghost compress_is: { (h b : List ℕ) → Self.compress h b ≡ sha256.compress h b };
}

impl<const N: usize> ShortLanes for Simd<u32, N> {
    ghost four_turns = { laws_256.four_turns };

    ghost word_is = { laws_256.word_is };

    ghost compress_is = { laws_256.compress_is };

    #[inline(always)]
    fn splat(word: u32) -> Self {
        splat_lanes(word)
    }

    #[inline(always)]
    fn halves(self, next: Self) -> Self {
        halves_of_lanes(self, next)
    }

    #[inline(always)]
    fn high(self) -> Self {
        high_of_lanes(self)
    }

    #[inline(always)]
    fn low(self) -> Self {
        low_of_lanes(self)
    }

    #[inline(always)]
    fn pick(a: Self, b: Self, x: Self, y: Self) -> Self {
        pick_lanes(a, b, x, y)
    }

    #[inline(always)]
    fn more(self, number: u32) -> Self {
        more_in_lanes(self, number)
    }

    #[inline(always)]
    fn most(self) -> u32 {
        most_of_lanes(self)
    }

    #[inline(always)]
    fn least(self) -> u32 {
        least_of_lanes(self)
    }

    #[inline(always)]
    fn tell_short(self) {}
}

#[inline(always)]
fn splat_lanes<const N: usize>(word: u32) -> Simd<u32, N>
    ensures { (j : ℕ) → j < N → slice_index result j ≡ word }
{
    Simd::splat(word)
}

#[inline(always)]
fn halves_of_lanes<const N: usize>(p: Simd<u32, N>, q: Simd<u32, N>) -> Simd<u32, N>
    ensures { (j : ℕ) → j < N → slice_index result j ≡ halves (slice_index p.entry j) (slice_index q.entry j) }
{
    (p << 16) + (q >> 16)
}

#[inline(always)]
fn high_of_lanes<const N: usize>(p: Simd<u32, N>) -> Simd<u32, N>
    ensures { (j : ℕ) → j < N → slice_index result j ≡ slice_index p.entry j / 2 ^ 16 }
{
    p >> 16
}

#[inline(always)]
fn low_of_lanes<const N: usize>(p: Simd<u32, N>) -> Simd<u32, N>
    ensures { (j : ℕ) → j < N → slice_index result j ≡ slice_index p.entry j * 2 ^ 16 % 2 ^ 32 }
{
    p << 16
}

#[inline(always)]
fn pick_lanes<const N: usize>(
    a: Simd<u32, N>,
    b: Simd<u32, N>,
    x: Simd<u32, N>,
    y: Simd<u32, N>,
) -> Simd<u32, N>
    ensures below { (j : ℕ) → j < N → slice_index a.entry j < slice_index b.entry j
        → slice_index result j ≡ slice_index x.entry j }
    ensures others { (j : ℕ) → j < N → slice_index b.entry j ≤ slice_index a.entry j
        → slice_index result j ≡ slice_index y.entry j }
{
    a.simd_lt(b).select(x, y)
}

#[inline(always)]
fn more_in_lanes<const N: usize>(words: Simd<u32, N>, number: u32) -> Simd<u32, N>
    ensures { (j : ℕ) → j < N → slice_index result j ≡ sha256.add32 (slice_index words.entry j) number }
{
    words + Simd::splat(number)
}

#[inline(always)]
fn most_of_lanes<const N: usize>(words: Simd<u32, N>) -> u32
    ensures { (j : ℕ) → j < N → slice_index words.entry j ≤ result }
{
    let each = words.to_array();
    let mut most = 0;
    for j in 0..N {
        most = most.max(each[j]);
    }
    most
}

#[inline(always)]
fn least_of_lanes<const N: usize>(words: Simd<u32, N>) -> u32
    ensures { (j : ℕ) → j < N → result ≤ slice_index words.entry j }
{
    let each = words.to_array();
    let mut least = u32::MAX;
    for j in 0..N {
        least = least.min(each[j]);
    }
    least
}

// The fact of the type about each vector of a list. This runs no code.
#[inline(always)]
pub(crate) fn tell_all<W: ShortLanes>(vectors: &[W])
    ensures { (j : ℕ) → j < W.LANES → (k : ℕ) → slice_index (lane_column W.lane j vectors.now) k < 2 ^ 32 }
{
    'told: for k in 0..vectors.len() {
        vectors[k].tell_short();
    }
}
