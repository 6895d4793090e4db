//! Words of 32 or 64 bits side by side, one in each lane, and SHA-2's functions on them (FIPS 180-4, sections 4.1 and
//! 4.2).
ghost use Rattle.std.specs.Prelude.{◌≡◌, ℕ, List, ◌+◌, ◌*◌, ◌/◌, ◌%◌, ◌^◌, ◌<◌, ◌≤◌, length, bit_and, bit_xor, slice_index, slice_set};
ghost use Rattle.std.specs.Int.{Width, w32, w64, rotate_right};
ghost use Rattle.sha2.specs.Sha256 as sha256;
ghost use Rattle.sha2.specs.Sha512 as sha512;
ghost use Rattle.slh_lanes.specs.Sha2.{IsWindow, add_state, plus, round, window_word};
ghost use Rattle.slh_lanes.specs.Laws256 as laws_256;
ghost use Rattle.slh_lanes.specs.Laws512 as laws_512;
ghost use mir.Val.{bits};

use crate::constants::{K_256, K_512};
use std::simd::prelude::*;

/// Words of one width side by side, one in each lane, with the functions of SHA-256 or SHA-512.
pub trait Lanes: Copy {
    /// The number of lanes.
    ghost LANES: { ℕ };

    /// The width of a word.
    ghost WIDTH: { Width };

    /// The word in a lane.
    ghost lane: { Self → ℕ → ℕ };

    /// Σ0, Σ1, σ0 and σ1 of the standard.
    ghost upper0: { ℕ → ℕ };

    ghost upper1: { ℕ → ℕ };

    ghost lower0: { ℕ → ℕ };

    ghost lower1: { ℕ → ℕ };

    /// The rounds of the standard, sixteen a turn, and a constant for each.
    ghost TURNS: { ℕ };

    ghost constants: { List ℕ };

    /// A word of a block of bytes, and the words of its schedule.
    ghost word: { List ℕ → ℕ → ℕ };

    ghost schedule: { List ℕ → List ℕ };

    /// The working variables after some rounds, from a hash value and a block, and the next hash value.
    ghost rounds: { List ℕ → List ℕ → ℕ → List ℕ };

    ghost compress: { List ℕ → List ℕ → List ℕ };

    /// The number of turns.
    fn turns() -> usize
        ensures { result ≡ TURNS };

    /// The constant of a round in all lanes.
    fn constant(t: usize) -> Self
        requires { t < 16 * TURNS }
        ensures { (j : ℕ) → j < LANES → lane result j ≡ slice_index constants t };

    /// The fact of the type about its lanes. It runs no code.
    fn tell(self)
        ensures { (j : ℕ) → j < LANES → lane self j < 2 ^ bits WIDTH };

    /// The sum modulo 2 to the width.
    fn sum(self, other: Self) -> Self
        ensures { (j : ℕ) → j < LANES → lane result j ≡ plus WIDTH (lane self j) (lane other j) };

    /// The bits of which one of the two is 1.
    fn xor(self, other: Self) -> Self
        ensures { (j : ℕ) → j < LANES → lane result j ≡ bit_xor (lane self j) (lane other j) };

    /// The bits of which both are 1.
    fn and(self, other: Self) -> Self
        ensures { (j : ℕ) → j < LANES → lane result j ≡ bit_and (lane self j) (lane other j) };

    /// Σ0.
    fn big_sigma0(self) -> Self
        ensures { (j : ℕ) → j < LANES → lane result j ≡ upper0 (lane self j) };

    /// Σ1.
    fn big_sigma1(self) -> Self
        ensures { (j : ℕ) → j < LANES → lane result j ≡ upper1 (lane self j) };

    /// σ0.
    fn small_sigma0(self) -> Self
        ensures { (j : ℕ) → j < LANES → lane result j ≡ lower0 (lane self j) };

    /// σ1.
    fn small_sigma1(self) -> Self
        ensures { (j : ℕ) → j < LANES → lane result j ≡ lower1 (lane self j) };

    ghost some_turns: { 4 ≤ TURNS × TURNS < 6 };

    ghost begins: { (h b : List ℕ) → rounds h b 0 ≡ h };

    ghost first_rounds: { (b h v : List ℕ) (t k x : ℕ) (next : List ℕ) → t < 16 → v ≡ rounds h b t
        → k ≡ slice_index constants t → word b t ≡ x → next ≡ round WIDTH upper0 upper1 v k x → next ≡ rounds h b (t + 1) };

    ghost first_window: { (b w : List ℕ) → length w ≡ 16 → ((k : ℕ) → k < 16 → word b k ≡ slice_index w k)
        → IsWindow w (schedule b) 16 };

    ghost next_rounds: { (b h w v : List ℕ) (t k x : ℕ) (next_w next_v : List ℕ) → 16 ≤ t → t < 16 * TURNS
        → IsWindow w (schedule b) t → v ≡ rounds h b t → x ≡ window_word WIDTH lower0 lower1 w t
        → next_w ≡ slice_set w (t % 16) x → k ≡ slice_index constants t → next_v ≡ round WIDTH upper0 upper1 v k x
        → IsWindow next_w (schedule b) (t + 1) × (next_v ≡ rounds h b (t + 1)) };

    ghost ends: { (h b : List ℕ) → compress h b ≡ add_state WIDTH h (rounds h b (16 * TURNS)) };
}

#[inline(always)]
fn rotate_short<const N: usize>(x: Simd<u32, N>, bits: u32) -> Simd<u32, N>
    requires some { 0 < bits }
    requires few { bits < 32 }
    ensures { (j : ℕ) → j < N → slice_index result j ≡ rotate_right w32 (slice_index x.entry j) bits }
{
    (x >> bits) | (x << (32 - bits))
}

#[inline(always)]
fn rotate_long<const N: usize>(x: Simd<u64, N>, bits: u64) -> Simd<u64, N>
    requires some { 0 < bits }
    requires few { bits < 64 }
    ensures { (j : ℕ) → j < N → slice_index result j ≡ rotate_right w64 (slice_index x.entry j) bits }
{
    (x >> bits) | (x << (64 - bits))
}

#[inline(always)]
fn right_short<const N: usize>(x: Simd<u32, N>, bits: u32) -> Simd<u32, N>
    requires { bits < 32 }
    ensures { (j : ℕ) → j < N → slice_index result j ≡ slice_index x.entry j / 2 ^ bits }
{
    x >> bits
}

#[inline(always)]
fn right_long<const N: usize>(x: Simd<u64, N>, bits: u64) -> Simd<u64, N>
    requires { bits < 64 }
    ensures { (j : ℕ) → j < N → slice_index result j ≡ slice_index x.entry j / 2 ^ bits }
{
    x >> bits
}

impl<const N: usize> Lanes for Simd<u32, N> {
    ghost LANES = { N };

    ghost WIDTH = { w32 };

    ghost lane = { λ x j. slice_index x j };

    ghost upper0 = { sha256.big_sigma0 };

    ghost upper1 = { sha256.big_sigma1 };

    ghost lower0 = { sha256.small_sigma0 };

    ghost lower1 = { sha256.small_sigma1 };

    ghost TURNS = { 4 };

    ghost constants = { sha256.round_constants };

    ghost word = { λ b k. sha256.word_at b (4 * k) };

    ghost schedule = { λ b. sha256.schedule b 48 };

    ghost rounds = { λ h b t. sha256.rounds h (sha256.schedule b 48) t };

    ghost compress = { sha256.compress };

    ghost some_turns = { laws_256.some_turns };

    ghost begins = { laws_256.begins };

    ghost first_window = { laws_256.first_window };

    ghost first_rounds = { laws_256.first_rounds };

    ghost next_rounds = { laws_256.next_rounds };

    ghost ends = { laws_256.ends };

    #[inline(always)]
    fn turns() -> usize {
        4
    }

    #[inline(always)]
    fn constant(t: usize) -> Self {
        Simd::splat(K_256[t])
    }

    #[inline(always)]
    fn small_sigma0(self) -> Self {
        rotate_short(self, 7)
            .xor(rotate_short(self, 18))
            .xor(right_short(self, 3))
    }

    #[inline(always)]
    fn small_sigma1(self) -> Self {
        rotate_short(self, 17)
            .xor(rotate_short(self, 19))
            .xor(right_short(self, 10))
    }

    #[inline(always)]
    fn tell(self) {}

    #[inline(always)]
    fn sum(self, other: Self) -> Self {
        self + other
    }

    #[inline(always)]
    fn xor(self, other: Self) -> Self {
        self ^ other
    }

    #[inline(always)]
    fn and(self, other: Self) -> Self {
        self & other
    }

    #[inline(always)]
    fn big_sigma0(self) -> Self {
        rotate_short(self, 2)
            .xor(rotate_short(self, 13))
            .xor(rotate_short(self, 22))
    }

    #[inline(always)]
    fn big_sigma1(self) -> Self {
        rotate_short(self, 6)
            .xor(rotate_short(self, 11))
            .xor(rotate_short(self, 25))
    }
}

impl<const N: usize> Lanes for Simd<u64, N> {
    ghost LANES = { N };

    ghost WIDTH = { w64 };

    ghost lane = { λ x j. slice_index x j };

    ghost upper0 = { sha512.big_sigma0 };

    ghost upper1 = { sha512.big_sigma1 };

    ghost lower0 = { sha512.small_sigma0 };

    ghost lower1 = { sha512.small_sigma1 };

    ghost TURNS = { 5 };

    ghost constants = { sha512.round_constants };

    ghost word = { λ b k. sha512.word_at b (8 * k) };

    ghost schedule = { λ b. sha512.schedule b 64 };

    ghost rounds = { λ h b t. sha512.rounds h (sha512.schedule b 64) t };

    ghost compress = { sha512.compress };

    ghost some_turns = { laws_512.some_turns };

    ghost begins = { laws_512.begins };

    ghost first_window = { laws_512.first_window };

    ghost first_rounds = { laws_512.first_rounds };

    ghost next_rounds = { laws_512.next_rounds };

    ghost ends = { laws_512.ends };

    #[inline(always)]
    fn turns() -> usize {
        5
    }

    #[inline(always)]
    fn constant(t: usize) -> Self {
        Simd::splat(K_512[t])
    }

    #[inline(always)]
    fn small_sigma0(self) -> Self {
        rotate_long(self, 1)
            .xor(rotate_long(self, 8))
            .xor(right_long(self, 7))
    }

    #[inline(always)]
    fn small_sigma1(self) -> Self {
        rotate_long(self, 19)
            .xor(rotate_long(self, 61))
            .xor(right_long(self, 6))
    }

    #[inline(always)]
    fn tell(self) {}

    #[inline(always)]
    fn sum(self, other: Self) -> Self {
        self + other
    }

    #[inline(always)]
    fn xor(self, other: Self) -> Self {
        self ^ other
    }

    #[inline(always)]
    fn and(self, other: Self) -> Self {
        self & other
    }

    #[inline(always)]
    fn big_sigma0(self) -> Self {
        rotate_long(self, 28)
            .xor(rotate_long(self, 34))
            .xor(rotate_long(self, 39))
    }

    #[inline(always)]
    fn big_sigma1(self) -> Self {
        rotate_long(self, 14)
            .xor(rotate_long(self, 18))
            .xor(rotate_long(self, 41))
    }
}
