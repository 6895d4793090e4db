//! Vectors of eight words of 32 bits, one in each lane (ours).
ghost use Rattle.std.specs.Prelude.{◌≡◌, ◌≢◌, ℕ, ◌+◌, ◌*◌, ◌/◌, ◌%◌, ◌^◌, ◌<◌, ◌≤◌, length, slice_index};
ghost use Rattle.sha2.specs.Sha256.{add32};
ghost use Rattle.slh_lanes.specs.Columns.{column};

use std::simd::prelude::*;

/// The number of messages that are hashed at once, one in each lane: a group.
pub const GROUP: usize = 8;

/// The words of 32 bits of a group, one in each lane.
pub type Words = u32x8;

/// A vector in a struct: the borrow checker covers no struct with an array of bare vectors.
#[derive(Clone, Copy)]
pub(crate) struct Vector {
    pub(crate) words: Words,
}

#[inline(always)]
pub(crate) fn add(x: Words, y: Words) -> Words
    ensures { (j : ℕ) → j < GROUP → slice_index result j ≡ add32 (slice_index x j) (slice_index y j) }
{
    x + y
}

/// The numbers from `first` on, one in each lane.
pub fn consecutive(first: u32) -> Words
    requires { first + GROUP ≤ 2 ^ 32 }
    ensures { (j : ℕ) → j < GROUP → slice_index result j ≡ first + j }
{
    add(
        Words::splat(first),
        Words::from_array([0, 1, 2, 3, 4, 5, 6, 7]),
    )
}

/// Half of each word, without the rest.
#[inline(always)]
pub fn half(x: Words) -> Words
    ensures { (j : ℕ) → j < GROUP → slice_index result j ≡ slice_index x j / 2 }
{
    x >> 1
}

/// 1 for each odd word, and 0 for each even one.
#[inline(always)]
pub fn parity(x: Words) -> Words
    ensures { (j : ℕ) → j < GROUP → slice_index result j ≡ slice_index x j % 2 }
{
    x & Words::splat(1)
}

// The vector with another word in lane `j`.
#[inline(always)]
pub(crate) fn with_lane(words: Words, j: usize, word: u32) -> Words
    requires { j < GROUP }
    ensures set { slice_index result j ≡ word }
    ensures others { (i : ℕ) → i ≢ j → slice_index result i ≡ slice_index words i }
{
    // No word is written to memory: a load of all would wait for it.
    let lanes = consecutive(0);
    let own = Words::splat(j as u32);
    let from_own = pick(own, lanes, words, Words::splat(word));
    pick(lanes, own, words, from_own)
}

/// Puts words into lane `j` of as many vectors.
pub(crate) fn put_words(vectors: &mut [Words], j: usize, words: &[u32])
    requires lane { j < GROUP }
    requires len { length words.now ≡ length vectors.old }
    ensures len { length vectors.new ≡ length vectors.old }
    ensures set { column j vectors.new ≡ words.now }
    ensures others { (i : ℕ) → i ≢ j → column i vectors.new ≡ column i vectors.old }
{
    'words: for k in 0..words.len() {
        vectors[k] = with_lane(vectors[k], j, words[k]);
    }
}

// The first, the third and so on of the sixteen words of two vectors.
#[inline(always)]
pub(crate) fn evens(x: Words, y: Words) -> Words
    ensures low { (j : ℕ) → j < 4 → slice_index result j ≡ slice_index x (2 * j) }
    ensures high { (j : ℕ) → j < 4 → slice_index result (j + 4) ≡ slice_index y (2 * j) }
{
    let [a, _, b, _, c, _, d, _] = x.to_array();
    let [e, _, f, _, g, _, h, _] = y.to_array();
    Words::from_array([a, b, c, d, e, f, g, h])
}

// The second, the fourth and so on of the sixteen words of two vectors.
#[inline(always)]
pub(crate) fn odds(x: Words, y: Words) -> Words
    ensures low { (j : ℕ) → j < 4 → slice_index result j ≡ slice_index x (2 * j + 1) }
    ensures high { (j : ℕ) → j < 4 → slice_index result (j + 4) ≡ slice_index y (2 * j + 1) }
{
    let [_, a, _, b, _, c, _, d] = x.to_array();
    let [_, e, _, f, _, g, _, h] = y.to_array();
    Words::from_array([a, b, c, d, e, f, g, h])
}

// In each lane the word of `x` if that of `a` is below that of `b`, else the word of `y`.
#[inline(always)]
pub(crate) fn pick(a: Words, b: Words, x: Words, y: Words) -> Words
    ensures below { (j : ℕ) → j < GROUP → slice_index a j < slice_index b j → slice_index result j ≡ slice_index x j }
    ensures others { (j : ℕ) → j < GROUP → slice_index b j ≤ slice_index a j → slice_index result j ≡ slice_index y j }
{
    a.simd_lt(b).select(x, y)
}
