//! Vectors of eight words of 64 bits, one in each lane (ours).
ghost use Rattle.std.specs.Prelude.{◌≡◌, ◌≢◌, ℕ, ◌/◌, ◌%◌, ◌^◌, ◌<◌, length, slice_index};
ghost use Rattle.slh_lanes.specs.Columns.{column};
ghost use Rattle.slh_lanes.specs.LongBlock.{long_word, long_word_of_halves};

use crate::short_lanes::ShortLanes;
use crate::words::{GROUP, Words};
use std::simd::prelude::*;

/// Eight words of 64 bits, one in each lane.
pub(crate) type LongWords = u64x8;

/// A vector in a struct, as `Vector` is.
#[derive(Clone, Copy)]
pub(crate) struct LongVector {
    pub(crate) words: LongWords,
}

// Each word of `p` above that of `q`.
#[inline(always)]
pub(crate) fn long_word(p: Words, q: Words) -> LongWords
    ensures { (j : ℕ) → j < GROUP → slice_index result j ≡ long_word (slice_index p j) (slice_index q j) }
{
    (p.cast::<u64>() << 32) + q.cast::<u64>()
}

// The low half of each word of `p`, the word of `q`, and the high half of that of `r`.
#[inline(always)]
pub(crate) fn long_word_of_halves(p: Words, q: Words, r: Words) -> LongWords
    ensures { (j : ℕ) → j < GROUP → slice_index result j
        ≡ long_word_of_halves (slice_index p j) (slice_index q j) (slice_index r j) }
{
    long_word(p.halves(q), q.halves(r))
}

// The high 32 bits of each word.
#[inline(always)]
pub(crate) fn high_words(x: LongWords) -> Words
    ensures { (j : ℕ) → j < GROUP → slice_index result j ≡ slice_index x j / 2 ^ 32 }
{
    (x >> 32).cast::<u32>()
}

// The low 32 bits of each word.
#[inline(always)]
pub(crate) fn low_words(x: LongWords) -> Words
    ensures { (j : ℕ) → j < GROUP → slice_index result j ≡ slice_index x j % 2 ^ 32 }
{
    ((x << 32) >> 32).cast::<u32>()
}

/// The vector with another word in lane `j`.
fn with_lane(words: LongWords, j: usize, word: u64) -> LongWords
    requires { j < GROUP }
    ensures set { slice_index result j ≡ word }
    ensures others { (i : ℕ) → i ≢ j → slice_index result i ≡ slice_index words i }
{
    let mut lanes = words.to_array();
    lanes[j] = word;
    LongWords::from_array(lanes)
}

/// Puts words into lane `j` of as many vectors.
pub(crate) fn put_words(vectors: &mut [LongWords], j: usize, words: &[u64])
    requires lane { j < GROUP }
    requires len { length words.now ≡ length vectors.old }
    ensures len { length vectors.new ≡ length vectors.old }
    ensures set { column j vectors.new ≡ words.now }
    ensures others { (i : ℕ) → i ≢ j → column i vectors.new ≡ column i vectors.old }
{
    'words: for k in 0..words.len() {
        vectors[k] = with_lane(vectors[k], j, words[k]);
    }
}
