//! Bytes to words of lanes and back, high byte first (FIPS 180-4, section 3.1).
ghost use Rattle.std.specs.Prelude.{◌≡◌, ℕ, ◌+◌, ◌*◌, ◌^◌, ◌<◌, ◌≤◌, length, slice_index};
ghost use Rattle.std.specs.Int.{to_be_bytes};
ghost use Rattle.sha2.specs.Sha256.{digest_bytes, word_at};
ghost use Rattle.sha2.specs.Sha512.{word_at as long_word_at};
ghost use Rattle.slh_lanes.specs.Columns.{column};

use crate::long_words::LongWords;
use crate::words::{GROUP, Words};

/// The word at byte `i`.
#[inline(always)]
pub(crate) fn load_be(bytes: &[u8], i: usize) -> u32
    requires { i + 4 ≤ length bytes.now }
    ensures { result ≡ word_at bytes.now i }
{
    u32::from_be_bytes([bytes[i], bytes[i + 1], bytes[i + 2], bytes[i + 3]])
}

/// The words of the bytes, each in all eight lanes.
#[inline(always)]
pub(crate) fn load_all(words: &mut [Words], bytes: &[u8])
    requires { 4 * length words.old ≤ length bytes.now }
    ensures len { length words.new ≡ length words.old }
    ensures words { (j : ℕ) → j < GROUP → (k : ℕ) → k < length words.old
        → slice_index (column j words.new) k ≡ word_at bytes.now (4 * k) }
    ensures bytes { (k : ℕ) → slice_index bytes.now k < 2 ^ 8 }
{
    'words: for k in 0..words.len() {
        words[k] = Words::splat(load_be(bytes, 4 * k));
    }
}

/// The word of 64 bits at byte `i`.
#[inline(always)]
pub(crate) fn load_be_long(bytes: &[u8], i: usize) -> u64
    requires { i + 8 ≤ length bytes.now }
    ensures { result ≡ long_word_at bytes.now i }
{
    u64::from_be_bytes([
        bytes[i],
        bytes[i + 1],
        bytes[i + 2],
        bytes[i + 3],
        bytes[i + 4],
        bytes[i + 5],
        bytes[i + 6],
        bytes[i + 7],
    ])
}

/// The words of 64 bits of the bytes, each in all eight lanes.
#[inline(always)]
pub(crate) fn load_all_long(words: &mut [LongWords], bytes: &[u8])
    requires { 8 * length words.old ≤ length bytes.now }
    ensures len { length words.new ≡ length words.old }
    ensures words { (j : ℕ) → j < GROUP → (k : ℕ) → k < length words.old
        → slice_index (column j words.new) k ≡ long_word_at bytes.now (8 * k) }
{
    'words: for k in 0..words.len() {
        words[k] = LongWords::splat(load_be_long(bytes, 8 * k));
    }
}

/// Writes the bytes of lane `j`.
#[inline(always)]
pub(crate) fn store_lane(words: &[Words], j: usize, out: &mut [u8])
    requires lane { j < GROUP }
    requires out { length out.old ≡ 4 * length words.now }
    ensures { out.new ≡ digest_bytes (column j words.now) (length words.now) }
{
    'words: for k in 0..words.len() {
        let lanes = words[k].to_array();
        out[4 * k..4 * k + 4].copy_from_slice(&lanes[j].to_be_bytes());
    }
}
