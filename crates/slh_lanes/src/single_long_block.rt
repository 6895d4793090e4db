//! SHA-512's compression of one block, two rounds at a time (FIPS 180-4, section 6.4.2), as the SHA instructions of
//! processors take it.
ghost use Rattle.std.specs.Prelude.{◌≡◌, ℕ, ◌+◌, ◌*◌, ◌%◌, ◌<◌, ◌≤◌, List, slice_index, slice_set};
ghost use Rattle.std.specs.Int.{w64};
ghost use Rattle.sha2.specs.Sha512.{big_sigma0, big_sigma1, round_constants, rounds, schedule, small_sigma0, small_sigma1, word_at};
ghost use Rattle.slh_lanes.specs.Columns.{column};
ghost use Rattle.slh_lanes.specs.Pairs.{eight};
ghost use Rattle.slh_lanes.specs.Sha2.{AreAt, plus, round, window_word};

use crate::constants::K_512;
use crate::instructions::{
    LongState, LongWord, Pair, long_state_of, next_pair, two_rounds, words_of_long,
};
use crate::rounds::Compression;
use crate::single_block::Instructions;

impl Compression<LongWord> for Instructions {
    #[inline(always)]
    fn compress(state: &mut [LongWord; 8], block: &[LongWord; 16]) {
        let from = long_state_of(state);
        let mut w = *block;
        let mut v = first_rounds(from, block);
        'schedule: for turn in 1..5usize {
            v = four_pair_steps(&mut w, v, turn, 0);
            v = four_pair_steps(&mut w, v, turn, 8);
        }
        *state = words_of_long(LongState {
            ab: sum(from.ab, v.ab),
            cd: sum(from.cd, v.cd),
            ef: sum(from.ef, v.ef),
            gh: sum(from.gh, v.gh),
        });
    }
}

/// The sums of the words of two pairs.
#[inline(always)]
fn sum(x: Pair, y: Pair) -> Pair
    ensures { (j : ℕ) → j < 2 → slice_index result j ≡ plus w64 (slice_index x j) (slice_index y j) }
{
    x + y
}

/// Two words one after another, in a ring of sixteen.
#[inline(always)]
fn pair(words: &[LongWord; 16], k: usize) -> Pair
    requires { k < 100 }
    ensures first { slice_index result 0 ≡ slice_index (column 0 words.now) (k % 16) }
    ensures second { slice_index result 1 ≡ slice_index (column 0 words.now) ((k + 1) % 16) }
{
    Pair::from_array([
        words[k % 16].to_array()[0],
        words[(k + 1) % 16].to_array()[0],
    ])
}

/// Rounds `t` and `t + 1`, with their words.
#[inline(always)]
fn pair_rounds(v: LongState, words: Pair, t: usize) -> LongState
    requires { t + 2 ≤ 80 }
    ensures { eight result.ab result.cd result.ef result.gh ≡ round w64 big_sigma0 big_sigma1
        (round w64 big_sigma0 big_sigma1 (eight v.ab v.cd v.ef v.gh) (slice_index round_constants t) (slice_index words 0))
        (slice_index round_constants (t + 1)) (slice_index words 1) }
{
    two_rounds(v, sum(words, Pair::from_array([K_512[t], K_512[t + 1]])))
}

/// Rounds `t` and `t + 1` of the first sixteen, whose words are the block's.
#[inline(always)]
fn first_pair(v: LongState, block: &[LongWord; 16], t: usize) -> LongState
    requires { t + 2 ≤ 16 }
    ensures { (b h : List ℕ) → word_at b (8 * t) ≡ slice_index (column 0 block.now) t
        → word_at b (8 * (t + 1)) ≡ slice_index (column 0 block.now) (t + 1)
        → eight v.ab v.cd v.ef v.gh ≡ rounds h (schedule b 64) t
        → eight result.ab result.cd result.ef result.gh ≡ rounds h (schedule b 64) (t + 2) }
{
    pair_rounds(v, pair(block, t), t)
}

/// The working variables after the first sixteen rounds of a block.
#[inline(always)]
fn first_rounds(from: LongState, block: &[LongWord; 16]) -> LongState
    ensures { (b : List ℕ) → ((k : ℕ) → k < 16 → word_at b (8 * k) ≡ slice_index (column 0 block.now) k)
        → eight result.ab result.cd result.ef result.gh ≡ rounds (eight from.ab from.cd from.ef from.gh) (schedule b 64) 16 }
{
    let v = first_pair(from, block, 0);
    let v = first_pair(v, block, 2);
    let v = first_pair(v, block, 4);
    let v = first_pair(v, block, 6);
    let v = first_pair(v, block, 8);
    let v = first_pair(v, block, 10);
    let v = first_pair(v, block, 12);
    first_pair(v, block, 14)
}

/// The next two words of the schedule, from a ring of the last sixteen, of which the first stands at `place`.
#[inline(always)]
fn next_words(w: &[LongWord; 16], place: usize) -> Pair
    requires { place + 2 ≤ 16 }
    ensures first { slice_index result 0 ≡ window_word w64 small_sigma0 small_sigma1 (column 0 w.now) place }
    ensures second { slice_index result 1 ≡ window_word w64 small_sigma0 small_sigma1
        (slice_set (column 0 w.now) place (slice_index result 0)) (place + 1) }
{
    next_pair(
        pair(w, place),
        pair(w, place + 2),
        pair(w, place + 9),
        pair(w, place + 14),
    )
}

/// Rounds `16 * turn + place` and the next, with their words, which are put into the ring.
#[inline(always)]
fn pair_step(w: &mut [LongWord; 16], v: LongState, turn: usize, place: usize) -> LongState
    requires low { 1 ≤ turn }
    requires high { turn < 5 }
    requires place { place + 2 ≤ 16 }
    ensures { (b h : List ℕ)
        → AreAt (schedule b 64) (column 0 w.old) (rounds h (schedule b 64)) (eight v.ab v.cd v.ef v.gh) (16 * turn + place)
        → AreAt (schedule b 64) (column 0 w.new) (rounds h (schedule b 64)) (eight result.ab result.cd result.ef result.gh)
        (16 * turn + (place + 2)) }
{
    let next = next_words(w, place);
    let [p, q] = next.to_array();
    w[place] = LongWord::splat(p);
    w[place + 1] = LongWord::splat(q);
    pair_rounds(v, next, 16 * turn + place)
}

/// Rounds `16 * turn + place` and the next seven.
#[inline(always)]
fn four_pair_steps(w: &mut [LongWord; 16], v: LongState, turn: usize, place: usize) -> LongState
    requires low { 1 ≤ turn }
    requires high { turn < 5 }
    requires place { place + 8 ≤ 16 }
    ensures { (b h : List ℕ)
        → AreAt (schedule b 64) (column 0 w.old) (rounds h (schedule b 64)) (eight v.ab v.cd v.ef v.gh) (16 * turn + place)
        → AreAt (schedule b 64) (column 0 w.new) (rounds h (schedule b 64)) (eight result.ab result.cd result.ef result.gh)
        (16 * turn + (place + 8)) }
{
    let v = pair_step(w, v, turn, place);
    let v = pair_step(w, v, turn, place + 2);
    let v = pair_step(w, v, turn, place + 4);
    pair_step(w, v, turn, place + 6)
}
