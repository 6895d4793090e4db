//! Eight blocks of SHA-256 or SHA-512 at once (FIPS 180-4, sections 6.2.2 and 6.4.2), in vectors of as many lanes as the
//! build has.
ghost use Rattle.std.specs.Prelude.{◌≡◌, ◌⊎◌, ℕ, ◌+◌, ◌<◌, ◌≤◌, List, slice_index};
ghost use Rattle.sha2.specs.Sha256.{compress, digest_bytes};
ghost use Rattle.sha2.specs.Sha512.{compress as compress_long};
ghost use Rattle.slh_lanes.specs.Columns.{column, lane_column, HasWords};
ghost use Rattle.slh_lanes.specs.LongBlock.{HasLongWords};
ghost use Rattle.slh_lanes.specs.Room.{HasRoom};

use crate::instructions::{LongWord, Word};
use crate::lanes::Lanes;
use crate::long_words::LongWords;
use crate::part::{Part, part_of_eight, part_of_sixteen, with_eight};
use crate::rounds::{self, Compression, Rounds};
use crate::short_lanes::tell_all;
use crate::single_block::Instructions;
use crate::words::{GROUP, Words};
use slh_width::{Width, build_widths};
use std::simd::prelude::*;

/// Eight compressions of SHA-256 at once: column `j` of the state takes in the block whose words are column `j` of
/// `block`.
pub fn compress(state: &mut [Words; 8], block: &[Words; 16])
    ensures words { (j : ℕ) → j < GROUP → (b : List ℕ) → HasWords b (column j block.now)
        → column j state.new ≡ compress (column j state.old) b }
    ensures bytes { (j : ℕ) → j < GROUP
        → column j state.new ≡ compress (column j state.old) (digest_bytes (column j block.now) 16) }
{
    tell_all(block);
    compress_eight(state, block);
}

/// The same for blocks of any words.
fn compress_eight(state: &mut [Words; 8], block: &[Words; 16])
    ensures { (j : ℕ) → j < GROUP → (b : List ℕ) → HasWords b (column j block.now)
        → column j state.new ≡ compress (column j state.old) b }
{
    match build_widths().short {
        Width::One => compress_singles::<Rounds>(state, block),
        Width::Instructions => compress_singles::<Instructions>(state, block),
        Width::Four => {
            compress_part::<Words, u32x4, Rounds>(state, block, 0);
            compress_part::<Words, u32x4, Rounds>(state, block, 4);
        }
        Width::Eight | Width::Sixteen => rounds::compress(state, block),
    }
}

/// Eight compressions of SHA-256, one after another.
fn compress_singles<C: Compression<Word>>(state: &mut [Words; 8], block: &[Words; 16])
    ensures { (j : ℕ) → j < GROUP → (b : List ℕ) → HasWords b (column j block.now)
        → column j state.new ≡ compress (column j state.old) b }
{
    'lanes: for lane in 0..GROUP {
        compress_part::<Words, Word, C>(state, block, lane);
    }
}

/// Eight compressions of SHA-512 at once: column `j` of the state takes in the block whose words are column `j` of
/// `block`.
pub(crate) fn compress_long(state: &mut [LongWords; 8], block: &[LongWords; 16])
    ensures { (j : ℕ) → j < GROUP → (b : List ℕ) → HasLongWords b (column j block.now)
        → column j state.new ≡ compress_long (column j state.old) b }
{
    match build_widths().long {
        Width::One => compress_long_singles::<Rounds>(state, block),
        Width::Instructions => compress_long_singles::<Instructions>(state, block),
        Width::Four => {
            compress_part::<LongWords, u64x4, Rounds>(state, block, 0);
            compress_part::<LongWords, u64x4, Rounds>(state, block, 4);
        }
        Width::Eight | Width::Sixteen => rounds::compress(state, block),
    }
}

/// Eight compressions of SHA-512, one after another.
fn compress_long_singles<C: Compression<LongWord>>(
    state: &mut [LongWords; 8],
    block: &[LongWords; 16],
)
    ensures { (j : ℕ) → j < GROUP → (b : List ℕ) → HasLongWords b (column j block.now)
        → column j state.new ≡ compress_long (column j state.old) b }
{
    'lanes: for lane in 0..GROUP {
        compress_part::<LongWords, LongWord, C>(state, block, lane);
    }
}

/// The compressions in the lanes from `first` on.
fn compress_part<G: Lanes, W: Part<G>, C: Compression<W>>(
    state: &mut [G; 8],
    block: &[G; 16],
    first: usize,
)
    requires room { HasRoom W.row }
    requires lanes { first + W.LANES ≤ G.LANES }
    ensures words { (j : ℕ) → j < W.LANES → (b : List ℕ)
        → ((k : ℕ) → k < 16 → W.word b k ≡ slice_index (lane_column G.lane (first + j) block.now) k)
        → lane_column G.lane (first + j) state.new ≡ W.compress (lane_column G.lane (first + j) state.old) b }
    ensures others { (i : ℕ) → (i < first) ⊎ (first + W.LANES ≤ i)
        → lane_column G.lane i state.new ≡ lane_column G.lane i state.old }
{
    let mut part = part_of_eight::<G, W>(state, first);
    C::compress(&mut part, &part_of_sixteen::<G, W>(block, first));
    *state = with_eight(state, &part, first);
}
