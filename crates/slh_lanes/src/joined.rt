//! Two groups of eight lanes as sixteen, of which the first are the lanes of the first group (ours).
ghost use Rattle.std.specs.Prelude.{◌≡◌, ℕ, ◌+◌, ◌*◌, ◌<◌, slice_index};
ghost use Rattle.slh_lanes.specs.Columns.{column};
ghost use Rattle.slh_lanes.specs.Lanes.{group};

use crate::lane_adrs::LaneAdrs;
use crate::lane_nodes::LaneNodes;
use crate::part::{Part, part_of_eight, with_eight, with_six};
use crate::words::{GROUP, Words};
use std::simd::prelude::*;

/// The words of two groups.
pub(crate) type TwoWords = u32x16;

/// The addresses of a batch of two groups.
#[inline(always)]
pub(crate) fn join_adrs<const G: usize>(batch: &[LaneAdrs; G]) -> [TwoWords; 6]
    requires { G ≡ 2 }
    ensures { (g j : ℕ) → g < G → j < GROUP → column (GROUP * g + j) result ≡ column j (group batch.now g) }
{
    let first = with_six(&[TwoWords::splat(0); 6], &batch[0], 0);
    with_six(&first, &batch[1], GROUP)
}

/// The values of a batch of two groups.
#[inline(always)]
pub(crate) fn join_nodes<const G: usize>(batch: &[LaneNodes; G]) -> [TwoWords; 8]
    requires { G ≡ 2 }
    ensures { (g j : ℕ) → g < G → j < GROUP → column (GROUP * g + j) result ≡ column j (group batch.now g) }
{
    let first = with_eight(&[TwoWords::splat(0); 8], &batch[0], 0);
    with_eight(&first, &batch[1], GROUP)
}

/// The words of a batch of two groups.
#[inline(always)]
pub(crate) fn join_words<const G: usize>(batch: &[Words; G]) -> TwoWords
    requires { G ≡ 2 }
    ensures { (g j : ℕ) → g < G → j < GROUP
        → slice_index result (GROUP * g + j) ≡ slice_index (group batch.now g) j }
{
    let first = batch[0].put(TwoWords::splat(0), 0);
    batch[1].put(first, GROUP)
}

/// Writes the values of both groups into a batch of two.
#[inline(always)]
pub(crate) fn split_nodes<const G: usize>(nodes: &[TwoWords; 8], batch: &mut [LaneNodes; G])
    requires { G ≡ 2 }
    ensures { (g j : ℕ) → g < G → j < GROUP → column j (group batch.new g) ≡ column (GROUP * g + j) nodes.now }
{
    batch[0] = part_of_eight(nodes, 0);
    batch[1] = part_of_eight(nodes, GROUP);
}
