//! Eight nodes of n bytes, one in each lane (ours).
ghost use Rattle.std.specs.Prelude.{◌≡◌, ◌≢◌, ℕ, ◌+◌, ◌*◌, ◌<◌, ◌≤◌, ◌%◌, ◌++◌, length, slice_index};
ghost use Rattle.slh_lanes.specs.Columns.{column};
ghost use Rattle.slh_lanes.specs.Lanes.{value_at};

use crate::bytes::{load_all, load_be, store_lane};
use crate::words::{GROUP, Words, evens, odds, pick, with_lane};
use slh_params::{Node, node_of};

/// Eight values of n bytes, one in each lane: of eight words the first, as many as n bytes fill.
pub type LaneNodes = [Words; 8];

/// One value in all eight lanes, and zeros behind it.
pub fn node_lanes(value: &[u8]) -> LaneNodes
    requires few { length value.now ≤ 32 }
    requires whole { length value.now % 4 ≡ 0 }
    ensures value { (j : ℕ) → j < GROUP → value_at result j (length value.now) ≡ value.now }
    ensures behind { (j k : ℕ) → j < GROUP → k < 8 → length value.now ≤ 4 * k → slice_index (column j result) k ≡ 0 }
{
    let mut lanes = [Words::splat(0); 8];
    load_all(&mut lanes[..value.len() / 4], value);
    lanes
}

/// Puts a value into lane `j`. The bytes after it stay.
pub fn set_lane(nodes: &mut LaneNodes, j: usize, value: &[u8])
    requires lane { j < GROUP }
    requires few { length value.now ≤ 32 }
    requires whole { length value.now % 4 ≡ 0 }
    ensures set { value_at nodes.new j (length value.now) ≡ value.now }
    ensures behind { (k : ℕ) → length value.now ≤ 4 * k
        → slice_index (column j nodes.new) k ≡ slice_index (column j nodes.old) k }
    ensures others { (i n : ℕ) → i ≢ j → value_at nodes.new i n ≡ value_at nodes.old i n }
{
    'words: for k in 0..value.len() / 4 {
        nodes[k] = with_lane(nodes[k], j, load_be(value, 4 * k));
    }
}

/// The value of n bytes in lane `j`.
pub fn lane_node(nodes: &LaneNodes, j: usize, n: usize) -> Node
    requires lane { j < GROUP }
    requires few { n ≤ 32 }
    ensures value { result.items ≡ value_at nodes.now j n }
    ensures len { length result.items ≡ n }
{
    let mut bytes = [0; 32];
    store_lane(nodes, j, &mut bytes);
    node_of(&bytes[..n])
}

/// Two values of 16 bytes end to end in each lane.
#[inline(always)]
pub(crate) fn two_short(left: &LaneNodes, right: &LaneNodes) -> LaneNodes
    ensures { (j : ℕ) → j < GROUP → value_at result j 32 ≡ value_at left.now j 16 ++ value_at right.now j 16 }
{
    [
        left[0], left[1], left[2], left[3], right[0], right[1], right[2], right[3],
    ]
}

/// The first, the third and so on of the sixteen values in two times eight lanes.
pub fn even_lanes(left: &LaneNodes, right: &LaneNodes) -> LaneNodes
    ensures low { (j n : ℕ) → j < 4 → value_at result j n ≡ value_at left.now (2 * j) n }
    ensures high { (j n : ℕ) → j < 4 → value_at result (j + 4) n ≡ value_at right.now (2 * j) n }
{
    [
        evens(left[0], right[0]),
        evens(left[1], right[1]),
        evens(left[2], right[2]),
        evens(left[3], right[3]),
        evens(left[4], right[4]),
        evens(left[5], right[5]),
        evens(left[6], right[6]),
        evens(left[7], right[7]),
    ]
}

/// The second, the fourth and so on of the sixteen values in two times eight lanes.
pub fn odd_lanes(left: &LaneNodes, right: &LaneNodes) -> LaneNodes
    ensures low { (j n : ℕ) → j < 4 → value_at result j n ≡ value_at left.now (2 * j + 1) n }
    ensures high { (j n : ℕ) → j < 4 → value_at result (j + 4) n ≡ value_at right.now (2 * j + 1) n }
{
    [
        odds(left[0], right[0]),
        odds(left[1], right[1]),
        odds(left[2], right[2]),
        odds(left[3], right[3]),
        odds(left[4], right[4]),
        odds(left[5], right[5]),
        odds(left[6], right[6]),
        odds(left[7], right[7]),
    ]
}

/// In each lane the value of `x` if the number `a` is below `b`, else the value of `y`.
#[inline(always)]
pub fn pick_nodes(a: Words, b: Words, x: &LaneNodes, y: &LaneNodes) -> LaneNodes
    ensures below { (j n : ℕ) → j < GROUP → slice_index a j < slice_index b j → value_at result j n ≡ value_at x.now j n }
    ensures others { (j n : ℕ) → j < GROUP → slice_index b j ≤ slice_index a j → value_at result j n ≡ value_at y.now j n }
{
    [
        pick(a, b, x[0], y[0]),
        pick(a, b, x[1], y[1]),
        pick(a, b, x[2], y[2]),
        pick(a, b, x[3], y[3]),
        pick(a, b, x[4], y[4]),
        pick(a, b, x[5], y[5]),
        pick(a, b, x[6], y[6]),
        pick(a, b, x[7], y[7]),
    ]
}
