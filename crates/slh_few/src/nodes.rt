//! Nodes as byte strings, and as chunks of them (ours).
ghost use Rattle.std.specs.Prelude.{◌≡◌, ◌≢◌, ℕ, ◌+◌, ◌*◌, ◌≤◌, length};
ghost use Rattle.slh_params.specs.Bits.{AllBytes};
ghost use Rattle.slh_few.specs.LaneValues.{HasValues};
ghost use Rattle.slh_few.specs.Chunks.{chunk};

use slh_lanes::{GROUP, LaneNodes, lane_node};
use slh_params::{Node, node_of};
use slh_tree::Leaves;

/// Chunk number `index` of the bytes, which are chunks of one size.
pub(crate) fn chunk_at(bytes: &[u8], size: usize, index: usize) -> &[u8]
    requires { index * size + size ≤ length bytes.now }
    ensures value { result.now ≡ chunk size bytes.now index }
    ensures len { length result.now ≡ size }
{
    let start = index * size;
    &bytes[start..start + size]
}

/// Node number `index` of the bytes, which are nodes of one size.
pub(crate) fn node_at(bytes: &[u8], size: usize, index: usize) -> Node
    requires size { size ≤ 32 }
    requires within { index * size + size ≤ length bytes.now }
    ensures value { result.items ≡ chunk size bytes.now index }
    ensures len { length result.items ≡ size }
{
    node_of(chunk_at(bytes, size, index))
}

/// Writes chunk number `index` of the bytes, which are chunks of one size.
pub(crate) fn put_chunk(bytes: &mut [u8], size: usize, index: usize, value: &[u8])
    requires within { index * size + size ≤ length bytes.old }
    requires value { length value.now ≡ size }
    ensures set { chunk size bytes.new index ≡ value.now }
    ensures others { (i : ℕ) → i ≢ index → chunk size bytes.new i ≡ chunk size bytes.old i }
{
    let start = index * size;
    bytes[start..start + size].copy_from_slice(value);
}

/// The node's bytes.
pub(crate) fn bytes_of(node: &Node) -> &[u8]
    ensures value { result.now ≡ node.now.items }
    ensures bytes { AllBytes node.now.items }
{
    let bytes = node.as_slice();
    // For the prover: what a node holds are bytes.
    let _count = bytes.len();
    bytes
}

/// The values of n bytes in the first `count` lanes.
pub(crate) fn first_nodes(nodes: &LaneNodes, n: usize, count: usize) -> Leaves
    requires n { n ≤ 32 }
    requires lanes { count ≤ GROUP }
    ensures len { length result.items ≡ count }
    ensures values { HasValues result.items nodes.now n }
{
    let mut values = Leaves::new();
    for j in 0..count {
        values.push(lane_node(nodes, j, n));
    }
    values
}
