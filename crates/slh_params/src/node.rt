//! Nodes: hash values of n bytes (FIPS 205, section 2.3).
ghost use Rattle.std.specs.Prelude.{◌≡◌, ◌+◌, ◌≤◌, ◌++◌, length, take, drop};

use arrayvec::ArrayVec;

/// A hash value of n bytes, 16, 24 or 32: a node of a tree, a value of a chain, a secret.
pub type Node = ArrayVec<u8, 32>;

/// The node of these bytes, at most 32.
pub fn node_of(bytes: &[u8]) -> Node
    requires { length bytes.now ≤ 32 }
    ensures { result.items ≡ bytes.now }
{
    let mut node = Node::new();
    let _ = node.try_extend_from_slice(bytes);
    node
}

/// A copy of the node.
pub fn copy_of(node: &Node) -> Node
    ensures { result.items ≡ node.now.items }
{
    // For the prover: a node has at most 32 bytes.
    let _fits = node.len();
    node_of(node.as_slice())
}

/// Writes the node's bytes into `out` from `start` on, and changes no other byte.
pub fn put_node(out: &mut [u8], start: usize, node: &Node)
    requires { start + length node.now.items ≤ length out.old }
    ensures written { take (start + length node.now.items) out.new ≡ take start out.old ++ node.now.items }
    ensures behind { drop (start + length node.now.items) out.new ≡ drop (start + length node.now.items) out.old }
{
    let end = start + node.len();
    out[start..end].copy_from_slice(node);
}
