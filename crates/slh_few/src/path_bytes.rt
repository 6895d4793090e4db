//! Authentication paths as bytes of a signature (FIPS 205, sections 6 and 8.3).
ghost use Rattle.std.specs.Prelude.{◌≡◌, ℕ, ◌+◌, ◌*◌, ◌<◌, ◌≤◌, ◌++◌, length, take};
ghost use Rattle.slh_few.specs.Chunks.{end_to_end};
ghost use Rattle.slh_few.specs.Paths.{node_bytes};

use slh_params::put_node;
use slh_tree::PathRec;

/// Writes the path's node of height `z` from `start` on, where it is known.
fn put_known_node(path: &PathRec, z: u32, out: &mut [u8], start: usize)
    requires { start + length (node_bytes path.now z) ≤ length out.old }
    ensures { take (start + length (node_bytes path.now z)) out.new
        ≡ take start out.old ++ node_bytes path.now z }
{
    if let Some(node) = path.at(z) {
        put_node(out, start, node);
    }
}

/// Writes the nodes of a path end to end, from the lowest to the one below `height`, each of n bytes.
pub fn put_known_nodes(path: &PathRec, height: u32, n: usize, out: &mut [u8])
    requires nodes { (j : ℕ) → j < height → length (node_bytes path.now j) ≡ n }
    requires out { length out.old ≡ height * n }
    ensures { out.new ≡ end_to_end (node_bytes path.now) height }
{
    for z in 0..height {
        put_known_node(path, z, out, z as usize * n);
    }
}
