//! The chains of a WOTS+ key eight at a time, one in each lane, with their checkpoints (FIPS 205, Algorithm 6).
ghost use Rattle.std.specs.Prelude.{◌≡◌, ◌≢◌, ℕ, ◌+◌, ◌*◌, ◌≤◌, ◌<◌, length};
ghost use Rattle.slh_params.specs.Params.{len};
ghost use Rattle.slh_params.specs.ParamSet.{params};
ghost use Rattle.slh_lanes.specs.Lanes.{value_at};
ghost use Rattle.slh_few.specs.KeyCheckpoints.{checkpoint_count as checkpoint_count_of, chain_checkpoints_len as chain_len, key_checkpoints_len as chains_len, checkpoint, key_checkpoints};
ghost use Rattle.slh_few.specs.Chunks.{end_to_end, chunk};
ghost use Rattle.slh_few.specs.Wots.{whole_chain};

use crate::key_checkpoints::{checkpoint_count, put_checkpoint, spacing};
use crate::lanes::chains::{put_lanes, run_alike, secret_lanes};
use crate::place::Place;
use slh_lanes::{GROUP, LaneNodes, SeededLanes, consecutive, lane_node};
use slh_params::ParamSet;

/// Writes checkpoint `j` of the chains from `c` on, from the first `used` lanes.
fn put_lane_checkpoints(
    set: ParamSet,
    checkpoints: &mut [u8],
    c: usize,
    j: usize,
    nodes: &LaneNodes,
    used: usize,
)
    requires checkpoints { length checkpoints.old ≡ chains_len (params set) }
    requires lanes { used ≤ GROUP }
    requires chains { c + used ≤ len (params set) }
    requires number { j < checkpoint_count_of (params set) }
    ensures set { (i : ℕ) → i < used → chunk (params set).n (chunk (chain_len (params set)) checkpoints.new (c + i)) j
        ≡ value_at nodes.now i (params set).n }
    ensures others { (d i : ℕ) → i ≢ j → chunk (params set).n (chunk (chain_len (params set)) checkpoints.new d) i
        ≡ chunk (params set).n (chunk (chain_len (params set)) checkpoints.old d) i }
    ensures chains { (d : ℕ) → d < c → chunk (chain_len (params set)) checkpoints.new d
        ≡ chunk (chain_len (params set)) checkpoints.old d }
{
    for i in 0..used {
        put_checkpoint(set, checkpoints, c + i, j, &lane_node(nodes, i, set.n()));
    }
}

/// Writes the checkpoints of the chains from `c` on, as many as `used`, and returns the ends of these chains.
fn run_group_with_checkpoints(
    lanes: &SeededLanes,
    sk_seed: &[u8],
    at: Place,
    c: usize,
    used: usize,
    checkpoints: &mut [u8],
) -> LaneNodes
    requires sk_seed { length sk_seed.now ≡ (params lanes.now.set).n }
    requires used { used ≤ GROUP }
    requires chains { c + used ≤ len (params lanes.now.set) }
    requires checkpoints { length checkpoints.old ≡ chains_len (params lanes.now.set) }
    ensures ends { let p = params lanes.now.set in (j : ℕ) → j < GROUP
        → value_at result j p.n ≡ whole_chain p sk_seed.now lanes.now.pk_seed.now at (c + j) }
    ensures checkpoints { let p = params lanes.now.set in (i j : ℕ) → i < used → j < checkpoint_count_of p
        → chunk p.n (chunk (chain_len p) checkpoints.new (c + i)) j
        ≡ checkpoint p sk_seed.now lanes.now.pk_seed.now at (c + i) j }
    ensures before { let p = params lanes.now.set in (d : ℕ) → d < c
        → chunk (chain_len p) checkpoints.new d ≡ chunk (chain_len p) checkpoints.old d }
{
    let every = spacing(lanes.set);
    let last = checkpoint_count(lanes.set) - 1;
    let group = consecutive(c as u32).to_array();
    let mut nodes = secret_lanes(lanes, sk_seed, at, &group);
    for j in 0..last {
        put_lane_checkpoints(lanes.set, checkpoints, c, j as usize, &nodes, used);
        nodes = run_alike(lanes, at, &group, &nodes, j * every, every);
    }
    put_lane_checkpoints(lanes.set, checkpoints, c, last as usize, &nodes, used);
    run_alike(lanes, at, &group, &nodes, last * every, every - 1)
}

/// Runs all chains of the key at a place from their secrets to their ends, and writes the ends. Into `checkpoints` it
/// writes the checkpoints of the chains, `key_checkpoints_len` bytes.
#[tactic(auto, using(crate::proofs::Checksum::chain_bounds))]
pub(crate) fn run_with_checkpoints(
    lanes: &SeededLanes,
    sk_seed: &[u8],
    at: Place,
    checkpoints: &mut [u8],
    ends: &mut [u8],
)
    requires sk_seed { length sk_seed.now ≡ (params lanes.now.set).n }
    requires checkpoints { length checkpoints.old ≡ chains_len (params lanes.now.set) }
    requires ends { length ends.old ≡ len (params lanes.now.set) * (params lanes.now.set).n }
    ensures checkpoints { let p = params lanes.now.set in let sk_seed = sk_seed.now in
        let pk_seed = lanes.now.pk_seed.now in
        checkpoints.new ≡ key_checkpoints p sk_seed pk_seed at }
    ensures ends { let p = params lanes.now.set in let sk_seed = sk_seed.now in
        let pk_seed = lanes.now.pk_seed.now in
        ends.new ≡ end_to_end (whole_chain p sk_seed pk_seed at) (len p) }
{
    let n = lanes.set.n();
    let count = lanes.set.len();
    for group in 0..count.div_ceil(GROUP) {
        let c = GROUP * group;
        let used = (count - c).min(GROUP);
        let nodes = run_group_with_checkpoints(lanes, sk_seed, at, c, used, checkpoints);
        put_lanes(ends, n, &consecutive(c as u32).to_array(), &nodes, used);
    }
}
