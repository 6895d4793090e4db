//! Rows about F, PRF, H, T, chains and SHA-256's compression in eight lanes (FIPS 205, section 11.2).
ghost use Rattle.std.specs.Prelude.{◌<◌};

use crate::params::adrs_of;
use crate::row::Row;
use slh_lanes::{
    GROUP, LaneAdrs, LaneNodes, LaneStream, SeededLanes, Words, adrs_lanes, compress, consecutive,
    lane_node, node_lanes, set_chains, set_hashes, set_lane,
};
use slh_params::{Adrs, ParamSet};

/// Eight numbers, of which the next field is the first.
fn numbers_from(row: &mut Row) -> Words {
    consecutive(row.below((1 << 32) - 7) as u32)
}

/// The numbers from the last lane to the first.
fn backwards(numbers: Words) -> Words {
    let [a, b, c, d, e, f, g, h] = numbers.to_array();
    Words::from_array([h, g, f, e, d, c, b, a])
}

/// The address with these chains and hashes in place of its last two words.
fn lane_adrs(adrs: &Adrs, chains: Words, hashes: Words) -> LaneAdrs {
    let mut lanes = adrs_lanes(adrs);
    set_chains(&mut lanes, chains);
    set_hashes(&mut lanes, hashes);
    lanes
}

/// An address, and in place of its last two words eight chains and eight hashes, each by the first of them.
fn adrs_of_lanes(row: &mut Row) -> LaneAdrs {
    let adrs = adrs_of(row);
    lane_adrs(&adrs, numbers_from(row), numbers_from(row))
}

/// The nodes from the last lane to the first.
#[tactic(auto, using(slh_params::proofs::Bounds::n_high, slh_lanes::proofs::NodeLengths::n_whole))]
fn nodes_backwards(nodes: &LaneNodes, set: ParamSet) -> LaneNodes {
    let mut turned = node_lanes(&[]);
    for j in 0..GROUP {
        set_lane(&mut turned, j, &lane_node(nodes, GROUP - 1 - j, set.n()));
    }
    turned
}

/// The nodes of the two groups are equal, lane by lane.
fn are_same(row: &mut Row, x: &LaneNodes, y: &LaneNodes, set: ParamSet) {
    for j in 0..GROUP {
        let (x_node, y_node) = (lane_node(x, j, set.n()), lane_node(y, j, set.n()));
        row.is_true(x_node.as_slice() == y_node.as_slice());
    }
}

/// The next eight fields, nodes.
#[tactic(auto, using(slh_params::proofs::Bounds::n_high, slh_lanes::proofs::NodeLengths::n_whole))]
fn nodes_of(row: &mut Row, set: ParamSet) -> LaneNodes {
    let mut nodes = node_lanes(&[]);
    for j in 0..GROUP {
        set_lane(&mut nodes, j, &row.node(set));
    }
    nodes
}

/// The next eight fields are these nodes.
fn are_nodes(row: &mut Row, nodes: &LaneNodes, set: ParamSet) {
    for j in 0..GROUP {
        row.is_bytes(&lane_node(nodes, j, set.n()));
    }
}

/// A set, PK.seed, eight addresses, eight nodes; F in each lane.
pub fn lanes_f(row: &mut Row) {
    let set = row.set();
    let pk_seed = row.bytes();
    let adrs = adrs_of_lanes(row);
    let mut batch = [nodes_of(row, set)];
    let Some(lanes) = SeededLanes::new(set, &pk_seed) else {
        return row.refuse();
    };
    lanes.f(&[adrs], &mut batch);
    are_nodes(row, &batch[0], set);
}

/// A set, PK.seed, SK.seed, eight addresses; PRF in each lane of a batch of one group, and of two.
pub fn lanes_prf(row: &mut Row) {
    let set = row.set();
    let (pk_seed, sk_seed) = (row.bytes(), row.bytes());
    let Some(lanes) = SeededLanes::new(set, &pk_seed) else {
        return row.refuse();
    };
    if sk_seed.len() != set.n() {
        return row.refuse();
    }
    let at = adrs_of(row);
    let chains = numbers_from(row);
    let hashes = numbers_from(row);
    let adrs = lane_adrs(&at, chains, hashes);
    let second = lane_adrs(&at, backwards(chains), backwards(hashes));
    let [secrets] = lanes.prf(&sk_seed, &[adrs]);
    are_nodes(row, &secrets, set);
    let [x, y] = lanes.prf(&sk_seed, &[adrs, second]);
    are_same(row, &x, &secrets, set);
    are_same(row, &nodes_backwards(&y, set), &secrets, set);
}

/// A set, PK.seed, eight addresses, eight left nodes, eight right ones; H in each lane.
pub fn lanes_h(row: &mut Row) {
    let set = row.set();
    let pk_seed = row.bytes();
    let adrs = adrs_of_lanes(row);
    let (mut left, right) = ([nodes_of(row, set)], [nodes_of(row, set)]);
    let Some(lanes) = SeededLanes::new(set, &pk_seed) else {
        return row.refuse();
    };
    lanes.h(&[adrs], &mut left, &right);
    are_nodes(row, &left[0], set);
}

/// A set, PK.seed, eight addresses, a number of nodes, eight nodes, eight others; T in each lane of so many nodes,
/// which are its node of the first eight and that of the others by turns.
pub fn lanes_t(row: &mut Row) {
    let set = row.set();
    let pk_seed = row.bytes();
    let adrs = adrs_of_lanes(row);
    let count = row.below(1 << 20);
    let (first, other) = (nodes_of(row, set), nodes_of(row, set));
    let Some(lanes) = SeededLanes::new(set, &pk_seed) else {
        return row.refuse();
    };
    let mut stream = LaneStream::new(&lanes, &adrs);
    for i in 0..count {
        stream.absorb(if i % 2 == 0 { &first } else { &other });
    }
    are_nodes(row, &stream.finish(), set);
}

/// A set, PK.seed, eight addresses, eight nodes; the chains run on from the nodes after 2 steps, for 13 steps, in a
/// batch of one group and of two, and after 0, 3, 0, 14, 200, 15, 1 and 7 steps, for 0, 1, 15, 1, 55, 0, 2 and 8 steps.
pub fn lanes_chains(row: &mut Row) {
    let set = row.set();
    let pk_seed = row.bytes();
    let Some(lanes) = SeededLanes::new(set, &pk_seed) else {
        return row.refuse();
    };
    let at = adrs_of(row);
    let chains = numbers_from(row);
    let hashes = numbers_from(row);
    let adrs = lane_adrs(&at, chains, hashes);
    let second = lane_adrs(&at, backwards(chains), backwards(hashes));
    let x = nodes_of(row, set);
    let mut ends = [x];
    lanes.chains(&[adrs], &mut ends, 2, 13);
    are_nodes(row, &ends[0], set);
    let mut both = [x, nodes_backwards(&x, set)];
    lanes.chains(&[adrs, second], &mut both, 2, 13);
    are_same(row, &both[0], &ends[0], set);
    are_same(row, &nodes_backwards(&both[1], set), &ends[0], set);
    let from = Words::from_array([0, 3, 0, 14, 200, 15, 1, 7]);
    let counts = Words::from_array([0, 1, 15, 1, 55, 0, 2, 8]);
    let mut each = [x];
    lanes.chains_each(&[adrs], &mut each, &[from], &[counts]);
    are_nodes(row, &each[0], set);
}

/// A hash value, a block; the hash value after it, in each lane while the others' blocks are zeros.
pub fn lanes_compress(row: &mut Row) {
    let (state, block, after) = (row.bytes(), row.bytes(), row.bytes());
    if state.len() != 32 || block.len() != 64 {
        return row.refuse();
    }
    let mut bytes = [0; 64];
    bytes.copy_from_slice(&block);
    for j in 0..GROUP {
        let mut states = node_lanes(&state);
        compress(&mut states, &block_in(j, &bytes));
        row.is_true(lane_node(&states, j, 32).as_slice() == after.as_slice());
    }
}

/// A block in lane `j`, and zeros in the others.
fn block_in(j: usize, block: &[u8; 64]) -> [Words; 16]
    requires { j < GROUP }
{
    let (mut first, mut last) = (node_lanes(&[]), node_lanes(&[]));
    set_lane(&mut first, j, &block[..32]);
    set_lane(&mut last, j, &block[32..]);
    let mut words = [Words::splat(0); 16];
    words[..8].copy_from_slice(&first);
    words[8..].copy_from_slice(&last);
    words
}
