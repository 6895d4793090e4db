//! The chains of a WOTS+ key eight at a time, one in each lane (FIPS 205, section 5).
ghost use Rattle.std.specs.Prelude.{◌≡◌, ℕ, List, ◌+◌, ◌*◌, ◌%◌, ◌≤◌, ◌<◌, length, slice_index};
ghost use Rattle.slh_params.specs.AdrsType.{type_number};
ghost use Rattle.slh_params.specs.Params.{Params, len};
ghost use Rattle.slh_params.specs.ParamSet.{params};
ghost use Rattle.slh_lanes.specs.Lanes.{HasAddress, value_at};
ghost use Rattle.slh_few.specs.Chunks.{end_to_end, chunk};
ghost use Rattle.slh_few.specs.Wots.{wots_address, chain as chain_of, secret};

use crate::lanes::chain_queue::by_steps;
use crate::lanes::running_chains::numbers_of;
use crate::nodes::{chunk_at, put_chunk};
use crate::place::Place;
use crate::wots::{MOST_STEPS, wots_adrs};
use slh_lanes::{
    GROUP, LaneAdrs, LaneNodes, SeededLanes, Words, adrs_lanes, lane_node, node_lanes, set_chains,
    set_lane,
};
use slh_params::AdrsType;

/// At least as many numbers as a key has chains in any set, 133, and whole groups.
pub(crate) const MOST_DIGITS: usize = 17 * GROUP;

/// A number for each chain of a key, with others after them up to a whole group of eight.
pub(crate) type ChainNumbers = [u32; MOST_DIGITS];

/// The numbers of eight chains, one for each lane.
pub(crate) type ChainGroup = [u32; GROUP];

/// The eight numbers from place `first` on.
pub(crate) fn group_at(order: &ChainNumbers, first: usize) -> ChainGroup
    requires { first + GROUP ≤ MOST_DIGITS }
    ensures { (j : ℕ) → j < GROUP → slice_index result j ≡ slice_index order.now (first + j) }
{
    [
        order[first],
        order[first + 1],
        order[first + 2],
        order[first + 3],
        order[first + 4],
        order[first + 5],
        order[first + 6],
        order[first + 7],
    ]
}

/// The addresses of the group's chains.
fn chain_adrs(at: Place, kind: AdrsType, group: &ChainGroup) -> LaneAdrs
    ensures { (j : ℕ) → j < GROUP
        → HasAddress result j (wots_address at (type_number kind) (slice_index group.now j) 0) }
{
    let mut adrs = adrs_lanes(&wots_adrs(at, kind, 0, 0));
    set_chains(&mut adrs, Words::from_array(*group));
    adrs
}

/// The secrets of the group's chains.
pub(crate) fn secret_lanes(
    lanes: &SeededLanes,
    sk_seed: &[u8],
    at: Place,
    group: &ChainGroup,
) -> LaneNodes
    requires sk_seed { length sk_seed.now ≡ (params lanes.now.set).n }
    ensures { let p = params lanes.now.set in (j : ℕ) → j < GROUP
        → value_at result j p.n ≡ secret p sk_seed.now lanes.now.pk_seed.now at (slice_index group.now j) }
{
    let [secrets] = lanes.prf(sk_seed, &[chain_adrs(at, AdrsType::WotsPrf, group)]);
    secrets
}

/// Continues the chains of a group. Each lane has a first step and a number of steps.
pub(crate) fn run_lanes(
    lanes: &SeededLanes,
    at: Place,
    group: &ChainGroup,
    x: &LaneNodes,
    from: Words,
    counts: Words,
) -> LaneNodes
    requires { (j : ℕ) → j < GROUP → slice_index from j + slice_index counts j ≤ MOST_STEPS }
    ensures { let p = params lanes.now.set in (j : ℕ) → j < GROUP
        → value_at result j p.n
        ≡ chain_of p lanes.now.pk_seed.now at (slice_index group.now j) (value_at x.now j p.n)
        (slice_index from j) (slice_index counts j) }
{
    let adrs = [chain_adrs(at, AdrsType::WotsHash, group)];
    let mut values = [*x];
    lanes.chains_each(&adrs, &mut values, &[from], &[counts]);
    let [ends] = values;
    ends
}

/// Continues the chains of a group, all from one step and by one number of steps.
pub(crate) fn run_alike(
    lanes: &SeededLanes,
    at: Place,
    group: &ChainGroup,
    x: &LaneNodes,
    from: u32,
    count: u32,
) -> LaneNodes
    requires { from + count ≤ MOST_STEPS }
    ensures { let p = params lanes.now.set in (j : ℕ) → j < GROUP
        → value_at result j p.n
        ≡ chain_of p lanes.now.pk_seed.now at (slice_index group.now j) (value_at x.now j p.n) from count }
{
    let counts = Words::splat(count);
    run_lanes(lanes, at, group, x, Words::splat(from), counts)
}

/// Writes the values of n bytes in the first `used` lanes as the chunks of `out` that have the chains' numbers.
pub(crate) fn put_lanes(
    out: &mut [u8],
    n: usize,
    group: &ChainGroup,
    nodes: &LaneNodes,
    used: usize,
)
    requires lanes { used ≤ GROUP }
    requires n { n ≤ 32 }
    requires out { (j : ℕ) → j < used → slice_index group.now j * n + n ≤ length out.old }
    ensures written { (f : ℕ → List ℕ) → ((j : ℕ) → j < used → value_at nodes.now j n ≡ f (slice_index group.now j))
        → (j : ℕ) → j < used → chunk n out.new (slice_index group.now j) ≡ f (slice_index group.now j) }
    ensures kept { (f : ℕ → List ℕ) → ((j : ℕ) → j < used → value_at nodes.now j n ≡ f (slice_index group.now j))
        → (c : ℕ) → chunk n out.old c ≡ f c → chunk n out.new c ≡ f c }
{
    for j in 0..used {
        put_chunk(out, n, group[j] as usize, &lane_node(nodes, j, n));
    }
}

/// The chunks of n bytes that have the chains' numbers.
pub(crate) fn lanes_at(values: &[u8], n: usize, group: &ChainGroup) -> LaneNodes
    requires n { n ≤ 32 }
    requires whole { n % 4 ≡ 0 }
    requires within { (j : ℕ) → j < GROUP → slice_index group.now j * n + n ≤ length values.now }
    ensures { (j : ℕ) → j < GROUP → value_at result j n ≡ chunk n values.now (slice_index group.now j) }
{
    let mut nodes = node_lanes(&[]);
    for j in 0..GROUP {
        set_lane(&mut nodes, j, chunk_at(values, n, group[j] as usize));
    }
    nodes
}

/// Writes the value of each chain of a key after its number of steps from its secret, eight chains at a time.
pub(crate) fn run_secrets_in_lanes(
    lanes: &SeededLanes,
    sk_seed: &[u8],
    at: Place,
    counts: &ChainNumbers,
    out: &mut [u8],
)
    requires sk_seed { length sk_seed.now ≡ (params lanes.now.set).n }
    requires steps { (c : ℕ) → slice_index counts.now c ≤ MOST_STEPS }
    requires out { length out.old ≡ len (params lanes.now.set) * (params lanes.now.set).n }
    ensures { let p = params lanes.now.set in let sk_seed = sk_seed.now in
        let pk_seed = lanes.now.pk_seed.now in
        out.new ≡ end_to_end
        (λ c. chain_of p pk_seed at c (secret p sk_seed pk_seed at c) 0 (slice_index counts.now c)) (len p) }
{
    let n = lanes.set.n();
    let count = lanes.set.len();
    let order = by_steps(counts, count);
    for turn in 0..count.div_ceil(GROUP) {
        let group = group_at(&order, GROUP * turn);
        let secrets = secret_lanes(lanes, sk_seed, at, &group);
        let steps = numbers_of(counts, &group);
        let nodes = run_lanes(lanes, at, &group, &secrets, Words::splat(0), steps);
        put_lanes(out, n, &group, &nodes, (count - GROUP * turn).min(GROUP));
    }
}
