//! The WOTS+ chains that run in the lanes of a batch, each at its own step: a lane whose chain has ended takes another
//! (ours).
ghost use Rattle.std.specs.Prelude.{◌≡◌, ◌≢◌, ℕ, List, ◌+◌, ◌-◌, ◌*◌, ◌%◌, ◌^◌, ◌≤◌, ◌<◌, length, slice_index};
ghost use Rattle.slh_params.specs.ParamSet.{params};
ghost use Rattle.slh_lanes.specs.Lanes.{group, value_at};
ghost use Rattle.slh_few.specs.Chunks.{chunk};
ghost use Rattle.slh_few.specs.RunningChains.{ChainsAt, EndAt, IsAdvanced, IsSameChain, StaysWithin, running_at};
ghost use Rattle.slh_few.specs.Wots.{chain as chain_of};

use crate::lanes::chains::{ChainGroup, ChainNumbers, MOST_DIGITS};
use crate::nodes::{chunk_at, put_chunk};
use crate::place::Place;
use crate::wots::{MOST_STEPS, wots_adrs};
use slh_lanes::{
    GROUP, LaneAdrs, LaneNodes, SeededLanes, Words, adrs_lanes, lane_node, node_lanes, pick_nodes,
    set_chains,
};
use slh_params::AdrsType;
use std::simd::prelude::*;

/// The chains that run in the lanes of a group: their numbers, the steps that they are at, and how many each has left.
#[derive(Clone, Copy)]
pub(crate) struct RunningChains {
    pub(crate) numbers: Words,
    pub(crate) steps: Words,
    pub(crate) left: Words,
}

/// The numbers of the group's chains.
pub(crate) fn numbers_of(numbers: &ChainNumbers, group: &ChainGroup) -> Words
    requires { (j : ℕ) → j < GROUP → slice_index group.now j < MOST_DIGITS }
    ensures { (j : ℕ) → j < GROUP → slice_index result j ≡ slice_index numbers.now (slice_index group.now j) }
{
    let [a, b, c, d, e, f, g, h] = *group;
    Words::from_array([
        numbers[a as usize],
        numbers[b as usize],
        numbers[c as usize],
        numbers[d as usize],
        numbers[e as usize],
        numbers[f as usize],
        numbers[g as usize],
        numbers[h as usize],
    ])
}

/// The words with another in lane `j`.
fn with_word(words: Words, j: usize, word: u32) -> Words
    requires { j < GROUP }
    ensures set { slice_index result j ≡ word }
    ensures others { (i : ℕ) → i < GROUP → i ≢ j → slice_index result i ≡ slice_index words i }
{
    let lanes = Words::from_array([0, 1, 2, 3, 4, 5, 6, 7]);
    let here = lanes.simd_eq(Words::splat(j as u32));
    here.select(Words::splat(word), words)
}

/// The values with another value in lane `j`. No word is stored alone: a load of its vector would wait for that store.
pub(crate) fn with_node(nodes: &LaneNodes, j: usize, value: &[u8]) -> LaneNodes
    requires lane { j < GROUP }
    requires few { length value.now ≤ 32 }
    requires whole { length value.now % 4 ≡ 0 }
    ensures set { value_at result j (length value.now) ≡ value.now }
    ensures others { (i n : ℕ) → i < GROUP → i ≢ j → value_at result i n ≡ value_at nodes.now i n }
{
    let none = Words::splat(0);
    pick_nodes(none, with_word(none, j, 1), &node_lanes(value), nodes)
}

/// Each word with this number more.
fn more(words: Words, number: u32) -> Words
    requires { (j : ℕ) → j < GROUP → slice_index words j + number < 2 ^ 32 }
    ensures { (j : ℕ) → j < GROUP → slice_index result j ≡ slice_index words j + number }
{
    words + Words::splat(number)
}

/// Each word with this number less.
fn less(words: Words, number: u32) -> Words
    requires { (j : ℕ) → j < GROUP → number ≤ slice_index words j }
    ensures { (j : ℕ) → j < GROUP → slice_index result j ≡ slice_index words j - number }
{
    words - Words::splat(number)
}

/// A lane of those whose numbers are the least.
pub(crate) fn least_lane(numbers: Words) -> usize
    requires { (j : ℕ) → j < GROUP → slice_index numbers j ≤ MOST_STEPS }
    ensures lane { result < GROUP }
    ensures least { (j : ℕ) → j < GROUP → slice_index numbers result ≤ slice_index numbers j }
{
    let numbers = numbers.to_array();
    // The least number with that of its lane, in one.
    let mut least = u32::MAX;
    for j in 0..GROUP {
        least = least.min(GROUP as u32 * numbers[j] + j as u32);
    }
    (least % GROUP as u32) as usize
}

impl RunningChains {
    /// The group's chains, each at its own step and with its own number of steps left.
    pub(crate) fn of(group: &ChainGroup, steps: &ChainNumbers, left: &ChainNumbers) -> Self
        requires { (j : ℕ) → j < GROUP → slice_index group.now j < MOST_DIGITS }
        ensures numbers { (j : ℕ) → j < GROUP → slice_index result.numbers j ≡ slice_index group.now j }
        ensures steps { (j : ℕ) → j < GROUP
            → slice_index result.steps j ≡ slice_index steps.now (slice_index group.now j) }
        ensures left { (j : ℕ) → j < GROUP
            → slice_index result.left j ≡ slice_index left.now (slice_index group.now j) }
    {
        RunningChains {
            numbers: Words::from_array(*group),
            steps: numbers_of(steps, group),
            left: numbers_of(left, group),
        }
    }

    /// Another chain in lane `j`.
    pub(crate) fn put(&mut self, j: usize, number: u32, step: u32, left: u32)
        requires { j < GROUP }
        ensures number { slice_index self.new.numbers j ≡ number }
        ensures step { slice_index self.new.steps j ≡ step }
        ensures left { slice_index self.new.left j ≡ left }
        ensures others { (i : ℕ) → i < GROUP → i ≢ j → IsSameChain self.old self.new i }
    {
        self.numbers = with_word(self.numbers, j, number);
        self.steps = with_word(self.steps, j, step);
        self.left = with_word(self.left, j, left);
    }

    /// So many steps are taken, of those that each chain has left.
    pub(crate) fn advance(&mut self, count: u32)
        requires left { (j : ℕ) → j < GROUP → count ≤ slice_index self.old.left j }
        requires within { StaysWithin MOST_STEPS self.old }
        ensures { IsAdvanced count self.old self.new }
    {
        self.steps = more(self.steps, count);
        self.left = less(self.left, count);
    }
}

/// The address of a chain of the key in each lane.
pub(crate) fn hash_adrs(at: Place) -> LaneAdrs
    ensures { ChainsAt result at }
{
    adrs_lanes(&wots_adrs(at, AdrsType::WotsHash, 0, 0))
}

/// Where in a batch the chain runs that ends first, and the steps to its end.
#[derive(Clone, Copy)]
pub(crate) struct FirstEnd {
    pub(crate) group: usize,
    pub(crate) lane: usize,
    pub(crate) count: u32,
}

/// The chain of a batch that ends first.
fn first_end<const G: usize>(running: &[RunningChains; G]) -> FirstEnd
    requires some { 1 ≤ G }
    requires within { (g : ℕ) → g < G → StaysWithin MOST_STEPS (running_at running.now g) }
    ensures group { result.group < G }
    ensures lane { result.lane < GROUP }
    ensures count { slice_index (running_at running.now result.group).left result.lane ≡ result.count }
    ensures least { (g j : ℕ) → g < G → j < GROUP → result.count ≤ slice_index (running_at running.now g).left j }
{
    let mut first = FirstEnd {
        group: 0,
        lane: 0,
        count: u32::MAX,
    };
    for g in 0..G {
        let lane = least_lane(running[g].left);
        let count = running[g].left.to_array()[lane];
        if count < first.count {
            first = FirstEnd {
                group: g,
                lane,
                count,
            };
        }
    }
    first
}

/// The steps that each chain of a batch has left.
pub(crate) fn steps_left<const G: usize>(running: &[RunningChains; G]) -> [Words; G]
    ensures { (g : ℕ) → g < G → group result g ≡ (running_at running.now g).left }
{
    let mut left = [Words::splat(0); G];
    for g in 0..G {
        left[g] = running[g].left;
    }
    left
}

/// Runs the chains of a batch on, each by its own number of steps. `adrs` is the address of a chain of the key in each
/// lane.
pub(crate) fn run_batch<const G: usize>(
    lanes: &SeededLanes,
    adrs: &LaneAdrs,
    running: &[RunningChains; G],
    nodes: &mut [LaneNodes; G],
    counts: &[Words; G],
)
    requires few { G ≤ 2 }
    requires steps { (g j : ℕ) → g < G → j < GROUP
        → slice_index (running_at running.now g).steps j + slice_index (group counts.now g) j ≤ MOST_STEPS }
    ensures { let p = params lanes.now.set in (at : Place) → ChainsAt adrs.now at → (g j : ℕ) → g < G → j < GROUP
        → value_at (group nodes.new g) j p.n
        ≡ chain_of p lanes.now.pk_seed.now at (slice_index (running_at running.now g).numbers j)
        (value_at (group nodes.old g) j p.n) (slice_index (running_at running.now g).steps j)
        (slice_index (group counts.now g) j) }
{
    let mut own = [*adrs; G];
    let mut from = [Words::splat(0); G];
    for g in 0..G {
        let mut here = *adrs;
        set_chains(&mut here, running[g].numbers);
        own[g] = here;
        from[g] = running[g].steps;
    }
    lanes.chains_each(&own, nodes, &from, counts);
}

/// Takes so many steps of those that each chain of a batch has left.
fn advance_all<const G: usize>(running: &mut [RunningChains; G], count: u32)
    requires left { (g j : ℕ) → g < G → j < GROUP → count ≤ slice_index (running_at running.old g).left j }
    requires within { (g : ℕ) → g < G → StaysWithin MOST_STEPS (running_at running.old g) }
    ensures { (g : ℕ) → g < G → IsAdvanced count (running_at running.old g) (running_at running.new g) }
{
    for g in 0..G {
        running[g].advance(count);
    }
}

/// Runs all chains of a batch on until one has ended, and says which. `adrs` is the address of a chain of the key in
/// each lane.
pub(crate) fn run_to_an_end<const G: usize>(
    lanes: &SeededLanes,
    adrs: &LaneAdrs,
    running: &mut [RunningChains; G],
    nodes: &mut [LaneNodes; G],
) -> FirstEnd
    requires some { 1 ≤ G }
    requires few { G ≤ 2 }
    requires within { (g : ℕ) → g < G → StaysWithin MOST_STEPS (running_at running.old g) }
    ensures group { result.group < G }
    ensures lane { result.lane < GROUP }
    ensures ended { slice_index (running_at running.new result.group).left result.lane ≡ 0 }
    ensures numbers { (g : ℕ) → g < G → (running_at running.new g).numbers ≡ (running_at running.old g).numbers }
    ensures within { (g : ℕ) → g < G → StaysWithin MOST_STEPS (running_at running.new g) }
    ensures ends { let p = params lanes.now.set in let pk_seed = lanes.now.pk_seed.now in
        (f : ℕ → List ℕ) (at : Place) → ChainsAt adrs.now at → (g : ℕ) → g < G
        → EndAt f p pk_seed at (running_at running.old g) (group nodes.old g)
        → EndAt f p pk_seed at (running_at running.new g) (group nodes.new g) }
{
    let first = first_end(running);
    run_batch(lanes, adrs, running, nodes, &[Words::splat(first.count); G]);
    advance_all(running, first.count);
    first
}

/// Writes the value of a chain that has ended, and puts chain `next` into its lane. That chain starts from the value that
/// stands at its place.
pub(crate) fn take_next<const G: usize>(
    running: &mut [RunningChains; G],
    nodes: &mut [LaneNodes; G],
    end: FirstEnd,
    next: u32,
    from: &ChainNumbers,
    counts: &ChainNumbers,
    n: usize,
    values: &mut [u8],
)
    requires group { end.group < G }
    requires lane { end.lane < GROUP }
    requires next { next < MOST_DIGITS }
    requires few { n ≤ 32 }
    requires whole { n % 4 ≡ 0 }
    requires ended { slice_index (running_at running.old end.group).numbers end.lane * n + n ≤ length values.old }
    requires within { next * n + n ≤ length values.old }
    ensures number { slice_index (running_at running.new end.group).numbers end.lane ≡ next }
    ensures step { slice_index (running_at running.new end.group).steps end.lane ≡ slice_index from.now next }
    ensures left { slice_index (running_at running.new end.group).left end.lane ≡ slice_index counts.now next }
    ensures others { (i : ℕ) → i < GROUP → i ≢ end.lane
        → IsSameChain (running_at running.old end.group) (running_at running.new end.group) i }
    ensures running { (g : ℕ) → g ≢ end.group → running_at running.new g ≡ running_at running.old g }
    ensures value { value_at (group nodes.new end.group) end.lane n ≡ chunk n values.new next }
    ensures values { (i m : ℕ) → i < GROUP → i ≢ end.lane
        → value_at (group nodes.new end.group) i m ≡ value_at (group nodes.old end.group) i m }
    ensures nodes { (g : ℕ) → g ≢ end.group → group nodes.new g ≡ group nodes.old g }
    ensures written { chunk n values.new (slice_index (running_at running.old end.group).numbers end.lane)
        ≡ value_at (group nodes.old end.group) end.lane n }
    ensures chunks { (c : ℕ) → c ≢ slice_index (running_at running.old end.group).numbers end.lane
        → chunk n values.new c ≡ chunk n values.old c }
{
    let g = end.group;
    let j = end.lane;
    let ended = running[g].numbers.to_array()[j];
    put_chunk(values, n, ended as usize, &lane_node(&nodes[g], j, n));
    nodes[g] = with_node(&nodes[g], j, chunk_at(values, n, next as usize));
    running[g].put(j, next, from[next as usize], counts[next as usize]);
}
