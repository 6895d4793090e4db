//! Eight WOTS+ keys at once, one in each lane (FIPS 205, section 5).
ghost use Rattle.std.specs.Prelude.{◌≡◌, ℕ, ◌+◌, ◌-◌, ◌*◌, ◌%◌, ◌^◌, ◌≤◌, ◌<◌, length};
ghost use Rattle.slh_params.specs.AdrsType.{type_number};
ghost use Rattle.slh_params.specs.Params.{len};
ghost use Rattle.slh_params.specs.ParamSet.{params};
ghost use Rattle.slh_lanes.specs.Lanes.{HasAddress, group};
ghost use Rattle.slh_few.specs.Chunks.{end_to_end};
ghost use Rattle.slh_few.specs.Wots.{wots_address, wots_pk, wots_sig};
ghost use Rattle.slh_few.specs.Xmss.{AreKeysFrom, place, xmss_sig, xmss_sig_len};

use crate::context::SigningContext;
use crate::lanes::key_chains::{SignedValues, Stored};
use crate::nodes::first_nodes;
use crate::place::Place;
use crate::wots::wots_adrs;
use crate::wots_digits::digits_of;
use slh_lanes::{
    GROUP, LaneAdrs, LaneStream, SeededLanes, Words, adrs_lanes, consecutive, set_pairs,
};
use slh_params::{AdrsType, Node};
use slh_tree::{Leaves, Tree, path};
use std::simd::prelude::*;

/// The addresses of chain `c` of eight keys, of which the first is at this place.
fn chain_adrs(at: Place, kind: AdrsType, c: u32) -> LaneAdrs
    requires { at.pair + GROUP ≤ 2 ^ 32 }
    ensures { (j : ℕ) → j < GROUP
        → HasAddress result j (wots_address (place at.layer at.tree (at.pair + j)) (type_number kind) c 0) }
{
    let mut adrs = adrs_lanes(&wots_adrs(at, kind, c, 0));
    set_pairs(&mut adrs, consecutive(at.pair));
    adrs
}

/// The addresses of `G` chains of these keys, from chain `c` on: those of chain `c + g` in group `g`.
pub(crate) fn key_adrs<const G: usize>(at: Place, kind: AdrsType, c: u32) -> [LaneAdrs; G]
    requires pairs { at.pair + GROUP ≤ 2 ^ 32 }
    requires chains { c + G ≤ 2 ^ 32 }
    ensures { (g j : ℕ) → g < G → j < GROUP → HasAddress (group result g) j
        (wots_address (place at.layer at.tree (at.pair + j)) (type_number kind) (c + g) 0) }
{
    let mut adrs = [[Words::splat(0); 6]; G];
    for g in 0..G {
        adrs[g] = chain_adrs(at, kind, c + g as u32);
    }
    adrs
}

/// The public keys at this place and the next seven, n bytes each (Algorithm 6). The stored values of their chains are
/// written into `out`, one chain after another.
///
/// Two chains of each of the eight keys are run at once, since the lanes take the same steps. No chain is computed twice.
pub(crate) fn eight_keys<K: Stored>(
    lanes: &SeededLanes,
    sk_seed: &[u8],
    at: Place,
    store: &K,
    out: &mut [u8],
) -> Leaves
    requires sk_seed { length sk_seed.now ≡ (params lanes.now.set).n }
    requires pairs { at.pair + GROUP ≤ 2 ^ 32 }
    requires fits { K.fits store.now (params lanes.now.set) }
    requires out { length out.old ≡ len (params lanes.now.set) * K.size store.now (params lanes.now.set) }
    ensures len { length result.items ≡ GROUP }
    ensures keys { AreKeysFrom (params lanes.now.set) sk_seed.now lanes.now.pk_seed.now at result.items }
    ensures stored { let p = params lanes.now.set in
        out.new ≡ end_to_end (K.stored store.now p sk_seed.now lanes.now.pk_seed.now at) (len p) }
{
    let mut stream = LaneStream::new(lanes, &chain_adrs(at, AdrsType::WotsPk, 0));
    let len = lanes.set.len() as u32;
    for pair in 0..len / 2 {
        let [x, y] = store.ends_of_two(lanes, sk_seed, at, 2 * pair, out);
        stream.absorb(&x);
        stream.absorb(&y);
    }
    if len % 2 == 1 {
        let [x] = store.ends_of_one(lanes, sk_seed, at, len - 1, out);
        stream.absorb(&x);
    }
    first_nodes(&stream.finish(), lanes.set.n(), GROUP)
}

/// The place of the first of the eight keys that stand below the same node of height 3 as the key at this place.
pub(crate) fn first_of_eight(at: Place) -> Place
    ensures { result ≡ place at.layer at.tree (at.pair - at.pair % GROUP) }
{
    Place {
        layer: at.layer,
        tree: at.tree,
        pair: at.pair - at.pair % GROUP as u32,
    }
}

/// The lane of the key at this place among the keys from `first_of_eight` on.
pub(crate) fn lane_among_eight(at: Place) -> usize
    ensures { result ≡ at.pair % GROUP }
{
    at.pair as usize % GROUP
}

/// Writes the signature of a message of n bytes by the key at this place, len * n bytes (Algorithm 7), and gives the
/// public keys of the eight places from `first_of_eight` on, n bytes each (Algorithm 6).
fn sign_among_eight(
    lanes: &SeededLanes,
    sk_seed: &[u8],
    at: Place,
    msg: &Node,
    out: &mut [u8],
) -> Leaves
    requires sk_seed { length sk_seed.now ≡ (params lanes.now.set).n }
    requires msg { length msg.now.items ≡ (params lanes.now.set).n }
    requires out { length out.old ≡ len (params lanes.now.set) * (params lanes.now.set).n }
    ensures signature { let p = params lanes.now.set in
        out.new ≡ wots_sig p sk_seed.now lanes.now.pk_seed.now at msg.now.items }
    ensures len { length result.items ≡ GROUP }
    ensures keys { AreKeysFrom (params lanes.now.set) sk_seed.now lanes.now.pk_seed.now
        (place at.layer at.tree (at.pair - at.pair % GROUP)) result.items }
{
    let digits = digits_of(lanes.set, msg);
    let signed = SignedValues {
        lane: lane_among_eight(at),
        digits: &digits,
    };
    eight_keys(lanes, sk_seed, first_of_eight(at), &signed, out)
}

/// Writes the signature as `xmss_sign` does, and gives the leaf that signs. That leaf is made together with the seven
/// others below its node of height 3, and the path's nodes of heights 0 to 2 are made from those. If the tree has fewer
/// than eight leaves, the keys after its last leaf are not read.
pub(crate) fn sign_giving_leaf(
    signer: &SigningContext,
    at: Place,
    msg: &Node,
    out: &mut [u8],
) -> Node
    requires pair { at.pair < 2 ^ (params signer.now.public.set).hp }
    requires msg { length msg.now.items ≡ (params signer.now.public.set).n }
    requires out { length out.old ≡ xmss_sig_len (params signer.now.public.set) }
    ensures signature { let p = params signer.now.public.set in let sk_seed = signer.now.sk_seed.now in
        let pk_seed = signer.now.public.pk_seed.now in
        out.new ≡ xmss_sig p sk_seed pk_seed at msg.now.items }
    ensures leaf { let p = params signer.now.public.set in let sk_seed = signer.now.sk_seed.now in
        let pk_seed = signer.now.public.pk_seed.now in
        result.items ≡ wots_pk p sk_seed pk_seed at }
{
    let (wots, auth) = out.split_at_mut(signer.public.set.len() * signer.public.set.n());
    let group = sign_among_eight(signer.lanes(), signer.sk_seed, at, msg, wots);
    let tree = signer.xmss_nodes_knowing(first_of_eight(at), group);
    path(&tree, at.pair, auth);
    tree.leaf(at.pair)
}
