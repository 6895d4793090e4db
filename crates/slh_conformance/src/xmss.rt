//! Rows about XMSS and the hypertree (FIPS 205, sections 6 and 7).
ghost use Rattle.std.specs.Prelude.{◌≡◌, ◌*◌};
ghost use Rattle.slh_few.specs.Xmss.{xmss_sig_len};
ghost use Rattle.slh_params.specs.ParamSet.{params};

use crate::row::Row;
use crate::wots::{public_of, seeds_of};
use slh_few::{
    Place, XmssTree, ht_sign, ht_verify, layer_place, wots_sig_len, xmss_node, xmss_pk_from_sig,
    xmss_sig_len, xmss_sign,
};
use slh_params::ParamSet;
use slh_subtrees::top_layer;
use slh_tree::root;

/// A set, SK.seed, PK.seed, a layer, a tree; its root.
pub fn xmss_root(row: &mut Row) {
    let set = row.set();
    let sk_seed = row.node(set);
    let pk_seed = row.node(set);
    let (layer, tree) = (row.layer(), row.number());
    let seeds = seeds_of(set, &sk_seed, &pk_seed);
    let top = xmss_node(&seeds, layer, tree, set.hp(), 0);
    row.is_bytes(&top);
    row.is_true(root(&XmssTree::new(&seeds, layer, tree)).as_slice() == top.as_slice());
}

/// A set, SK.seed, PK.seed, a layer, a tree, a leaf, a message of n bytes; the SHA-256 of the signature, its path, and
/// the root that it gives.
pub fn xmss_sign_row(row: &mut Row) {
    let set = row.set();
    let sk_seed = row.node(set);
    let pk_seed = row.node(set);
    let (layer, tree, pair) = (row.layer(), row.number(), row.leaf(set));
    let at = Place { layer, tree, pair };
    let msg = row.node(set);
    let Some(mut sig) = row.zeros(xmss_sig_len(set)) else {
        return;
    };
    xmss_sign(&seeds_of(set, &sk_seed, &pk_seed), at, &msg, &mut sig);
    row.is_digest(&sig);
    row.is_bytes(sig.get(wots_sig_len(set)..).unwrap_or(b""));
    row.is_bytes(&xmss_pk_from_sig(&public_of(set, &pk_seed), at, &msg, &sig));
}

/// A set, a tree and a leaf of layer 0, a layer; the tree and the leaf there.
pub fn layer_place_row(row: &mut Row) {
    let set = row.set();
    let (tree, leaf) = (row.number(), row.leaf(set));
    let layer = row.layer();
    let at = layer_place(set, tree, leaf, layer);
    row.is_true(at.layer == layer);
    row.is_number(at.tree);
    row.is_number(at.pair as u64);
}

/// The length of a hypertree signature in bytes.
fn ht_sig_len(set: ParamSet) -> usize
    ensures { result ≡ (params set).d * xmss_sig_len (params set) }
{
    set.d() as usize * xmss_sig_len(set)
}

/// A set, SK.seed, PK.seed, a tree and a leaf of layer 0, another leaf, a message of n bytes, and if the row has it,
/// the SHA-256 of the signature. The root of the top tree verifies it, but not with the other leaf, and no other length
/// of root does.
#[tactic(auto, using(slh_params::proofs::Bounds::layer_bounds))]
pub fn ht_sign_row(row: &mut Row) {
    let set = row.set();
    let sk_seed = row.node(set);
    let pk_seed = row.node(set);
    let (tree, leaf, other) = (row.low_tree(set), row.leaf(set), row.leaf(set));
    let msg = row.node(set);
    let Some(mut sig) = row.zeros(ht_sig_len(set)) else {
        return;
    };
    let seeds = seeds_of(set, &sk_seed, &pk_seed);
    let public = public_of(set, &pk_seed);
    ht_sign(&seeds, tree, leaf, &msg, &mut sig);
    let top = root(&XmssTree::new(&seeds, top_layer(set), 0));
    row.is_true(ht_verify(&public, &top, tree, leaf, &msg, &sig));
    row.is_true(!ht_verify(&public, &top, tree, other, &msg, &sig));
    let shorter = top.as_slice().get(1..).unwrap_or(b"");
    row.is_true(!ht_verify(&public, shorter, tree, leaf, &msg, &sig));
    if row.has_more() {
        row.is_digest(&sig);
    }
}
