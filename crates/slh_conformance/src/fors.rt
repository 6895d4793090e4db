//! Rows about FORS (FIPS 205, section 8).

use crate::row::Row;
use crate::wots::{public_of, seeds_of};
use slh_core::signing_steps::fors_sig_len;
use slh_few::{ForsTree, fors_node, fors_pk_from_sig, fors_sign};
use slh_params::ParamSet;
use slh_tree::{Climbs, Tree, root};

/// A set, SK.seed, PK.seed, a tree, a leaf, a number below k; the root of the FORS tree of this number.
pub fn fors_root(row: &mut Row) {
    let set = row.set();
    let sk_seed = row.node(set);
    let pk_seed = row.node(set);
    let (tree, leaf, number) = (row.number(), row.word(), row.word());
    if number < set.k() {
        let seeds = seeds_of(set, &sk_seed, &pk_seed);
        let top = fors_node(&seeds, tree, leaf, number, set.a(), 0);
        row.is_bytes(&top);
        row.is_true(root(&ForsTree::new(&seeds, tree, leaf, number)).as_slice() == top.as_slice());
    } else {
        row.refuse();
    }
}

/// A set, SK.seed, PK.seed, a tree, a leaf, a number below k, a leaf of the FORS tree of this number; its bytes.
#[tactic(auto, using(slh_params::proofs::Bounds::a_high))]
pub fn fors_leaf(row: &mut Row) {
    let set = row.set();
    let sk_seed = row.node(set);
    let pk_seed = row.node(set);
    let (tree, leaf, number) = (row.number(), row.word(), row.word());
    let i = row.word();
    if number < set.k() && i < 1 << set.a() {
        let seeds = seeds_of(set, &sk_seed, &pk_seed);
        let node = fors_node(&seeds, tree, leaf, number, 0, i);
        row.is_bytes(&node);
        let made = ForsTree::new(&seeds, tree, leaf, number).leaf(i);
        row.is_true(made.as_slice() == node.as_slice());
    } else {
        row.refuse();
    }
}

/// A set, SK.seed, PK.seed, a tree, a leaf, a number below k, a height from 1 on, an index. The node there of the FORS
/// tree of this number, of two given nodes.
#[tactic(auto, using(slh_params::proofs::Bounds::a_high))]
pub fn fors_join(row: &mut Row) {
    let set = row.set();
    let sk_seed = row.node(set);
    let pk_seed = row.node(set);
    let (tree, leaf, number) = (row.number(), row.word(), row.word());
    let (z, i) = (row.word(), row.word());
    let left = row.node(set);
    let right = row.node(set);
    if number < set.k() && 1 <= z && z <= set.a() && i < 1 << (set.a() - z) {
        let seeds = seeds_of(set, &sk_seed, &pk_seed);
        row.is_bytes(&ForsTree::new(&seeds, tree, leaf, number).join(z, i, &left, &right));
    } else {
        row.refuse();
    }
}

/// A set, SK.seed, PK.seed, a tree, a leaf, a digest of at least `md_len` bytes, of which no more is signed. The
/// SHA-256 of the signature, its first secret, and the key that it gives.
pub fn fors_sign_row(row: &mut Row) {
    let set = row.set();
    let sk_seed = row.node(set);
    let pk_seed = row.node(set);
    let (tree, leaf) = (row.number(), row.word());
    let digest = row.bytes();
    let Some(mut sig) = row.zeros(fors_sig_len(set)) else {
        return;
    };
    let Some(md) = digest.get(..set.md_len()) else {
        return row.refuse();
    };
    fors_sign(&seeds_of(set, &sk_seed, &pk_seed), tree, leaf, md, &mut sig);
    row.is_digest(&sig);
    row.is_bytes(sig.get(..set.n()).unwrap_or(b""));
    row.is_bytes(&fors_pk_from_sig(&public_of(set, &pk_seed), tree, leaf, md, &sig));
}
