//! HMAC, MGF1, and the functions of FIPS 205, section 11.2.

use crate::params::adrs_of;
use crate::row::Row;
use slh_hash::{
    TStream, f, h, h_msg, hmac_sha256, hmac_sha512, mgf1_sha256, mgf1_sha512, prf, prf_msg,
};
use slh_params::node_of;

/// A key, a text; the code of the text, which that of its two parts is, too, wherever it is cut in two.
pub fn hmac_sha256_row(row: &mut Row) {
    let (key, text) = (row.bytes(), row.bytes());
    let whole = hmac_sha256(&key, &[text.as_slice()]);
    for at in 0..=text.len() {
        let (first, rest) = text.as_slice().split_at(at);
        row.is_true(hmac_sha256(&key, &[first, rest]) == whole);
    }
    row.is_bytes(&whole);
}

/// As above, with SHA-512.
pub fn hmac_sha512_row(row: &mut Row) {
    let (key, text) = (row.bytes(), row.bytes());
    let whole = hmac_sha512(&key, &[text.as_slice()]);
    for at in 0..=text.len() {
        let (first, rest) = text.as_slice().split_at(at);
        row.is_true(hmac_sha512(&key, &[first, rest]) == whole);
    }
    row.is_bytes(&whole);
}

/// A seed, a length; the mask, which that of the seed's two parts is, too, wherever it is cut in two.
pub fn mgf1_sha256_row(row: &mut Row) {
    let seed = row.bytes();
    let len = row.below(131) as usize;
    let (mut whole, mut cut) = ([0; 130], [0; 130]);
    mgf1_sha256(&[seed.as_slice()], &mut whole[..len]);
    for at in 0..=seed.len() {
        let (first, rest) = seed.as_slice().split_at(at);
        mgf1_sha256(&[first, rest], &mut cut[..len]);
        row.is_true(cut == whole);
    }
    row.is_bytes(&whole[..len]);
}

/// As above, with SHA-512.
pub fn mgf1_sha512_row(row: &mut Row) {
    let seed = row.bytes();
    let len = row.below(131) as usize;
    let (mut whole, mut cut) = ([0; 130], [0; 130]);
    mgf1_sha512(&[seed.as_slice()], &mut whole[..len]);
    for at in 0..=seed.len() {
        let (first, rest) = seed.as_slice().split_at(at);
        mgf1_sha512(&[first, rest], &mut cut[..len]);
        row.is_true(cut == whole);
    }
    row.is_bytes(&whole[..len]);
}

/// A set, PK.seed of any length, an address, a node; F.
pub fn f_row(row: &mut Row) {
    let set = row.set();
    let pk_seed = row.bytes();
    let adrs = adrs_of(row);
    let x = row.node(set);
    row.is_bytes(&f(set, &pk_seed, &adrs, &x));
}

/// A set, PK.seed, an address, two nodes; H.
pub fn h_row(row: &mut Row) {
    let set = row.set();
    let pk_seed = row.node(set);
    let adrs = adrs_of(row);
    let left = row.node(set);
    let right = row.node(set);
    row.is_bytes(&h(set, &pk_seed, &adrs, &left, &right));
}

/// A set, PK.seed, an address, a number of nodes; T of the nodes whose bytes are all 0, all 1, and so on.
pub fn t_row(row: &mut Row) {
    let set = row.set();
    let pk_seed = row.node(set);
    let mut stream = TStream::new(set, &pk_seed, &adrs_of(row));
    let n = set.n();
    for i in 0..row.layer() {
        stream.absorb(&node_of(&[i; 32][..n]));
    }
    row.is_bytes(&stream.finish());
}

/// A set, PK.seed and SK.seed of any length, an address; PRF.
pub fn prf_row(row: &mut Row) {
    let set = row.set();
    let (pk_seed, sk_seed) = (row.bytes(), row.bytes());
    let adrs = adrs_of(row);
    row.is_bytes(&prf(set, &pk_seed, &sk_seed, &adrs));
}

/// A set, SK.prf, opt_rand, a message; PRF_msg.
pub fn prf_msg_row(row: &mut Row) {
    let set = row.set();
    let sk_prf = row.node(set);
    let opt_rand = row.node(set);
    let msg = row.bytes();
    row.is_bytes(&prf_msg(set, &sk_prf, &opt_rand, &[msg.as_slice()]));
}

/// A set, R, PK.seed, PK.root, a message; H_msg.
#[tactic(auto, using(slh_params::proofs::Bounds::digest_bounds))]
pub fn h_msg_row(row: &mut Row) {
    let set = row.set();
    let r = row.node(set);
    let pk_seed = row.node(set);
    let pk_root = row.node(set);
    let msg = row.bytes();
    let Some(mut digest) = row.zeros(set.m()) else {
        return;
    };
    h_msg(set, &r, &pk_seed, &pk_root, &[msg.as_slice()], &mut digest);
    row.is_bytes(&digest);
}
