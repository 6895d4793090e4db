//! Rows about signatures (FIPS 205, sections 9.2, 9.3 and 10).
ghost use Rattle.std.specs.Prelude.{◌≡◌, IfSome, length};
ghost use Rattle.slh_params.specs.Params.{sig_len};
ghost use Rattle.slh_params.specs.ParamSet.{params};

use crate::keys::key_of;
use crate::row::Row;
use crate::way::{Way, function_of, way_of};
use slh_core::signing_steps::fors_sig_len;
use slh_core::{
    MessageDigest, PreHash, PreHasher, Randomizer, SecretKey, digest_indices, hash_sign,
    hash_sign_digest, hash_verify, hash_verify_digest, sign, sign_internal, verify,
    verify_internal,
};
use slh_params::{Node, ParamSet};

/// A set, a digest of m bytes; the tree and the leaf that it names.
pub fn digest_indices_row(row: &mut Row) {
    let set = row.set();
    let digest = row.bytes();
    if digest.len() != set.m() {
        return row.refuse();
    }
    let cut = digest_indices(set, &digest);
    row.is_number(cut.idx_tree);
    row.is_number(cut.idx_leaf as u64);
}

/// A text; the name of the function of this name and the length of its digests, or `none`.
pub fn pre_hash(row: &mut Row) {
    match PreHash::from_name(row.text()) {
        Some(function) => {
            row.is_text(function.name());
            row.is_number(function.digest_len() as u64);
        }
        None => row.is_text("none"),
    }
}

/// A function, bytes; function and bytes of the digest that they are, or `none`.
pub fn digest(row: &mut Row) {
    let name = row.text();
    let function = function_of(row, name);
    match MessageDigest::from_bytes(function, &row.bytes()) {
        Some(digest) => {
            row.is_text(digest.function().name());
            row.is_bytes(digest.bytes());
        }
        None => row.is_text("none"),
    }
}

/// The next field, a randomizer of n bytes, or none for the deterministic variant.
fn random_of(row: &mut Row, set: ParamSet) -> Option<Node>
    ensures { IfSome result (λ node. length node.items ≡ (params set).n) }
{
    if row.next_is_empty() {
        row.text();
        None
    } else {
        Some(row.node(set))
    }
}

/// A set, SK.seed, SK.prf, PK.seed, a way, a message, a context, a randomizer or nothing. The SHA-256 of the signature,
/// and if the row has them, R and the last n bytes. The signature is valid, and it is not with the last bit flipped.
pub fn sign_row(row: &mut Row) {
    let set = row.set();
    let sk = key_of(row, set);
    let way = way_of(row);
    let (msg, ctx) = (row.bytes(), row.bytes());
    let random = random_of(row, set);
    let randomizer = match &random {
        Some(node) => Randomizer::Given(node.as_slice()),
        None => Randomizer::Deterministic,
    };
    if let Some(mut sig) = way.signature(row, &msg, &ctx, &sk, randomizer) {
        check_ends(row, set.n(), &sig);
        let pk = sk.public();
        row.is_true(way.verify(&msg, &ctx, &sig, &pk));
        if let Some(last) = sig.last_mut() {
            *last ^= 1;
        }
        row.is_true(!way.verify(&msg, &ctx, &sig, &pk));
    }
}

/// The SHA-256 of a signature, and if the row has them, R and the last n bytes.
fn check_ends(row: &mut Row, n: usize, sig: &[u8]) {
    row.is_digest(sig);
    if row.has_more() {
        row.is_bytes(sig.get(..n).unwrap_or(b""));
        row.is_bytes(sig.get(sig.len().saturating_sub(n)..).unwrap_or(b""));
    }
}

/// A set, SK.seed, SK.prf, PK.seed, three parts of a message. The SHA-256 of the deterministic signature of the message
/// as it is, of its FORS signature and of its hypertree signature. Both are the same for the randomizer PK.seed, and
/// for the message in one part.
pub fn sign_in_parts(row: &mut Row) {
    let set = row.set();
    let sk = key_of(row, set);
    let (first, second, third) = (row.bytes(), row.bytes(), row.bytes());
    let parts = [first.as_slice(), second.as_slice(), third.as_slice()];
    let Some(mut sig) = row.zeros(set.sig_len()) else {
        return;
    };
    sign_internal(&parts, &sk, Randomizer::Given(sk.pk_seed()), &mut sig);
    let Some(mut again) = row.zeros(set.sig_len()) else {
        return;
    };
    sign_internal(&parts, &sk, Randomizer::Deterministic, &mut again);
    row.is_true(again == sig);
    row.is_true(verify_internal(&parts, &sig, &sk.public()));
    row.is_digest(&sig);
    let ht = set.n().saturating_add(fors_sig_len(set));
    row.is_digest(sig.get(set.n()..ht).unwrap_or(b""));
    row.is_digest(sig.get(ht..).unwrap_or(b""));
}

/// A set, SK.seed, SK.prf, PK.seed, a function, three pieces of a message, a context; the SHA-256 of the deterministic
/// signature by the digest of the pieces.
pub fn sign_by_digest(row: &mut Row) {
    let set = row.set();
    let sk = key_of(row, set);
    let name = row.text();
    let mut hasher = PreHasher::new(function_of(row, name));
    for _ in 0..3 {
        hasher.update(&row.bytes());
    }
    let digest = hasher.finish();
    let ctx = row.bytes();
    let Some(mut sig) = row.zeros(set.sig_len()) else {
        return;
    };
    let signed = hash_sign_digest(&digest, &ctx, &sk, Randomizer::Deterministic, &mut sig);
    row.is_true(signed.is_ok());
    row.is_digest(&sig);
    row.is_true(hash_verify_digest(&digest, &ctx, &sig, &sk.public()));
}

/// A set, SK.seed, SK.prf, PK.seed, a context of over 255 bytes; the refusal. Each signing call refuses it, writing
/// nothing, and no verifying call accepts it.
pub fn long_context(row: &mut Row) {
    let set = row.set();
    let sk = key_of(row, set);
    let ctx = row.bytes();
    let Some(mut out) = row.zeros(set.sig_len()) else {
        return;
    };
    refuse_signing(row, &ctx, &sk, &mut out);
    row.is_true(out.iter().all(|&byte| byte == 0));
    let pk = sk.public();
    let digest = PreHasher::new(PreHash::Sha256).finish();
    row.is_true(!verify(b"abc", &ctx, &out, &pk));
    row.is_true(!Way::Pieces.verify(b"abc", &ctx, &out, &pk));
    row.is_true(!hash_verify(b"abc", &ctx, PreHash::Sha256, &out, &pk));
    row.is_true(!hash_verify_digest(&digest, &ctx, &out, &pk));
}

/// Each signing call refuses the context, the first one with the refusal of the row.
fn refuse_signing(row: &mut Row, ctx: &[u8], sk: &SecretKey, out: &mut [u8])
    requires { length out.old ≡ sig_len (params sk.now.set) }
    ensures { length out.new ≡ length out.old }
{
    let randomizer = Randomizer::Deterministic;
    match sign(b"abc", ctx, sk, randomizer, out) {
        Ok(()) => row.is_true(false),
        Err(fault) => row.is_refusal(fault.number(), fault.name()),
    }
    row.is_true(hash_sign(b"abc", ctx, PreHash::Sha256, sk, randomizer, out).is_err());
    let digest = PreHasher::new(PreHash::Sha256).finish();
    row.is_true(hash_sign_digest(&digest, ctx, sk, randomizer, out).is_err());
}
