//! Verifying a signature of a message that is given in parts (FIPS 205, section 9.3).
ghost use Rattle.std.specs.Prelude.{◌≡◌, ◌*◌, ◌↔◌, IsTrue, length};
ghost use Rattle.slh_params.specs.Params.{m, sig_len};
ghost use Rattle.slh_params.specs.ParamSet.{params};
ghost use Rattle.slh_hash.specs.Keyed.{joined};
ghost use Rattle.slh_few.specs.Xmss.{xmss_sig_len};
ghost use Rattle.slh_core.specs.Keys.{pk_root};
ghost use Rattle.slh_core.specs.Signatures.{fors_sig_len, get_sig_fors, get_sig_ht, root_of_parts, root_of_signature, IsValid};

use crate::comparing::are_same;
use crate::digest_parts::{MOST_DIGEST_LEN, digest_indices};
use crate::layout::fors_sig_len;
use crate::public_key::PublicKey;
use slh_few::{HashContext, ht_root_from_sig};
use slh_hash::h_msg;
use slh_params::Node;

/// The root of the top tree that the FORS and hypertree signatures of a digest give (FIPS 205, Algorithm 20, lines 9 to
/// 17, and Algorithm 13, lines 1 to 12).
#[tactic(auto, unfolding(crate::specs::Signatures::root_of_parts))]
fn root_of_parts(pk: &PublicKey, digest: &[u8], sig_fors: &[u8], sig_ht: &[u8]) -> Node
    requires digest { length digest.now ≡ m (params pk.now.set) }
    requires sig_fors { length sig_fors.now ≡ fors_sig_len (params pk.now.set) }
    requires sig_ht { length sig_ht.now ≡ (params pk.now.set).d * xmss_sig_len (params pk.now.set) }
    ensures { result.items ≡ root_of_parts pk.now digest.now sig_fors.now sig_ht.now }
{
    let set = pk.set();
    let context = HashContext::new(set, pk.pk_seed());
    let md = &digest[..set.md_len()];
    let indices = digest_indices(set, digest);
    let pk_fors = context.fors_pk_from_sig(indices.idx_tree, indices.idx_leaf, md, sig_fors);
    ht_root_from_sig(
        &context,
        indices.idx_tree,
        indices.idx_leaf,
        &pk_fors,
        sig_ht,
    )
}

/// The root of the top tree that a signature gives for a digest (FIPS 205, Algorithm 20, lines 6, 7 and 9 to 17).
fn root_by_digest(pk: &PublicKey, digest: &[u8], sig: &[u8]) -> Node
    requires digest { length digest.now ≡ m (params pk.now.set) }
    requires sig { length sig.now ≡ sig_len (params pk.now.set) }
    ensures { let p = params pk.now.set in
        result.items ≡ root_of_parts pk.now digest.now (get_sig_fors p sig.now) (get_sig_ht p sig.now) }
{
    let set = pk.set();
    let (_, rest) = sig.split_at(set.n());
    let (sig_fors, sig_ht) = rest.split_at(fors_sig_len(set));
    root_of_parts(pk, digest, sig_fors, sig_ht)
}

/// Whether a signature gives PK.root for a digest (FIPS 205, Algorithm 20, lines 6, 7 and 9 to 18).
pub(crate) fn verify_by_digest(pk: &PublicKey, digest: &[u8], sig: &[u8]) -> bool
    requires digest { length digest.now ≡ m (params pk.now.set) }
    requires sig { length sig.now ≡ sig_len (params pk.now.set) }
    ensures { let p = params pk.now.set in
        IsTrue result
        ↔ (root_of_parts pk.now digest.now (get_sig_fors p sig.now) (get_sig_ht p sig.now) ≡ pk_root pk.now) }
{
    let root = root_by_digest(pk, digest, sig);
    are_same(root.as_slice(), pk.pk_root())
}

/// The root of the top tree that a signature gives for the parts put end to end (FIPS 205, Algorithm 20, lines 4 to
/// 17).
pub(crate) fn root_of_signature(parts: &[&[u8]], sig: &[u8], pk: &PublicKey) -> Node
    requires { length sig.now ≡ sig_len (params pk.now.set) }
    ensures { result.items ≡ root_of_signature pk.now (joined parts.now) sig.now }
{
    let set = pk.set();
    let r = &sig[..set.n()];
    let mut buffer = [0; MOST_DIGEST_LEN];
    let digest = &mut buffer[..set.m()];
    h_msg(set, r, pk.pk_seed(), pk.pk_root(), parts, digest);
    root_by_digest(pk, digest, sig)
}

/// Whether the bytes are a valid signature of the parts put end to end (FIPS 205, Algorithm 20). They may be of any
/// length; if it is not `sig_len`, they are no signature.
pub fn verify_internal(parts: &[&[u8]], sig: &[u8], pk: &PublicKey) -> bool
    ensures { IsTrue result ↔ IsValid pk.now (joined parts.now) sig.now }
{
    if sig.len() != pk.set().sig_len() {
        return false;
    }
    let root = root_of_signature(parts, sig, pk);
    are_same(root.as_slice(), pk.pk_root())
}
