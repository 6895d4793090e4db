//! Eight signatures, verified side by side (FIPS 205, section 9.3).
ghost use Rattle.std.specs.Prelude.{◌≡◌, ◌↔◌, ℕ, ◌*◌, ◌<◌, List, Bool, IsTrue, length, slice_index_or};
ghost use Rattle.arrayvec.specs.ArrayVec.{ArrayVec};
ghost use Rattle.slh_params.specs.Params.{m, sig_len};
ghost use Rattle.slh_params.specs.ParamSet.{params};
ghost use Rattle.slh_params.specs.declared.param_set.ParamSet.{ParamSet};
ghost use Rattle.slh_few.specs.HtSignatures.{AreUnder, IsUnder, top_root};
ghost use Rattle.slh_few.specs.Xmss.{xmss_sig_len};
ghost use Rattle.slh_few.specs.declared.hypertree.HtSignature.{HtSignature};
ghost use Rattle.slh_core.specs.EightSignatures.{AreGiving, AreOfSet, Gives, IsPartsValid, root_of};
ghost use Rattle.slh_core.specs.Keys.{pk_root};
ghost use Rattle.slh_core.specs.Signatures.{fors_sig_len, root_of_parts};
ghost use Rattle.slh_core.specs.declared.eight.SignedParts.{SignedParts};

use crate::comparing::are_same;
use crate::digest_parts::{DigestIndices, MOST_DIGEST_LEN, digest_indices};
use crate::layout::fors_sig_len;
use crate::public_key::PublicKey;
use crate::verifying::verify_internal;
use slh_few::{HashContext, HtSignature, ht_roots_from_sigs};
use slh_hash::h_msg;
use slh_params::{Node, ParamSet};
use slh_tree::Leaves;

/// A signature with its key, and with the message in parts: any bytes.
#[derive(Clone, Copy)]
pub struct SignedParts<'a> {
    /// The key that is to have signed.
    pub pk: &'a PublicKey,
    /// The parts which, put end to end, are the message.
    pub parts: [&'a [u8]; 4],
    /// The signature.
    pub sig: &'a [u8],
}

/// Whether each of eight signatures is valid for its parts put end to end, as `verify_internal` says (FIPS 205,
/// Algorithm 20). If all keys are of one set, and all signatures of its length, T and H of the eight hypertree
/// signatures are hashed side by side, one in each SIMD lane.
pub fn verify_eight(items: &[SignedParts; 8]) -> [bool; 8]
    ensures { (j : ℕ) (valid : Bool) (item : SignedParts) → j < 8
        → IsTrue (slice_index_or result j valid) ↔ IsPartsValid (slice_index_or items.now j item) }
{
    let set = items[0].pk.set();
    if are_of_set(set, items) {
        verify_side_by_side(set, items)
    } else {
        verify_in_turn(items)
    }
}

/// Whether all keys are of this set, and all signatures of its length.
fn are_of_set(set: ParamSet, items: &[SignedParts; 8]) -> bool
    ensures { IsTrue result ↔ AreOfSet set items.now }
{
    for j in 0..8 {
        if items[j].pk.set() != set || items[j].sig.len() != set.sig_len() {
            return false;
        }
    }
    true
}

/// The hypertree's part of a signature: the FORS public key that it signs, the leaf that signs, and its signature.
#[derive(Drop)]
struct HtPart<'a> {
    context: HashContext<'a>,
    at: DigestIndices,
    pk_fors: Node,
    sig_ht: &'a [u8],
}

impl<'a> HtPart<'a> {
    /// The hypertree's part, after the FORS signature of a digest is verified (Algorithm 20, lines 9 to 16).
    #[tactic(auto, unfolding(crate::specs::Signatures::root_of_parts))]
    fn of_digest(pk: &'a PublicKey, digest: &[u8], sig_fors: &[u8], sig_ht: &'a [u8]) -> Self
        requires digest { length digest.now ≡ m (params pk.now.set) }
        requires sig_fors { length sig_fors.now ≡ fors_sig_len (params pk.now.set) }
        requires sig_ht { length sig_ht.now ≡ (params pk.now.set).d * xmss_sig_len (params pk.now.set) }
        ensures { Gives pk.now.set (root_of_parts pk.now digest.now sig_fors.now sig_ht.now) result }
    {
        let set = pk.set();
        let context = HashContext::new(set, pk.pk_seed());
        let md = &digest[..set.md_len()];
        let at = digest_indices(set, digest);
        let pk_fors = context.fors_pk_from_sig(at.idx_tree, at.idx_leaf, md, sig_fors);
        HtPart {
            context,
            at,
            pk_fors,
            sig_ht,
        }
    }

    /// The hypertree's part of a signature (Algorithm 20, lines 4 to 16).
    fn of(item: &SignedParts<'a>) -> Self
        requires { length item.now.sig.now ≡ sig_len (params item.now.pk.now.set) }
        ensures { Gives item.now.pk.now.set (root_of item.now) result }
    {
        let pk = item.pk;
        let set = pk.set();
        let (r, rest) = item.sig.split_at(set.n());
        let (sig_fors, sig_ht) = rest.split_at(fors_sig_len(set));
        let mut buffer = [0; MOST_DIGEST_LEN];
        let digest = &mut buffer[..set.m()];
        h_msg(set, r, pk.pk_seed(), pk.pk_root(), &item.parts, digest);
        HtPart::of_digest(pk, digest, sig_fors, sig_ht)
    }

    /// The part as `ht_roots_from_sigs` takes it.
    fn signature(&self) -> HtSignature<'_, 'a>
        ensures under { (set : ParamSet) (root : List ℕ) → Gives set root self.now → IsUnder set result }
        ensures root { (set : ParamSet) (root : List ℕ) → Gives set root self.now → top_root set result ≡ root }
    {
        HtSignature {
            context: &self.context,
            idx_tree: self.at.idx_tree,
            idx_leaf: self.at.idx_leaf,
            msg: &self.pk_fors,
            sig: self.sig_ht,
        }
    }
}

/// The hypertree signatures of eight parts.
fn signatures<'p, 'a>(parts: &'p [HtPart<'a>]) -> [HtSignature<'p, 'a>; 8]
    requires { length parts.now ≡ 8 }
    ensures under { (set : ParamSet) (root : ℕ → List ℕ) → AreGiving set root parts.now → AreUnder set result }
    ensures roots { (set : ParamSet) (root : ℕ → List ℕ) → AreGiving set root parts.now
        → (j : ℕ) (x : HtSignature) → j < 8 → top_root set (slice_index_or result j x) ≡ root j }
{
    [
        parts[0].signature(),
        parts[1].signature(),
        parts[2].signature(),
        parts[3].signature(),
        parts[4].signature(),
        parts[5].signature(),
        parts[6].signature(),
        parts[7].signature(),
    ]
}

/// Whether each root is that of the item's key.
fn verdicts(items: &[SignedParts; 8], roots: &Leaves) -> [bool; 8]
    requires { length roots.now.items ≡ 8 }
    ensures { (j : ℕ) (valid : Bool) (item : SignedParts) (d : ArrayVec ℕ) → j < 8
        → IsTrue (slice_index_or result j valid)
        ↔ ((slice_index_or roots.now.items j d).items ≡ pk_root (slice_index_or items.now j item).pk.now) }
{
    let mut valid = [false; 8];
    for j in 0..8 {
        valid[j] = are_same(roots[j].as_slice(), items[j].pk.pk_root());
    }
    valid
}

/// The hypertree's parts of eight signatures.
fn parts_of<'a>(items: &[SignedParts<'a>; 8]) -> [HtPart<'a>; 8]
    requires { (j : ℕ) (item : SignedParts) → j < 8 → let x = slice_index_or items.now j item in
        length x.sig.now ≡ sig_len (params x.pk.now.set) }
    ensures { (set : ParamSet) (item : SignedParts) → AreOfSet set items.now
        → AreGiving set (λ k. root_of (slice_index_or items.now k item)) result }
{
    [
        HtPart::of(&items[0]),
        HtPart::of(&items[1]),
        HtPart::of(&items[2]),
        HtPart::of(&items[3]),
        HtPart::of(&items[4]),
        HtPart::of(&items[5]),
        HtPart::of(&items[6]),
        HtPart::of(&items[7]),
    ]
}

/// The verdicts, with the hypertree signatures side by side.
fn verify_side_by_side(set: ParamSet, items: &[SignedParts; 8]) -> [bool; 8]
    requires { AreOfSet set items.now }
    ensures { (j : ℕ) (valid : Bool) (item : SignedParts) → j < 8
        → IsTrue (slice_index_or result j valid) ↔ IsPartsValid (slice_index_or items.now j item) }
{
    let parts = parts_of(items);
    verdicts(items, &ht_roots_from_sigs(set, &signatures(&parts)))
}

/// The verdicts, one after another.
fn verify_in_turn(items: &[SignedParts; 8]) -> [bool; 8]
    ensures { (j : ℕ) (valid : Bool) (item : SignedParts) → j < 8
        → IsTrue (slice_index_or result j valid) ↔ IsPartsValid (slice_index_or items.now j item) }
{
    let mut valid = [false; 8];
    for j in 0..8 {
        let item = &items[j];
        valid[j] = verify_internal(&item.parts, item.sig, item.pk);
    }
    valid
}
