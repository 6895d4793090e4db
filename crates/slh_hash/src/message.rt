//! The message hashes PRF_msg and H_msg (FIPS 205, section 11.2).
ghost use Rattle.std.specs.Prelude.{◌≡◌, ◌≤◌, ◌^◌, ◌++◌, ℕ, List, [], length};
ghost use Rattle.slh_hash.specs.HashFunctions.{category_function};
ghost use Rattle.slh_hash.specs.Keyed.{joined, mgf1, PRF_msg, h_msg_seed, inner_hash_len, H_msg_by_hash, H_msg};
ghost use Rattle.slh_hash.specs.Stream.{HasMessage};
ghost use Rattle.slh_params.specs.Params.{Params, m};
ghost use Rattle.slh_params.specs.ParamSet.{params};

use crate::category_hasher::CategoryHasher;
use crate::category_hmac::CategoryHmac;
use crate::mgf1::{mgf1_sha256, mgf1_sha512};
use slh_params::{Node, ParamSet};

/// PRF_msg (FIPS 205, section 11.2): R of a message, whose bytes are the parts put end to end.
#[tactic(auto, unfolding(crate::specs::Keyed::PRF_msg))]
pub fn prf_msg(set: ParamSet, sk_prf: &[u8], opt_rand: &[u8], parts: &[&[u8]]) -> Node
    ensures value { result.items ≡ PRF_msg (params set) sk_prf.now opt_rand.now (joined parts.now) }
    ensures len { length result.items ≡ (params set).n }
{
    let mut keyed = CategoryHmac::new(set, sk_prf);
    keyed.update(opt_rand);
    keyed.absorb(parts);
    keyed.finish()
}

/// H_msg (section 11.2) of a message that comes in pieces, none of which is held.
///
/// Contracts see it by the relation `HasMessage`.
#[derive(Drop)]
pub struct HMsg<'a> {
    r: &'a [u8],
    pk_seed: &'a [u8],
    inner: CategoryHasher,
}

impl<'a> HMsg<'a> {
    /// H_msg under R and a public key, of the empty message.
    pub fn new(set: ParamSet, r: &'a [u8], pk_seed: &'a [u8], pk_root: &[u8]) -> HMsg<'a>
        ensures { HasMessage result (params set) r.now pk_seed.now pk_root.now [] }
    {
        let mut inner = CategoryHasher::new(set);
        inner.update(r);
        inner.update(pk_seed);
        inner.update(pk_root);
        HMsg { r, pk_seed, inner }
    }

    /// Adds a piece to the end of the message.
    pub fn update(&mut self, piece: &[u8])
        ensures { (p : Params) (r pk_seed pk_root msg : List ℕ) → HasMessage self.old p r pk_seed pk_root msg
            → HasMessage self.new p r pk_seed pk_root (msg ++ piece.now) }
    {
        self.inner.update(piece);
    }

    /// Writes the digest of the pieces put end to end: H_msg if `out` has m bytes, else as many bytes of that MGF1 as
    /// `out` has.
    pub fn finish(self, out: &mut [u8])
        requires { length out.old ≤ 2 ^ 32 }
        ensures { (p : Params) (r pk_seed pk_root msg : List ℕ) → HasMessage self.entry p r pk_seed pk_root msg
            → out.new
            ≡ mgf1 (category_function p) (h_msg_seed (category_function p) r pk_seed pk_root msg) (length out.old) }
    {
        let HMsg { r, pk_seed, inner } = self;
        inner.put_mgf1(r, pk_seed, out);
    }
}

/// H_msg (section 11.2): the digest of a message, whose bytes are the parts put end to end. `out` has m bytes.
#[tactic(auto, using(slh_params::proofs::Bounds::m_high), unfolding(crate::specs::Keyed::H_msg))]
pub fn h_msg(
    set: ParamSet,
    r: &[u8],
    pk_seed: &[u8],
    pk_root: &[u8],
    parts: &[&[u8]],
    out: &mut [u8],
)
    requires { length out.old ≡ m (params set) }
    ensures { out.new ≡ H_msg (params set) r.now pk_seed.now pk_root.now (joined parts.now) }
{
    let mut hash = HMsg::new(set, r, pk_seed, pk_root);
    for part in parts {
        hash.update(part);
    }
    hash.finish(out);
}

/// The length of the inner hash of H_msg (section 11.2): 32 bytes of SHA-256 if n is 16, else 64 of SHA-512.
pub fn inner_hash_len(set: ParamSet) -> usize
    ensures { result ≡ inner_hash_len (params set) }
{
    if set.n() == 16 { 32 } else { 64 }
}

/// H_msg (section 11.2) by its inner hash, which is the hash of R, PK.seed, PK.root and the message put end to end.
/// `out` has m bytes.
#[tactic(auto, using(slh_params::proofs::Bounds::m_high))]
pub fn h_msg_by_hash(set: ParamSet, r: &[u8], pk_seed: &[u8], hash: &[u8], out: &mut [u8])
    requires { length out.old ≡ m (params set) }
    ensures { out.new ≡ H_msg_by_hash (params set) r.now pk_seed.now hash.now }
{
    if set.n() == 16 {
        mgf1_sha256(&[r, pk_seed, hash], out);
    } else {
        mgf1_sha512(&[r, pk_seed, hash], out);
    }
}
