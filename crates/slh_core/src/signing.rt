//! Signing a message that is given in parts (FIPS 205, section 9.2).
ghost use Rattle.std.specs.Prelude.{◌≡◌, ◌+◌, length};
ghost use Rattle.slh_params.specs.Params.{m, sig_len};
ghost use Rattle.slh_params.specs.ParamSet.{params};
ghost use Rattle.slh_hash.specs.Keyed.{joined};
ghost use Rattle.slh_core.specs.Keys.{public_of, IsGeneratedKey};
ghost use Rattle.slh_core.specs.Randomizers.{HasLength};
ghost use Rattle.slh_core.specs.Signatures.{r_by, digest_of, signature_of_digest, signature_by, IsValid};

use crate::digest_parts::{MOST_DIGEST_LEN, digest_indices};
use crate::layout::fors_sig_len;
use crate::randomizer::Randomizer;
use crate::secret_key::SecretKey;
use slh_hash::{h_msg, prf_msg};
use slh_params::Node;

/// Writes what follows R in the signature of a digest (FIPS 205, Algorithm 19, lines 6 to 18).
#[tactic(auto, unfolding(crate::specs::Signatures::signature_of_digest))]
fn sign_digest(sk: &SecretKey, digest: &[u8], out: &mut [u8])
    requires digest { length digest.now ≡ m (params sk.now.set) }
    requires out { length out.old + (params sk.now.set).n ≡ sig_len (params sk.now.set) }
    ensures { out.new ≡ signature_of_digest sk.now digest.now }
{
    let set = sk.set();
    let signer = sk.signer();
    let md = &digest[..set.md_len()];
    let indices = digest_indices(set, digest);
    let (sig_fors, sig_ht) = out.split_at_mut(fors_sig_len(set));
    let (idx_tree, idx_leaf) = (indices.idx_tree, indices.idx_leaf);
    signer.fors_sign(idx_tree, idx_leaf, md, sig_fors);
    let pk_fors = signer
        .public
        .fors_pk_from_sig(idx_tree, idx_leaf, md, sig_fors);
    signer.ht_sign(idx_tree, idx_leaf, &pk_fors, sig_ht);
}

/// R for the message of the parts put end to end, n bytes; its digest of m bytes under R is written into
/// `digest` (FIPS 205, Algorithm 19, lines 2 to 5).
pub fn randomized_digest(
    parts: &[&[u8]],
    sk: &SecretKey,
    randomizer: Randomizer,
    digest: &mut [u8],
) -> Node
    requires randomizer { HasLength randomizer (params sk.now.set).n }
    requires digest { length digest.old ≡ m (params sk.now.set) }
    ensures r { result.items ≡ r_by sk.now (joined parts.now) randomizer.entry }
    ensures len { length result.items ≡ (params sk.now.set).n }
    ensures digest { digest.new ≡ digest_of (public_of sk.now) result.items (joined parts.now) }
{
    let set = sk.set();
    let opt_rand = randomizer.opt_rand(sk.pk_seed());
    let r = prf_msg(set, sk.sk_prf(), opt_rand, parts);
    h_msg(set, r.as_slice(), sk.pk_seed(), sk.pk_root(), parts, digest);
    r
}

/// Writes the signature of the parts put end to end, `sig_len` bytes (FIPS 205, Algorithm 19).
#[tactic(auto, unfolding(crate::specs::Signatures::signature))]
pub fn sign_internal(parts: &[&[u8]], sk: &SecretKey, randomizer: Randomizer, out: &mut [u8])
    requires randomizer { HasLength randomizer (params sk.now.set).n }
    requires out { length out.old ≡ sig_len (params sk.now.set) }
    ensures signature { out.new ≡ signature_by sk.now (joined parts.now) randomizer.entry }
    ensures authentic { IsGeneratedKey sk.now → IsValid (public_of sk.now) (joined parts.now) out.new }
{
    let set = sk.set();
    let mut buffer = [0; MOST_DIGEST_LEN];
    let digest = &mut buffer[..set.m()];
    let r = randomized_digest(parts, sk, randomizer, digest);
    let (front, rest) = out.split_at_mut(set.n());
    front.copy_from_slice(r.as_slice());
    sign_digest(sk, digest, rest);
}
