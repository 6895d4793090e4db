//! Rows about WOTS+ (FIPS 205, section 5).
ghost use Rattle.std.specs.Prelude.{◌≡◌, length};
ghost use Rattle.slh_params.specs.ParamSet.{params};

use crate::row::Row;
use slh_few::{
    Place, Public, Seeds, chain, digits, wots_pk, wots_pk_from_sig, wots_sig_len, wots_sign,
};
use slh_params::{Node, ParamSet, base_2b};

/// The seeds of a key.
pub fn seeds_of<'a>(set: ParamSet, sk_seed: &'a Node, pk_seed: &'a Node) -> Seeds<'a>
    requires sk_seed { length sk_seed.now.items ≡ (params set).n }
    requires pk_seed { length pk_seed.now.items ≡ (params set).n }
    ensures { result.set ≡ set }
{
    Seeds {
        set,
        sk_seed: sk_seed.as_slice(),
        pk_seed: pk_seed.as_slice(),
    }
}

/// The seed that verifying needs.
pub fn public_of<'a>(set: ParamSet, pk_seed: &'a Node) -> Public<'a>
    requires { length pk_seed.now.items ≡ (params set).n }
    ensures { result.set ≡ set }
{
    Public {
        set,
        pk_seed: pk_seed.as_slice(),
    }
}

/// A layer, a tree and a key pair.
fn place_of(row: &mut Row) -> Place {
    Place {
        layer: row.layer(),
        tree: row.number(),
        pair: row.word(),
    }
}

/// A set, a message of n bytes; the digits of its checksum. Those before them are its groups of lg_w bits.
pub fn digits_row(row: &mut Row) {
    let set = row.set();
    let msg = row.node(set);
    let Ok(mut out) = vec![in row.alloc(); 0; set.len()] else {
        return row.refuse();
    };
    digits(set, &msg, &mut out);
    let Ok(mut groups) = vec![in row.alloc(); 0; set.len1()] else {
        return row.refuse();
    };
    let (bits, bytes) = (set.lg_w(), msg.as_slice());
    if bits == 0
        || bits > 16
        || bytes.len() > 32
        || bits as usize * groups.len() > 8 * bytes.len()
    {
        return row.refuse();
    }
    base_2b(bytes, bits, &mut groups);
    row.is_true(out.get(..groups.len()) == Some(groups.as_slice()));
    for digit in out.iter().skip(groups.len()) {
        row.is_number(*digit as u64);
    }
}

/// A set, PK.seed, a place, a node; chain 0 of the place, run on from the node after 1 step, for 2 steps. For no steps
/// after the last one it is the node.
#[tactic(auto, using(slh_params::proofs::Bounds::w_low))]
pub fn chain_row(row: &mut Row) {
    let set = row.set();
    let pk_seed = row.node(set);
    let at = place_of(row);
    let x = row.node(set);
    let public = public_of(set, &pk_seed);
    row.is_bytes(&chain(&public, at, 0, &x, 1, 2));
    row.is_true(chain(&public, at, 0, &x, set.w() - 1, 0).as_slice() == x.as_slice());
}

/// A set, SK.seed, PK.seed, a place; the key.
pub fn wots_pk_row(row: &mut Row) {
    let set = row.set();
    let sk_seed = row.node(set);
    let pk_seed = row.node(set);
    let at = place_of(row);
    row.is_bytes(&wots_pk(&seeds_of(set, &sk_seed, &pk_seed), at));
}

/// A set, SK.seed, PK.seed, a place, a message of n bytes; the SHA-256 of the signature, and the key that it gives.
pub fn wots_sign_row(row: &mut Row) {
    let set = row.set();
    let sk_seed = row.node(set);
    let pk_seed = row.node(set);
    let at = place_of(row);
    let msg = row.node(set);
    let Some(mut sig) = row.zeros(wots_sig_len(set)) else {
        return;
    };
    wots_sign(&seeds_of(set, &sk_seed, &pk_seed), at, &msg, &mut sig);
    row.is_digest(&sig);
    row.is_bytes(&wots_pk_from_sig(&public_of(set, &pk_seed), at, &msg, &sig));
}
