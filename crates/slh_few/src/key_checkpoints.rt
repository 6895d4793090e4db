//! Checkpoints of a key's chains, stored when the key is made, until it signs (FIPS 205, section 5).
ghost use Rattle.std.specs.Prelude.{◌≡◌, ◌≢◌, ℕ, List, ◌+◌, ◌-◌, ◌*◌, ◌≤◌, ◌<◌, length};
ghost use Rattle.slh_params.specs.Params.{len, w};
ghost use Rattle.slh_params.specs.ParamSet.{params};
ghost use Rattle.slh_few.specs.Chunks.{chunk};
ghost use Rattle.slh_few.specs.Wots.{wots_pk, wots_sig};
ghost use Rattle.slh_few.specs.KeyCheckpoints.{spacing as spacing_of, checkpoint_count as checkpoint_count_of, chain_checkpoints_len as chain_len, key_checkpoints_len as chains_len, key_checkpoints, run_from_checkpoint, wots_sig_from};
ghost use Rattle.slh_few.specs.declared.key_checkpoints.TheConstants.{MOST_CHAIN_CHECKPOINTS_LEN, MOST_KEY_CHECKPOINTS_LEN};

use crate::context::{HashContext, SigningContext};
use crate::lanes::run_with_checkpoints;
use crate::nodes::{chunk_at, node_at, put_chunk};
use crate::place::Place;
use crate::wots::{MOST_WOTS_SIG_LEN, compressed_ends, run_chain, wots_sig_len};
use crate::wots_digits::{MOST_CHAINS, digits_of};
use slh_params::{Node, ParamSet, put_node};

/// The most checkpoints of a chain.
const MOST_CHECKPOINTS: u32 = 16;

/// The number of steps between two checkpoints of a chain.
pub(crate) fn spacing(set: ParamSet) -> u32
    ensures value { result ≡ spacing_of (params set) }
    ensures within { (1 ≤ result) × (result ≤ 16) }
{
    set.w().div_ceil(MOST_CHECKPOINTS)
}

/// The number of checkpoints of a chain.
pub(crate) fn checkpoint_count(set: ParamSet) -> u32
    ensures value { result ≡ checkpoint_count_of (params set) }
    ensures within { (1 ≤ result) × (result ≤ 16) }
{
    set.w() / spacing(set)
}

/// At least the length of the checkpoints of one chain in any set: 16 of 32 bytes.
const MOST_CHAIN_CHECKPOINTS_LEN: usize = 16 * 32;

/// At least the length of the checkpoints of all chains of a key in any set.
const MOST_KEY_CHECKPOINTS_LEN: usize = MOST_CHAINS * MOST_CHAIN_CHECKPOINTS_LEN;

/// The length of the checkpoints of one chain.
fn chain_checkpoints_len(set: ParamSet) -> usize
    ensures value { result ≡ chain_len (params set) }
    ensures small { result ≤ MOST_CHAIN_CHECKPOINTS_LEN }
{
    checkpoint_count(set) as usize * set.n()
}

/// The length of the checkpoints of all chains of a key.
pub fn key_checkpoints_len(set: ParamSet) -> usize
    ensures value { result ≡ chains_len (params set) }
    ensures small { result ≤ MOST_KEY_CHECKPOINTS_LEN }
{
    set.len() * chain_checkpoints_len(set)
}

/// Writes checkpoint `j` of chain `c`.
pub(crate) fn put_checkpoint(
    set: ParamSet,
    checkpoints: &mut [u8],
    c: usize,
    j: usize,
    value: &Node,
)
    requires checkpoints { length checkpoints.old ≡ chains_len (params set) }
    requires chain { c < len (params set) }
    requires number { j < checkpoint_count_of (params set) }
    requires value { length value.now.items ≡ (params set).n }
    ensures set { chunk (params set).n (chunk (chain_len (params set)) checkpoints.new c) j ≡ value.now.items }
    ensures others { (i : ℕ) → i ≢ j → chunk (params set).n (chunk (chain_len (params set)) checkpoints.new c) i
        ≡ chunk (params set).n (chunk (chain_len (params set)) checkpoints.old c) i }
    ensures chains { (i : ℕ) → i ≢ c → chunk (chain_len (params set)) checkpoints.new i
        ≡ chunk (chain_len (params set)) checkpoints.old i }
{
    let size = chain_checkpoints_len(set);
    let start = c * size;
    put_chunk(&mut checkpoints[start..start + size], set.n(), j, value);
}

impl<'a> SigningContext<'a> {
    /// The public key at a place, n bytes (Algorithm 6). Into `checkpoints` it writes checkpoints of the key's chains,
    /// `key_checkpoints_len` bytes, from which `wots_sign_from_checkpoints` signs.
    #[tactic(auto, using(crate::proofs::Checksum::chain_bounds))]
    pub(crate) fn wots_pk_with_checkpoints(&self, at: Place, checkpoints: &mut [u8]) -> Node
        requires { length checkpoints.old ≡ chains_len (params self.now.public.set) }
        ensures value { let p = params self.now.public.set in let pk_seed = self.now.public.pk_seed.now in
            result.items ≡ wots_pk p self.now.sk_seed.now pk_seed at }
        ensures len { length result.items ≡ (params self.now.public.set).n }
        ensures checkpoints { let p = params self.now.public.set in let pk_seed = self.now.public.pk_seed.now in
            checkpoints.new ≡ key_checkpoints p self.now.sk_seed.now pk_seed at }
    {
        let mut buffer = [0; MOST_WOTS_SIG_LEN];
        let ends = &mut buffer[..wots_sig_len(self.public.set)];
        run_with_checkpoints(self.lanes(), self.sk_seed, at, checkpoints, ends);
        compressed_ends(&self.public, at, ends)
    }
}

/// The value of chain `c` of a key after `steps` steps from its secret, run on from the last checkpoint before it.
fn value_from_checkpoint(
    context: &HashContext,
    at: Place,
    c: u32,
    checkpoints: &[u8],
    steps: u32,
) -> Node
    requires steps { steps ≤ w (params context.now.set) - 1 }
    requires checkpoints { length checkpoints.now ≡ chain_len (params context.now.set) }
    ensures value { result.items
        ≡ run_from_checkpoint (params context.now.set) context.now.pk_seed.now at c checkpoints.now steps }
    ensures len { length result.items ≡ (params context.now.set).n }
{
    let set = context.set;
    let every = spacing(set);
    let j = steps / every;
    let node = node_at(checkpoints, set.n(), j as usize);
    run_chain(context, at, c, node, j * every, steps % every)
}

impl<'a> HashContext<'a> {
    /// Writes the signature of a message of n bytes, len * n bytes (Algorithm 7), from the checkpoints of the key's
    /// chains. If `checkpoints` has other bytes of that length, `value` states the output. If w is at most 16, no chain
    /// is computed.
    #[tactic(auto, using(crate::proofs::Checksum::chain_bounds))]
    pub fn wots_sign_from_checkpoints(
        &self,
        at: Place,
        msg: &Node,
        checkpoints: &[u8],
        out: &mut [u8],
    )
        requires msg { length msg.now.items ≡ (params self.now.set).n }
        requires checkpoints { length checkpoints.now ≡ chains_len (params self.now.set) }
        requires out { length out.old ≡ len (params self.now.set) * (params self.now.set).n }
        ensures value { out.new
            ≡ wots_sig_from (params self.now.set) self.now.pk_seed.now at checkpoints.now msg.now.items }
        ensures signature { let p = params self.now.set in let pk_seed = self.now.pk_seed.now in
            (sk_seed : List ℕ) → checkpoints.now ≡ key_checkpoints p sk_seed pk_seed at
            → out.new ≡ wots_sig p sk_seed pk_seed at msg.now.items }
    {
        let set = self.set;
        let digits = digits_of(set, msg);
        let n = set.n();
        let size = chain_checkpoints_len(set);
        for c in 0..set.len() {
            let values = chunk_at(checkpoints, size, c);
            let node = value_from_checkpoint(self, at, c as u32, values, digits[c]);
            put_node(out, c * n, &node);
        }
    }
}
