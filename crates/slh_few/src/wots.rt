//! WOTS+, one-time signatures (FIPS 205, section 5).
ghost use Rattle.std.specs.Prelude.{◌≡◌, ℕ, List, ◌+◌, ◌-◌, ◌*◌, ◌≤◌, ◌<◌, length, slice_index};
ghost use Rattle.slh_params.specs.Address.{WOTS_PK};
ghost use Rattle.slh_params.specs.AdrsType.{type_number};
ghost use Rattle.slh_params.specs.Params.{Params, len, w};
ghost use Rattle.slh_params.specs.ParamSet.{params};
ghost use Rattle.slh_hash.specs.Hash.{T};
ghost use Rattle.slh_few.specs.Chunks.{end_to_end, chunk};
ghost use Rattle.slh_few.specs.Wots.{wots_address, chain as chain_of, compressed_ends, finished_chain, whole_chain, wots_pk, wots_sig, wots_pk_from_sig};
ghost use Rattle.slh_few.specs.Xmss.{wots_sig_len};
ghost use Rattle.slh_few.specs.declared.wots.TheConstants.{MOST_WOTS_SIG_LEN};

use crate::context::{HashContext, SigningContext};
use crate::lanes::{ChainNumbers, MOST_DIGITS, run_secrets_in_lanes, run_values};
use crate::nodes::node_at;
use crate::place::{Place, Public, Seeds};
use crate::wots_digits::{MOST_CHAINS, digits_of};
use slh_lanes::SeededLanes;
use slh_params::{Adrs, AdrsType, Node, ParamSet, copy_of};

/// The WOTS+ address of a type at a place: a chain, and a step of it.
pub(crate) fn wots_adrs(at: Place, kind: AdrsType, chain: u32, hash: u32) -> Adrs
    ensures { result ≡ wots_address at (type_number kind) chain hash }
{
    let mut adrs = Adrs::zero();
    adrs.set_layer(at.layer);
    adrs.set_tree(at.tree);
    adrs.set_type_and_clear(kind);
    adrs.set_key_pair(at.pair);
    adrs.set_chain(chain);
    adrs.set_hash(hash);
    adrs
}

/// The most steps of a chain in any set: w is at most 256.
pub(crate) const MOST_STEPS: u32 = 256 - 1;

/// Runs chain `c` on from `x`, which is its value after `from` steps.
pub(crate) fn run_chain(
    context: &HashContext,
    at: Place,
    c: u32,
    x: Node,
    from: u32,
    steps: u32,
) -> Node
    requires { from + steps ≤ MOST_STEPS }
    ensures value { let p = params context.now.set in let pk_seed = context.now.pk_seed.now in
        result.items ≡ chain_of p pk_seed at c x.items from steps }
    ensures len { length x.items ≡ (params context.now.set).n → length result.items ≡ (params context.now.set).n }
{
    let mut adrs = wots_adrs(at, AdrsType::WotsHash, c, 0);
    let mut node = x;
    for step in 0..steps {
        adrs.set_hash(from + step);
        node = context.f(&adrs, &node);
    }
    node
}

/// The value of chain `chain_no` that `steps` steps lead to from `x`, its value after `from` steps:
/// n bytes (Algorithm 5). A chain run in two parts is the chain.
#[tactic(auto, using(slh_params::proofs::Bounds::w_high))]
pub fn chain(public: &Public, at: Place, chain_no: u32, x: &Node, from: u32, steps: u32) -> Node
    requires { from + steps ≤ w (params public.now.set) - 1 }
    ensures value { let p = params public.now.set in let pk_seed = public.now.pk_seed.now in
        result.items ≡ chain_of p pk_seed at chain_no x.now.items from steps }
    ensures two_parts { let p = params public.now.set in let pk_seed = public.now.pk_seed.now in
        (first rest : ℕ) → first + rest ≡ steps → result.items
        ≡ chain_of p pk_seed at chain_no (chain_of p pk_seed at chain_no x.now.items from first)
        (from + first) rest }
{
    let context = HashContext::new(public.set, public.pk_seed);
    run_chain(&context, at, chain_no, copy_of(x), from, steps)
}

/// At least the length of a signature in any set, and so of a value of each chain of a key: of 32 bytes each.
pub(crate) const MOST_WOTS_SIG_LEN: usize = MOST_CHAINS * 32;

/// T over the ends of all chains: the public key, n bytes (Algorithm 6, lines 10 to 13).
pub(crate) fn compressed_ends(context: &HashContext, at: Place, ends: &[u8]) -> Node
    requires { length ends.now ≡ len (params context.now.set) * (params context.now.set).n }
    ensures value { let p = params context.now.set in
        result.items ≡ T p context.now.pk_seed.now (wots_address at WOTS_PK 0 0) ends.now }
    ensures len { length result.items ≡ (params context.now.set).n }
{
    let adrs = wots_adrs(at, AdrsType::WotsPk, 0, 0);
    context.t(&adrs, ends, context.set.len())
}

impl<'a> SigningContext<'a> {
    /// The public key at a place: n bytes (Algorithm 6).
    #[tactic(auto, using(crate::proofs::Checksum::chain_bounds))]
    pub fn wots_pk(&self, at: Place) -> Node
        ensures value { let p = params self.now.public.set in let pk_seed = self.now.public.pk_seed.now in
            result.items ≡ wots_pk p self.now.sk_seed.now pk_seed at }
        ensures len { length result.items ≡ (params self.now.public.set).n }
    {
        let set = self.public.set;
        let mut buffer = [0; MOST_WOTS_SIG_LEN];
        let ends = &mut buffer[..wots_sig_len(set)];
        let last = [set.w() - 1; MOST_DIGITS];
        run_secrets_in_lanes(self.lanes(), self.sk_seed, at, &last, ends);
        compressed_ends(&self.public, at, ends)
    }

    /// Writes the signature of a message of n bytes: len * n bytes (Algorithm 7).
    /// The key that it gives is the public key.
    #[tactic(auto, using(crate::proofs::Checksum::chain_bounds))]
    pub fn wots_sign(&self, at: Place, msg: &Node, out: &mut [u8])
        requires msg { length msg.now.items ≡ (params self.now.public.set).n }
        requires out { length out.old ≡ len (params self.now.public.set) * (params self.now.public.set).n }
        ensures signature { let p = params self.now.public.set in let pk_seed = self.now.public.pk_seed.now in
            out.new ≡ wots_sig p self.now.sk_seed.now pk_seed at msg.now.items }
        ensures key { let p = params self.now.public.set in let pk_seed = self.now.public.pk_seed.now in
            wots_pk_from_sig p pk_seed at msg.now.items out.new ≡ wots_pk p self.now.sk_seed.now pk_seed at }
    {
        let digits = digits_of(self.public.set, msg);
        run_secrets_in_lanes(self.lanes(), self.sk_seed, at, &digits, out);
    }
}

/// The public key at a place: n bytes (Algorithm 6).
pub fn wots_pk(seeds: &Seeds, at: Place) -> Node
    ensures value { let p = params seeds.now.set in let sk_seed = seeds.now.sk_seed.now in
        let pk_seed = seeds.now.pk_seed.now in
        result.items ≡ wots_pk p sk_seed pk_seed at }
    ensures len { length result.items ≡ (params seeds.now.set).n }
{
    SigningContext::new(seeds).wots_pk(at)
}

/// The length of a signature: len * n bytes.
pub fn wots_sig_len(set: ParamSet) -> usize
    ensures value { result ≡ wots_sig_len (params set) }
    ensures small { result ≤ MOST_WOTS_SIG_LEN }
{
    set.len() * set.n()
}

/// Writes the signature of a message of n bytes: len * n bytes (Algorithm 7).
/// The key that it gives is the public key.
pub fn wots_sign(seeds: &Seeds, at: Place, msg: &Node, out: &mut [u8])
    requires msg { length msg.now.items ≡ (params seeds.now.set).n }
    requires out { length out.old ≡ len (params seeds.now.set) * (params seeds.now.set).n }
    ensures signature { let p = params seeds.now.set in let sk_seed = seeds.now.sk_seed.now in
        let pk_seed = seeds.now.pk_seed.now in
        out.new ≡ wots_sig p sk_seed pk_seed at msg.now.items }
    ensures key { wots_pk_from_sig (params seeds.now.set) seeds.now.pk_seed.now at msg.now.items out.new
        ≡ wots_pk (params seeds.now.set) seeds.now.sk_seed.now seeds.now.pk_seed.now at }
{
    SigningContext::new(seeds).wots_sign(at, msg, out);
}

/// How many steps each chain has left from its digit to its end, with zeros after them.
fn steps_left(set: ParamSet, digits: &ChainNumbers) -> ChainNumbers
    requires { (c : ℕ) → slice_index digits.now c ≤ w (params set) - 1 }
    ensures left { (c : ℕ) → c < len (params set) → slice_index result c
        ≡ w (params set) - 1 - slice_index digits.now c }
    ensures rest { (c : ℕ) → len (params set) ≤ c → slice_index result c ≡ 0 }
{
    let last = set.w() - 1;
    let mut left = [0; MOST_DIGITS];
    for c in 0..set.len() {
        left[c] = last - digits[c];
    }
    left
}

/// Writes the ends of the chains that a signature of a message of n bytes leads to (Algorithm 8, lines 1 to 10).
#[tactic(auto, using(crate::proofs::Checksum::chain_bounds))]
pub(crate) fn put_ends(lanes: &SeededLanes, at: Place, msg: &Node, sig: &[u8], out: &mut [u8])
    requires msg { length msg.now.items ≡ (params lanes.now.set).n }
    requires sig { length sig.now ≡ len (params lanes.now.set) * (params lanes.now.set).n }
    requires out { length out.old ≡ len (params lanes.now.set) * (params lanes.now.set).n }
    ensures { let p = params lanes.now.set in
        out.new ≡ end_to_end (finished_chain p lanes.now.pk_seed.now at msg.now.items sig.now) (len p) }
{
    let digits = digits_of(lanes.set, msg);
    let left = steps_left(lanes.set, &digits);
    out.copy_from_slice(sig);
    run_values(lanes, at, &digits, &left, out);
}

/// The public key that a signature of a message of n bytes gives (Algorithm 8). T absorbs the end of each chain as it
/// is reached, so no buffer holds all.
#[tactic(auto, using(crate::proofs::Checksum::chain_bounds))]
fn absorbed_ends(context: &HashContext, at: Place, msg: &Node, sig: &[u8]) -> Node
    requires msg { length msg.now.items ≡ (params context.now.set).n }
    requires sig { length sig.now ≡ len (params context.now.set) * (params context.now.set).n }
    ensures value { let p = params context.now.set in let pk_seed = context.now.pk_seed.now in
        result.items ≡ wots_pk_from_sig p pk_seed at msg.now.items sig.now }
    ensures len { length result.items ≡ (params context.now.set).n }
{
    let set = context.set;
    let digits = digits_of(set, msg);
    let last = set.w() - 1;
    let n = set.n();
    let mut stream = context.t_stream(&wots_adrs(at, AdrsType::WotsPk, 0, 0));
    for c in 0..set.len() {
        let value = node_at(sig, n, c);
        stream.absorb(&run_chain(context, at, c as u32, value, digits[c], last - digits[c]));
    }
    stream.finish()
}

impl<'a> HashContext<'a> {
    /// The public key that a signature of a message of n bytes gives: n bytes (Algorithm 8).
    #[tactic(auto, using(crate::proofs::Checksum::chain_bounds))]
    pub fn wots_pk_from_sig(&self, at: Place, msg: &Node, sig: &[u8]) -> Node
        requires msg { length msg.now.items ≡ (params self.now.set).n }
        requires sig { length sig.now ≡ len (params self.now.set) * (params self.now.set).n }
        ensures value { let p = params self.now.set in let pk_seed = self.now.pk_seed.now in
            result.items ≡ wots_pk_from_sig p pk_seed at msg.now.items sig.now }
        ensures len { length result.items ≡ (params self.now.set).n }
    {
        let Some(lanes) = self.lanes() else {
            return absorbed_ends(self, at, msg, sig);
        };
        let mut buffer = [0; MOST_WOTS_SIG_LEN];
        let ends = &mut buffer[..wots_sig_len(self.set)];
        put_ends(lanes, at, msg, sig, ends);
        compressed_ends(self, at, ends)
    }
}

/// The public key that a signature of a message of n bytes gives: n bytes (Algorithm 8).
pub fn wots_pk_from_sig(public: &Public, at: Place, msg: &Node, sig: &[u8]) -> Node
    requires msg { length msg.now.items ≡ (params public.now.set).n }
    requires sig { length sig.now ≡ len (params public.now.set) * (params public.now.set).n }
    ensures value { let p = params public.now.set in let pk_seed = public.now.pk_seed.now in
        result.items ≡ wots_pk_from_sig p pk_seed at msg.now.items sig.now }
    ensures len { length result.items ≡ (params public.now.set).n }
{
    HashContext::new(public.set, public.pk_seed).wots_pk_from_sig(at, msg, sig)
}
