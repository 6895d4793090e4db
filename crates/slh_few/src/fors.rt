//! FORS, few-time signatures of a message digest (FIPS 205, section 8).
ghost use Rattle.std.specs.Prelude.{[], take, drop, ◌≡◌, ℕ, List, ◌+◌, ◌*◌, ◌^◌, ◌≤◌, ◌<◌, ◌++◌, length, slice_index};
ghost use Rattle.slh_params.specs.Address.{address, FORS_ROOTS};
ghost use Rattle.slh_params.specs.Params.{md_len};
ghost use Rattle.slh_params.specs.ParamSet.{params};
ghost use Rattle.slh_hash.specs.Hash.{T};
ghost use Rattle.slh_tree.specs.Cover.{past_leaf};
ghost use Rattle.slh_tree.specs.Tree.{node, root as root_of};
ghost use Rattle.slh_tree.specs.Climb.{path as path_of, climb as climb_of};
ghost use Rattle.slh_few.specs.Fors.{fors_tree, fors_leaf, fors_secret, fors_part_len, fors_sig, fors_root, fors_pk_from_sig, compressed_roots};
ghost use Rattle.slh_few.specs.Chunks.{end_to_end, chunk};
ghost use Rattle.slh_few.specs.Trees.{fors_joins_of, fors_nodes_of};
ghost use Rattle.slh_few.specs.declared.fors.TheConstants.{MOST_FORS_PART_LEN, MOST_FORS_ROOTS_LEN};

use crate::context::{HashContext, SigningContext};
use crate::fors_parts::{MOST_TREES, fors_indices};
use crate::fors_tree::{ForsJoins, ForsNodes, ForsPlace, fors_adrs};
use crate::lanes::put_first_roots;
use crate::nodes::{chunk_at, put_chunk};
use crate::place::{Public, Seeds};
use slh_params::{AdrsType, Node, ParamSet, node_of, put_node};
use slh_tree::climb;

/// At least the length of a tree's part of a signature in any set: a secret and 14 nodes of 32 bytes.
const MOST_FORS_PART_LEN: usize = (1 + 14) * 32;

/// The length of a tree's part of a signature, a secret and its path: (1 + a) * n bytes.
pub fn fors_part_len(set: ParamSet) -> usize
    ensures value { result ≡ fors_part_len (params set) }
    ensures small { result ≤ MOST_FORS_PART_LEN }
{
    (1 + set.a() as usize) * set.n()
}

impl<'c, 'a> ForsNodes<'c, 'a> {
    /// Writes the path of leaf `i` (Algorithm 16, lines 5 to 9).
    #[tactic(auto, unfolding(crate::specs::Trees::fors_nodes_of))]
    fn put_auth_path(&self, i: u32, out: &mut [u8])
        requires index { i < 2 ^ (params self.now.signer.now.public.set).a }
        requires length { let p = params self.now.signer.now.public.set in length out.old ≡ p.a * p.n }
        ensures { out.new ≡ path_of (fors_nodes_of self.now) i }
    {
        for z in 0..self.signer.public.set.a() {
            let node = self.node(z, (i >> z) ^ 1);
            put_node(out, z as usize * node.len(), &node);
        }
    }

    /// Writes the secret of leaf `i`, then the leaf's path.
    fn sign(&self, i: u32, out: &mut [u8])
        requires leaf { i < 2 ^ (params self.now.signer.now.public.set).a }
        requires out { length out.old ≡ fors_part_len (params self.now.signer.now.public.set) }
        ensures { let t = self.now in let p = params t.signer.now.public.set in
            out.new ≡ fors_secret p t.signer.now.sk_seed.now t.signer.now.public.pk_seed.now
            t.at.idx_tree t.at.idx_leaf (t.at.tree_no * 2 ^ p.a + i)
            ++ path_of (fors_nodes_of t) i }
    {
        let (secret, auth) = out.split_at_mut(self.signer.public.set.n());
        secret.copy_from_slice(&self.secret(i));
        self.put_auth_path(i, auth);
    }

    /// Writes the secret of leaf `i`, then the leaf's path, from `start` on.
    fn put_fors_part(&self, i: u32, out: &mut [u8], start: usize)
        requires leaf { i < 2 ^ (params self.now.signer.now.public.set).a }
        requires out { start + fors_part_len (params self.now.signer.now.public.set) ≤ length out.old }
        ensures { let t = self.now in let p = params t.signer.now.public.set in
            take (start + fors_part_len p) out.new ≡ take start out.old
            ++ (fors_secret p t.signer.now.sk_seed.now t.signer.now.public.pk_seed.now
            t.at.idx_tree t.at.idx_leaf (t.at.tree_no * 2 ^ p.a + i)
            ++ path_of (fors_nodes_of t) i) }
    {
        let end = start + fors_part_len(self.signer.public.set);
        self.sign(i, &mut out[start..end]);
    }
}

impl<'a> SigningContext<'a> {
    /// The secret of leaf `i` of tree `tree_no`, of the key at leaf `idx_leaf` of tree `idx_tree`: n bytes
    /// (Algorithm 14).
    pub fn fors_secret(&self, idx_tree: u64, idx_leaf: u32, tree_no: u32, i: u32) -> Node
        requires tree { tree_no < (params self.now.public.set).k }
        requires leaf { i < 2 ^ (params self.now.public.set).a }
        ensures value { let p = params self.now.public.set in let pk_seed = self.now.public.pk_seed.now in
            result.items ≡ fors_secret p self.now.sk_seed.now pk_seed idx_tree idx_leaf (tree_no * 2 ^ p.a + i) }
        ensures len { length result.items ≡ (params self.now.public.set).n }
    {
        let at = ForsPlace {
            idx_tree,
            idx_leaf,
            tree_no,
        };
        ForsNodes { signer: self, at }.secret(i)
    }

    /// fors_node (Algorithm 15): a node of a FORS tree, n bytes, from the leaves below it. `z` is its height and `i`
    /// its index in tree `tree_no`. The FORS key is at leaf `idx_leaf` of tree `idx_tree`. The standard numbers the
    /// nodes of all k trees together: its index is tree_no * 2^(a - z) + i.
    #[tactic(auto, unfolding(crate::specs::Trees::fors_nodes_of))]
    pub fn fors_node(&self, idx_tree: u64, idx_leaf: u32, tree_no: u32, z: u32, i: u32) -> Node
        requires tree { tree_no < (params self.now.public.set).k }
        requires height { z ≤ (params self.now.public.set).a }
        requires within { past_leaf z i ≤ 2 ^ (params self.now.public.set).a }
        ensures value { let p = params self.now.public.set in let pk_seed = self.now.public.pk_seed.now in
            result.items ≡ node (fors_tree p self.now.sk_seed.now pk_seed idx_tree idx_leaf tree_no) z i }
        ensures len { length result.items ≡ (params self.now.public.set).n }
    {
        let at = ForsPlace {
            idx_tree,
            idx_leaf,
            tree_no,
        };
        ForsNodes { signer: self, at }.node(z, i)
    }

    /// Writes the signature of a digest of md_len bytes by the key at leaf `idx_leaf` of tree `idx_tree`: k * (1 + a) *
    /// n bytes (Algorithm 16). They are, for each tree, the secret that the digest selects and its path. The key that
    /// it gives is T over the trees' roots.
    #[tactic(auto, unfolding(crate::specs::Trees::fors_nodes_of))]
    pub fn fors_sign(&self, idx_tree: u64, idx_leaf: u32, md: &[u8], out: &mut [u8])
        requires md { length md.now ≡ md_len (params self.now.public.set) }
        requires out { let p = params self.now.public.set in length out.old ≡ p.k * fors_part_len p }
        ensures signature { let p = params self.now.public.set in let pk_seed = self.now.public.pk_seed.now in
            out.new ≡ fors_sig p self.now.sk_seed.now pk_seed idx_tree idx_leaf md.now }
        ensures key { let p = params self.now.public.set in let sk_seed = self.now.sk_seed.now in
            let pk_seed = self.now.public.pk_seed.now in
            fors_pk_from_sig p pk_seed idx_tree idx_leaf md.now out.new
            ≡ compressed_roots p pk_seed idx_tree idx_leaf
            (λ j. root_of (fors_tree p sk_seed pk_seed idx_tree idx_leaf j)) }
    {
        let set = self.public.set;
        let indices = fors_indices(set, md);
        let size = fors_part_len(set);
        for j in 0..set.k() {
            let at = ForsPlace {
                idx_tree,
                idx_leaf,
                tree_no: j,
            };
            let tree = ForsNodes { signer: self, at };
            tree.put_fors_part(indices[j as usize], out, j as usize * size);
        }
    }
}

impl<'c, 'a> ForsJoins<'c, 'a> {
    /// The root of the tree that its part of a signature gives for leaf `i`.
    #[tactic(auto, using(slh_params::proofs::Bounds::n_high, slh_params::proofs::Bounds::a_high), unfolding(crate::specs::Trees::fors_joins_of))]
    fn root_from(&self, i: u32, sig: &[u8]) -> Node
        requires leaf { i < 2 ^ (params self.now.context.now.set).a }
        requires sig { length sig.now ≡ fors_part_len (params self.now.context.now.set) }
        ensures value { let t = self.now in let p = params t.context.now.set in
            result.items ≡ climb_of (fors_joins_of t) i
            (fors_leaf p t.context.now.pk_seed.now t.at.idx_tree t.at.idx_leaf (t.at.tree_no * 2 ^ p.a + i)
            (take p.n sig.now)) (drop p.n sig.now) }
        ensures len { length result.items ≡ (params self.now.context.now.set).n }
    {
        let set = self.context.set;
        let (secret, auth) = sig.split_at(set.n());
        let adrs = self.at.adrs(AdrsType::ForsTree, 0, set.a(), i);
        let leaf = self.context.f(&adrs, &node_of(secret));
        climb(self, i, &leaf, auth)
    }

    /// The root of the tree that its part of a whole signature gives for leaf `i`.
    fn root_at(&self, i: u32, sig: &[u8]) -> Node
        requires leaf { i < 2 ^ (params self.now.context.now.set).a }
        requires sig { let t = self.now in let p = params t.context.now.set in
            t.at.tree_no * fors_part_len p + fors_part_len p ≤ length sig.now }
        ensures { let t = self.now in let p = params t.context.now.set in
            let own = chunk (fors_part_len p) sig.now t.at.tree_no in
            result.items ≡ climb_of (fors_joins_of t) i
            (fors_leaf p t.context.now.pk_seed.now t.at.idx_tree t.at.idx_leaf (t.at.tree_no * 2 ^ p.a + i)
            (take p.n own)) (drop p.n own) }
    {
        let size = fors_part_len(self.context.set);
        self.root_from(i, chunk_at(sig, size, self.at.tree_no as usize))
    }
}

impl<'a> HashContext<'a> {
    /// Writes the roots of all trees, n bytes each, from a signature of k * (1 + a) * n bytes of a digest of md_len
    /// bytes (Algorithm 17, lines 2 to 20).
    #[tactic(auto, unfolding(crate::specs::Trees::fors_joins_of))]
    pub fn put_fors_roots(
        &self,
        idx_tree: u64,
        idx_leaf: u32,
        md: &[u8],
        sig: &[u8],
        out: &mut [u8],
    )
        requires md { length md.now ≡ md_len (params self.now.set) }
        requires sig { let p = params self.now.set in length sig.now ≡ p.k * fors_part_len p }
        requires out { let p = params self.now.set in length out.old ≡ p.k * p.n }
        ensures { let p = params self.now.set in let pk_seed = self.now.pk_seed.now in
            out.new ≡ end_to_end (λ j. fors_root p pk_seed idx_tree idx_leaf md.now j
            (chunk (fors_part_len p) sig.now j)) p.k }
    {
        let indices = fors_indices(self.set, md);
        let done = put_first_roots(self, idx_tree, idx_leaf, &indices, sig, out);
        for j in done..self.set.k() {
            let at = ForsPlace {
                idx_tree,
                idx_leaf,
                tree_no: j,
            };
            let tree = ForsJoins { context: self, at };
            let root = tree.root_at(indices[j as usize], sig);
            put_chunk(out, self.set.n(), j as usize, &root);
        }
    }

    /// T over the roots of all trees, end to end: the public key of the key at leaf `idx_leaf` of tree `idx_tree`, n
    /// bytes (Algorithm 17, lines 21 to 24).
    pub fn fors_pk(&self, idx_tree: u64, idx_leaf: u32, roots: &[u8]) -> Node
        requires { length roots.now ≡ (params self.now.set).k * (params self.now.set).n }
        ensures value { let p = params self.now.set in let pk_seed = self.now.pk_seed.now in
            result.items ≡ T p pk_seed (address 0 idx_tree FORS_ROOTS idx_leaf 0 0) roots.now }
        ensures len { length result.items ≡ (params self.now.set).n }
    {
        let adrs = fors_adrs(idx_tree, idx_leaf, AdrsType::ForsRoots, 0, 0);
        self.t(&adrs, roots, self.set.k() as usize)
    }

    /// The public key that a signature of a digest of md_len bytes, of k * (1 + a) * n bytes itself, gives: n bytes
    /// (Algorithm 17).
    pub fn fors_pk_from_sig(&self, idx_tree: u64, idx_leaf: u32, md: &[u8], sig: &[u8]) -> Node
        requires md { length md.now ≡ md_len (params self.now.set) }
        requires sig { let p = params self.now.set in length sig.now ≡ p.k * fors_part_len p }
        ensures value { let p = params self.now.set in let pk_seed = self.now.pk_seed.now in
            result.items ≡ fors_pk_from_sig p pk_seed idx_tree idx_leaf md.now sig.now }
        ensures len { length result.items ≡ (params self.now.set).n }
    {
        if self.lanes().is_none() {
            return absorbed_roots(self, idx_tree, idx_leaf, md, sig);
        }
        let mut buffer = [0; MOST_FORS_ROOTS_LEN];
        let roots = &mut buffer[..fors_roots_len(self.set)];
        self.put_fors_roots(idx_tree, idx_leaf, md, sig, roots);
        self.fors_pk(idx_tree, idx_leaf, roots)
    }
}

/// The public key that a signature of a digest gives (Algorithm 17). T absorbs the root of each tree as it is reached,
/// so no buffer holds all.
#[tactic(auto, unfolding(crate::specs::Trees::fors_joins_of))]
fn absorbed_roots(
    context: &HashContext,
    idx_tree: u64,
    idx_leaf: u32,
    md: &[u8],
    sig: &[u8],
) -> Node
    requires md { length md.now ≡ md_len (params context.now.set) }
    requires sig { let p = params context.now.set in length sig.now ≡ p.k * fors_part_len p }
    ensures value { let p = params context.now.set in let pk_seed = context.now.pk_seed.now in
        result.items ≡ fors_pk_from_sig p pk_seed idx_tree idx_leaf md.now sig.now }
    ensures len { length result.items ≡ (params context.now.set).n }
{
    let indices = fors_indices(context.set, md);
    let mut stream = context.t_stream(&fors_adrs(idx_tree, idx_leaf, AdrsType::ForsRoots, 0, 0));
    for j in 0..context.set.k() {
        let at = ForsPlace {
            idx_tree,
            idx_leaf,
            tree_no: j,
        };
        let tree = ForsJoins { context, at };
        stream.absorb(&tree.root_at(indices[j as usize], sig));
    }
    stream.finish()
}

/// At least the length of the roots of all trees in any set: of 32 bytes each.
const MOST_FORS_ROOTS_LEN: usize = MOST_TREES * 32;

/// The length of the roots of all trees: k * n bytes.
#[tactic(auto, using(slh_params::proofs::Bounds::k_high))]
fn fors_roots_len(set: ParamSet) -> usize
    ensures value { result ≡ (params set).k * (params set).n }
    ensures small { result ≤ MOST_FORS_ROOTS_LEN }
{
    set.k() as usize * set.n()
}

/// fors_node (Algorithm 15): a node of a FORS tree, n bytes, from the leaves below it. `z` is its height and `i` its
/// index in tree `tree_no`. The FORS key is at leaf `idx_leaf` of tree `idx_tree`. The standard numbers the nodes of
/// all k trees together: its index is tree_no * 2^(a - z) + i.
pub fn fors_node(seeds: &Seeds, idx_tree: u64, idx_leaf: u32, tree_no: u32, z: u32, i: u32) -> Node
    requires tree { tree_no < (params seeds.now.set).k }
    requires height { z ≤ (params seeds.now.set).a }
    requires within { past_leaf z i ≤ 2 ^ (params seeds.now.set).a }
    ensures value { let p = params seeds.now.set in let sk_seed = seeds.now.sk_seed.now in
        let pk_seed = seeds.now.pk_seed.now in
        result.items ≡ node (fors_tree p sk_seed pk_seed idx_tree idx_leaf tree_no) z i }
    ensures len { length result.items ≡ (params seeds.now.set).n }
{
    SigningContext::new(seeds).fors_node(idx_tree, idx_leaf, tree_no, z, i)
}

/// Writes the signature of a digest of md_len bytes by the key at leaf `idx_leaf` of tree `idx_tree`: k * (1 + a) * n
/// bytes (Algorithm 16). They are, for each tree, the secret that the digest selects and its path. The key that it
/// gives is T over the trees' roots.
pub fn fors_sign(seeds: &Seeds, idx_tree: u64, idx_leaf: u32, md: &[u8], out: &mut [u8])
    requires md { length md.now ≡ md_len (params seeds.now.set) }
    requires out { let p = params seeds.now.set in
        length out.old ≡ p.k * fors_part_len p }
    ensures signature { let p = params seeds.now.set in let sk_seed = seeds.now.sk_seed.now in
        let pk_seed = seeds.now.pk_seed.now in
        out.new ≡ fors_sig p sk_seed pk_seed idx_tree idx_leaf md.now }
    ensures key { let p = params seeds.now.set in let sk_seed = seeds.now.sk_seed.now in
        let pk_seed = seeds.now.pk_seed.now in
        fors_pk_from_sig p pk_seed idx_tree idx_leaf md.now out.new
        ≡ compressed_roots p pk_seed idx_tree idx_leaf
        (λ j. root_of (fors_tree p sk_seed pk_seed idx_tree idx_leaf j)) }
{
    SigningContext::new(seeds).fors_sign(idx_tree, idx_leaf, md, out);
}

/// The public key that a signature of a digest of md_len bytes, of k * (1 + a) * n bytes itself,
/// gives: n bytes (Algorithm 17).
pub fn fors_pk_from_sig(
    public: &Public,
    idx_tree: u64,
    idx_leaf: u32,
    md: &[u8],
    sig: &[u8],
) -> Node
    requires md { length md.now ≡ md_len (params public.now.set) }
    requires sig { let p = params public.now.set in
        length sig.now ≡ p.k * fors_part_len p }
    ensures value { let p = params public.now.set in let pk_seed = public.now.pk_seed.now in
        result.items ≡ fors_pk_from_sig p pk_seed idx_tree idx_leaf md.now sig.now }
    ensures len { length result.items ≡ (params public.now.set).n }
{
    let context = HashContext::new(public.set, public.pk_seed);
    context.fors_pk_from_sig(idx_tree, idx_leaf, md, sig)
}
