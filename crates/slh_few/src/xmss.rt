//! XMSS: a tree of WOTS+ keys (FIPS 205, section 6).
ghost use Rattle.std.specs.Prelude.{◌≡◌, ◌+◌, ◌*◌, ◌^◌, ◌≤◌, ◌<◌, length};
ghost use Rattle.slh_params.specs.ParamSet.{params};
ghost use Rattle.slh_tree.specs.Cover.{past_leaf};
ghost use Rattle.slh_tree.specs.Tree.{node, root as root_of};
ghost use Rattle.slh_few.specs.Xmss.{xmss_tree, xmss_sig, xmss_pk_from_sig, xmss_sig_len};

use crate::context::{HashContext, SigningContext};
use crate::lanes::sign_giving_leaf;
use crate::place::{Place, Public, Seeds};
use crate::xmss_tree::XmssJoins;
use slh_params::Node;
use slh_tree::{climb, node};

impl<'a> SigningContext<'a> {
    /// xmss_node (Algorithm 9): the node of height `z` at index `i` of tree `tree` of layer `layer`, n bytes, from the
    /// leaves below it.
    pub fn xmss_node(&self, layer: u8, tree: u64, z: u32, i: u32) -> Node
        requires height { z ≤ (params self.now.public.set).hp }
        requires within { past_leaf z i ≤ 2 ^ (params self.now.public.set).hp }
        ensures value { let p = params self.now.public.set in let pk_seed = self.now.public.pk_seed.now in
            result.items ≡ node (xmss_tree p self.now.sk_seed.now pk_seed layer tree) z i }
        ensures len { length result.items ≡ (params self.now.public.set).n }
    {
        node(&self.xmss_nodes(layer, tree), z, i)
    }

    /// Writes the signature of a message of n bytes: that of the leaf's WOTS+ key, then the leaf's path,
    /// (len + h') * n bytes (Algorithm 10). The root that the signature gives is the tree's.
    pub fn xmss_sign(&self, at: Place, msg: &Node, out: &mut [u8])
        requires pair { at.pair < 2 ^ (params self.now.public.set).hp }
        requires msg { length msg.now.items ≡ (params self.now.public.set).n }
        requires out { length out.old ≡ xmss_sig_len (params self.now.public.set) }
        ensures signature { let p = params self.now.public.set in let pk_seed = self.now.public.pk_seed.now in
            out.new ≡ xmss_sig p self.now.sk_seed.now pk_seed at msg.now.items }
        ensures key { let p = params self.now.public.set in let pk_seed = self.now.public.pk_seed.now in
            xmss_pk_from_sig p pk_seed at msg.now.items out.new
            ≡ root_of (xmss_tree p self.now.sk_seed.now pk_seed at.layer at.tree) }
    {
        sign_giving_leaf(self, at, msg, out);
    }
}

impl<'a> HashContext<'a> {
    /// The root that a signature of a message of n bytes gives: n bytes (Algorithm 11).
    #[tactic(auto, unfolding(crate::specs::Trees::xmss_joins_of))]
    pub fn xmss_pk_from_sig(&self, at: Place, msg: &Node, sig: &[u8]) -> Node
        requires pair { at.pair < 2 ^ (params self.now.set).hp }
        requires msg { length msg.now.items ≡ (params self.now.set).n }
        requires sig { length sig.now ≡ xmss_sig_len (params self.now.set) }
        ensures value { let p = params self.now.set in let pk_seed = self.now.pk_seed.now in
            result.items ≡ xmss_pk_from_sig p pk_seed at msg.now.items sig.now }
        ensures len { length result.items ≡ (params self.now.set).n }
    {
        let (wots, auth) = sig.split_at(self.set.len() * self.set.n());
        let leaf = self.wots_pk_from_sig(at, msg, wots);
        let joins = XmssJoins {
            context: self,
            layer: at.layer,
            tree: at.tree,
        };
        climb(&joins, at.pair, &leaf, auth)
    }
}

/// xmss_node (Algorithm 9): the node of height `z` at index `i` of tree `tree` of layer `layer`, n bytes, from the
/// leaves below it.
pub fn xmss_node(seeds: &Seeds, layer: u8, tree: u64, z: u32, i: u32) -> Node
    requires height { z ≤ (params seeds.now.set).hp }
    requires within { past_leaf z i ≤ 2 ^ (params seeds.now.set).hp }
    ensures value { let p = params seeds.now.set in let sk_seed = seeds.now.sk_seed.now in
        let pk_seed = seeds.now.pk_seed.now in
        result.items ≡ node (xmss_tree p sk_seed pk_seed layer tree) z i }
    ensures len { length result.items ≡ (params seeds.now.set).n }
{
    SigningContext::new(seeds).xmss_node(layer, tree, z, i)
}

/// Writes the signature of a message of n bytes: that of the leaf's WOTS+ key, then the leaf's path,
/// (len + h') * n bytes (Algorithm 10). The root that the signature gives is the tree's.
pub fn xmss_sign(seeds: &Seeds, at: Place, msg: &Node, out: &mut [u8])
    requires pair { at.pair < 2 ^ (params seeds.now.set).hp }
    requires msg { length msg.now.items ≡ (params seeds.now.set).n }
    requires out { length out.old ≡ xmss_sig_len (params seeds.now.set) }
    ensures signature { let p = params seeds.now.set in let sk_seed = seeds.now.sk_seed.now in
        let pk_seed = seeds.now.pk_seed.now in
        out.new ≡ xmss_sig p sk_seed pk_seed at msg.now.items }
    ensures key { let p = params seeds.now.set in let sk_seed = seeds.now.sk_seed.now in
        let pk_seed = seeds.now.pk_seed.now in
        xmss_pk_from_sig p pk_seed at msg.now.items out.new ≡ root_of (xmss_tree p sk_seed pk_seed at.layer at.tree) }
{
    SigningContext::new(seeds).xmss_sign(at, msg, out);
}

/// The root that a signature of a message of n bytes gives: n bytes (Algorithm 11).
pub fn xmss_pk_from_sig(public: &Public, at: Place, msg: &Node, sig: &[u8]) -> Node
    requires pair { at.pair < 2 ^ (params public.now.set).hp }
    requires msg { length msg.now.items ≡ (params public.now.set).n }
    requires sig { length sig.now ≡ xmss_sig_len (params public.now.set) }
    ensures value { let p = params public.now.set in let pk_seed = public.now.pk_seed.now in
        result.items ≡ xmss_pk_from_sig p pk_seed at msg.now.items sig.now }
    ensures len { length result.items ≡ (params public.now.set).n }
{
    HashContext::new(public.set, public.pk_seed).xmss_pk_from_sig(at, msg, sig)
}
