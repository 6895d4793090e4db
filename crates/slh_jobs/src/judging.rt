//! The check that the answers of all jobs fit together (ours).
ghost use Rattle.std.specs.Prelude.{◌≡◌, ◌↔◌, ℕ, ◌+◌, ◌*◌, ◌<◌, ◌≤◌, ◌++◌, IsTrue, IsSome, IfSome, length, take};
ghost use Rattle.slh_few.specs.Fors.{fors_part_len};
ghost use Rattle.slh_few.specs.KeyCheckpoints.{wots_sig_from};
ghost use Rattle.slh_few.specs.Chunks.{end_to_end};
ghost use Rattle.slh_few.specs.Xmss.{wots_sig_len, xmss_sig_len};
ghost use Rattle.slh_core.specs.Keys.{public_of, pk_root};
ghost use Rattle.slh_subtrees.specs.Assembled.{fors_part_by, signed_by, layer_part_by, sig_fors_by};
ghost use Rattle.slh_subtrees.specs.Jobs.{IsTreeOf, height_of};
ghost use Rattle.slh_subtrees.specs.Trees.{place_of};
ghost use Rattle.slh_jobs.specs.Joined.{NodesFit, ForsFits, LayerFits, AreFitting};
ghost use Rattle.slh_jobs.specs.AllAnswers.{params_in, source_in, answers_in, path_in, path_len_in};

use crate::all_answers::AllAnswers;
use crate::answer_bytes::{MOST_NODES_LEN, TreeRanges, are_judged};
use crate::jobs::ranges;
use crate::upper_tree::{put_auth, xmss_joins};
use slh_core::are_same;
use slh_few::{MOST_XMSS_SIG_LEN, fors_part_len, wots_sig_len, xmss_sig_len};
use slh_params::{Node, copy_of, put_node};
use slh_subtrees::{JobTree, MOST_ROOTS_LEN, roots_len};

impl<'a> AllAnswers<'a> {
    /// Writes the path of a tree's signing leaf, and returns the root that the nodes of the tree's ranges give; `None`
    /// if one of these has not the tag of its job. The nodes are read once: in this one pass they are copied, compared
    /// and hashed.
    // The copies take 8 KB of the stack, which are released before WOTS+ keys are hashed.
    #[inline(never)]
    fn put_judged_path(&self, tree: JobTree, out: &mut [u8]) -> Option<Node>
        requires tree { IsTreeOf (params_in self.now) tree }
        requires out { length out.old ≡ height_of (params_in self.now) tree * (params_in self.now).n }
        ensures tags { let t = self.now.signing in
            IsSome result ↔ NodesFit t.levels t.sk.now t.start.now self.now.xmss.bytes.now tree }
        ensures path { IsSome result → out.new ≡ (answers_in self.now).path tree }
        ensures root { IfSome result (λ root. root.items ≡ (answers_in self.now).root tree) }
        ensures len { IfSome result (λ root. length root.items ≡ (params_in self.now).n) }
    {
        let trees = &self.signing.trees;
        let given = self.of_kind(tree);
        let first = self.first(tree);
        let job = self.signing.levels.first_job(tree);
        let mut copies = [0; MOST_NODES_LEN];
        let copies = &mut copies[..ranges(given.shape.levels) as usize * given.shape.n];
        if !are_judged(given, first, &self.tags, job, copies) {
            return None;
        }
        let own = TreeRanges {
            given: *given,
            first,
        };
        let leaf = trees.leaf(tree);
        let context = &trees.signer.public;
        Some(match tree {
            JobTree::Xmss(layer) => {
                let at = trees.layer_place(layer);
                let xmss = xmss_joins(context, layer, at.tree);
                put_auth(&xmss, &own, leaf, copies, out)
            }
            JobTree::Fors(number) => {
                let (idx_tree, idx_leaf) = (trees.idx_tree, trees.idx_leaf);
                let fors = context.fors_joins(idx_tree, idx_leaf, number);
                put_auth(&fors, &own, leaf, copies, out)
            }
        })
    }

    /// Writes a FORS tree's part of the signature, and returns the root that the tree's ranges give; `None` if one of
    /// their nodes does not have its tag.
    fn put_fors_part(&self, number: u32, part: &mut [u8]) -> Option<Node>
        requires tree { number < (params_in self.now).k }
        requires out { length part.old ≡ fors_part_len (params_in self.now) }
        ensures part { IsSome result → part.new ≡ fors_part_by (answers_in self.now) number }
        ensures tags { let t = self.now.signing in
            IsSome result ↔ NodesFit t.levels t.sk.now t.start.now self.now.xmss.bytes.now (JobTree.Fors number) }
        ensures root { IfSome result (λ root. root.items ≡ (answers_in self.now).root (JobTree.Fors number)) }
        ensures len { IfSome result (λ root. length root.items ≡ (params_in self.now).n) }
    {
        let (secret, auth) = part.split_at_mut(self.signing.trees.signer.public.set.n());
        secret.copy_from_slice(self.rest(JobTree::Fors(number)));
        self.put_judged_path(JobTree::Fors(number), auth)
    }

    /// The same, written from `start` on.
    fn put_fors_part_at(&self, number: u32, out: &mut [u8], start: usize) -> Option<Node>
        requires tree { number < (params_in self.now).k }
        requires out { start + fors_part_len (params_in self.now) ≤ length out.old }
        ensures part_len { IsSome result → length (fors_part_by (answers_in self.now) number)
            ≡ fors_part_len (params_in self.now) }
        ensures part { IsSome result → take (start + fors_part_len (params_in self.now)) out.new
            ≡ take start out.old ++ fors_part_by (answers_in self.now) number }
        ensures tags { let t = self.now.signing in
            IsSome result ↔ NodesFit t.levels t.sk.now t.start.now self.now.xmss.bytes.now (JobTree.Fors number) }
        ensures root { IfSome result (λ root. root.items ≡ (answers_in self.now).root (JobTree.Fors number)) }
        ensures len { IfSome result (λ root. length root.items ≡ (params_in self.now).n) }
    {
        let end = start + fors_part_len(self.signing.trees.signer.public.set);
        self.put_fors_part(number, &mut out[start..end])
    }

    /// Writes the FORS signature, and the roots that the ranges of its trees give, n bytes each. Whether each node of
    /// these ranges has its tag.
    fn put_fors(&self, sig_fors: &mut [u8], tops: &mut [u8]) -> bool
        requires sig_fors { length sig_fors.old ≡ (params_in self.now).k * fors_part_len (params_in self.now) }
        requires tops { length tops.old ≡ (params_in self.now).k * (params_in self.now).n }
        ensures tags { let t = self.now.signing in IsTrue result ↔ ((j : ℕ) → j < (params_in self.now).k
            → NodesFit t.levels t.sk.now t.start.now self.now.xmss.bytes.now (JobTree.Fors j)) }
        ensures parts { IsTrue result → (j : ℕ) → j < (params_in self.now).k
            → length (fors_part_by (answers_in self.now) j) ≡ fors_part_len (params_in self.now) }
        ensures sig_fors { IsTrue result → sig_fors.new ≡ sig_fors_by (source_in self.now) (answers_in self.now) }
        ensures tops { IsTrue result → tops.new
            ≡ end_to_end (λ j. (answers_in self.now).root (JobTree.Fors j)) (params_in self.now).k }
        ensures widths { IsTrue result → (j : ℕ) → j < (params_in self.now).k
            → length ((answers_in self.now).root (JobTree.Fors j)) ≡ (params_in self.now).n }
    {
        let set = self.signing.trees.signer.public.set;
        let (n, size) = (set.n(), fors_part_len(set));
        for j in 0..set.k() {
            let Some(root) = self.put_fors_part_at(j, sig_fors, j as usize * size) else {
                return false;
            };
            put_node(tops, j as usize * n, &root);
        }
        true
    }

    /// Whether the secret and the path of each FORS tree give the root that the tree's ranges give.
    // The buffer is released before `put_judged_path` runs.
    #[inline(never)]
    fn fors_roots_fit(&self, sig_fors: &[u8], tops: &[u8]) -> bool
        requires sig_fors { sig_fors.now ≡ sig_fors_by (source_in self.now) (answers_in self.now) }
        requires parts { (j : ℕ) → j < (params_in self.now).k
            → length (fors_part_by (answers_in self.now) j) ≡ fors_part_len (params_in self.now) }
        requires tops { tops.now
            ≡ end_to_end (λ j. (answers_in self.now).root (JobTree.Fors j)) (params_in self.now).k }
        requires widths { (j : ℕ) → j < (params_in self.now).k
            → length ((answers_in self.now).root (JobTree.Fors j)) ≡ (params_in self.now).n }
        requires len { length tops.now ≡ (params_in self.now).k * (params_in self.now).n }
        ensures { IsTrue result
            ↔ ((j : ℕ) → j < (params_in self.now).k → ForsFits (source_in self.now) (answers_in self.now) j) }
    {
        let trees = &self.signing.trees;
        let mut buffer = [0; MOST_ROOTS_LEN];
        let climbed = &mut buffer[..tops.len()];
        let (idx_tree, idx_leaf) = (trees.idx_tree, trees.idx_leaf);
        let public = &trees.signer.public;
        public.put_fors_roots(idx_tree, idx_leaf, trees.md, sig_fors, climbed);
        are_same(climbed, tops)
    }

    /// Writes the FORS signature, and returns T over the roots that the ranges give; `None` if a node has not its tag,
    /// or in some tree the secret and the path give another root.
    // The buffer is released before WOTS+ keys are hashed.
    #[inline(never)]
    pub(crate) fn judge_fors(&self, sig_fors: &mut [u8]) -> Option<Node>
        requires { length sig_fors.old
            ≡ (params_in self.now).k * fors_part_len (params_in self.now) }
        ensures tags { let t = self.now.signing in IsSome result → (j : ℕ) → j < (params_in self.now).k
            → NodesFit t.levels t.sk.now t.start.now self.now.xmss.bytes.now (JobTree.Fors j) }
        ensures fit { IsSome result → (j : ℕ) → j < (params_in self.now).k
            → ForsFits (source_in self.now) (answers_in self.now) j }
        ensures some { let t = self.now.signing in ((j : ℕ) → j < (params_in self.now).k
            → NodesFit t.levels t.sk.now t.start.now self.now.xmss.bytes.now (JobTree.Fors j)
            × ForsFits (source_in self.now) (answers_in self.now) j) → IsSome result }
        ensures pk_fors { IfSome result (λ key. key.items ≡ signed_by (source_in self.now) (answers_in self.now) 0) }
        ensures len { IfSome result (λ key. length key.items ≡ (params_in self.now).n) }
        ensures parts { IsSome result → (j : ℕ) → j < (params_in self.now).k
            → length (fors_part_by (answers_in self.now) j) ≡ fors_part_len (params_in self.now) }
        ensures sig_fors { IsSome result → sig_fors.new ≡ sig_fors_by (source_in self.now) (answers_in self.now) }
    {
        let trees = &self.signing.trees;
        let public = &trees.signer.public;
        let mut buffer = [0; MOST_ROOTS_LEN];
        let tops = &mut buffer[..roots_len(public.set)];
        if !self.put_fors(sig_fors, tops) || !self.fors_roots_fit(sig_fors, tops) {
            return None;
        }
        Some(public.fors_pk(trees.idx_tree, trees.idx_leaf, tops))
    }

    /// Writes the WOTS+ signature of `msg` by the key that signs on the layer, from its checkpoints.
    pub(crate) fn put_wots(&self, layer: u8, msg: &Node, out: &mut [u8])
        requires layer { layer < (params_in self.now).d }
        requires msg { length msg.now.items ≡ (params_in self.now).n }
        requires out { length out.old ≡ wots_sig_len (params_in self.now) }
        ensures { let s = source_in self.now in out.new ≡ wots_sig_from (params_in self.now) s.pk_seed
            (place_of s layer) ((answers_in self.now).chains layer) msg.now.items }
    {
        let trees = &self.signing.trees;
        let checkpoints = self.rest(JobTree::Xmss(layer));
        let at = trees.layer_place(layer);
        trees
            .signer
            .public
            .wots_sign_from_checkpoints(at, msg, checkpoints, out);
    }

    /// Writes the path of the layer's leaf, and returns the root that the ranges of the layer's tree give. `None` if
    /// one of their nodes has not its tag, or the layer signs `msg` and its key and path give another root.
    // The buffer is released before the FORS trees' `put_judged_path` runs.
    #[inline(never)]
    fn layer_root(&self, layer: u8, msg: &Node, path: &mut [u8]) -> Option<Node>
        requires layer { layer < (params_in self.now).d }
        requires msg { msg.now.items ≡ signed_by (source_in self.now) (answers_in self.now) layer }
        requires len { length msg.now.items ≡ (params_in self.now).n }
        requires path { length path.old ≡ path_len_in self.now }
        ensures part_len { IsSome result → length (layer_part_by (source_in self.now) (answers_in self.now) layer
            (signed_by (source_in self.now) (answers_in self.now) layer))
            ≡ xmss_sig_len (params_in self.now) }
        ensures path { IsSome result → path.new ≡ path_in self.now layer }
        ensures fits { let t = self.now.signing in
            IsSome result ↔ (NodesFit t.levels t.sk.now t.start.now self.now.xmss.bytes.now (JobTree.Xmss layer)
            × LayerFits (source_in self.now) (answers_in self.now) layer) }
        ensures root { IfSome result (λ root. root.items ≡ (answers_in self.now).root (JobTree.Xmss layer)) }
        ensures len { IfSome result (λ root. length root.items ≡ (params_in self.now).n) }
    {
        let trees = &self.signing.trees;
        let set = trees.signer.public.set;
        let Some(root) = self.put_judged_path(JobTree::Xmss(layer), path) else {
            return None;
        };
        let mut buffer = [0; MOST_XMSS_SIG_LEN];
        let part = &mut buffer[..xmss_sig_len(set)];
        let (wots, auth) = part.split_at_mut(wots_sig_len(set));
        self.put_wots(layer, msg, wots);
        auth.copy_from_slice(path);
        let at = trees.layer_place(layer);
        let signed_root = trees.signer.public.xmss_pk_from_sig(at, msg, part);
        if are_same(signed_root.as_slice(), root.as_slice()) {
            Some(root)
        } else {
            None
        }
    }

    /// As above, with the path written from `start` on.
    fn layer_root_at(&self, layer: u8, msg: &Node, paths: &mut [u8], start: usize) -> Option<Node>
        requires layer { layer < (params_in self.now).d }
        requires msg { msg.now.items ≡ signed_by (source_in self.now) (answers_in self.now) layer }
        requires len { length msg.now.items ≡ (params_in self.now).n }
        requires paths { start + path_len_in self.now ≤ length paths.old }
        ensures part_len { IsSome result → length (layer_part_by (source_in self.now) (answers_in self.now) layer
            (signed_by (source_in self.now) (answers_in self.now) layer))
            ≡ xmss_sig_len (params_in self.now) }
        ensures path_len { IsSome result → length (path_in self.now layer) ≡ path_len_in self.now }
        ensures path { IsSome result → take (start + path_len_in self.now) paths.new
            ≡ take start paths.old ++ path_in self.now layer }
        ensures fits { let t = self.now.signing in
            IsSome result ↔ (NodesFit t.levels t.sk.now t.start.now self.now.xmss.bytes.now (JobTree.Xmss layer)
            × LayerFits (source_in self.now) (answers_in self.now) layer) }
        ensures root { IfSome result (λ root. root.items ≡ (answers_in self.now).root (JobTree.Xmss layer)) }
        ensures len { IfSome result (λ root. length root.items ≡ (params_in self.now).n) }
    {
        let set = self.signing.trees.signer.public.set;
        let end = start + set.hp() as usize * set.n();
        self.layer_root(layer, msg, &mut paths[start..end])
    }

    /// Writes the value that each layer signs, n bytes each, and the path of its leaf. True if each node has its tag,
    /// the root from the ranges of each layer's tree is that from the key and the path, and the top tree's root is
    /// PK.root.
    pub(crate) fn judge_layers(&self, pk_fors: &Node, signed: &mut [u8], paths: &mut [u8]) -> bool
        requires pk_fors { pk_fors.now.items ≡ signed_by (source_in self.now) (answers_in self.now) 0 }
        requires len { length pk_fors.now.items ≡ (params_in self.now).n }
        requires signed { length signed.old
            ≡ (params_in self.now).d * (params_in self.now).n }
        requires paths { length paths.old ≡ (params_in self.now).d * path_len_in self.now }
        ensures fit { let t = self.now.signing in let s = source_in self.now in let a = answers_in self.now in
            let p = params_in self.now in IsTrue result
            ↔ (((l : ℕ) → l < p.d → NodesFit t.levels t.sk.now t.start.now self.now.xmss.bytes.now (JobTree.Xmss l))
            × ((l : ℕ) → l < p.d → LayerFits s a l)
            × (signed_by s a p.d ≡ pk_root (public_of self.now.signing.sk.now))) }
        ensures signed { IsTrue result → signed.new
            ≡ end_to_end (signed_by (source_in self.now) (answers_in self.now)) (params_in self.now).d }
        ensures paths { IsTrue result → paths.new
            ≡ end_to_end (path_in self.now) (params_in self.now).d }
        ensures path_lens { IsTrue result → (l : ℕ) → l < (params_in self.now).d
            → length (path_in self.now l) ≡ path_len_in self.now }
        ensures parts { let s = source_in self.now in let a = answers_in self.now in let p = params_in self.now in
            IsTrue result → (l : ℕ) → l < p.d → length (layer_part_by s a l (signed_by s a l)) ≡ xmss_sig_len p }
    {
        let signing = &self.signing;
        let set = signing.trees.signer.public.set;
        let n = set.n();
        let path_len = set.hp() as usize * n;
        let mut msg = copy_of(pk_fors);
        for layer in 0..set.d() as u8 {
            put_node(signed, layer as usize * n, &msg);
            let start = layer as usize * path_len;
            let Some(root) = self.layer_root_at(layer, &msg, paths, start) else {
                return false;
            };
            msg = root;
        }
        are_same(msg.as_slice(), signing.sk.pk_root())
    }

    /// Whether the answers fit together. If they do, the FORS signature, the value that each layer signs and the path
    /// of each layer's leaf are written.
    pub(crate) fn judge(&self, sig_fors: &mut [u8], signed: &mut [u8], paths: &mut [u8]) -> bool
        requires sig_fors { length sig_fors.old
            ≡ (params_in self.now).k * fors_part_len (params_in self.now) }
        requires signed { length signed.old
            ≡ (params_in self.now).d * (params_in self.now).n }
        requires paths { length paths.old ≡ (params_in self.now).d * path_len_in self.now }
        ensures fit { let t = self.now.signing in
            IsTrue result ↔ AreFitting t.levels (source_in self.now) t.sk.now t.start.now self.now.xmss.bytes.now }
        ensures sig_fors { IsTrue result → sig_fors.new ≡ sig_fors_by (source_in self.now) (answers_in self.now) }
        ensures signed { IsTrue result → signed.new
            ≡ end_to_end (signed_by (source_in self.now) (answers_in self.now)) (params_in self.now).d }
        ensures paths { IsTrue result → paths.new
            ≡ end_to_end (path_in self.now) (params_in self.now).d }
        ensures path_lens { IsTrue result → (l : ℕ) → l < (params_in self.now).d
            → length (path_in self.now l) ≡ path_len_in self.now }
        ensures fors_parts { IsTrue result → (j : ℕ) → j < (params_in self.now).k
            → length (fors_part_by (answers_in self.now) j) ≡ fors_part_len (params_in self.now) }
        ensures layer_parts { let s = source_in self.now in let a = answers_in self.now in let p = params_in self.now in
            IsTrue result → (l : ℕ) → l < p.d → length (layer_part_by s a l (signed_by s a l)) ≡ xmss_sig_len p }
    {
        let Some(pk_fors) = self.judge_fors(sig_fors) else {
            return false;
        };
        self.judge_layers(&pk_fors, signed, paths)
    }
}
