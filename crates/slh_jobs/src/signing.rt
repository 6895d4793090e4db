//! The inputs of the jobs of one signature (FIPS 205, Algorithm 19).
ghost use Rattle.std.specs.Prelude.{◌≡◌, ◌↔◌, IsSome, IfSome, length};
ghost use Rattle.slh_params.specs.ParamSet.{params};
ghost use Rattle.slh_subtrees.specs.SigningTrees.{source_of};
ghost use Rattle.slh_jobs.specs.Jobs.{source};
ghost use Rattle.slh_jobs.specs.Signers.{IsSignerOf};
ghost use Rattle.slh_jobs.specs.Starts.{IsStart};
ghost use Rattle.slh_jobs.specs.Tags.{start_len};

use crate::levels::Levels;
use crate::start::is_start;
use slh_core::{SecretKey, digest_indices};
use slh_few::SigningContext;
use slh_subtrees::SigningTrees;

/// The inputs of the jobs of one signature: the key, R and the digest, and the trees of the signature.
#[derive(Drop)]
pub(crate) struct Signing<'a> {
    pub(crate) levels: Levels,
    pub(crate) sk: &'a SecretKey,
    pub(crate) start: &'a [u8],
    pub(crate) trees: SigningTrees<'a>,
    ghost set: { sk.now.set ≡ levels.set },
    ghost len: { length start.now ≡ start_len (params levels.set) },
    ghost tree_set: { trees.signer.now.public.set ≡ levels.set },
    ghost source: { source_of trees ≡ source levels sk.now start.now },
}

impl<'a> Signing<'a> {
    /// The inputs of the jobs of the signature by this key, whose context is `signer`, from the digest after R in
    /// `start`. `None` if `start` does not have its tag under this key.
    pub(crate) fn new(
        levels: &Levels,
        sk: &'a SecretKey,
        signer: &'a SigningContext<'a>,
        start: &'a [u8],
    ) -> Option<Signing<'a>>
        requires set { sk.now.set ≡ levels.now.set }
        requires signer { IsSignerOf sk.now signer.now }
        requires start { length start.now ≡ start_len (params levels.now.set) }
        ensures some { IsSome result ↔ IsStart sk.now start.now }
        ensures levels { IfSome result (λ signing. signing.levels ≡ levels.now) }
        ensures sk { IfSome result (λ signing. signing.sk.now ≡ sk.now) }
        ensures start { IfSome result (λ signing. signing.start.now ≡ start.now) }
        ensures source { IfSome result (λ signing. source_of signing.trees ≡ source levels.now sk.now start.now) }
    {
        if is_start(sk, start) {
            Some(Signing::of_start(levels, sk, signer, start))
        } else {
            None
        }
    }

    /// The same, of a start that was looked at.
    fn of_start(
        levels: &Levels,
        sk: &'a SecretKey,
        signer: &'a SigningContext<'a>,
        start: &'a [u8],
    ) -> Signing<'a>
        requires set { sk.now.set ≡ levels.now.set }
        requires signer { IsSignerOf sk.now signer.now }
        requires start { length start.now ≡ start_len (params levels.now.set) }
        ensures levels { result.levels ≡ levels.now }
        ensures sk { result.sk.now ≡ sk.now }
        ensures start { result.start.now ≡ start.now }
        ensures source { source_of result.trees ≡ source levels.now sk.now start.now }
    {
        let set = levels.set;
        let digest = &start[set.n()..][..set.m()];
        let md = &digest[..set.md_len()];
        let indices = digest_indices(set, digest);
        Signing {
            levels: *levels,
            sk,
            start,
            trees: SigningTrees::new(signer, indices.idx_tree, indices.idx_leaf, md),
        }
    }
}
