//! The nodes that the answers of all jobs give for the trees, whatever their bytes are (ours).
ghost use Rattle.std.specs.Prelude.{◌≡◌, ◌+◌, ◌*◌, ◌/◌, ◌^◌, ◌<◌, ◌≤◌, ◌↔◌, IsSome, IfSome, length};
ghost use Rattle.slh_params.specs.ParamSet.{params};
ghost use Rattle.slh_subtrees.specs.Jobs.{IsTreeOf};
ghost use Rattle.slh_subtrees.specs.SigningTrees.{source_of};
ghost use Rattle.slh_jobs.specs.Ranges.{answer_len};
ghost use Rattle.slh_jobs.specs.Jobs.{xmss_shape, fors_shape, shape_of, xmss_jobs, fors_jobs, first_of_kind, source, rest_len, answers_len};
ghost use Rattle.slh_jobs.specs.Signers.{IsSignerOf};
ghost use Rattle.slh_jobs.specs.Starts.{IsStart};
ghost use Rattle.slh_jobs.specs.AnswerTags.{AreTagsOfAnswers};
ghost use Rattle.slh_jobs.specs.Tags.{start_len};
ghost use Rattle.slh_jobs.specs.Joined.{fors_answers, answers_of_kind, rest_in};
ghost use Rattle.slh_subtrees.specs.declared.jobs.TheConstants.{MOST_JOBS_OF_A_KIND};

use crate::answer_bytes::AnswerBytes;
use crate::levels::Levels;
use crate::signing::Signing;
use crate::tag::{AnswerTags, tags_of_answers};
use slh_core::SecretKey;
use slh_few::SigningContext;
use slh_subtrees::JobTree;

/// The answers of all jobs of a signature, as they are handed in.
#[derive(Drop)]
pub(crate) struct AllAnswers<'a> {
    pub(crate) signing: Signing<'a>,
    pub(crate) xmss: AnswerBytes<'a>,
    pub(crate) fors: AnswerBytes<'a>,
    pub(crate) tags: AnswerTags,
    ghost xmss_cut: { xmss.shape ≡ xmss_shape signing.levels },
    ghost fors_cut: { fors.shape ≡ fors_shape signing.levels },
    ghost rest: { fors.bytes.now ≡ fors_answers signing.levels xmss.bytes.now },
    ghost xmss_there: { xmss_jobs signing.levels * answer_len (xmss_shape signing.levels) ≤ length xmss.bytes.now },
    ghost fors_there: { fors_jobs signing.levels * answer_len (fors_shape signing.levels) ≤ length fors.bytes.now },
    ghost begun: { ∥ AreTagsOfAnswers tags signing.levels signing.sk.now signing.start.now ∥₁ },
}

impl<'a> AllAnswers<'a> {
    /// The answers of the signature by this key, whose context is `signer`, that `start` begins. `None` if `start` does
    /// not have its tag under this key.
    pub(crate) fn new(
        levels: &Levels,
        sk: &'a SecretKey,
        signer: &'a SigningContext<'a>,
        start: &'a [u8],
        answers: &'a [u8],
    ) -> Option<AllAnswers<'a>>
        requires set { sk.now.set ≡ levels.now.set }
        requires signer { IsSignerOf sk.now signer.now }
        requires start { length start.now ≡ start_len (params levels.now.set) }
        requires answers { length answers.now ≡ answers_len levels.now }
        ensures some { IsSome result ↔ IsStart sk.now start.now }
        ensures levels { IfSome result (λ answered. answered.signing.levels ≡ levels.now) }
        ensures sk { IfSome result (λ answered. answered.signing.sk.now ≡ sk.now) }
        ensures start { IfSome result (λ answered. answered.signing.start.now ≡ start.now) }
        ensures answers { IfSome result (λ answered. answered.xmss.bytes.now ≡ answers.now) }
        ensures source { IfSome result (λ answered. source_of answered.signing.trees
            ≡ source levels.now sk.now start.now) }
    {
        let signing = Signing::new(levels, sk, signer, start)?;
        let xmss = AnswerBytes {
            shape: levels.xmss_shape(),
            bytes: answers,
        };
        let xmss_len = levels.xmss_jobs() as usize * xmss.shape.answer_len();
        let fors = AnswerBytes {
            shape: levels.fors_shape(),
            bytes: &answers[xmss_len..],
        };
        let tags = tags_of_answers(levels, sk, start);
        Some(AllAnswers {
            signing,
            xmss,
            fors,
            tags,
        })
    }

    /// The answers of the trees of a tree's kind.
    pub(crate) fn of_kind(&self, tree: JobTree) -> &AnswerBytes<'a>
        ensures shape { result.now.shape ≡ shape_of self.now.signing.levels tree }
        ensures bytes { result.now.bytes.now ≡ answers_of_kind self.now.signing.levels self.now.xmss.bytes.now tree }
    {
        match tree {
            JobTree::Xmss(_) => &self.xmss,
            JobTree::Fors(_) => &self.fors,
        }
    }

    /// The number of a tree's first answer among those of the trees of its kind.
    pub(crate) fn first(&self, tree: JobTree) -> u32
        requires { IsTreeOf (params self.now.signing.levels.set) tree }
        ensures value { result ≡ first_of_kind self.now.signing.levels tree }
        ensures few { result ≤ MOST_JOBS_OF_A_KIND }
        ensures there { let shape = shape_of self.now.signing.levels tree in
            (result + 2 ^ shape.levels) * answer_len shape
            ≤ length (answers_of_kind self.now.signing.levels self.now.xmss.bytes.now tree) }
    {
        self.signing.levels.first_of_kind(tree)
    }

    /// The bytes after the path, in the answer of the range of a tree's signing leaf.
    pub(crate) fn rest(&self, tree: JobTree) -> &'a [u8]
        requires { IsTreeOf (params self.now.signing.levels.set) tree }
        ensures value { result.now
            ≡ rest_in self.now.signing.levels (source_of self.now.signing.trees) self.now.xmss.bytes.now tree }
        ensures len { length result.now ≡ rest_len (params self.now.signing.levels.set) tree }
    {
        let given = self.of_kind(tree);
        let range = self.signing.trees.leaf(tree) >> given.shape.below();
        given.rest((self.first(tree) + range) as usize)
    }
}
