//! The signature from the answers of all jobs (FIPS 205, Algorithm 19).
ghost use Rattle.std.specs.Prelude.{◌≡◌, ◌↔◌, ℕ, List, ◌+◌, ◌*◌, ◌<◌, ◌≤◌, ◌++◌, IsTrue, IsOk, OnOk, OnErr, Err, length, take};
ghost use Rattle.slh_params.specs.Params.{sig_len};
ghost use Rattle.slh_params.specs.ParamSet.{params};
ghost use Rattle.slh_few.specs.Fors.{fors_part_len};
ghost use Rattle.slh_few.specs.Chunks.{end_to_end};
ghost use Rattle.slh_few.specs.Xmss.{xmss_sig_len};
ghost use Rattle.slh_core.specs.Keys.{public_of, IsGeneratedKey};
ghost use Rattle.slh_core.specs.Signatures.{signature_by, IsValid};
ghost use Rattle.slh_core.specs.declared.randomizer.Randomizer.{Randomizer};
ghost use Rattle.slh_subtrees.specs.Assembled.{fors_part_by, signed_by, layer_part_by, sig_fors_by, sig_ht_by};
ghost use Rattle.slh_jobs.specs.AllAnswers.{params_in, source_in, answers_in, path_in, path_len_in};
ghost use Rattle.slh_jobs.specs.Jobs.{AreAnswers, answers_len, r_in};
ghost use Rattle.slh_jobs.specs.Joined.{signature_given, AreFitting, FitTogether};
ghost use Rattle.slh_jobs.specs.Starts.{IsStart, start_by, signature_from};
ghost use Rattle.slh_jobs.specs.Tags.{start_len};
ghost use Rattle.slh_jobs.specs.declared.fault.JobFault.TheVariants.{BadAnswersLength, BadStart};

use crate::all_answers::AllAnswers;
use crate::fault::JobFault;
use crate::jobs::answers_len;
use crate::levels::Levels;
use crate::start::copy_of_start;
use slh_core::SecretKey;
use slh_core::signing_steps::fors_sig_len;
use slh_few::{wots_sig_len, xmss_sig_len};
use slh_params::{Node, node_of};

/// At least the length of a FORS signature in any set: 64 trees, of each a secret and 14 nodes of 32 bytes.
const MOST_FORS_SIG_LEN: usize = 64 * (1 + 14) * 32;

/// At least the length of the values that the layers of any set sign: 65 nodes of 32 bytes.
const MOST_SIGNED_LEN: usize = 65 * 32;

/// At least the length of the paths of all layers in any set: 76 nodes of 32 bytes.
const MOST_PATHS_LEN: usize = 76 * 32;

/// Answers that fit together, with the FORS signature, the value that each layer signs, n bytes each, and the path of
/// each layer's leaf. All are as they were compared. Even if somebody changes the bytes of the answers meanwhile, these
/// are signed.
#[derive(Drop)]
struct Judged<'j, 'a> {
    answered: &'j AllAnswers<'a>,
    sig_fors: &'j [u8],
    signed: &'j [u8],
    paths: &'j [u8],
    ghost sig_fors_is: { sig_fors.now ≡ sig_fors_by (source_in answered.now) (answers_in answered.now) },
    ghost sig_fors_len: { length sig_fors.now ≡ (params_in answered.now).k * fors_part_len (params_in answered.now) },
    ghost signed_is: { signed.now
        ≡ end_to_end (signed_by (source_in answered.now) (answers_in answered.now)) (params_in answered.now).d },
    ghost signed_len: { length signed.now ≡ (params_in answered.now).d * (params_in answered.now).n },
    ghost paths_is: { paths.now
        ≡ end_to_end (path_in answered.now) (params_in answered.now).d },
    ghost path_lens: { (l : ℕ) → l < (params_in answered.now).d
        → length (path_in answered.now l) ≡ path_len_in answered.now },
    ghost paths_len: { length paths.now ≡ (params_in answered.now).d * path_len_in answered.now },
}

impl<'j, 'a> Judged<'j, 'a> {
    /// The value that a layer signs.
    fn signed(&self, layer: u8) -> Node
        requires { layer < (params_in self.now.answered.now).d }
        ensures value { result.items
            ≡ signed_by (source_in self.now.answered.now) (answers_in self.now.answered.now) layer }
        ensures len { length result.items ≡ (params_in self.now.answered.now).n }
    {
        let answered = self.answered;
        let n = answered.signing.trees.signer.public.set.n();
        let start = layer as usize * n;
        node_of(&self.signed[start..start + n])
    }

    /// The path of a layer's leaf.
    fn path(&self, layer: u8) -> &'j [u8]
        requires { layer < (params_in self.now.answered.now).d }
        ensures value { result.now ≡ path_in self.now.answered.now layer }
        ensures len { length result.now ≡ path_len_in self.now.answered.now }
    {
        let answered = self.answered;
        let set = answered.signing.trees.signer.public.set;
        let size = set.hp() as usize * set.n();
        let start = layer as usize * size;
        &self.paths[start..start + size]
    }

    /// Writes a layer's part of the signature: the WOTS+ signature of the value that it signs, and the path (FIPS 205,
    /// Algorithm 10).
    fn put_layer(&self, layer: u8, out: &mut [u8])
        requires layer { layer < (params_in self.now.answered.now).d }
        requires out { length out.old ≡ xmss_sig_len (params_in self.now.answered.now) }
        ensures { let s = source_in self.now.answered.now in let a = answers_in self.now.answered.now in
            out.new ≡ layer_part_by s a layer (signed_by s a layer) }
    {
        let answered = self.answered;
        let set = answered.signing.trees.signer.public.set;
        let (wots, auth) = out.split_at_mut(wots_sig_len(set));
        answered.put_wots(layer, &self.signed(layer), wots);
        auth.copy_from_slice(self.path(layer));
    }

    /// As `put_layer`, from `start` on.
    fn put_layer_at(&self, layer: u8, out: &mut [u8], start: usize)
        requires layer { layer < (params_in self.now.answered.now).d }
        requires out { start + xmss_sig_len (params_in self.now.answered.now) ≤ length out.old }
        ensures part_len { let s = source_in self.now.answered.now in let a = answers_in self.now.answered.now in
            length (layer_part_by s a layer (signed_by s a layer)) ≡ xmss_sig_len (params_in self.now.answered.now) }
        ensures part { let s = source_in self.now.answered.now in let a = answers_in self.now.answered.now in
            take (start + xmss_sig_len (params_in self.now.answered.now)) out.new
            ≡ take start out.old ++ layer_part_by s a layer (signed_by s a layer) }
    {
        let answered = self.answered;
        let end = start + xmss_sig_len(answered.signing.trees.signer.public.set);
        self.put_layer(layer, &mut out[start..end]);
    }

    /// Writes the hypertree signature (FIPS 205, Algorithm 12).
    fn put_layers(&self, out: &mut [u8])
        requires { length out.old
            ≡ (params_in self.now.answered.now).d * xmss_sig_len (params_in self.now.answered.now) }
        ensures { out.new ≡ sig_ht_by (source_in self.now.answered.now) (answers_in self.now.answered.now) }
    {
        let answered = self.answered;
        let set = answered.signing.trees.signer.public.set;
        let size = xmss_sig_len(set);
        for layer in 0..set.d() as u8 {
            self.put_layer_at(layer, out, layer as usize * size);
        }
    }

    /// Writes the signature.
    fn put_signature(&self, out: &mut [u8])
        requires { length out.old ≡ sig_len (params_in self.now.answered.now) }
        ensures { let x = self.now.answered.now in out.new ≡ r_in (params_in x) x.signing.start.now
            ++ (sig_fors_by (source_in x) (answers_in x) ++ sig_ht_by (source_in x) (answers_in x)) }
    {
        let answered = self.answered;
        let signing = &answered.signing;
        let set = signing.trees.signer.public.set;
        let n = set.n();
        let (front, rest) = out.split_at_mut(n);
        front.copy_from_slice(&signing.start[..n]);
        let (fors, sig_ht) = rest.split_at_mut(fors_sig_len(set));
        fors.copy_from_slice(self.sig_fors);
        self.put_layers(sig_ht);
    }
}

impl<'a> AllAnswers<'a> {
    /// Whether the answers fit together. If they do, the signature is written, after that verdict.
    fn join(&self, out: &mut [u8]) -> bool
        requires { length out.old ≡ sig_len (params_in self.now) }
        ensures fit { let t = self.now.signing in
            IsTrue result ↔ AreFitting t.levels (source_in self.now) t.sk.now t.start.now self.now.xmss.bytes.now }
        ensures fors_parts { IsTrue result → (j : ℕ) → j < (params_in self.now).k
            → length (fors_part_by (answers_in self.now) j) ≡ fors_part_len (params_in self.now) }
        ensures layer_parts { let s = source_in self.now in let a = answers_in self.now in let p = params_in self.now in
            IsTrue result → (l : ℕ) → l < p.d → length (layer_part_by s a l (signed_by s a l)) ≡ xmss_sig_len p }
        ensures joined { IsTrue result → out.new ≡ r_in (params_in self.now) self.now.signing.start.now
            ++ (sig_fors_by (source_in self.now) (answers_in self.now)
            ++ sig_ht_by (source_in self.now) (answers_in self.now)) }
        ensures refused { (IsTrue result → ⊥) → out.new ≡ out.old }
    {
        let set = self.signing.trees.signer.public.set;
        let mut fors = [0; MOST_FORS_SIG_LEN];
        let fors = &mut fors[..fors_sig_len(set)];
        let mut signed = [0; MOST_SIGNED_LEN];
        let signed = &mut signed[..set.d() as usize * set.n()];
        let mut paths = [0; MOST_PATHS_LEN];
        let paths = &mut paths[..set.d() as usize * (set.hp() as usize * set.n())];
        if !self.judge(fors, signed, paths) {
            return false;
        }
        let judged = Judged {
            answered: self,
            sig_fors: fors,
            signed,
            paths,
        };
        judged.put_signature(out);
        true
    }
}

/// Writes the signature that `start` begins, `sig_len` bytes, from the answers of all its jobs, end to end in the order
/// of the jobs. If each answer is that of `sign_job`, these are the bytes of `Form::sign` of `slh_core`. For any
/// answers, the written bytes are a valid signature of the message of `start`, under this key.
///
/// The answers may be any bytes. Refused, with nothing written, in this order: `BadAnswersLength` if they are not
/// `answers_len`; `BadStart` if `start` does not have its tag under this key; `AnswersDisagree` if they don't fit
/// together. All checks are before the first write, and the compared values are the signed ones.
pub fn sign_join(
    levels: &Levels,
    sk: &SecretKey,
    start: &[u8],
    answers: &[u8],
    out: &mut [u8],
) -> Result<(), JobFault>
    requires set { sk.now.set ≡ levels.now.set }
    requires start { length start.now ≡ start_len (params levels.now.set) }
    requires out { length out.old ≡ sig_len (params levels.now.set) }
    ensures length { (result ≡ Err BadAnswersLength) ↔ (length answers.now ≡ answers_len levels.now → ⊥) }
    ensures start { (result ≡ Err BadStart)
        ↔ ((length answers.now ≡ answers_len levels.now) × (IsStart sk.now start.now → ⊥)) }
    ensures fit { IsOk result ↔ ((length answers.now ≡ answers_len levels.now)
        × (IsStart sk.now start.now × FitTogether levels.now sk.now start.now answers.now)) }
    ensures joined { OnOk result (out.new ≡ signature_given levels.now sk.now start.now answers.now) }
    ensures authentic { (msg : List ℕ) (randomizer : Randomizer) → start.now ≡ start_by sk.now msg randomizer
        → OnOk result (IsValid (public_of sk.now) msg out.new) }
    ensures right { IsGeneratedKey sk.now → IsStart sk.now start.now → AreAnswers levels.now sk.now start.now answers.now
        → length answers.now ≡ answers_len levels.now → IsOk result }
    ensures signature { AreAnswers levels.now sk.now start.now answers.now
        → OnOk result (out.new ≡ signature_from sk.now start.now) }
    ensures message { (msg : List ℕ) (randomizer : Randomizer) → start.now ≡ start_by sk.now msg randomizer
        → AreAnswers levels.now sk.now start.now answers.now
        → OnOk result (out.new ≡ signature_by sk.now msg randomizer) }
    ensures refused { OnErr result (out.new ≡ out.old) }
{
    if answers.len() != answers_len(levels) {
        return Err(JobFault::BadAnswersLength);
    }
    let start = copy_of_start(start);
    let signer = sk.signer();
    let Some(answered) = AllAnswers::new(levels, sk, &signer, start.as_slice(), answers) else {
        return Err(JobFault::BadStart);
    };
    if answered.join(out) {
        Ok(())
    } else {
        Err(JobFault::AnswersDisagree)
    }
}
