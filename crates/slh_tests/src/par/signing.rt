//! The two forms of signing under one name, by several workers and by one thread.
ghost use Rattle.std.specs.Prelude.{◌≡◌, IfOk, length};
ghost use Rattle.slh_params.specs.Params.{sig_len};
ghost use Rattle.slh_params.specs.ParamSet.{params};

use super::fixtures::unwritten;
use slh_core::{PreHash, PreHasher, Randomizer, SecretKey, hash_sign, sign};
use slh_par::{Cutting, Gate, ParFault, Workers, hash_sign_digest_par, hash_sign_par, sign_par};
use std::alloc::{Allocator, Global};
use std::test::Fail;
use std::thread::Threads;

/// The signed content.
#[derive(Clone, Copy, Debug)]
pub(crate) enum Form {
    /// The message itself.
    Pure,
    /// Its digest under SHA-256.
    PreHash,
    /// As above, if the caller has the digest.
    Digest,
}

/// Both forms, the pre-hash form in two ways.
pub(crate) const FORMS: [Form; 3] = [Form::Pure, Form::PreHash, Form::Digest];

impl Form {
    /// Signs a message by several workers, deterministically.
    pub(crate) fn sign_par<R: Threads + Sync, A: Allocator + Clone + Send + Sync, G: Gate>(
        self,
        rt: &R,
        alloc: A,
        msg: &[u8],
        ctx: &[u8],
        sk: &SecretKey,
        workers: Workers,
        cutting: &Cutting,
        gate: &G,
        out: &mut [u8],
    ) -> Result<(), ParFault>
        requires cutting { cutting.now.set ≡ sk.now.set }
        requires out { length out.old ≡ sig_len (params sk.now.set) }
        ensures len { length out.new ≡ length out.old }
    {
        let randomizer = Randomizer::Deterministic;
        match self {
            Form::Pure => sign_par(
                rt, alloc, msg, ctx, sk, randomizer, workers, cutting, gate, out,
            ),
            Form::PreHash => hash_sign_par(
                rt,
                alloc,
                msg,
                ctx,
                PreHash::Sha256,
                sk,
                randomizer,
                workers,
                cutting,
                gate,
                out,
            ),
            Form::Digest => {
                let mut hasher = PreHasher::new(PreHash::Sha256);
                hasher.update(msg);
                let digest = hasher.finish();
                hash_sign_digest_par(
                    rt, alloc, &digest, ctx, sk, randomizer, workers, cutting, gate, out,
                )
            }
        }
    }

    /// The signature of "abc" under the empty context, by several workers.
    pub(crate) fn abc_par<R: Threads + Sync, G: Gate>(
        self,
        rt: &R,
        alloc: Global,
        sk: &SecretKey,
        workers: Workers,
        cutting: &Cutting,
        gate: &G,
    ) -> Result<Vec<u8>, Fail>
        requires { cutting.now.set ≡ sk.now.set }
        ensures { IfOk result (λ sig. length sig.items ≡ sig_len (params sk.now.set)) }
    {
        let mut sig = unwritten(alloc, sk.set())?;
        self.sign_par(rt, alloc, b"abc", b"", sk, workers, cutting, gate, &mut sig)?;
        Ok(sig)
    }

    /// As above, by one thread.
    pub(crate) fn abc(self, alloc: Global, sk: &SecretKey) -> Result<Vec<u8>, Fail>
        ensures { IfOk result (λ sig. length sig.items ≡ sig_len (params sk.now.set)) }
    {
        self.abc_under(alloc, b"", sk)
    }

    /// The deterministic signature of "abc" under a context, by one thread.
    pub(crate) fn abc_under(
        self,
        alloc: Global,
        ctx: &[u8],
        sk: &SecretKey,
    ) -> Result<Vec<u8>, Fail>
        ensures { IfOk result (λ sig. length sig.items ≡ sig_len (params sk.now.set)) }
    {
        let mut sig = unwritten(alloc, sk.set())?;
        let randomizer = Randomizer::Deterministic;
        match self {
            Form::Pure => sign(b"abc", ctx, sk, randomizer, &mut sig)?,
            Form::PreHash | Form::Digest => {
                hash_sign(b"abc", ctx, PreHash::Sha256, sk, randomizer, &mut sig)?;
            }
        }
        Ok(sig)
    }
}
