//! Key generation by several threads (FIPS 205, Algorithm 18).
ghost use Rattle.std.specs.Prelude.{◌≡◌, length, IfOk, IfErr};
ghost use Rattle.slh_params.specs.ParamSet.{params};
ghost use Rattle.slh_core.specs.Keys.{generated_key, IsGeneratedKey};
ghost use Rattle.slh_par.specs.declared.fault.ParFault.TheVariants.{ContextTooLong, Stopped};

use crate::fault::ParFault;
use crate::top_tree::{TopRanges, gathered_top};
use slh_core::SecretKey;
use slh_few::{Seeds, SigningContext};
use slh_params::ParamSet;
use slh_subtrees::Cutting;
use slh_workers::{Gate, Workers, run_all};
use std::alloc::Allocator;
use std::thread::Threads;

/// The secret key of three seeds of n bytes each (FIPS 205, Algorithm 18), by several workers: that of
/// `slh_core::keygen_internal`. Refused: `NoMemory` if a growth was refused, then `Stopped` if the gate stopped the
/// run. It waits only for the threads that it started.
pub fn keygen_par<R: Threads + Sync, A: Allocator + Clone + Send + Sync, G: Gate>(
    rt: &R,
    alloc: A,
    set: ParamSet,
    sk_seed: &[u8],
    sk_prf: &[u8],
    pk_seed: &[u8],
    workers: Workers,
    cutting: &Cutting,
    gate: &G,
) -> Result<SecretKey, ParFault>
    requires sk_seed { length sk_seed.now ≡ (params set).n }
    requires sk_prf { length sk_prf.now ≡ (params set).n }
    requires pk_seed { length pk_seed.now ≡ (params set).n }
    requires cutting { cutting.now.set ≡ set }
    ensures key { IfOk result (λ key. key ≡ generated_key set sk_seed.now sk_prf.now pk_seed.now) }
    ensures generated { IfOk result IsGeneratedKey }
    ensures no_context { IfErr result (λ fault. fault ≡ ContextTooLong → ⊥) }
    ensures stopped { IfErr result (λ fault. fault ≡ Stopped → G.may_stop gate.now) }
{
    let seeds = Seeds {
        set,
        sk_seed,
        pk_seed,
    };
    let signer = SigningContext::new(&seeds);
    let work = TopRanges {
        signer: &signer,
        cutting,
    };
    let covers = run_all(rt, alloc, &work, workers, gate)?;
    let root = gathered_top(&signer, cutting, &covers);
    Ok(SecretKey::from_parts(set, sk_seed, sk_prf, pk_seed, &root))
}
