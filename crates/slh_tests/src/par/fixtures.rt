//! The key by several workers, cuttings and room for signatures.
ghost use Rattle.std.specs.Prelude.{◌≡◌, ◌==◌, IfOk, replicate};
ghost use Rattle.std.specs.List.{list_all};
ghost use Rattle.slh_params.specs.Params.{sig_len};
ghost use Rattle.slh_params.specs.ParamSet.{params};

use crate::seeds::counting;
use slh_core::SecretKey;
use slh_par::{Cuts, Cutting, Gate, ParFault, Workers, keygen_par};
use slh_params::ParamSet;
use std::alloc::{Allocator, Global};
use std::test::Fail;
use std::thread::Threads;

/// The set of the tests.
pub(crate) const SET: ParamSet = ParamSet::S128f;

/// Nothing is written over these bytes if a call is refused.
pub(crate) const UNWRITTEN: u8 = 0xa5;

/// The key whose seeds are the bytes 00, 01, 02, .., by several workers.
pub(crate) fn key_par<R: Threads + Sync, A: Allocator + Clone + Send + Sync, G: Gate>(
    rt: &R,
    alloc: A,
    workers: Workers,
    cutting: &Cutting,
    gate: &G,
) -> Result<SecretKey, ParFault>
    ensures { IfOk result (λ sk. sk.set ≡ cutting.now.set) }
{
    let bytes = counting(0);
    let set = cutting.set();
    let n = set.n();
    keygen_par(
        rt,
        alloc,
        set,
        &bytes[..n],
        &bytes[n..2 * n],
        &bytes[2 * n..3 * n],
        workers,
        cutting,
        gate,
    )
}

/// That many workers.
pub(crate) fn workers(number: u8) -> Result<Workers, Fail>
    ensures { IfOk result (λ workers. workers ≡ number) }
{
    Ok(Workers::new(number).ok_or("no such number of workers")?)
}

/// Trees with one range each. 128f has 22 XMSS trees and 33 FORS trees, so the jobs of a signature are 0 to 54.
pub(crate) fn whole_trees(set: ParamSet) -> Result<Cutting, Fail>
    ensures { IfOk result (λ cutting. cutting.set ≡ set) }
{
    Ok(Cutting::new(set, Cuts::Levels(0), Cuts::Levels(0))?)
}

/// Room for a signature.
pub(crate) fn unwritten(alloc: Global, set: ParamSet) -> Result<Vec<u8>, Fail>
    ensures { IfOk result (λ out. out.items ≡ replicate (sig_len (params set)) UNWRITTEN) }
{
    Ok(vec![in alloc; UNWRITTEN; set.sig_len()]?)
}

/// Whether nothing was written.
pub(crate) fn is_unwritten(out: &[u8]) -> bool
    ensures { result ≡ list_all (λ byte. byte == UNWRITTEN) out.now }
{
    out.iter().all(|&byte| byte == UNWRITTEN)
}
