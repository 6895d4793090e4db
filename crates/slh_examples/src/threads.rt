//! One signature by several threads.
ghost use Rattle.std.specs.Prelude.{◌≡◌, ◌⊎◌, [], OnOk, OnErr, IfErr, length};
ghost use Rattle.slh_params.specs.Params.{sig_len};
ghost use Rattle.slh_params.specs.ParamSet.{params};
ghost use Rattle.slh_core.specs.Messages.{pure_message};
ghost use Rattle.slh_core.specs.Signatures.{signature_by};
ghost use Rattle.slh_core.specs.declared.randomizer.Randomizer.TheVariants.{Deterministic};
ghost use Rattle.slh_par.specs.declared.fault.ParFault.TheVariants.{NoMemory as NoMemoryFault, Stopped};

use crate::stop::StopFlag;
use slh_par::{Cuts, Cutting, NoGate, ParFault, Randomizer, SecretKey, Workers, sign_par};
use std::alloc::Allocator;
use std::thread::Threads;

/// Each tree whole, 21 jobs or more for the six sets: enough for a few workers. A range of fewer than eight leaves would
/// leave lanes idle, and in the sets that sign fast an XMSS tree has eight or sixteen.
fn whole_trees(sk: &SecretKey) -> Cutting
    ensures { result.set ≡ sk.now.set }
{
    match Cutting::new(sk.set(), Cuts::Levels(0), Cuts::Levels(0)) {
        Ok(cutting) => cutting,
        Err(_) => unreachable!(),
    }
}

/// Signs a message with no context by that many workers. The bytes are those that one thread writes. Refused, with
/// nothing written, if a growth of memory was refused.
pub fn sign_by_threads<R: Threads + Sync, A: Allocator + Clone + Send + Sync>(
    rt: &R,
    alloc: A,
    sk: &SecretKey,
    msg: &[u8],
    workers: Workers,
    sig: &mut [u8],
) -> Result<(), ParFault>
    requires { length sig.old ≡ sig_len (params sk.now.set) }
    ensures signature { OnOk result (sig.new ≡ signature_by sk.now (pure_message [] msg.now) Deterministic) }
    ensures refused { OnErr result (sig.new ≡ sig.old) }
    ensures memory { IfErr result (λ fault. fault ≡ NoMemoryFault) }
{
    let cutting = whole_trees(sk);
    let randomizer = Randomizer::Deterministic;
    sign_par(
        rt,
        alloc,
        msg,
        &[],
        sk,
        randomizer,
        workers,
        &cutting,
        &NoGate,
        sig,
    )
}

/// Signs a message with no context by that many workers, unless another thread raises the flag: then each worker ends
/// after its current job. Refused, with nothing written, if a growth of memory was refused or the flag was raised.
pub fn sign_unless_stopped<R: Threads + Sync, A: Allocator + Clone + Send + Sync>(
    rt: &R,
    alloc: A,
    sk: &SecretKey,
    msg: &[u8],
    workers: Workers,
    flag: &StopFlag,
    sig: &mut [u8],
) -> Result<(), ParFault>
    requires { length sig.old ≡ sig_len (params sk.now.set) }
    ensures signature { OnOk result (sig.new ≡ signature_by sk.now (pure_message [] msg.now) Deterministic) }
    ensures refused { OnErr result (sig.new ≡ sig.old) }
    ensures memory_or_stop { IfErr result (λ fault. (fault ≡ NoMemoryFault) ⊎ (fault ≡ Stopped)) }
{
    let cutting = whole_trees(sk);
    let randomizer = Randomizer::Deterministic;
    sign_par(
        rt,
        alloc,
        msg,
        &[],
        sk,
        randomizer,
        workers,
        &cutting,
        flag,
        sig,
    )
}
