//! Many signatures verified at once.
ghost use Rattle.std.specs.Prelude.{◌≡◌, ◌↔◌, [], IsTrue, IfOk, IfErr};
ghost use Rattle.slh_core.specs.Messages.{pure_message};
ghost use Rattle.slh_core.specs.Signatures.{IsValid};
ghost use Rattle.slh_par.specs.Verdicts.{IsVerified};
ghost use Rattle.slh_par.specs.declared.fault.ParFault.TheVariants.{NoMemory as NoMemoryFault};

use slh_par::{ParFault, PublicKey, VerifyItem, Workers, verify_all};
use std::alloc::Allocator;
use std::thread::Threads;

/// A message and the bytes that are to sign it.
#[derive(Clone, Copy)]
pub struct Signed<'a> {
    pub msg: &'a [u8],
    pub sig: &'a [u8],
}

/// What `verify_all` asks for: here with no context, and in the pure form.
fn item<'a>(pk: &'a PublicKey, signed: &Signed<'a>) -> VerifyItem<'a>
    ensures { IsVerified result ↔ IsValid pk.now (pure_message [] signed.now.msg.now) signed.now.sig.now }
{
    VerifyItem {
        pk,
        msg: signed.msg,
        ctx: &[],
        prehash: None,
        sig: signed.sig,
    }
}

/// Whether both messages are signed by the key, by two workers. Refused if a growth of memory was refused.
pub fn both_valid<R: Threads + Sync, A: Allocator + Clone + Send + Sync>(
    rt: &R,
    alloc: A,
    pk: &PublicKey,
    first: &Signed<'_>,
    second: &Signed<'_>,
) -> Result<bool, ParFault>
    ensures valid { IfOk result (λ valid. IsTrue valid
        ↔ IsValid pk.now (pure_message [] first.now.msg.now) first.now.sig.now
        × IsValid pk.now (pure_message [] second.now.msg.now) second.now.sig.now) }
    ensures memory { IfErr result (λ fault. fault ≡ NoMemoryFault) }
{
    let items = [item(pk, first), item(pk, second)];
    let workers = match Workers::new(2) {
        Some(workers) => workers,
        None => unreachable!(),
    };
    let answers = verify_all(rt, alloc, &items, workers)?;
    Ok(answers[0] && answers[1])
}
