//! Many signatures, verified by several threads (FIPS 205, Algorithms 24 and 25).
ghost use Rattle.std.specs.Prelude.{◌≡◌, ◌↔◌, IsTrue, IfOk, IfErr};
ghost use Rattle.slh_workers.specs.Items.{joined};
ghost use Rattle.slh_par.specs.Verdicts.{IsVerified, AreVerdicts};
ghost use Rattle.slh_par.specs.declared.fault.ParFault.TheVariants.{NoMemory as NoMemoryFault};

use crate::eight_items::verdicts_of_eight;
use crate::fault::ParFault;
use crate::verify_item::VerifyItem;
use slh_workers::{BatchQuestion, NoMemory, Workers, answer_batches, push_batches};
use std::alloc::Allocator;
use std::thread::Threads;

/// Whether a signature is valid.
#[derive(Clone, Copy)]
struct Validity;

impl<'a> BatchQuestion<VerifyItem<'a>> for Validity {
    type Answer = bool;

    ghost is_answer = { λ _ item answer. IsTrue answer ↔ IsVerified item };

    fn answers<A: Allocator + Clone>(
        &self,
        alloc: A,
        items: &[VerifyItem<'a>],
    ) -> Result<Vec<bool, A>, NoMemory> {
        match items.as_array() {
            Some(eight) => Ok(Vec::from_array(alloc, verdicts_of_eight(eight))?),
            None => verdicts_one_by_one(alloc, items),
        }
    }
}

/// Whether each of the items is valid, one after another.
fn verdicts_one_by_one<A: Allocator>(
    alloc: A,
    items: &[VerifyItem],
) -> Result<Vec<bool, A>, NoMemory>
    ensures { IfOk result (λ answers. AreVerdicts items.now answers.items) }
{
    let mut answers = Vec::new(alloc);
    for item in items {
        answers.push(item.is_valid())?;
    }
    Ok(answers)
}

/// Whether each of the signatures is valid, in the order of the items, by several workers. A worker verifies eight at a
/// time, and the last items one by one. Over 2^32 - 1 batches are verified in several runs. Refused only as `NoMemory`,
/// if a growth was refused. It waits only for the threads that it started.
pub fn verify_all<R: Threads + Sync, A: Allocator + Clone + Send + Sync>(
    rt: &R,
    alloc: A,
    items: &[VerifyItem],
    workers: Workers,
) -> Result<Vec<bool, A>, ParFault>
    ensures answers { IfOk result (λ answers. AreVerdicts items.now answers.items) }
    ensures refused { IfErr result (λ fault. fault ≡ NoMemoryFault) }
{
    let mut batches = Vec::new(alloc.clone().map_err(NoMemory::from)?);
    push_batches(&mut batches, items, workers)?;
    Ok(answer_batches(rt, alloc, &Validity, &batches, workers)?)
}
