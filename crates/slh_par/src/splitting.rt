//! The answers of all jobs of a signature, split into their parts (ours).
ghost use Rattle.std.specs.Prelude.{◌≡◌, ◌++◌, map, IfOk, OnOk};
ghost use Rattle.std.specs.List.{flat_map};
ghost use Rattle.slh_par.specs.JobAnswers.{as_list};

use crate::key_checkpoints::KeyCheckpoints;
use crate::ranges::JobAnswer;
use slh_tree::{Cover, PathRec};
use slh_workers::NoMemory;
use std::alloc::Allocator;

/// Adds the checkpoints, if there are any.
fn push_checkpoints<A: Allocator>(
    checkpoints: &mut Vec<KeyCheckpoints<A>, A>,
    chains: Option<KeyCheckpoints<A>>,
) -> Result<(), NoMemory>
    ensures { OnOk result (checkpoints.new.items ≡ checkpoints.old.items ++ as_list chains) }
{
    if let Some(chains) = chains {
        checkpoints.push(chains)?;
    }
    Ok(())
}

/// The covers and the records of the ranges, and the checkpoints, each in their order.
pub(crate) fn split_answers<A: Allocator + Clone>(
    alloc: A,
    answers: Vec<JobAnswer<A>, A>,
) -> Result<(Vec<Cover, A>, Vec<PathRec, A>, Vec<KeyCheckpoints<A>, A>), NoMemory>
    ensures { IfOk result (λ v. (v.0.items ≡ map (λ x. x.0.cover) answers.items)
        × (v.1.items ≡ map (λ x. x.0.path) answers.items)
        × (v.2.items ≡ flat_map (λ x. as_list x.1) answers.items)) }
{
    let mut covers = Vec::with_capacity(alloc.clone()?, answers.len())?;
    let mut records = Vec::with_capacity(alloc.clone()?, answers.len())?;
    let mut checkpoints = Vec::new(alloc);
    for answer in answers {
        let (range, chains) = answer.into_parts();
        covers.push(range.cover)?;
        records.push(range.path)?;
        push_checkpoints(&mut checkpoints, chains)?;
    }
    Ok((covers, records, checkpoints))
}
