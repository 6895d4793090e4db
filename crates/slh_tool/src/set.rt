//! The lines of `slh params`.
ghost use Rattle.std.specs.Prelude.{◌≡◌, IfOk, string_bytes};
ghost use Rattle.slh_tool.specs.Sets.{length_text, line, lines, tree_text};

use slh_params::ParamSet;
use std::alloc::{AllocError, Allocator};

/// The label of a set and the numbers of its hypertree.
fn tree_text<A: Allocator>(alloc: A, set: ParamSet) -> Result<String<A>, AllocError>
    ensures { IfOk result (λ s. string_bytes s ≡ tree_text set) }
{
    let label = set.label();
    let (label, n, h, d, hp) = (label.as_str(), set.n(), set.h(), set.d(), set.hp());
    format!(in alloc; "{label} n={n} h={h} d={d} hp={hp}")
}

/// The numbers of a set's FORS trees and digests, and the lengths of its keys and signatures.
fn length_text<A: Allocator>(alloc: A, set: ParamSet) -> Result<String<A>, AllocError>
    ensures { IfOk result (λ s. string_bytes s ≡ length_text set) }
{
    let (a, k, m) = (set.a(), set.k(), set.m());
    let (pk, sk, sig) = (set.pk_len(), set.sk_len(), set.sig_len());
    format!(in alloc; " a={a} k={k} m={m} pk={pk} sk={sk} sig={sig}")
}

/// The line of a set.
#[tactic(auto, unfolding(crate::specs::Sets::line))]
fn set_line<A: Allocator + Clone>(alloc: A, set: ParamSet) -> Result<String<A>, AllocError>
    ensures { IfOk result (λ s. string_bytes s ≡ line set) }
{
    let mut line = tree_text(alloc.clone()?, set)?;
    line.push_str(length_text(alloc, set)?.as_str())?;
    line.push_str("\n")?;
    Ok(line)
}

/// One line for each set.
pub(crate) fn set_lines<A: Allocator + Clone>(
    alloc: A,
    sets: &[ParamSet],
) -> Result<String<A>, AllocError>
    ensures { IfOk result (λ s. string_bytes s ≡ lines sets.now) }
{
    let mut text = String::new(alloc.clone()?);
    for set in sets {
        text.push_str(set_line(alloc.clone()?, *set)?.as_str())?;
    }
    Ok(text)
}
