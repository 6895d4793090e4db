//! One question about each item of a list, asked by several threads, each time about the items of one batch.
ghost use Rattle.std.specs.Prelude.{◌≡◌, ◌<◌, ◌++◌, IfOk, OnOk};
ghost use Rattle.std.specs.List.{flat_map};
ghost use Rattle.slh_workers.specs.Items.{AreAnswers, joined};

use crate::items::{Question, answer_all};
use crate::work::NoMemory;
use crate::workers::Workers;
use std::alloc::Allocator;
use std::thread::Threads;

/// The items of a whole batch: `slh_core` verifies so many signatures at a time, one in each SIMD lane.
pub const BATCH: usize = 8;

/// A question that can be asked about any list of `T`, and is answered for each item.
pub trait BatchQuestion<T>: Sync {
    /// The type of an answer.
    type Answer: Send + Drop;

    // whether this answers the question about that item
    ghost is_answer: { Self → T → Self.Answer → Type 0 };

    /// The answers about the items, in their order. Refuses `NoMemory` if a growth of memory was refused.
    fn answers<A: Allocator + Clone>(
        &self,
        alloc: A,
        items: &[T],
    ) -> Result<Vec<Self::Answer, A>, NoMemory>
        ensures { IfOk result (λ answers. AreAnswers (is_answer self.now) items.now answers.items) };
}

/// Adds the items in batches for these workers. Whole batches come first; their number is a multiple of the workers'.
/// After them each item is a batch of its own, so that no worker answers eight while another has nothing to do. Refuses
/// `NoMemory` if a growth was refused; then some batches may be added.
pub fn push_batches<'a, T, A: Allocator>(
    batches: &mut Vec<&'a [T], A>,
    items: &'a [T],
    workers: Workers,
) -> Result<(), NoMemory>
    ensures { OnOk result (joined batches.new.items ≡ joined batches.old.items ++ items.now) }
{
    let turn = BATCH * workers.number() as usize;
    let (whole, rest) = items.split_at(items.len() / turn * turn);
    push_cut(batches, whole, BATCH)?;
    push_cut(batches, rest, 1)
}

/// Adds the items in batches of this size; the last may be smaller.
fn push_cut<'a, T, A: Allocator>(
    batches: &mut Vec<&'a [T], A>,
    items: &'a [T],
    size: usize,
) -> Result<(), NoMemory>
    requires { 0 < size }
    ensures { OnOk result (joined batches.new.items ≡ joined batches.old.items ++ items.now) }
{
    let mut rest = items;
    while !rest.is_empty() {
        let (batch, after) = rest.split_at(size.min(rest.len()));
        batches.push(batch)?;
        rest = after;
    }
    Ok(())
}

/// The question about each item of a batch, as one question about the batch.
#[derive(Drop)]
struct EachOf<'w, A, Q> {
    alloc: A,
    question: &'w Q,
}

impl<'w, 'a, T: Sync, A: Allocator + Clone + Send + Sync, Q: BatchQuestion<T>> Question<&'a [T]>
    for EachOf<'w, A, Q> {
    type Answer = Vec<Q::Answer, A>;

    ghost is_answer = { λ each batch answers. AreAnswers (Q.is_answer each.question.now) batch.now answers.items };

    fn answer(&self, batch: &&'a [T]) -> Result<Vec<Q::Answer, A>, NoMemory> {
        self.question.answers(self.alloc.clone()?, batch)
    }
}

/// The lists put end to end.
fn end_to_end<T: Drop, A: Allocator>(
    alloc: A,
    lists: Vec<Vec<T, A>, A>,
) -> Result<Vec<T, A>, NoMemory>
    ensures { IfOk result (λ all. all.items ≡ flat_map (λ list. list.items) lists.items) }
{
    let mut all = Vec::new(alloc);
    for mut list in lists {
        all.append(&mut list)?;
    }
    Ok(all)
}

/// The answer about each item of the batches put end to end, in the order of the items, by several workers, each of
/// which answers a batch at a time. Over 2^32 - 1 batches are taken in several runs. Refuses `NoMemory` if a growth was
/// refused. It waits only for the threads that it started.
pub fn answer_batches<
    R: Threads + Sync,
    A: Allocator + Clone + Send + Sync,
    T: Sync,
    Q: BatchQuestion<T>,
>(
    rt: &R,
    alloc: A,
    question: &Q,
    batches: &[&[T]],
    workers: Workers,
) -> Result<Vec<Q::Answer, A>, NoMemory>
    ensures { IfOk result (λ answers. AreAnswers (Q.is_answer question.now) (joined batches.now) answers.items) }
{
    let each = EachOf {
        alloc: alloc.clone()?,
        question,
    };
    let lists = answer_all(rt, alloc.clone()?, &each, batches, workers)?;
    end_to_end(alloc, lists)
}
