//! One question to each item of a list, asked by several threads.
ghost use Rattle.std.specs.Prelude.{◌≡◌, ℕ, ◌<◌, ◌^◌, length, IfOk, slice_index_or};
ghost use Rattle.slh_workers.specs.Items.{AreAnswers};

use crate::fault::RunFault;
use crate::gate::NoGate;
use crate::run::run_all;
use crate::work::{NoMemory, Work};
use crate::workers::Workers;
use std::alloc::Allocator;
use std::thread::Threads;

/// The most items of one run, whose jobs have numbers of 32 bits.
const MOST_ITEMS: usize = 4294967295;

/// A question that can be asked about any `T`.
pub trait Question<T>: Sync {
    /// The type of an answer.
    type Answer: Send + Drop;

    // whether this answers the question about that item
    ghost is_answer: { Self → T → Self.Answer → Type 0 };

    /// The answer about the item. Refuses `NoMemory` if a growth of memory was refused.
    fn answer(&self, item: &T) -> Result<Self::Answer, NoMemory>
        ensures { IfOk result (λ answer. is_answer self.now item.now answer) };
}

/// The items of one run, as jobs.
#[derive(Drop)]
struct Items<'w, T: Sync, Q: Question<T>> {
    question: &'w Q,
    items: &'w [T],
    ghost few: { length items.now < 2 ^ 32 },
}

impl<'w, T: Sync, Q: Question<T>> Work for Items<'w, T, Q> {
    type Out = Q::Answer;

    ghost jobs = { λ w. length w.items.now };

    ghost is_right = { λ w i answer. (item : T)
        → Q.is_answer w.question.now (slice_index_or w.items.now i item) answer };

    fn count(&self) -> u32 {
        self.items.len() as u32
    }

    fn run(&self, i: u32) -> Result<Q::Answer, NoMemory> {
        self.question.answer(&self.items[i as usize])
    }
}

/// The answers of one run.
fn answer_run<R: Threads + Sync, A: Allocator + Clone + Send + Sync, T: Sync, Q: Question<T>>(
    rt: &R,
    alloc: A,
    question: &Q,
    items: &[T],
    workers: Workers,
) -> Result<Vec<Q::Answer, A>, NoMemory>
    requires { length items.now < 2 ^ 32 }
    ensures { IfOk result (λ answers. AreAnswers (Q.is_answer question.now) items.now answers.items) }
{
    match run_all(rt, alloc, &Items { question, items }, workers, &NoGate) {
        Ok(answers) => Ok(answers),
        Err(RunFault::NoMemory) => Err(NoMemory),
        Err(RunFault::Stopped) => unreachable!(),
    }
}

/// The answer about each item, in the order of the items, by several workers. Over 2^32 - 1 items are taken in several
/// runs. Refuses `NoMemory` if a growth was refused. It waits only for the threads that it started.
pub fn answer_all<R: Threads + Sync, A: Allocator + Clone + Send + Sync, T: Sync, Q: Question<T>>(
    rt: &R,
    alloc: A,
    question: &Q,
    items: &[T],
    workers: Workers,
) -> Result<Vec<Q::Answer, A>, NoMemory>
    ensures { IfOk result (λ answers. AreAnswers (Q.is_answer question.now) items.now answers.items) }
{
    let mut answers = Vec::new(alloc.clone()?);
    while answers.len() < items.len() {
        let start = answers.len();
        let end = start + (items.len() - start).min(MOST_ITEMS);
        let mut more = answer_run(rt, alloc.clone()?, question, &items[start..end], workers)?;
        answers.append(&mut more)?;
    }
    Ok(answers)
}
