//! The outcomes of all tests, by several workers.
ghost use Rattle.std.specs.Prelude.{◌≡◌, ◌<◌, ◌≤◌, IfErr, IfOk, length};
ghost use Rattle.slh_workers.specs.Items.{AreAnswers, joined};
ghost use Rattle.slh_vectors.specs.Cases.{test_view, views};
ghost use Rattle.slh_vectors.specs.Outcomes.{AreOutcomes, IsOutcome};
ghost use Rattle.slh_vectors.specs.declared.fault.VectorFault.TheVariants.{NoMemory as NoMemoryFault};

use super::eight_tests::outcomes_of_batch;
use super::fault::VectorFault;
use super::outcome::Outcome;
use super::running::run_test;
use super::test::Test;
use slh_workers::{BatchQuestion, NoMemory, Workers, answer_batches, push_batches};
use std::alloc::Allocator;
use std::thread::Threads;

/// The outcome of a test.
#[derive(Clone, Copy)]
struct Running;

impl BatchQuestion<Test> for Running {
    type Answer = Outcome;

    ghost is_answer = { λ _ test outcome. IsOutcome (test_view test) outcome };

    fn answers<A: Allocator + Clone>(
        &self,
        alloc: A,
        tests: &[Test],
    ) -> Result<Vec<Outcome, A>, NoMemory> {
        match outcomes_of_batch(tests) {
            Some(outcomes) => Ok(Vec::from_array(alloc, outcomes)?),
            None => outcomes_one_by_one(alloc, tests),
        }
    }
}

/// The outcome of each test, one after another. Each takes its memory from the allocator.
fn outcomes_one_by_one<A: Allocator + Clone>(
    alloc: A,
    tests: &[Test],
) -> Result<Vec<Outcome, A>, NoMemory>
    ensures { IfOk result (λ outcomes.
        AreAnswers (λ test outcome. IsOutcome (test_view test) outcome) tests.now outcomes.items) }
{
    let mut outcomes = Vec::new(alloc.clone()?);
    for test in tests {
        match run_test(alloc.clone()?, test) {
            Ok(outcome) => outcomes.push(outcome)?,
            Err(_) => return Err(NoMemory),
        }
    }
    Ok(outcomes)
}

/// How many of the first tests may be in one batch: all that are verify tests of one set, or one.
fn like_first(tests: &[Test]) -> usize
    requires { 0 < length tests.now }
    ensures some { 0 < result }
    ensures within { result ≤ length tests.now }
{
    let set = tests[0].set();
    let like = tests
        .iter()
        .take_while(|test| matches!(test, Test::Verify(test) if test.set == set))
        .count();
    like.max(1)
}

/// The tests in batches for these workers.
fn batches_of<'a, A: Allocator>(
    alloc: A,
    tests: &'a [Test],
    workers: Workers,
) -> Result<Vec<&'a [Test], A>, NoMemory>
    ensures { IfOk result (λ batches. joined batches.items ≡ tests.now) }
{
    let mut batches = Vec::new(alloc);
    let mut rest = tests;
    while !rest.is_empty() {
        let (like, after) = rest.split_at(like_first(rest));
        push_batches(&mut batches, like, workers)?;
        rest = after;
    }
    Ok(batches)
}

/// The outcome of each test, in their order, by several workers. If verify tests of one set follow one another, a worker
/// runs eight at a time, and the last ones one by one. It runs other tests one by one. Over 2^32 - 1 batches are run in
/// several runs. Refused only for lack of memory. It waits only for the threads that it started.
pub fn run_vectors<R: Threads + Sync, A: Allocator + Clone + Send + Sync>(
    rt: &R,
    alloc: A,
    tests: &[Test],
    workers: Workers,
) -> Result<Vec<Outcome, A>, VectorFault>
    ensures done { IfOk result (λ outcomes. AreOutcomes (views tests.now) outcomes.items) }
    ensures count { IfOk result (λ outcomes. length outcomes.items ≡ length tests.now) }
    ensures refused { IfErr result (λ e. e ≡ NoMemoryFault) }
{
    let places = alloc.clone()?;
    let Ok(batches) = batches_of(places, tests, workers) else {
        return Err(VectorFault::NoMemory);
    };
    match answer_batches(rt, alloc, &Running, &batches, workers) {
        Ok(outcomes) => Ok(outcomes),
        Err(NoMemory) => Err(VectorFault::NoMemory),
    }
}
