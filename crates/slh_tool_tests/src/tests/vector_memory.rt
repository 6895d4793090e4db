//! Tests of a vector file, run with the 1st growth of memory refused, then the 2nd, and so on until a run meets no
//! refusal.
use super::equal;
use super::fixtures::{NOT_VALID, THREE_TESTS};
use refusing_allocator::Refusing;
use slh_vectors::{Test, VectorFault, read_vectors, run_test, run_vectors};
use slh_workers::Workers;
use std::alloc::Global;
use std::process::Abort;
use std::test::Fail;
use std::thread::Threads;

/// More growths than any run here asks for.
const MANY: u64 = 1000;

/// Whether the call was refused for the growth that the allocator refused. If it refused none, the call was not
/// refused.
fn was_refused<T: Drop>(
    rt: &impl Abort,
    alloc: &Refusing<Global>,
    outcome: Result<T, VectorFault>,
) -> bool {
    let refused = alloc.has_refused();
    let expected = if refused {
        Some(VectorFault::NoMemory)
    } else {
        None
    };
    equal(rt, &outcome.err(), &expected);
    refused
}

#[test]
fn run_test_refuses_at_each_growth(rt: HostRuntime) -> Result<(), Fail> {
    let tests = read_vectors(rt.alloc(), THREE_TESTS)?;
    equal(&rt, &tests.len(), &3);
    // Only signing takes memory, for the bytes that it compares.
    for (test, growths) in tests.iter().zip([0u64, 1, 0]) {
        let mut refusals = 0u64;
        for nth in 1..MANY {
            let alloc = Refusing::new(rt.alloc(), rt.alloc(), nth)?;
            let outcome = run_test(alloc.clone()?, test);
            if !was_refused(&rt, &alloc, outcome) {
                break;
            }
            refusals = nth;
        }
        equal(&rt, &refusals, &growths);
    }
    Ok(())
}

/// Runs the tests by one and by two workers with each growth refused in turn.
fn refuse_running<R: Abort + Threads + Sync>(
    rt: &R,
    alloc: Global,
    tests: &[Test],
) -> Result<(), Fail> {
    // One more worker asks for more growths, so their count shows whether the number of workers is passed on.
    let mut before = 0u64;
    for number in [1u8, 2] {
        let workers = Workers::new(number).ok_or("workers")?;
        let mut refusals = 0u64;
        for nth in 1..MANY {
            let refusing = Refusing::new(alloc, alloc, nth)?;
            let outcomes = run_vectors(rt, refusing.clone()?, tests, workers);
            if !was_refused(rt, &refusing, outcomes) {
                break;
            }
            refusals = nth;
        }
        assert!(rt;
            before < refusals && refusals.wrapping_add(1) < MANY,
            "{refusals} refusals"
        );
        before = refusals;
    }
    Ok(())
}

#[test]
fn run_vectors_refuses_at_each_growth(rt: HostRuntime) -> Result<(), Fail> {
    let three = read_vectors(rt.alloc(), THREE_TESTS)?;
    refuse_running(&rt, rt.alloc(), three.as_slice())?;
    // Two batches of eight for each number of workers, and one test after them.
    let mut many = Vec::new(rt.alloc());
    for _ in 0..17 {
        many.append(&mut read_vectors(rt.alloc(), NOT_VALID)?)?;
    }
    refuse_running(&rt, rt.alloc(), many.as_slice())
}
