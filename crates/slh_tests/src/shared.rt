//! Functions that the tests of several crates share.
use slh_workers::{Gate, Go};
use std::fmt::Debug;
use std::process::Abort;
use std::sync::atomic::{AtomicU64, Ordering};

/// Fails the test unless the two are equal.
pub(crate) fn equal<T: PartialEq + Debug>(rt: &impl Abort, found: &T, expected: &T) {
    assert_eq!(rt; found, expected);
}

/// More growths of memory than any call of a test asks for.
pub(crate) const MANY: u64 = 1000;

/// Fails the test unless some growths were refused, at least this many, and then a call came that met no refusal.
pub(crate) fn check_count(rt: &impl Abort, least: u64, refusals: u64, number: u8) {
    assert!(rt;
        least <= refusals && refusals.wrapping_add(1) < MANY,
        "{refusals} refusals, {number} workers"
    );
}

/// How often a job looks at a counter before it gives up.
const TURNS: u64 = 1_000_000_000;

/// Whether the counter reached the number before the turns ran out.
pub(crate) fn turns_until(counter: &AtomicU64, number: u64) -> bool {
    for _ in 0..TURNS {
        if counter.load(Ordering::SeqCst) >= number {
            return true;
        }
    }
    false
}

/// A gate that answers Stop at one job, and counts its calls.
#[derive(Drop)]
pub(crate) struct StopAt {
    job: u32,
    pub(crate) entered: AtomicU64,
    pub(crate) left: AtomicU64,
}

impl StopAt {
    pub(crate) fn new(job: u32) -> StopAt {
        StopAt {
            job,
            entered: AtomicU64::new(0),
            left: AtomicU64::new(0),
        }
    }
}

impl Gate for StopAt {
    ghost may_stop = { λ _. Unit {0} };

    fn enter(&self, _worker: u8, job: u32) -> Go {
        self.entered.fetch_add(1, Ordering::SeqCst);
        if job == self.job { Go::Stop } else { Go::On }
    }

    fn leave(&self, _worker: u8, _job: u32) {
        self.left.fetch_add(1, Ordering::SeqCst);
    }
}
