//! Gates for tests.
use crate::shared::turns_until;
use slh_workers::{Gate, Go};
use std::sync::atomic::{AtomicU64, Ordering};

// Two jobs wait for each other; then job 0 may run, and the other gets Stop.
#[derive(Drop)]
pub struct BothThenStop {
    pub entered: AtomicU64,
    pub gave_up: AtomicU64,
}

impl Gate for BothThenStop {
    ghost may_stop = { λ _. Unit {0} };

    fn enter(&self, _worker: u8, job: u32) -> Go {
        self.entered.fetch_add(1, Ordering::SeqCst);
        if !turns_until(&self.entered, 2) {
            self.gave_up.fetch_add(1, Ordering::SeqCst);
        }
        if job == 0 { Go::On } else { Go::Stop }
    }

    fn leave(&self, _worker: u8, _job: u32) {}
}

// As many jobs as workers wait for each other; each worker's number is seen before its job and after it.
#[derive(Drop)]
pub struct Numbered {
    pub workers: u64,
    pub entered: AtomicU64,
    // the bit 2^w for each worker w that asked, and that reported a job's end
    pub asked: AtomicU64,
    pub told: AtomicU64,
}

impl Gate for Numbered {
    ghost may_stop = { λ _. ⊥ };

    fn enter(&self, worker: u8, _job: u32) -> Go {
        self.asked
            .fetch_or(1u64.unbounded_shl(worker.into()), Ordering::SeqCst);
        self.entered.fetch_add(1, Ordering::SeqCst);
        turns_until(&self.entered, self.workers);
        Go::On
    }

    fn leave(&self, worker: u8, _job: u32) {
        self.told
            .fetch_or(1u64.unbounded_shl(worker.into()), Ordering::SeqCst);
    }
}
