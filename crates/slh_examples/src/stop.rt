//! A gate that another thread may close.

use slh_par::{Gate, Go};
use std::sync::atomic::{AtomicBool, Ordering};

/// Stops a run once it is raised, between two jobs of each worker.
#[derive(Drop)]
pub struct StopFlag {
    raised: AtomicBool,
}

impl StopFlag {
    /// A flag that is not raised.
    pub fn new() -> StopFlag {
        StopFlag {
            raised: AtomicBool::new(false),
        }
    }

    /// Raises the flag, from any thread.
    pub fn raise(&self) {
        self.raised.store(true, Ordering::SeqCst);
    }
}

impl Gate for StopFlag {
    ghost may_stop = { λ _. Unit {0} };

    fn enter(&self, _worker: u8, _job: u32) -> Go {
        if self.raised.load(Ordering::SeqCst) {
            Go::Stop
        } else {
            Go::On
        }
    }

    fn leave(&self, _worker: u8, _job: u32) {}
}
