//! Gates for tests.
use crate::shared::turns_until;
use refusing_allocator::Refusing;
use slh_par::{Gate, Go};
use std::alloc::Global;
use std::sync::atomic::{AtomicU64, Ordering};

/// Whether something was called.
#[derive(Drop)]
struct Call {
    made: AtomicU64,
}

impl Call {
    fn new() -> Call {
        Call {
            made: AtomicU64::new(0),
        }
    }

    fn make(&self) {
        self.made.store(1, Ordering::SeqCst);
    }

    fn is_made(&self) -> bool {
        self.made.load(Ordering::SeqCst) > 0
    }

    /// Turns until it was called; whether that was before the turns ran out.
    fn turn_until_made(&self) -> bool {
        turns_until(&self.made, 1)
    }
}

/// A gate that never stops, and says whether a job waited in vain.
pub(crate) trait Watch: Gate {
    fn gave_up(&self) -> bool;
}

/// `enter` of job 0 waits for the call of `leave` for job 1, and `enter` of job 1 for the call of `enter` for job 0. So
/// the two jobs run at the same time.
#[derive(Drop)]
pub(crate) struct FirstMeetsSecond {
    first_entered: Call,
    second_left: Call,
    gave_up: Call,
}

impl FirstMeetsSecond {
    pub(crate) fn new() -> FirstMeetsSecond {
        FirstMeetsSecond {
            first_entered: Call::new(),
            second_left: Call::new(),
            gave_up: Call::new(),
        }
    }
}

impl Gate for FirstMeetsSecond {
    ghost may_stop = { λ _. ⊥ };

    fn enter(&self, _worker: u8, job: u32) -> Go {
        let met = match job {
            0 => {
                self.first_entered.make();
                self.second_left.turn_until_made()
            }
            1 => self.first_entered.turn_until_made(),
            _ => true,
        };
        if !met {
            self.gave_up.make();
        }
        Go::On
    }

    fn leave(&self, _worker: u8, job: u32) {
        if job == 1 {
            self.second_left.make();
        }
    }
}

impl Watch for FirstMeetsSecond {
    fn gave_up(&self) -> bool {
        self.gave_up.is_made()
    }
}

/// `enter` of job 0 turns until `leave` of another job was called.
#[derive(Drop)]
pub(crate) struct FirstWaitsFor {
    job: u32,
    left: Call,
    gave_up: Call,
}

impl FirstWaitsFor {
    pub(crate) fn new(job: u32) -> FirstWaitsFor {
        FirstWaitsFor {
            job,
            left: Call::new(),
            gave_up: Call::new(),
        }
    }
}

impl Gate for FirstWaitsFor {
    ghost may_stop = { λ _. ⊥ };

    fn enter(&self, _worker: u8, job: u32) -> Go {
        if job == 0 && !self.left.turn_until_made() {
            self.gave_up.make();
        }
        Go::On
    }

    fn leave(&self, _worker: u8, job: u32) {
        if job == self.job {
            self.left.make();
        }
    }
}

impl Watch for FirstWaitsFor {
    fn gave_up(&self) -> bool {
        self.gave_up.is_made()
    }
}

/// A gate that answers Stop once the allocator has refused a growth. Until then it stops nothing. A call that asks it
/// after a refusal would answer Stopped in place of NoMemory.
#[derive(Drop)]
pub(crate) struct StopOnceRefused {
    pub(crate) alloc: Refusing<Global>,
}

impl Gate for StopOnceRefused {
    ghost may_stop = { λ _. Unit {0} };

    fn enter(&self, _worker: u8, _job: u32) -> Go {
        if self.alloc.has_refused() {
            Go::Stop
        } else {
            Go::On
        }
    }

    fn leave(&self, _worker: u8, _job: u32) {}
}
