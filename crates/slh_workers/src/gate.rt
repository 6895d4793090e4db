//! The trait of gates, which are asked before each job and informed after it.
ghost use Rattle.std.specs.Prelude.{ℕ};
ghost use Rattle.slh_workers.specs.Gates.{GoFits};

/// The answer of a gate to a worker that asks to run a job.
#[derive(Clone, Copy, PartialEq, Eq, Debug, Drop)]
pub enum Go {
    /// Run it.
    On,
    /// Run nothing more: the whole run is to end.
    Stop,
}

/// A gate, which the thread of a job asks before the job and informs after it.
pub trait Gate: Sync {
    // whether the gate may answer Stop
    ghost may_stop: { Self → Type 0 };

    // that the gate let this worker run this job: `enter` answered On. A gate may leave out this and the next. Then
    // both hold of every job, and the proofs for every gate hold of it, too
    ghost admitted: { Self → ℕ → ℕ → Type 0 } = { λ _ _ _. Unit {0} };

    // that the gate was informed, by `leave`, that this worker has run this job
    ghost reported: { Self → ℕ → ℕ → Type 0 } = { λ _ _ _. Unit {0} };

    /// Whether the worker may run the job.
    fn enter(&self, worker: u8, job: u32) -> Go
        ensures { GoFits (may_stop self.now) (admitted self.now worker job) result };

    /// The worker has run the job, whatever came of it.
    fn leave(&self, worker: u8, job: u32)
        requires { admitted self.now worker job }
        ensures { reported self.now worker job };
}

/// Lets every job run, and never stops.
#[derive(Clone, Copy, PartialEq, Eq, Debug, Drop)]
pub struct NoGate;

impl Gate for NoGate {
    ghost may_stop = { λ _. ⊥ };

    fn enter(&self, _worker: u8, _job: u32) -> Go {
        Go::On
    }

    fn leave(&self, _worker: u8, _job: u32) {}
}
