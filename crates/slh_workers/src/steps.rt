//! The steps of one worker at a job, and the conditions that fix their order.
ghost use Rattle.std.specs.Prelude.{◌≡◌, ℕ, ◌<◌, IfOk};
ghost use Rattle.slh_workers.specs.Gates.{GoFits};

use crate::gate::{Gate, Go};
use crate::work::{NoMemory, Work};

// The three steps of a worker at a job. The code that works off jobs is generic over them and has no other way to a
// gate or a work. So it can run a job only if `enter` answered On, and report only a job that it ran.
pub trait Steps {
    // the answer of a job
    type Out: Send + Drop;

    // the number of jobs
    ghost jobs: { Self → ℕ };

    // whether an answer is right for the job of that number
    ghost is_right: { Self → ℕ → Self.Out → Type 0 };

    // whether `enter` may answer Stop
    ghost may_stop: { Self → Type 0 };

    // that `enter` answered On for the job
    ghost admitted: { Self → ℕ → Type 0 };

    // that the job was run
    ghost ran: { Self → ℕ → Type 0 };

    // that `leave` was called for the job
    ghost reported: { Self → ℕ → Type 0 };

    fn enter(&self, job: u32) -> Go
        ensures { GoFits (may_stop self.now) (admitted self.now job) result };

    fn run(&self, job: u32) -> Result<Self::Out, NoMemory>
        requires job { job < jobs self.now }
        requires admitted { admitted self.now job }
        ensures right { IfOk result (λ out. is_right self.now job out) }
        ensures ran { ran self.now job };

    fn leave(&self, job: u32)
        requires { ran self.now job }
        ensures { reported self.now job };
}

// The worker of that number, which asks the gate and runs the work.
#[derive(Drop)]
pub struct Worker<'w, W: Work, G: Gate> {
    work: &'w W,
    gate: &'w G,
    number: u8,
}

impl<'w, W: Work, G: Gate> Worker<'w, W, G> {
    pub fn new(work: &'w W, gate: &'w G, number: u8) -> Worker<'w, W, G>
        ensures { (result.work.now ≡ work.now) × (result.gate.now ≡ gate.now) × (result.number ≡ number) }
    {
        Worker { work, gate, number }
    }
}

impl<'w, W: Work, G: Gate> Steps for Worker<'w, W, G> {
    type Out = W::Out;

    ghost jobs = { λ w. W.jobs w.work.now };

    ghost is_right = { λ w i out. W.is_right w.work.now i out };

    ghost may_stop = { λ w. G.may_stop w.gate.now };

    ghost admitted = { λ w i. G.admitted w.gate.now w.number i };

    ghost ran = { λ w i. G.admitted w.gate.now w.number i };

    ghost reported = { λ w i. G.reported w.gate.now w.number i };

    fn enter(&self, job: u32) -> Go {
        self.gate.enter(self.number, job)
    }

    fn run(&self, job: u32) -> Result<W::Out, NoMemory> {
        self.work.run(job)
    }

    fn leave(&self, job: u32) {
        self.gate.leave(self.number, job);
    }
}
