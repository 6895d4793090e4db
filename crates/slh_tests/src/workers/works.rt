//! Works for tests.
ghost use Rattle.std.specs.Prelude.{◌≡◌, ◌*◌};

use crate::shared::turns_until;
use refusing_allocator::Refusing;
use slh_workers::{Gate, Go, NoMemory, Work};
use std::alloc::{Allocator, Global};
use std::sync::atomic::{AtomicU64, Ordering};

// The answer of a job that waits for the counter to reach the number; if the turns run out, it reports that memory ran
// out.
fn await_number(counter: &AtomicU64, number: u64) -> Result<(), NoMemory> {
    if turns_until(counter, number) {
        Ok(())
    } else {
        Err(NoMemory)
    }
}

/// The square of each number below `jobs`. The job `refused`, if there is one, is refused memory.
#[derive(Drop)]
pub struct Squares {
    pub jobs: u32,
    pub refused: u32,
}

impl Squares {
    /// So many jobs, none of which is refused memory.
    pub fn new(jobs: u32) -> Squares
        ensures { result.jobs ≡ jobs }
    {
        Squares {
            jobs,
            refused: u32::MAX,
        }
    }
}

impl Work for Squares {
    type Out = u64;

    ghost jobs = { λ squares. squares.jobs };

    ghost is_right = { λ squares i out. out ≡ i * i };

    fn count(&self) -> u32 {
        self.jobs
    }

    fn run(&self, i: u32) -> Result<u64, NoMemory> {
        if i == self.refused {
            return Err(NoMemory);
        }
        Ok(u64::from(i) * u64::from(i))
    }
}

/// Ten jobs, of which job 0 turns until this many of the others ran.
#[derive(Drop)]
pub struct FirstWaits {
    pub others: u64,
    pub ran: AtomicU64,
}

impl Work for FirstWaits {
    type Out = ();

    ghost jobs = { λ _. 10 };

    ghost is_right = { λ _ _ _. Unit {0} };

    fn count(&self) -> u32 {
        10
    }

    fn run(&self, i: u32) -> Result<(), NoMemory> {
        if i > 0 {
            self.ran.fetch_add(1, Ordering::SeqCst);
            return Ok(());
        }
        await_number(&self.ran, self.others)
    }
}

/// Two jobs, each of which turns until the other was called.
#[derive(Drop)]
pub struct Meeting {
    pub called: AtomicU64,
}

impl Work for Meeting {
    type Out = ();

    ghost jobs = { λ _. 2 };

    ghost is_right = { λ _ _ _. Unit {0} };

    fn count(&self) -> u32 {
        2
    }

    fn run(&self, _i: u32) -> Result<(), NoMemory> {
        self.called.fetch_add(1, Ordering::SeqCst);
        await_number(&self.called, 2)
    }
}

/// Five jobs, of which each asks for a list of one number more than the last.
#[derive(Drop)]
pub struct Lists<A> {
    pub alloc: A,
}

impl<A: Allocator + Clone + Send + Sync> Work for Lists<A> {
    ghost use Rattle.std.specs.Prelude.{◌+◌, replicate};

    type Out = Vec<u32, A>;

    ghost jobs = { λ _. 5 };

    ghost is_right = { λ _ i out. out.items ≡ replicate (i + 1) i };

    fn count(&self) -> u32 {
        5
    }

    fn run(&self, i: u32) -> Result<Vec<u32, A>, NoMemory> {
        Ok(Vec::from_elem(self.alloc.clone()?, i, i as usize + 1)?)
    }
}

/// Ten jobs, and the gate before them. Both record which jobs were entered, run and left, as the bits of a word, and
/// count each call that comes before its turn or a second time.
#[derive(Drop)]
pub struct Recorded {
    /// The job at which the gate answers Stop, if there is one.
    pub stop: Option<u32>,
    /// The job that is refused memory, if there is one.
    pub refused: Option<u32>,
    pub entered: AtomicU64,
    pub ran: AtomicU64,
    pub left: AtomicU64,
    pub out_of_turn: AtomicU64,
}

impl Recorded {
    /// No job was entered so far.
    pub fn new(stop: Option<u32>, refused: Option<u32>) -> Recorded
        ensures stop { result.stop ≡ stop }
        ensures refused { result.refused ≡ refused }
    {
        Recorded {
            stop,
            refused,
            entered: AtomicU64::new(0),
            ran: AtomicU64::new(0),
            left: AtomicU64::new(0),
            out_of_turn: AtomicU64::new(0),
        }
    }

    // Adds the job to `here`. Its turn has come if the step before has seen it, and this one has not.
    fn record(&self, job: u32, before: Option<&AtomicU64>, here: &AtomicU64) {
        let bit = 1u64.unbounded_shl(job);
        let came = match before {
            Some(step) => step.load(Ordering::SeqCst) & bit > 0,
            None => true,
        };
        if here.fetch_or(bit, Ordering::SeqCst) & bit > 0 || !came {
            self.out_of_turn.fetch_add(1, Ordering::SeqCst);
        }
    }
}

impl Gate for Recorded {
    ghost may_stop = { λ _. Unit {0} };

    fn enter(&self, _worker: u8, job: u32) -> Go {
        self.record(job, None, &self.entered);
        if self.stop == Some(job) {
            return Go::Stop;
        }
        Go::On
    }

    fn leave(&self, _worker: u8, job: u32) {
        self.record(job, Some(&self.ran), &self.left);
    }
}

impl Work for Recorded {
    type Out = u32;

    ghost jobs = { λ _. 10 };

    ghost is_right = { λ _ i out. out ≡ i };

    fn count(&self) -> u32 {
        10
    }

    fn run(&self, i: u32) -> Result<u32, NoMemory> {
        self.record(i, Some(&self.entered), &self.ran);
        if self.refused == Some(i) {
            return Err(NoMemory);
        }
        Ok(i)
    }
}

/// Many jobs, each of which turns until the allocator has refused a growth, and then a while longer. A worker that does
/// not learn of the refusal runs all of them.
#[derive(Drop)]
pub struct AfterRefusal {
    pub alloc: Refusing<Global>,
    pub ran: AtomicU64,
    /// How many jobs saw no refusal before their turns ran out. Once there is one, jobs end at once.
    pub gave_up: AtomicU64,
}

impl AfterRefusal {
    /// No job has run so far.
    pub fn new(alloc: Refusing<Global>) -> AfterRefusal {
        AfterRefusal {
            alloc,
            ran: AtomicU64::new(0),
            gave_up: AtomicU64::new(0),
        }
    }

    fn turns_until_refused(&self) -> bool {
        for _ in 0..300_000_000u32 {
            if self.alloc.has_refused() {
                return true;
            }
            if self.gave_up.load(Ordering::SeqCst) > 0 {
                return false;
            }
        }
        false
    }
}

impl Work for AfterRefusal {
    type Out = ();

    ghost jobs = { λ _. 10000 };

    ghost is_right = { λ _ _ _. Unit {0} };

    fn count(&self) -> u32 {
        10_000
    }

    fn run(&self, _i: u32) -> Result<(), NoMemory> {
        self.ran.fetch_add(1, Ordering::SeqCst);
        if !self.turns_until_refused() {
            self.gave_up.fetch_add(1, Ordering::SeqCst);
            return Ok(());
        }
        for _ in 0..200_000u32 {
            self.ran.load(Ordering::SeqCst);
        }
        Ok(())
    }
}
