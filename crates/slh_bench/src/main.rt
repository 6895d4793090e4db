//! Times key generation, signing or verifying of a parameter set, in one thread or by several workers, or the hash
//! functions below them. `tests/benches/benchmark.py` runs it, and `tests/benches/count_calls.py` does so under a
//! profiler.
//!
//! Its arguments are a task, a number of runs and a set's name. It prints the nanoseconds of the shortest run. A
//! run of `sha256` or `sha512` hashes 65536 bytes. Without these three it prints nothing. The tasks are
//!
//! - in one thread `keygen`, `sign`, `verify`, `sha256` and `sha512`;
//! - by several workers `keygen_par`, `sign_par`, `verify_all` (of 64 signatures) and `independent`. In the last, each
//!   thread signs the message alone, and the time runs until all have ended.
//!
//! A fourth argument is the number of workers, by default 1. A fifth is the levels by which the XMSS trees and the FORS
//! trees are cut. Without a fifth, they are cut so that each worker gets many jobs. If no run ends as it should, as
//! with more levels than the trees have, it prints over 2^63 seconds.
#![tactic(auto, using(slh_params::proofs::Bounds::bounds))]

mod by_workers;
mod one_thread;
mod sharing;
mod task;

use one_thread::{MOST_BYTES, key, sign_message};
use sharing::Sharing;
use slh_params::ParamSet;
use std::rt::Clock;
use std::thread::Threads;
use std::time::{Duration, Instant};
use std::{env, io};
use task::{Setting, Task};

/// The shortest of several runs. A run whose outcome is wrong counts as the longest.
fn least_time<R: Clock + Threads + Sync>(
    rt: &R,
    task: Task,
    setting: &Setting,
    buffer: &mut [u8; MOST_BYTES],
    runs: u32,
) -> io::Result<Duration> {
    let mut least = Duration::MAX;
    for _ in 0..runs {
        let start = Instant::now(rt)?;
        if task.run(rt, setting, buffer) {
            least = least.min(start.elapsed(rt)?);
        }
    }
    Ok(least)
}

fn main(rt: HostRuntime) -> io::Result<()> {
    let mut words = env::args(&rt)?.skip(1);
    let (Some(task), Some(runs), Some(set)) = (words.next(), words.next(), words.next()) else {
        return Ok(());
    };
    let (Some(task), Ok(runs), Some(set)) = (
        Task::from_name(task.as_str()),
        runs.parse(),
        ParamSet::from_name(set.as_str()),
    ) else {
        return Ok(());
    };
    let workers = words.next().and_then(|word| word.parse().ok());
    let levels = words.next().and_then(|word| word.parse().ok());
    let Some(sharing) = Sharing::new(set, workers.unwrap_or(1), levels) else {
        return Ok(());
    };
    let setting = Setting {
        sk: key(set),
        sharing,
        alloc: rt.alloc(),
    };
    let mut buffer = [0; MOST_BYTES];
    if matches!(task, Task::Verify | Task::VerifyAll) {
        sign_message(&setting.sk, &mut buffer);
    }
    let time = least_time(&rt, task, &setting, &mut buffer, runs)?;
    println!(rt; "{}", time.as_nanos())
}
