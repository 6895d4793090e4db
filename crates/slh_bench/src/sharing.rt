//! How workers share the trees.

use slh_par::{MOST_LEVELS, Workers};
use slh_params::ParamSet;

/// If the trees have enough leaves, this many jobs for each worker occupy all workers until nearly the end.
const JOBS_EACH: u32 = 16;

/// Lanes are filled with the eight leaves below a node of this height. A range of fewer leaves leaves lanes idle.
const FULL_HEIGHT: u32 = 3;

/// The workers, and the levels by which the trees are cut.
#[derive(Clone, Copy)]
pub struct Sharing {
    pub workers: Workers,
    /// The XMSS tree of key generation. It is the only one, so it is also cut into ranges of fewer than eight leaves.
    pub top: u32,
    /// The XMSS trees of a signature.
    pub xmss: u32,
    /// The FORS trees. Their leaves take little time.
    pub fors: u32,
}

/// The least levels that cut this many trees into as many jobs as asked for, but at most `most` and 8.
fn levels_for(jobs: u32, trees: u32, most: u32) -> u32 {
    let most = most.min(MOST_LEVELS);
    (0..most)
        .find(|&levels| trees.saturating_mul(1 << levels) >= jobs)
        .unwrap_or(most)
}

impl Sharing {
    /// That many workers, with trees cut by these levels or else by suitable ones. `None` unless there are 1 to 64
    /// workers.
    pub fn new(set: ParamSet, workers: u8, levels: Option<u32>) -> Option<Sharing> {
        let workers = Workers::new(workers)?;
        let jobs = match workers.number() {
            1 => 1,
            number => JOBS_EACH * u32::from(number),
        };
        Some(Sharing {
            workers,
            top: levels.unwrap_or(levels_for(jobs, 1, set.hp())),
            xmss: levels.unwrap_or(levels_for(jobs, set.d(), set.hp().saturating_sub(FULL_HEIGHT))),
            fors: levels.unwrap_or(0),
        })
    }
}
