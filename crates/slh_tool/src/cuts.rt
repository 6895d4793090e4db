//! The options for the workers and the cutting.
ghost use Rattle.std.specs.Prelude.{◌≡◌, ◌≤◌, Some, IfErr, IfOk, option_map};
ghost use Rattle.std.specs.Char.{is_ascii_digit};
ghost use Rattle.std.specs.List.{list_all};
ghost use Rattle.slh_tool.specs.Cuts.{AreCuts, IsCutting, RefusesCutting, number_in, points_in, points_of};
ghost use Rattle.slh_tool.specs.Requests.{cut_asked, work_asked};

use super::fault::Fault;
use super::request::{CutWords, WorkWords};
use arrayvec::ArrayVec;
use slh_par::{Cuts, Cutting, Workers};
use slh_params::ParamSet;

/// Room for the numbers of a list.
type Points = ArrayVec<u32, 256>;

/// The most digits of a number of a list.
const MOST_DIGITS: usize = 9;

/// How the options cut the trees of a set.
pub(crate) fn cutting_of(set: ParamSet, words: WorkWords<'_>) -> Result<Cutting, Fault>
    ensures set { IfOk result (λ cutting. cutting.set ≡ set) }
    ensures done { IfOk result (IsCutting (work_asked words.entry) set) }
    ensures refused { IfErr result (RefusesCutting (work_asked words.entry) set) }
{
    let Some(xmss) = points_of(words.xmss) else {
        return Err(Fault::BadOption);
    };
    let Some(fors) = points_of(words.fors) else {
        return Err(Fault::BadOption);
    };
    match Cutting::new(set, cuts_of(words.xmss, &xmss), cuts_of(words.fors, &fors)) {
        Ok(cutting) => Ok(cutting),
        Err(_) => Err(Fault::BadCutting),
    }
}

/// That many workers. `clap` takes no number that is not from 1 to 64.
pub(crate) fn workers_of(number: u8) -> Workers
    ensures { 1 ≤ number → number ≤ 64 → result ≡ number }
{
    let Some(workers) = Workers::new(number.clamp(1, 64)) else {
        unreachable!()
    };
    workers
}

/// The cuts of one kind of tree: if there are cut points, the levels are ignored.
fn cuts_of<'a>(words: CutWords<'_>, points: &'a Option<Points>) -> Cuts<'a>
    requires { points_of (cut_asked words).points ≡ Some (option_map (λ v. v.items) points.now) }
    ensures { AreCuts (cut_asked words.entry) result }
{
    match points {
        Some(points) => Cuts::Points(points.as_slice()),
        None => Cuts::Levels(words.levels),
    }
}

/// The cut points, if the option is given.
#[tactic(auto, unfolding(crate::specs::Cuts::points_of))]
fn points_of(words: CutWords<'_>) -> Option<Option<Points>>
    ensures { option_map (λ points. option_map (λ v. v.items) points) result
        ≡ points_of (cut_asked words.entry).points }
{
    match words.points {
        Some(list) => match points_in(list) {
            Some(points) => Some(Some(points)),
            None => None,
        },
        None => Some(None),
    }
}

/// The numbers of a list, with commas between them.
fn points_in(list: &str) -> Option<Points>
    ensures { option_map (λ v. v.items) result ≡ points_in list.now }
{
    let mut points = ArrayVec::new();
    for part in list.split(',') {
        if points.is_full() {
            return None;
        }
        points.push(number_in(part)?);
    }
    Some(points)
}

/// The number that 1 to 9 digits write.
fn number_in(text: &str) -> Option<u32>
    ensures { result ≡ number_in text.now }
{
    if text.len() > MOST_DIGITS {
        return None;
    }
    if are_digits(text) {
        text.parse().ok()
    } else {
        None
    }
}

fn are_digits(text: &str) -> bool
    ensures { result ≡ list_all is_ascii_digit text.now }
{
    text.as_bytes().iter().all(|byte| byte.is_ascii_digit())
}
