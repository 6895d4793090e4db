//! The command `vectors`.
ghost use Rattle.std.specs.Prelude.{◌≡◌, IfErr, IfOk, length};
ghost use Rattle.slh_tool.specs.TestRuns.{IsStatus, RefusesVectors, RunsVectors};
ghost use Rattle.slh_tool.specs.declared.fault.Fault.TheVariants.{NoMemory};
ghost use Rattle.slh_vectors.specs.Cases.{views};
ghost use Rattle.slh_vectors.specs.Report.{report_text};
ghost use Rattle.slh_tool.specs.Reading.{AreKeptUnlessFailed};

use super::fault::Fault;
use super::reading::read_file;
use super::reply::Reply;
use slh_io::{Files, Writer};
use slh_par::Workers;
use slh_vectors::{Outcome, Test, all_passed, read_vectors, report, run_vectors};
use std::alloc::Allocator;
use std::thread::Threads;

/// The report on the tests of a vector file.
#[inline(never)]
pub(crate) fn run_file<
    R: AllocGlobal + Threads + Sync,
    A: Allocator + Clone + Send + Sync,
    F: Files,
>(rt: &R, alloc: A, path: &str, workers: Workers, files: &mut F) -> Result<Reply<A>, Fault>
    ensures done { IfOk result (λ r. RunsVectors path.now (F.state files.old) r.status r.output.items) }
    ensures refused { IfErr result (RefusesVectors path.now (F.state files.old) (F.state files.new)) }
    ensures kept { AreKeptUnlessFailed (F.state files.old) (F.state files.new) result }
{
    let bytes = read_file(alloc.clone()?, files, path)?;
    let tests = read_vectors(rt.alloc(), bytes.as_slice())?;
    let outcomes = run_vectors(rt, alloc.clone()?, tests.as_slice(), workers)?;
    reported(alloc, tests.as_slice(), outcomes.as_slice())
}

/// The report on tests with these outcomes.
fn reported<A: Allocator>(alloc: A, tests: &[Test], outcomes: &[Outcome]) -> Result<Reply<A>, Fault>
    requires { length outcomes.now ≡ length tests.now }
    ensures shown { IfOk result (λ r. r.output.items ≡ report_text (views tests.now) outcomes.now) }
    ensures status { IfOk result (λ r. IsStatus outcomes.now r.status) }
    ensures refused { IfErr result (λ e. e ≡ NoMemory) }
{
    let mut output = Writer::new(Vec::new(alloc));
    // A write to memory fails only if a growth is refused.
    if report(tests, outcomes, &mut output).is_err() {
        return Err(Fault::NoMemory);
    }
    let status = if all_passed(outcomes) { 0 } else { 1 };
    Ok(Reply {
        status,
        output: output.into_inner(),
    })
}
