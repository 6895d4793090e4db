//! The report on the tests of a vector file.
ghost use Rattle.std.specs.Prelude.{◌≡◌, ◌+◌, ◌<◌, ◌^◌, ◌++◌, ℕ, List, length, map, codes, OnOk, Result};
ghost use Rattle.std.specs.Fmt.{decimal};
ghost use Rattle.std.specs.List.{count_by};
ghost use Rattle.slh_io.specs.Devices.{CountsFailure, Puts};
ghost use Rattle.slh_vectors.specs.Cases.{test_view, views};
ghost use Rattle.slh_vectors.specs.Report.{counts_text, fails, line_text, lines_from, passes, report_text};

use super::outcome::Outcome;
use super::test::Test;
use slh_io::{Sink, WriteFault, put_number, put_two};

/// Puts the line of test `n`.
fn put_line<W: Sink>(
    output: &mut W,
    n: u64,
    test: &Test,
    outcome: Outcome,
) -> Result<(), WriteFault>
    ensures puts { Puts (W.state output.old).contents (W.state output.new).contents result
        (line_text n (test_view test.now) outcome) }
    ensures failed { CountsFailure (W.state output.old).failures (W.state output.new).failures result }
{
    put_number(output, "test ", n, " ")?;
    put_two(output, test.kind(), " ")?;
    put_two(output, test.set().name(), " ")?;
    put_two(output, outcome.name(), "\n")
}

/// Puts the lines of the tests.
fn put_lines<W: Sink>(
    output: &mut W,
    tests: &[Test],
    outcomes: &[Outcome],
) -> Result<(), WriteFault>
    requires { length outcomes.now ≡ length tests.now }
    ensures puts { Puts (W.state output.old).contents (W.state output.new).contents result
        (lines_from 1 (views tests.now) outcomes.now) }
    ensures failed { CountsFailure (W.state output.old).failures (W.state output.new).failures result }
{
    for (i, test) in tests.iter().enumerate() {
        put_line(output, i as u64 + 1, test, outcomes[i])?;
    }
    Ok(())
}

/// How many tests passed.
fn passed(outcomes: &[Outcome]) -> usize
    ensures { result ≡ count_by passes outcomes.now }
{
    outcomes
        .iter()
        .filter(|outcome| **outcome == Outcome::Pass)
        .count()
}

/// How many tests failed.
fn failed(outcomes: &[Outcome]) -> usize
    ensures { result ≡ count_by fails outcomes.now }
{
    outcomes
        .iter()
        .filter(|outcome| **outcome == Outcome::Fail)
        .count()
}

/// Puts the last line.
fn put_counts<W: Sink>(output: &mut W, passed: u64, failed: u64) -> Result<(), WriteFault>
    ensures puts { Puts (W.state output.old).contents (W.state output.new).contents result (counts_text passed failed) }
    ensures failed { CountsFailure (W.state output.old).failures (W.state output.new).failures result }
{
    put_number(output, "passed ", passed, " ")?;
    put_number(output, "failed ", failed, "\n")
}

/// Puts a line `test N KIND SET pass` or `test N KIND SET fail` for each test, in their order and counted from 1, and
/// the line `passed P failed F`. It takes no memory. Refused if a write failed, after a prefix of that text was
/// written.
pub fn report<W: Sink>(
    tests: &[Test],
    outcomes: &[Outcome],
    output: &mut W,
) -> Result<(), WriteFault>
    requires { length outcomes.now ≡ length tests.now }
    ensures puts { Puts (W.state output.old).contents (W.state output.new).contents result
        (report_text (views tests.now) outcomes.now) }
    ensures failed { CountsFailure (W.state output.old).failures (W.state output.new).failures result }
{
    put_lines(output, tests, outcomes)?;
    put_counts(output, passed(outcomes) as u64, failed(outcomes) as u64)
}
