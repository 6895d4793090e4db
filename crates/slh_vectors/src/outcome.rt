//! The outcome of a test.
ghost use Rattle.std.specs.Prelude.{◌≡◌, ◌↔◌, IsTrue};
ghost use Rattle.std.specs.List.{All};
ghost use Rattle.slh_vectors.specs.Report.{outcome_name};
ghost use Rattle.slh_vectors.specs.declared.outcome.Outcome.TheVariants.{Pass};

/// The outcome of a test.
#[derive(Clone, Copy, Debug, PartialEq, Eq)]
pub enum Outcome {
    /// The answers are those of the test.
    Pass,
    /// Some answer is another.
    Fail,
}

impl Outcome {
    /// `pass` or `fail`, as a report has it.
    pub fn name(&self) -> &'static str
        ensures { result.now ≡ outcome_name self.now }
    {
        match self {
            Outcome::Pass => "pass",
            Outcome::Fail => "fail",
        }
    }
}

/// Whether all outcomes are `Pass`.
pub fn all_passed(outcomes: &[Outcome]) -> bool
    ensures { IsTrue result ↔ All (λ o. o ≡ Pass) outcomes.now }
{
    outcomes.iter().all(|outcome| *outcome == Outcome::Pass)
}
