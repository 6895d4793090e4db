//! The kind and the set of a test, as a report names them.
ghost use Rattle.std.specs.Prelude.{◌≡◌};
ghost use Rattle.slh_vectors.specs.Cases.{test_view, kind_of, set_of};
ghost use Rattle.slh_vectors.specs.Names.{kind_name};

use super::test::Test;
use slh_params::ParamSet;

impl Test {
    /// The text of the member `kind`: `keygen`, `sign` or `verify`.
    pub fn kind(&self) -> &'static str
        ensures { result.now ≡ kind_name (kind_of (test_view self.now)) }
    {
        match self {
            Test::Keygen(_) => "keygen",
            Test::Sign(_) => "sign",
            Test::Verify(_) => "verify",
        }
    }

    /// The parameter set of the member `set`.
    pub fn set(&self) -> ParamSet
        ensures { result ≡ set_of (test_view self.now) }
    {
        match self {
            Test::Keygen(test) => test.set,
            Test::Sign(test) => test.set,
            Test::Verify(test) => test.set,
        }
    }
}
