//! Answers that are made twice, for whoever fears faults.
ghost use Rattle.std.specs.Prelude.{◌≡◌, ℕ, List, OnOk, OnErr, length};
ghost use Rattle.slh_params.specs.Params.{sig_len};
ghost use Rattle.slh_params.specs.ParamSet.{params};
ghost use Rattle.slh_core.specs.Keys.{public_of};
ghost use Rattle.slh_core.specs.Signatures.{IsValid};
ghost use Rattle.slh_core.specs.declared.randomizer.Randomizer.{Randomizer};
ghost use Rattle.slh_jobs.specs.Starts.{start_by};
ghost use Rattle.slh_jobs.specs.Tags.{start_len};

use slh_core::SecretKey;
use slh_jobs::{JobFault, Levels, sign_join};

/// Joins the answers of all jobs, if two runs of the jobs, on different processors, wrote equal bytes. Refused, with
/// nothing written, if they did not, and if `sign_join` refuses.
pub fn join_of_two_runs(
    levels: &Levels,
    sk: &SecretKey,
    start: &[u8],
    first: &[u8],
    second: &[u8],
    sig: &mut [u8],
) -> Result<(), JobFault>
    requires set { sk.now.set ≡ levels.now.set }
    requires start { length start.now ≡ start_len (params levels.now.set) }
    requires sig { length sig.old ≡ sig_len (params levels.now.set) }
    ensures same { OnOk result (first.now ≡ second.now) }
    ensures authentic { (msg : List ℕ) (randomizer : Randomizer) → start.now ≡ start_by sk.now msg randomizer
        → OnOk result (IsValid (public_of sk.now) msg sig.new) }
    ensures refused { OnErr result (sig.new ≡ sig.old) }
{
    if first != second {
        return Err(JobFault::AnswersDisagree);
    }
    sign_join(levels, sk, start, first, sig)
}
