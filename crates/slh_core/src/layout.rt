//! The lengths of the parts of a signature (FIPS 205, section 9.2).
ghost use Rattle.std.specs.Prelude.{◌≡◌};
ghost use Rattle.slh_params.specs.ParamSet.{params};
ghost use Rattle.slh_core.specs.Signatures.{fors_sig_len};

use slh_few::fors_part_len;
use slh_params::ParamSet;

/// The length of the FORS signature in a signature, in bytes.
pub fn fors_sig_len(set: ParamSet) -> usize
    ensures { result ≡ fors_sig_len (params set) }
{
    set.k() as usize * fors_part_len(set)
}
