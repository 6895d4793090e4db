//! The export that verifies a signature of a message (FIPS 205, section 10.3, Algorithm 24).
ghost use Rattle.std.specs.Prelude.{◌≡◌, ◌≢◌, ◌↔◌, ◌≤◌, length};
ghost use Rattle.slh_params.specs.Params.{pk_len};
ghost use Rattle.slh_params.specs.ParamSet.{params};
ghost use Rattle.slh_core.specs.Messages.{pure_message};
ghost use Rattle.slh_core.specs.Signatures.{IsValid};
ghost use Rattle.slh_c_verify.specs.Keys.{key};
ghost use Rattle.slh_c_verify.specs.Numbers.{InSet};
ghost use Rattle.slh_c_verify.specs.Rules.{first_refusal, verify_rules};

use crate::keys::public_key;
use crate::numbers::set_of;
use crate::refusal::{DONE, INVALID, or_refuse};
use slh_core::verify;

/// Whether the bytes are a valid signature of a message under a context (FIPS 205, Algorithm 24). `pk` has 2n bytes.
/// Invalid if the context has over 255 bytes or the signature not `sig_len`. Refused by `verify_rules`: a number that
/// is not a set's, a key of another length.
#[unsafe(no_mangle)]
pub extern "C" fn slh_verify(set: u32, pk: &[u8], msg: &[u8], ctx: &[u8], sig: &[u8]) -> u32
    ensures valid { (result ≡ DONE) ↔ InSet set (λ s.
        (length pk.now ≡ pk_len (params s)) × (length ctx.now ≤ 255)
        × IsValid (key s pk.now) (pure_message ctx.now msg.now) sig.now) }
    ensures refused { first_refusal (verify_rules set pk.now) ≢ DONE
        → result ≡ first_refusal (verify_rules set pk.now) }
    ensures judged { first_refusal (verify_rules set pk.now) ≡ DONE → result ≢ DONE → result ≡ INVALID }
{
    let set = or_refuse!(set_of(set));
    let pk = or_refuse!(public_key(set, pk));
    if verify(msg, ctx, sig, &pk) {
        DONE
    } else {
        INVALID
    }
}
