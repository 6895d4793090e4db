//! The export of the names of refusals (ours).
ghost use Rattle.std.specs.Prelude.{◌≡◌, ◌≢◌, ◌-◌, ◌++◌, IsSomeAnd, length, replicate};
ghost use Rattle.slh_c.specs.Refusals.{name, refusal_numbered};
ghost use Rattle.slh_c.specs.Rules.{first_refusal, name_rules};

use crate::refusal::{DONE, Refusal};

/// Writes the name of a refusal's number, and zero bytes from there to the end, at least one. Refused, with nothing
/// written, by `name_rules`: a number that is not a refusal's, no room for a zero byte.
#[unsafe(no_mangle)]
pub extern "C" fn slh_refusal_name(refusal: u32, out: &mut [u8]) -> u32
    ensures answer { result ≡ first_refusal (name_rules refusal out.old) }
    ensures name { result ≡ DONE → IsSomeAnd (refusal_numbered refusal) (λ it.
        out.new ≡ name it ++ replicate (length out.old - length (name it)) 0) }
    ensures refused { result ≢ DONE → out.new ≡ out.old }
{
    let Some(refusal) = Refusal::from_number(refusal) else {
        return Refusal::NoSuchRefusal.number();
    };
    let name = refusal.name().as_bytes();
    if name.len() >= out.len() {
        return Refusal::BadOutputLength.number();
    }
    let (front, rest) = out.split_at_mut(name.len());
    front.copy_from_slice(name);
    rest.fill(0);
    DONE
}
