//! A message that is signed and verified by one thread, without memory.
ghost use Rattle.std.specs.Prelude.{◌≡◌, ◌↔◌, ◌≤◌, IsTrue, IsOk, OnOk, OnErr, length};
ghost use Rattle.slh_params.specs.Params.{sig_len};
ghost use Rattle.slh_params.specs.ParamSet.{params};
ghost use Rattle.slh_core.specs.Keys.{public_of, IsGeneratedKey};
ghost use Rattle.slh_core.specs.Messages.{pure_message};
ghost use Rattle.slh_core.specs.Signatures.{signature_by, IsValid};
ghost use Rattle.slh_core.specs.declared.randomizer.Randomizer.TheVariants.{Given};

use slh_core::{PublicKey, Randomizer, SecretKey, SignFault, sign, verify};

/// Signs a letter under the context of its department, which tells its signatures from those of others. `random` are n
/// fresh random bytes for each signature. `sig` has the `sig_len` bytes of the key's set. Refused, with nothing
/// written, if the context has over 255 bytes.
pub fn sign_letter(
    sk: &SecretKey,
    department: &[u8],
    letter: &[u8],
    random: &[u8],
    sig: &mut [u8],
) -> Result<(), SignFault>
    requires random { length random.now ≡ (params sk.now.set).n }
    requires sig { length sig.old ≡ sig_len (params sk.now.set) }
    ensures accepted { IsOk result ↔ (length department.now ≤ 255) }
    ensures signature { OnOk result (sig.new
        ≡ signature_by sk.now (pure_message department.now letter.now) (Given random.entry)) }
    ensures valid { OnOk result (IsGeneratedKey sk.now
        → IsValid (public_of sk.now) (pure_message department.now letter.now) sig.new) }
    ensures refused { OnErr result (sig.new ≡ sig.old) }
{
    sign(letter, department, sk, Randomizer::Given(random), sig)
}

/// Whether these bytes, whatever they are, sign the letter under the context of its department.
pub fn is_letter_of(pk: &PublicKey, department: &[u8], letter: &[u8], sig: &[u8]) -> bool
    ensures { IsTrue result ↔ ((length department.now ≤ 255)
        × IsValid pk.now (pure_message department.now letter.now) sig.now) }
{
    verify(letter, department, sig, pk)
}
