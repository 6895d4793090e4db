//! Exports that read and write keys in DER and PEM (bindings/README.md, "Keys for other programs"): ours.
ghost use Rattle.std.specs.Prelude.{◌≡◌, ◌≢◌, ◌↔◌, IsSomeAnd, Ok, Some, length};
ghost use Rattle.slh_key_files.specs.Pkix.{IsDer, IsPem, key_der, key_pem};
ghost use Rattle.slh_key_files.specs.declared.key_file.AnyKey.{AnyKey};
ghost use Rattle.slh_c.specs.KeyFiles.{in_room, key_of, kind_numbered, kind_of, read_answer};
ghost use Rattle.slh_c.specs.Keys.{key};
ghost use Rattle.slh_c.specs.Numbers.{InSet, set_numbered};
ghost use Rattle.slh_c.specs.Pkix.{IsReadable};
ghost use Rattle.slh_c.specs.Refusals.{number};
ghost use Rattle.slh_c.specs.Rules.{first_refusal, der_write_rules, pem_write_rules};
ghost use Rattle.slh_c.specs.declared.refusal.Refusal.TheVariants.{NotAKeyFile};

use crate::key_files::{kind_of, put_key};
use crate::numbers::set_of;
use crate::refusal::{DONE, Refusal, or_refuse};
use crate::rules::{self, Rule, judge};
use slh_key_files::{der_len, pem_len, put_der, put_pem, read_der, read_pem};

/// Reads a key in DER, a SubjectPublicKeyInfo or a PKCS#8 PrivateKeyInfo of RFC 9909. It writes what `slh_key_read`
/// writes. Refused, with nothing written: bytes that are not exactly one of the twelve forms, no room for the key.
#[unsafe(no_mangle)]
pub extern "C" fn slh_der_read(der: &[u8], set: &mut u32, kind: &mut u32, key: &mut [u8]) -> u32
    ensures accepted { (result ≡ DONE) ↔ IsReadable IsDer der.now (length key.old) }
    ensures key { (it : AnyKey) → IsDer der.now it → (result ≡ read_answer (Ok it) (length key.old))
        × (result ≡ DONE → (set_numbered set.new ≡ Some (key_of it).set) × (kind_numbered kind.new ≡ Some (kind_of it))
        × (key.new ≡ in_room (key_of it).bytes (length key.old))) }
    ensures other { ((it : AnyKey) → IsDer der.now it → ⊥) → result ≡ number NotAKeyFile }
    ensures refused { result ≢ DONE → (set.new ≡ set.old) × (kind.new ≡ kind.old) × (key.new ≡ key.old) }
{
    match read_der(der) {
        Some(it) => put_key(&it, set, kind, key),
        None => Refusal::NotAKeyFile.number(),
    }
}

/// Reads a key in PEM, whose last line feed may be missing, as `slh_der_read` reads DER.
#[unsafe(no_mangle)]
pub extern "C" fn slh_pem_read(pem: &[u8], set: &mut u32, kind: &mut u32, key: &mut [u8]) -> u32
    ensures accepted { (result ≡ DONE) ↔ IsReadable IsPem pem.now (length key.old) }
    ensures key { (it : AnyKey) → IsPem pem.now it → (result ≡ read_answer (Ok it) (length key.old))
        × (result ≡ DONE → (set_numbered set.new ≡ Some (key_of it).set) × (kind_numbered kind.new ≡ Some (kind_of it))
        × (key.new ≡ in_room (key_of it).bytes (length key.old))) }
    ensures other { ((it : AnyKey) → IsPem pem.now it → ⊥) → result ≡ number NotAKeyFile }
    ensures refused { result ≢ DONE → (set.new ≡ set.old) × (kind.new ≡ kind.old) × (key.new ≡ key.old) }
{
    match read_pem(pem) {
        Some(it) => put_key(&it, set, kind, key),
        None => Refusal::NotAKeyFile.number(),
    }
}

/// Writes a key in DER, which has `written` bytes, and zeros from there to the end of `der`. The kind is 1 for a public
/// key of 2n bytes, and 2 for a secret one of 4n. Refused, with nothing written, by `der_write_rules`: a number that is
/// not a set's or a kind's, a key of another length, no room.
#[tactic(auto, using(crate::proofs::Standard::key_len_high, crate::proofs::Standard::numbered_standard))]
#[unsafe(no_mangle)]
pub extern "C" fn slh_der_write(
    set: u32,
    kind: u32,
    of: &[u8],
    written: &mut u32,
    der: &mut [u8],
) -> u32
    ensures answer { result ≡ first_refusal (der_write_rules set kind of.now der.old) }
    ensures file { result ≡ DONE → InSet set (λ s. IsSomeAnd (kind_numbered kind) (λ k.
        (written.new ≡ length (key_der k (key s of.now))) × (der.new ≡ in_room (key_der k (key s of.now)) (length der.old)))) }
    ensures refused { result ≢ DONE → (written.new ≡ written.old) × (der.new ≡ der.old) }
{
    let set = or_refuse!(set_of(set));
    let Some(kind) = kind_of(kind) else {
        return Refusal::NoSuchKind.number();
    };
    let len = der_len(kind, set);
    or_refuse!(judge(&[
        rules::has_len(of, kind.key_len(set), Refusal::BadLength),
        Rule {
            is_met: len <= der.len(),
            refusal: Refusal::BadOutputLength,
        },
    ]));
    let (file, rest) = der.split_at_mut(len);
    put_der(kind, set, of, file);
    rest.fill(0);
    *written = len as u32;
    DONE
}

/// Writes a key in PEM, and zeros from there to the end of `pem`, at least one. `written` becomes the number of bytes
/// before the zeros. `pem_write_rules` has what it refuses.
#[tactic(auto, using(crate::proofs::Standard::key_len_high, crate::proofs::Standard::numbered_standard))]
#[unsafe(no_mangle)]
pub extern "C" fn slh_pem_write(
    set: u32,
    kind: u32,
    of: &[u8],
    written: &mut u32,
    pem: &mut [u8],
) -> u32
    ensures answer { result ≡ first_refusal (pem_write_rules set kind of.now pem.old) }
    ensures file { result ≡ DONE → InSet set (λ s. IsSomeAnd (kind_numbered kind) (λ k.
        (written.new ≡ length (key_pem k (key s of.now))) × (pem.new ≡ in_room (key_pem k (key s of.now)) (length pem.old)))) }
    ensures refused { result ≢ DONE → (written.new ≡ written.old) × (pem.new ≡ pem.old) }
{
    let set = or_refuse!(set_of(set));
    let Some(kind) = kind_of(kind) else {
        return Refusal::NoSuchKind.number();
    };
    let len = pem_len(kind, set);
    or_refuse!(judge(&[
        rules::has_len(of, kind.key_len(set), Refusal::BadLength),
        Rule {
            is_met: len < pem.len(),
            refusal: Refusal::BadOutputLength,
        },
    ]));
    let (file, rest) = pem.split_at_mut(len);
    put_pem(kind, set, of, file);
    rest.fill(0);
    *written = len as u32;
    DONE
}
