//! Writes key files of version 2 (docs/FORMATS.md, "Key file").
ghost use Rattle.std.specs.Prelude.{◌≡◌, IfOk, IfErr, Ok, string_bytes};
ghost use Rattle.hex.specs.Hex.{IsBytes};
ghost use Rattle.slh_core.specs.Keys.{Key};
ghost use Rattle.slh_key_files.specs.declared.key_file.AnyKey.{AnyKey};
ghost use Rattle.slh_key_files.specs.declared.key_file.AnyKey.TheVariants as any;
ghost use Rattle.slh_key_files.specs.declared.fault.FileFault.TheVariants.{NoMemory};
ghost use Rattle.slh_key_files.specs.declared.key_kind.KeyKind.{KeyKind};
ghost use Rattle.slh_key_files.specs.declared.key_kind.KeyKind.TheVariants.{Public, Secret};
ghost use Rattle.slh_key_files.specs.Lines.{Text};
ghost use Rattle.slh_key_files.specs.KeyFile.{IsAnyKey, IsKey, any_key_file, any_key_text, key_file, key_text, upgraded};

use super::fault::FileFault;
use super::key_kind::{KeyKind, Version};
use slh_core::{PublicKey, SecretKey};
use slh_params::ParamSet;
use std::alloc::{AllocError, Allocator};

/// The key file of a public key, of version 2. `read_public` and `read_key` give the key back. Refused with NoMemory if
/// the allocator refuses memory, and only then.
pub fn write_public<A: Allocator + Clone>(alloc: A, key: &PublicKey) -> Result<String<A>, FileFault>
    ensures written { IfOk result (λ text. string_bytes text ≡ key_text Public key.now) }
    ensures read_back { IfOk result (λ text. key_file Public (string_bytes text) ≡ Ok key.now) }
    ensures read_key { IfOk result (λ text. any_key_file (string_bytes text) ≡ Ok (any.Public key.now)) }
    ensures memory { IfErr result (λ fault. fault ≡ NoMemory) }
{
    Ok(key_text(alloc, KeyKind::Public, key.set(), key.bytes())?)
}

/// The key file of a secret key, of version 2. `read_secret` and `read_key` give the key back. Refused with NoMemory if
/// the allocator refuses memory, and only then.
pub fn write_secret<A: Allocator + Clone>(alloc: A, key: &SecretKey) -> Result<String<A>, FileFault>
    ensures written { IfOk result (λ text. string_bytes text ≡ key_text Secret key.now) }
    ensures read_back { IfOk result (λ text. key_file Secret (string_bytes text) ≡ Ok key.now) }
    ensures read_key { IfOk result (λ text. any_key_file (string_bytes text) ≡ Ok (any.Secret key.now)) }
    ensures memory { IfErr result (λ fault. fault ≡ NoMemory) }
{
    Ok(key_text(alloc, KeyKind::Secret, key.set(), key.bytes())?)
}

/// The three lines of a key file of version 2.
fn key_text<A: Allocator + Clone>(
    alloc: A,
    kind: KeyKind,
    set: ParamSet,
    key: &[u8],
) -> Result<String<A>, AllocError>
    ensures written { IfOk result (λ text. string_bytes text ≡ key_text kind (record { set = set; bytes = key.now })) }
    ensures bytes { IsBytes key.now }
{
    let digits = hex::encode(alloc.clone()?, key)?;
    let mut text = String::from_str(alloc, kind.first_line(Version::Two))?;
    text.push_str("\n")?;
    text.push_str(set.label().as_str())?;
    text.push_str("\n")?;
    text.push_str(digits.as_str())?;
    text.push_str("\n")?;
    Ok(text)
}

/// A law: the written form of a key is read as that key.
pub fn written_is_read()
    ensures { (kind : KeyKind) (key : Key) → IsKey kind key → key_file kind (key_text kind key) ≡ Ok key }
{}

/// A law: the written form of a key of either kind is read as that key, by `read_key`, too.
pub fn either_is_read()
    ensures { (key : AnyKey) → IsAnyKey key → any_key_file (any_key_text key) ≡ Ok key }
{}

/// A law: a file that `slh upgrade` wrote is upgraded to itself.
pub fn upgraded_stays()
    ensures { (file text : Text) → upgraded file ≡ Ok text → upgraded text ≡ Ok text }
{}
