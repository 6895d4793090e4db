//! Reads key files of both versions (docs/FORMATS.md, "Key file").
ghost use Rattle.std.specs.Prelude.{◌≡◌, ◌↔◌, ◌*◌, ◌≤◌, true, length, IfOk, Ok};
ghost use Rattle.std.specs.List.{list_all};
ghost use Rattle.hex.specs.Hex.{is_hex_digit};
ghost use Rattle.slh_core.specs.Keys.{Key};
ghost use Rattle.slh_params.specs.ParamSet.{params};
ghost use Rattle.slh_key_files.specs.declared.key_kind.KeyKind.TheVariants.{Public, Secret};
ghost use Rattle.slh_key_files.specs.Lines.{cut_line, last_line};
ghost use Rattle.slh_key_files.specs.declared.key_file.AnyKey.{AnyKey};
ghost use Rattle.slh_key_files.specs.KeyFile.{Gives, IsAnyKeyFile, IsKeyFile, after_kind, after_set, any_key_file, key_digits, key_file, key_len, key_line, set_of_line};

use super::digits::{are_hex_digits, decode_digits};
use super::fault::FileFault;
use super::key_kind::{KeyKind, Version};
use super::lines::{cut_line, last_line};
use slh_core::{PublicKey, SecretKey};
use slh_params::ParamSet;

/// A key of either kind.
#[derive(Drop)]
pub enum AnyKey {
    Public(PublicKey),
    Secret(SecretKey),
}

/// The public key in a key file of either version.
///
/// Any other bytes are refused with their first fault, in this order:
///
/// - `NotAKeyFile`: another first line;
/// - `UnknownSet`: a second line that is not a set's label, or under version 1 not the name of a standard's set;
/// - `BadHex`: a byte of the third line that is not a hexadecimal digit;
/// - `BadKeyLength`: another number of digits than twice the length of a public key of the set;
/// - `TrailingBytes`: bytes after the third line.
pub fn read_public(bytes: &[u8]) -> Result<PublicKey, FileFault>
    ensures accepted { (key : Key) → (result ≡ Ok key) ↔ IsKeyFile Public bytes.now key }
    ensures first_fault { result ≡ key_file Public bytes.now }
{
    let (set, digits) = key_line(KeyKind::Public, bytes)?;
    let mut buffer = [0; 64];
    let key = &mut buffer[..set.pk_len()];
    decode_digits(digits, key);
    Ok(PublicKey::from_bytes(set, key).unwrap())
}

/// The secret key in a key file, with the refusals of `read_public`.
///
/// Its root need not be the one that its seeds give: `slh_core::check_pair` computes that.
pub fn read_secret(bytes: &[u8]) -> Result<SecretKey, FileFault>
    ensures accepted { (key : Key) → (result ≡ Ok key) ↔ IsKeyFile Secret bytes.now key }
    ensures first_fault { result ≡ key_file Secret bytes.now }
{
    let (set, digits) = key_line(KeyKind::Secret, bytes)?;
    let mut buffer = [0; 128];
    let key = &mut buffer[..set.sk_len()];
    decode_digits(digits, key);
    Ok(SecretKey::from_bytes(set, key).unwrap())
}

/// The key in a key file of either kind and version, with the refusals of `read_public`; `NotAKeyFile` where the first
/// line is that of neither kind.
pub fn read_key(bytes: &[u8]) -> Result<AnyKey, FileFault>
    ensures accepted { (key : AnyKey) → (result ≡ Ok key) ↔ IsAnyKeyFile bytes.now key }
    ensures first_fault { result ≡ any_key_file bytes.now }
{
    match read_public(bytes) {
        Err(FileFault::NotAKeyFile) => Ok(AnyKey::Secret(read_secret(bytes)?)),
        read => Ok(AnyKey::Public(read?)),
    }
}

/// The set that a key file of this kind names, and the digits of its key.
#[tactic(auto, using(slh_params::proofs::Bounds::n_high))]
fn key_line(kind: KeyKind, bytes: &[u8]) -> Result<(ParamSet, &[u8]), FileFault>
    ensures judged { Gives (λ r. (r.0, r.1.now)) result (key_line kind bytes.now) }
    ensures hex { IfOk result (λ r. list_all is_hex_digit r.1.now ≡ true) }
    ensures sized { IfOk result (λ r. length r.1.now ≡ 2 * key_len kind (params r.0)) }
{
    let (version, rest) = after_kind(kind, bytes)?;
    let (set, rest) = after_set(version, rest)?;
    let digits = key_digits(kind.key_len(set), rest)?;
    Ok((set, digits))
}

/// The version of a file of this kind, and the bytes after its first line.
fn after_kind(kind: KeyKind, bytes: &[u8]) -> Result<(Version, &[u8]), FileFault>
    ensures { Gives (λ r. (r.0, r.1.now)) result (after_kind kind (cut_line bytes.now)) }
{
    let (line, rest) = cut_line(bytes).ok_or(FileFault::NotAKeyFile)?;
    let version = kind.version_of(line).ok_or(FileFault::NotAKeyFile)?;
    Ok((version, rest))
}

/// The set that the next line names in a file of this version, and the bytes after that line.
fn after_set(version: Version, bytes: &[u8]) -> Result<(ParamSet, &[u8]), FileFault>
    ensures { Gives (λ r. (r.0, r.1.now)) result (after_set version (cut_line bytes.now)) }
{
    let (line, rest) = cut_line(bytes).ok_or(FileFault::UnknownSet)?;
    let set = set_of_line(version, line).ok_or(FileFault::UnknownSet)?;
    Ok((set, rest))
}

/// The set of this label that a file of this version can have.
fn set_of_line(version: Version, line: &[u8]) -> Option<ParamSet>
    ensures { result ≡ set_of_line version line.now }
{
    let set = ParamSet::from_label(line)?;
    if version.allows(set) { Some(set) } else { None }
}

/// The digits of a key of `len` bytes, which the last line has.
fn key_digits(len: usize, bytes: &[u8]) -> Result<&[u8], FileFault>
    requires { len ≤ 128 }
    ensures judged { Gives (λ digits. digits.now) result (key_digits len (last_line bytes.now)) }
    ensures hex { IfOk result (λ digits. list_all is_hex_digit digits.now ≡ true) }
    ensures sized { IfOk result (λ digits. length digits.now ≡ 2 * len) }
{
    let (digits, rest) = last_line(bytes);
    if !are_hex_digits(digits) {
        return Err(FileFault::BadHex);
    }
    if digits.len() != 2 * len {
        return Err(FileFault::BadKeyLength);
    }
    if !rest.is_empty() {
        return Err(FileFault::TrailingBytes);
    }
    Ok(digits)
}
