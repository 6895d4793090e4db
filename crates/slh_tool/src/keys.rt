//! Key files as input, and the commands `public`, `upgrade` and `check`.
ghost use Rattle.std.specs.Prelude.{◌≡◌, IfOk, IfErr, string_bytes};
ghost use Rattle.slh_key_files.specs.declared.key_kind.KeyKind.TheVariants.{Public, Secret};
ghost use Rattle.slh_key_files.specs.KeyFile.{any_key_text};
ghost use Rattle.slh_key_files.specs.declared.fault.FileFault.TheVariants.{NoMemory};
ghost use Rattle.slh_tool.specs.Keys.{HoldsAnyKey, HoldsKey, RefusesAnyKey, RefusesKey};
ghost use Rattle.slh_tool.specs.Reading.{AreKeptUnlessFailed};
ghost use Rattle.slh_tool.specs.Replies.{ChecksKey, UpgradesKey, WritesPublic};

use super::fault::Fault;
use super::reading::read_key_file;
use super::reply::Reply;
use slh_core::{PublicKey, SecretKey, check_pair};
use slh_io::Files;
use slh_key_files::{
    AnyKey, FileFault, read_key, read_public, read_secret, write_public, write_secret,
};
use std::alloc::Allocator;

/// The key of a secret key file.
pub(crate) fn secret_key<A: Allocator, F: Files>(
    alloc: A,
    files: &mut F,
    path: &str,
) -> Result<SecretKey, Fault>
    ensures done { IfOk result (HoldsKey Secret (F.state files.old) path.now) }
    ensures refused { IfErr result (RefusesKey Secret (F.state files.old) (F.state files.new) path.now) }
    ensures kept { AreKeptUnlessFailed (F.state files.old) (F.state files.new) result }
{
    let bytes = read_key_file(alloc, files, path)?;
    Ok(read_secret(bytes.as_slice())?)
}

/// The key of a public key file.
pub(crate) fn public_key<A: Allocator, F: Files>(
    alloc: A,
    files: &mut F,
    path: &str,
) -> Result<PublicKey, Fault>
    ensures done { IfOk result (HoldsKey Public (F.state files.old) path.now) }
    ensures refused { IfErr result (RefusesKey Public (F.state files.old) (F.state files.new) path.now) }
    ensures kept { AreKeptUnlessFailed (F.state files.old) (F.state files.new) result }
{
    let bytes = read_key_file(alloc, files, path)?;
    Ok(read_public(bytes.as_slice())?)
}

/// The public key file of a secret key file.
#[inline(never)]
pub(crate) fn public<A: Allocator + Clone, F: Files>(
    alloc: A,
    path: &str,
    files: &mut F,
) -> Result<String<A>, Fault>
    ensures done { IfOk result (λ s. WritesPublic path.now (F.state files.old) (string_bytes s)) }
    ensures refused { IfErr result (RefusesKey Secret (F.state files.old) (F.state files.new) path.now) }
    ensures kept { AreKeptUnlessFailed (F.state files.old) (F.state files.new) result }
{
    let key = secret_key(alloc.clone()?, files, path)?;
    let Ok(text) = write_public(alloc, &key.public()) else {
        return Err(Fault::NoMemory);
    };
    Ok(text)
}

/// The key file of version 2 of a key file of either kind and version.
#[inline(never)]
pub(crate) fn upgrade<A: Allocator + Clone, F: Files>(
    alloc: A,
    path: &str,
    files: &mut F,
) -> Result<String<A>, Fault>
    ensures done { IfOk result (λ s. UpgradesKey path.now (F.state files.old) (string_bytes s)) }
    ensures refused { IfErr result (RefusesAnyKey (F.state files.old) (F.state files.new) path.now) }
    ensures kept { AreKeptUnlessFailed (F.state files.old) (F.state files.new) result }
{
    let key = any_key(alloc.clone()?, files, path)?;
    let Ok(text) = key_text(alloc, &key) else {
        return Err(Fault::NoMemory);
    };
    Ok(text)
}

/// The key of a key file of either kind.
fn any_key<A: Allocator, F: Files>(alloc: A, files: &mut F, path: &str) -> Result<AnyKey, Fault>
    ensures done { IfOk result (HoldsAnyKey (F.state files.old) path.now) }
    ensures refused { IfErr result (RefusesAnyKey (F.state files.old) (F.state files.new) path.now) }
    ensures kept { AreKeptUnlessFailed (F.state files.old) (F.state files.new) result }
{
    let bytes = read_key_file(alloc, files, path)?;
    Ok(read_key(bytes.as_slice())?)
}

/// The key file of a key of either kind.
fn key_text<A: Allocator + Clone>(alloc: A, key: &AnyKey) -> Result<String<A>, FileFault>
    ensures written { IfOk result (λ text. string_bytes text ≡ any_key_text key.now) }
    ensures memory { IfErr result (λ fault. fault ≡ NoMemory) }
{
    match key {
        AnyKey::Public(key) => write_public(alloc, key),
        AnyKey::Secret(key) => write_secret(alloc, key),
    }
}

/// Whether PK.root in a secret key file is the root that the seeds give.
#[inline(never)]
pub(crate) fn check<A: Allocator + Clone, F: Files>(
    alloc: A,
    path: &str,
    files: &mut F,
) -> Result<Reply<A>, Fault>
    ensures done { IfOk result (λ r. ChecksKey path.now (F.state files.old) r.status r.output.items) }
    ensures refused { IfErr result (RefusesKey Secret (F.state files.old) (F.state files.new) path.now) }
    ensures kept { AreKeptUnlessFailed (F.state files.old) (F.state files.new) result }
{
    let key = secret_key(alloc.clone()?, files, path)?;
    Ok(Reply::verdict(alloc, check_pair(&key), "consistent\n", "inconsistent\n")?)
}
