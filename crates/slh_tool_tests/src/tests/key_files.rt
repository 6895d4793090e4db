//! Writing key files within little memory.
use super::equal;
use linked_list_allocator::LocalHeap;
use slh_core::{PublicKey, SecretKey};
use slh_key_files::{FileFault, write_public, write_secret};
use slh_params::ParamSet;
use std::process::Abort;
use std::test::Fail;

/// Whether the file was written as it should be; if not, memory ran out.
fn is_written(rt: &impl Abort, written: Result<String<&LocalHeap>, FileFault>, file: &str) -> bool {
    match written {
        Ok(text) => equal(rt, &text.as_str(), &file),
        Err(fault) => {
            equal(rt, &fault, &FileFault::NoMemory);
            return false;
        }
    }
    true
}

/// Each heap is larger by the smallest block: so the first growth is refused, then the second, and so on,
/// until none is.
#[test]
fn key_files_at_each_refused_growth(rt: HostRuntime) -> Result<(), Fail> {
    let secret = SecretKey::from_bytes(ParamSet::S128f, &[7; 64])?;
    let public = PublicKey::from_bytes(ParamSet::S128f, &[7; 32])?;
    let public_file = write_public(rt.alloc(), &public)?;
    let secret_file = write_secret(rt.alloc(), &secret)?;
    let (mut refused, mut done) = (false, false);
    for size in (16..1024).step_by(16) {
        let heap = LocalHeap::new(rt.alloc(), size)?;
        let has_public = is_written(&rt, write_public(&heap, &public), public_file.as_str());
        let has_secret = is_written(&rt, write_secret(&heap, &secret), secret_file.as_str());
        refused = refused || !has_public && !has_secret;
        done = has_public && has_secret;
    }
    assert!(rt; refused && done);
    Ok(())
}
