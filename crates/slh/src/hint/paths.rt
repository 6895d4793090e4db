//! Hints on files that could not be read, are too long, or are no vector files.
use super::{Hint, Refused};
use std::alloc::{AllocError, Global};
use std::fs;
use std::fs::File;
use std::io::ErrorKind;
use std::rt::Files;

/// The options that name files.
const FILE_OPTIONS: [&str; 4] = ["key", "message", "signature", "file"];

/// The most bytes of a file.
const FILE_LIMIT: u64 = 1 << 30;

/// Which file can't be read, and why.
pub(super) fn unread_hint<R: AllocGlobal + Files>(rt: &R, refused: Refused<'_, '_>) -> Hint {
    for option in FILE_OPTIONS {
        if let Some(path) = refused.values.get_str(option) {
            if path.contains('\n') {
                return Ok(Some(format!(in rt.alloc();
                    "--{option} takes the name of a file, and not its text"
                )?));
            }
            if let Some(why) = unread(rt, path) {
                return Ok(Some(format!(in rt.alloc(); "--{option} {path}: {why}")?));
            }
        }
    }
    let text = if refused.values.contains_id("set") {
        "standard input could not be read: it has to be the seeds, as one line of digits"
    } else {
        "a file could not be read to its end"
    };
    Ok(Some(String::from_str(rt.alloc(), text)?))
}

/// Why this file can't be read, if it can't. Only a file on a disk is opened again: a pipe has no bytes any more, and a
/// named one might never answer.
fn unread<R: Files>(rt: &R, path: &str) -> Option<&'static str> {
    if path.is_empty() {
        return Some("the name is empty: is a shell variable empty?");
    }
    match fs::metadata(rt, path) {
        Ok(found) => {
            if found.is_dir() {
                return Some("this is a folder, and not a file");
            }
            if found.is_file() {
                return File::open(rt, path)
                    .err()
                    .map(|error| reason(path, error.kind()));
            }
            None
        }
        Err(error) => Some(reason(path, error.kind())),
    }
}

/// A reason for an error of the system.
fn reason(path: &str, kind: ErrorKind) -> &'static str {
    match kind {
        ErrorKind::NotFound => {
            if path == "-" {
                "there is no file of this name: standard input is /dev/stdin"
            } else {
                "there is no file of this name"
            }
        }
        ErrorKind::PermissionDenied => "you may not read this file: see its permissions",
        ErrorKind::NotADirectory => "a part of this path is a file, and not a folder",
        ErrorKind::FilesystemLoop => "the links of this path lead in a circle",
        _ => "the system can't open this file",
    }
}

/// Which file is too long.
pub(super) fn too_long_hint<R: AllocGlobal + Files>(rt: &R, refused: Refused<'_, '_>) -> Hint {
    for option in FILE_OPTIONS {
        if let Some(path) = refused.values.get_str(option) {
            if fs::metadata(rt, path).is_ok_and(|found| found.len() > FILE_LIMIT) {
                return Ok(Some(format!(in rt.alloc();
                    "--{option} {path}: a file may have at most 1,073,741,824 bytes"
                )?));
            }
        }
    }
    Ok(None)
}

/// The hint on a vector file.
pub(super) fn vectors_hint(alloc: Global, refused: Refused<'_, '_>, number: u8) -> Hint {
    let Some(path) = refused.values.get_str("file") else {
        return Ok(None);
    };
    let why = match number {
        21 => "no JSON: was it cut off, or do bytes follow the value?",
        22 => "no JSON array: [ goes before the first test, and ] after the last",
        23 => "this member is missing; \"Vector file\" of docs/FORMATS.md lists those of each kind",
        _ => "\"Vector file\" of docs/FORMATS.md says which values this member has",
    };
    named(alloc, path, why)
}

/// A path, and the fault of its file.
fn named(alloc: Global, path: &str, why: &str) -> Result<Option<String>, AllocError> {
    Ok(Some(format!(in alloc; "{path}: {why}")?))
}
