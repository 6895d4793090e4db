//! Hints on key files that are none, or of the other kind. They show a path, and nothing of what its file has.
use super::{Hint, Refused};
use slh_params::ParamSet;
use std::alloc::Global;
use std::fs;
use std::fs::File;
use std::io::Read;
use std::rt::Files;

/// Room for the longest key file of the standard's sets, and some more.
const HEAD: usize = 600;

/// The first bytes of a file, and its length.
#[derive(Clone, Copy)]
struct Head {
    bytes: [u8; HEAD],
    read: usize,
    length: u64,
}

impl Head {
    /// The head of a file on a disk. Nothing else is opened again: a pipe would have its bytes no more.
    fn of<R: Files>(rt: &R, path: &str) -> Option<Head> {
        let found = fs::metadata(rt, path).ok()?;
        if !found.is_file() {
            return None;
        }
        let mut bytes = [0; HEAD];
        let read = File::open(rt, path).ok()?.read(&mut bytes).ok()?;
        Some(Head {
            bytes,
            read,
            length: found.len(),
        })
    }

    fn bytes(&self) -> &[u8] {
        self.bytes.get(..self.read).unwrap_or(&[])
    }

    /// A line, counted from 0, without its line feed.
    fn line(&self, number: usize) -> &[u8] {
        self.bytes()
            .split(|byte| *byte == b'\n')
            .nth(number)
            .unwrap_or(&[])
    }

    fn has(&self, start: &str) -> bool {
        self.bytes().starts_with(start.as_bytes())
    }
}

/// The kind of key file that a command takes.
fn wanted(refused: Refused<'_, '_>) -> &'static str {
    match refused.name {
        "verify" => "public",
        "upgrade" => "public or secret",
        _ => "secret",
    }
}

/// The set that the command's key file names.
pub(super) fn set_of_key<R: Files>(rt: &R, refused: Refused<'_, '_>) -> Option<ParamSet> {
    let head = Head::of(rt, refused.values.get_str("key")?)?;
    ParamSet::from_label(head.line(1))
}

/// The hint on the command's key file.
#[inline(never)]
pub(super) fn hint<R: AllocGlobal + Files>(rt: &R, refused: Refused<'_, '_>, number: u8) -> Hint {
    let Some(path) = refused.values.get_str("key") else {
        return Ok(None);
    };
    let why = match Head::of(rt, path) {
        Some(head) if head.has("slh-dsa-") && head.bytes().contains(&b'\r') => {
            "it has carriage returns, and `tr -d '\\r' < FILE > NEW` removes them"
        }
        Some(head) if number == 11 => return kind_hint(rt.alloc(), refused, path, &head),
        _ => line_fault(number),
    };
    Ok(Some(format!(in rt.alloc(); "--key {path}: {why}")?))
}

/// Names the line of a key file that is wrong.
fn line_fault(number: u8) -> &'static str {
    match number {
        11 => "its line 1 is not that of the key file that this command takes",
        12 => "its line 2 is no label of a parameter set, as SLH-DSA-SHA2-128s",
        13 => "its line 3 has a byte that is no hexadecimal digit",
        14 => "its line 3 has not as many digits as a key of its set: was the file cut off?",
        _ => "bytes follow its line 3: an empty line, or another key?",
    }
}

/// The hint on a file whose line 1 is not that of the kind of key file that is asked for.
fn kind_hint(alloc: Global, refused: Refused<'_, '_>, path: &str, head: &Head) -> Hint {
    let kind = wanted(refused);
    let is = kind_of(head, kind);
    let todo = match refused.name {
        "verify" => "`slh public --key SECRET > FILE` writes one",
        _ => "`slh keygen` writes one",
    };
    Ok(Some(format!(in alloc; "--key {path}: {is}; a {kind} key file is asked for, and {todo}")?))
}

/// Names a file that is not the kind of key file that is asked for.
fn kind_of(head: &Head, kind: &str) -> &'static str {
    if head.length == 0 {
        "it is empty, as a shell makes the file after > before slh starts"
    } else if kind == "public" && head.has("slh-dsa-secret ") {
        "this is a secret key: show it to nobody"
    } else if kind == "secret" && head.has("slh-dsa-public ") {
        "this is a public key"
    } else if head.has("slh-dsa-") {
        "its line 1 is of no version that this program knows"
    } else if head.has("-----BEGIN ") {
        "it is a PEM file, which `openssl pkey` converts (examples/README.md, Keys as PEM files)"
    } else if head.has("\u{feff}") {
        "it begins with a byte order mark, which an editor wrote"
    } else {
        by_length(head)
    }
}

/// Names a file by its length.
fn by_length(head: &Head) -> &'static str {
    let sets = ParamSet::all();
    if sets.iter().any(|set| head.length == set.sig_len() as u64) {
        return "it is as long as a signature: are two files exchanged?";
    }
    if sets.iter().any(|set| head.length == set.pk_len() as u64
        || head.length == set.sk_len() as u64)
    {
        return "it is as long as the raw bytes of a key: a key file is three lines of text";
    }
    "it is no key file"
}
