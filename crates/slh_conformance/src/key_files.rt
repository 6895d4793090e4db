//! Rows about key files (docs/FORMATS.md, ours).

use crate::row::Row;
use slh_core::{PublicKey, SecretKey};
use slh_files::{
    AnyKey, FileFault, read_key, read_public, read_secret, write_public, write_secret,
};

/// A set, the bytes of a public key; its file.
pub fn write_public_row(row: &mut Row) {
    let set = row.set();
    let Ok(key) = PublicKey::from_bytes(set, &row.bytes()) else {
        return row.refuse();
    };
    match write_public(row.alloc(), &key) {
        Ok(file) => row.is_file(file.as_str()),
        Err(_) => row.refuse(),
    }
}

/// A set, the bytes of a secret key; its file.
pub fn write_secret_row(row: &mut Row) {
    let set = row.set();
    let Ok(key) = SecretKey::from_bytes(set, &row.bytes()) else {
        return row.refuse();
    };
    match write_secret(row.alloc(), &key) {
        Ok(file) => row.is_file(file.as_str()),
        Err(_) => row.refuse(),
    }
}

/// A file; set and bytes of its public key, or the refusal. A key is read as one of either kind, too.
pub fn read_public_row(row: &mut Row) {
    let file = row.file();
    match read_public(file.as_bytes()) {
        Ok(key) => {
            row.is_text(key.set().label().as_str());
            row.is_bytes(key.bytes());
            match read_key(file.as_bytes()) {
                Ok(AnyKey::Public(any)) => row.is_true(any.bytes() == key.bytes()),
                _ => row.is_true(false),
            }
        }
        Err(fault) => row.is_refusal(fault.number(), fault.name()),
    }
}

/// A file; set and bytes of its secret key, or the refusal. A key is read as one of either kind, too.
pub fn read_secret_row(row: &mut Row) {
    let file = row.file();
    match read_secret(file.as_bytes()) {
        Ok(key) => {
            row.is_text(key.set().label().as_str());
            row.is_bytes(key.bytes());
            match read_key(file.as_bytes()) {
                Ok(AnyKey::Secret(any)) => row.is_true(any.bytes() == key.bytes()),
                _ => row.is_true(false),
            }
        }
        Err(fault) => row.is_refusal(fault.number(), fault.name()),
    }
}

/// The number of the refusal, or 0 if a key was read.
fn status<K: Drop>(read: Result<K, FileFault>) -> u64 {
    match read {
        Ok(_) => 0,
        Err(fault) => fault.number() as u64,
    }
}

/// A file of a public key; for its first 0, 1, 2, .. bytes up to all the number of the refusal, or 0. They are read as
/// those of a key of either kind with the same answer.
pub fn read_public_cut(row: &mut Row) {
    let file = row.file();
    for len in 0..=file.as_bytes().len() {
        let bytes = &file.as_bytes()[..len];
        row.is_number(status(read_public(bytes)));
        row.is_true(status(read_key(bytes)) == status(read_public(bytes)));
    }
}

/// As above, for a secret key.
pub fn read_secret_cut(row: &mut Row) {
    let file = row.file();
    for len in 0..=file.as_bytes().len() {
        let bytes = &file.as_bytes()[..len];
        row.is_number(status(read_secret(bytes)));
        row.is_true(status(read_key(bytes)) == status(read_secret(bytes)));
    }
}

/// A file of a public key; with its first, second, .. byte replaced by ff the number of the refusal, or 0.
pub fn read_public_replaced(row: &mut Row) {
    let text = row.file();
    let Ok(mut file) = text.as_bytes().to_vec(row.alloc()) else {
        return row.refuse();
    };
    for place in 0..file.len() {
        let kept = file[place];
        file[place] = 255;
        row.is_number(status(read_public(&file)));
        file[place] = kept;
    }
}
