//! Rows about parameter sets, their names and their labels (FIPS 205, section 11).

use crate::row::Row;
use slh_params::{ParamSet, RecordFault};

/// A set; n, h', d, a, k, h, len, the lengths of the digest's three parts, m, and the lengths of both keys and of a
/// signature.
pub fn numbers(row: &mut Row) {
    let set = row.set();
    for x in [set.hp(), set.d(), set.a(), set.k(), set.h()] {
        row.is_number(x as u64);
    }
    for x in [
        set.n(),
        set.len(),
        set.md_len(),
        set.tree_len(),
        set.leaf_len(),
        set.m(),
        set.pk_len(),
        set.sk_len(),
        set.sig_len(),
    ] {
        row.is_number(x as u64);
    }
}

/// A set; len.
pub fn len(row: &mut Row) {
    let set = row.set();
    row.is_number(set.len() as u64);
}

/// The names of the standard's sets in order.
pub fn names(row: &mut Row) {
    for set in ParamSet::all() {
        row.is_text(set.name());
    }
}

/// A text; the name of the set of this name, or `none`.
pub fn from_name(row: &mut Row) {
    match ParamSet::from_name(row.text()) {
        Some(set) => row.is_text(set.name()),
        None => row.is_text("none"),
    }
}

/// A text; the label of the set of this label, or `none`.
pub fn from_label(row: &mut Row) {
    match ParamSet::from_label(row.text().as_bytes()) {
        Some(set) => row.is_text(set.label().as_str()),
        None => row.is_text("none"),
    }
}

/// Bytes; the label of the set of this label, or `none`.
pub fn from_label_bytes(row: &mut Row) {
    match ParamSet::from_label(&row.bytes()) {
        Some(set) => row.is_text(set.label().as_str()),
        None => row.is_text("none"),
    }
}

/// The set of the numbers n, lg_w, h', d, a, k.
fn set_of_numbers(row: &mut Row) -> Result<ParamSet, RecordFault> {
    let (n, lg_w, hp) = (row.word(), row.word(), row.word());
    let (d, a, k) = (row.word(), row.word(), row.word());
    ParamSet::custom(n, lg_w, hp, d, a, k)
}

/// The numbers n, lg_w, h', d, a, k; the label of their set, or the first member that is invalid. The set is equal to the
/// one of this label.
pub fn custom(row: &mut Row) {
    match set_of_numbers(row) {
        Ok(set) => {
            row.is_true(ParamSet::from_label(set.label().as_str().as_bytes()) == Some(set));
            row.is_text(set.label().as_str());
        }
        Err(RecordFault::BadRecord { member }) => row.is_text(member),
    }
}

/// Invalid numbers n, lg_w, h', d, a, k; number, name and text of the refusal.
pub fn bad_record(row: &mut Row) {
    match set_of_numbers(row) {
        Ok(_) => row.refuse(),
        Err(fault) => {
            row.is_refusal(fault.number(), fault.name());
            row.is_display(&fault);
        }
    }
}
