//! Rows about bits and addresses (FIPS 205, sections 4.2 and 4.4).

use crate::row::Row;
use slh_params::{Adrs, AdrsType, base_2b, to_byte, to_int};

/// Bytes, the bits of a group, a number of groups; the groups.
pub fn base_2b_row(row: &mut Row) {
    let bytes = row.bytes();
    let b = row.below(17) as u32;
    let mut room = [0; 64];
    let groups = &mut room[..row.below(65) as usize];
    if b == 0 || bytes.len() > 64 || b as usize * groups.len() > 8 * bytes.len() {
        return row.refuse();
    }
    base_2b(&bytes, b, groups);
    for group in groups.iter() {
        row.is_number(*group as u64);
    }
}

/// At most 8 bytes; their number.
pub fn to_int_row(row: &mut Row) {
    let bytes = row.bytes();
    if bytes.len() > 8 {
        return row.refuse();
    }
    row.is_number(to_int(&bytes));
}

/// A number, a length; its low bytes.
pub fn to_byte_row(row: &mut Row) {
    let x = row.number();
    let mut room = [0xff; 12];
    let out = &mut room[..row.below(13) as usize];
    to_byte(x, out);
    row.is_bytes(out);
}

/// The type of this name.
fn type_of(row: &mut Row) -> AdrsType {
    match row.text() {
        "WOTS_HASH" => AdrsType::WotsHash,
        "WOTS_PK" => AdrsType::WotsPk,
        "TREE" => AdrsType::Tree,
        "FORS_TREE" => AdrsType::ForsTree,
        "FORS_ROOTS" => AdrsType::ForsRoots,
        "WOTS_PRF" => AdrsType::WotsPrf,
        "FORS_PRF" => AdrsType::ForsPrf,
        _ => {
            row.refuse();
            AdrsType::WotsHash
        }
    }
}

/// Sets all of an address: layer, tree, type and the three words after it.
fn set_all(row: &mut Row, adrs: &mut Adrs) {
    adrs.set_layer(row.layer());
    adrs.set_tree(row.number());
    adrs.set_type_and_clear(type_of(row));
    row.is_true(adrs.compressed()[10..] == [0; 12]);
    row.is_true((adrs.key_pair(), adrs.tree_index()) == (0, 0));
    adrs.set_key_pair(row.word());
    adrs.set_chain(row.word());
    adrs.set_hash(row.word());
}

/// The address of a layer, a tree, a type and the three words after it.
pub fn adrs_of(row: &mut Row) -> Adrs {
    let mut adrs = Adrs::zero();
    set_all(row, &mut adrs);
    adrs
}

/// Layer, tree, type and the three words after it; the 32 bytes and the 22 bytes of an address that had other parts.
pub fn address(row: &mut Row) {
    let mut adrs = Adrs::zero();
    adrs.set_layer(255);
    adrs.set_tree(u64::MAX);
    adrs.set_type_and_clear(AdrsType::ForsPrf);
    adrs.set_key_pair(u32::MAX);
    adrs.set_tree_height(u32::MAX);
    adrs.set_tree_index(u32::MAX);
    set_all(row, &mut adrs);
    row.is_bytes(&adrs.full());
    row.is_bytes(adrs.compressed());
    row.is_number(adrs.key_pair() as u64);
    row.is_number(adrs.tree_index() as u64);
}
