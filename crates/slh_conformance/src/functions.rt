//! The functions of rows by their names (ours).

use crate::row::Row;
use crate::{
    cuttings, fors, hashes, key_files, keys, lanes, params, sets, signatures, trees, verdicts,
    wots, xmss,
};

/// Runs the function of this name over a row. Whether there is one.
pub fn run(function: &str, row: &mut Row) -> bool {
    run_part(function, row) || run_scheme(function, row) || run_other(function, row)
}

/// The parts of FIPS 205, sections 4 to 8 and 11.
fn run_part(function: &str, row: &mut Row) -> bool {
    match function {
        "base_2b" => params::base_2b_row(row),
        "to_int" => params::to_int_row(row),
        "to_byte" => params::to_byte_row(row),
        "address" => params::address(row),
        "hmac_sha256" => hashes::hmac_sha256_row(row),
        "hmac_sha512" => hashes::hmac_sha512_row(row),
        "mgf1_sha256" => hashes::mgf1_sha256_row(row),
        "mgf1_sha512" => hashes::mgf1_sha512_row(row),
        "f" => hashes::f_row(row),
        "h" => hashes::h_row(row),
        "t" => hashes::t_row(row),
        "prf" => hashes::prf_row(row),
        "prf_msg" => hashes::prf_msg_row(row),
        "h_msg" => hashes::h_msg_row(row),
        "lanes_f" => lanes::lanes_f(row),
        "lanes_prf" => lanes::lanes_prf(row),
        "lanes_h" => lanes::lanes_h(row),
        "lanes_t" => lanes::lanes_t(row),
        "lanes_chains" => lanes::lanes_chains(row),
        "lanes_compress" => lanes::lanes_compress(row),
        "digits" => wots::digits_row(row),
        "chain" => wots::chain_row(row),
        "wots_pk" => wots::wots_pk_row(row),
        "wots_sign" => wots::wots_sign_row(row),
        "xmss_root" => xmss::xmss_root(row),
        "xmss_sign" => xmss::xmss_sign_row(row),
        "layer_place" => xmss::layer_place_row(row),
        "ht_sign" => xmss::ht_sign_row(row),
        "fors_root" => fors::fors_root(row),
        "fors_leaf" => fors::fors_leaf(row),
        "fors_join" => fors::fors_join(row),
        "fors_sign" => fors::fors_sign_row(row),
        _ => return false,
    }
    true
}

/// Keys and signatures: FIPS 205, sections 9 and 10.
fn run_scheme(function: &str, row: &mut Row) -> bool {
    match function {
        "keygen" => keys::keygen_row(row),
        "keygen_from_source" => keys::keygen_from_source(row),
        "keygen_from_pcg32" => keys::keygen_from_pcg32(row),
        "secret_key" => keys::secret_key(row),
        "public_key" => keys::public_key(row),
        "digest_indices" => signatures::digest_indices_row(row),
        "pre_hash" => signatures::pre_hash(row),
        "digest" => signatures::digest(row),
        "sign" => signatures::sign_row(row),
        "sign_in_parts" => signatures::sign_in_parts(row),
        "sign_by_digest" => signatures::sign_by_digest(row),
        "long_context" => signatures::long_context(row),
        "verdict" => verdicts::verdict(row),
        "verdict_by_key" => verdicts::verdict_by_key(row),
        "exchanged_r" => verdicts::exchanged_r(row),
        "other_lengths" => verdicts::other_lengths(row),
        "flipped_bits" => verdicts::flipped_bits(row),
        _ => return false,
    }
    true
}

/// Sets and their labels, key files, cuttings, and trees of any nodes.
fn run_other(function: &str, row: &mut Row) -> bool {
    match function {
        "numbers" => sets::numbers(row),
        "len" => sets::len(row),
        "names" => sets::names(row),
        "from_name" => sets::from_name(row),
        "from_label" => sets::from_label(row),
        "from_label_bytes" => sets::from_label_bytes(row),
        "custom" => sets::custom(row),
        "bad_record" => sets::bad_record(row),
        "write_public" => key_files::write_public_row(row),
        "write_secret" => key_files::write_secret_row(row),
        "read_public" => key_files::read_public_row(row),
        "read_secret" => key_files::read_secret_row(row),
        "read_public_cut" => key_files::read_public_cut(row),
        "read_secret_cut" => key_files::read_secret_cut(row),
        "read_public_replaced" => key_files::read_public_replaced(row),
        "jobs" => cuttings::jobs(row),
        "job" => cuttings::job_row(row),
        "keygen_job" => cuttings::keygen_job_row(row),
        "first_job" => cuttings::first_job(row),
        "bad_cutting" => cuttings::bad_cutting(row),
        "tree_leaf" => trees::tree_leaf(row),
        "tree_climb" => trees::tree_climb(row),
        "tree_cover" => trees::tree_cover(row),
        "tree_gather" => trees::tree_gather(row),
        _ => return false,
    }
    true
}
