//! Verifying signatures of SLH-DSA (FIPS 205) with SHA-2, for firmware in C: the calls of `c/include/slh_verify.h`, and
//! no others. Their contracts are those of the same calls of `slh_c`, word for word (`tests/test_boards.py` compares
//! the texts).
//!
//! This crate stands on `slh_core`, and not on `slh_jobs`, so that a build for a board compiles no signing code.
#![tactic(auto)]

mod hardened;
mod keys;
mod numbers;
mod pre_hash_form;
mod pure_form;
mod refusal;
mod version;
