//! SLH-DSA (FIPS 205) with SHA-2 for C and for any language that calls C: keys, signing and verifying in the calling
//! thread, without memory. One signature or key can be computed as jobs, by threads of the caller. `c/include/slh.h`
//! declares the calls, with the duties of a caller.
//!
//! Each call tests its numbers and lengths in the order of its rules (`specs/Rules`), and returns the number of the
//! first rule that is not met. If all are met, it calls `slh_core` or `slh_jobs`. Then it returns `DONE` or `INVALID`.
//! Three more numbers say that a start does not have its tag, that answers don't fit together, or that two runs differ.
//! The hardened calls return two numbers of their own.
#![tactic(auto)]

mod cuttings;
mod generation;
mod hardened;
mod hashed_message;
mod internal_form;
mod jobs;
mod joining;
mod key_files;
mod keys;
mod many;
mod names;
mod numbers;
mod pkix;
mod pre_hash_form;
mod pure_form;
mod randomizer;
mod refusal;
mod rules;
mod self_test;
mod twice;
mod version;
