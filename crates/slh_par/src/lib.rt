//! SLH-DSA (FIPS 205) with SHA-2 by several threads: key generation and signing whose bytes are those of the one-thread
//! calls of `slh_core`.
//!
//! A signature is made in one run of numbered jobs over the workers. The jobs are the ranges of a `Cutting`: they give
//! the roots of the d XMSS trees and of the k FORS trees, and of each the path of the leaf that signs. The job that
//! makes the signing leaf of an XMSS tree also stores checkpoints of the chains of that leaf's key. Then all that the
//! layers sign is known, and each layer's WOTS+ signature is read from the values of its key. The bytes are written at
//! the end, in this thread: a call that is refused writes none.
#![tactic(auto)]

mod answered_trees;
mod eight_items;
mod fault;
mod forms;
mod generation;
mod key_checkpoints;
mod ranges;
mod signing;
mod splitting;
mod top_tree;
mod verify_item;
mod verifying;

pub use fault::ParFault;
pub use forms::{hash_sign_digest_par, hash_sign_par, sign_form_par, sign_par};
pub use generation::keygen_par;
pub use slh_core::{
    Form, KeyFault, MessageDigest, ParamSet, PreHash, PublicKey, Randomizer, SecretKey,
};
pub use slh_subtrees::{
    CutFault, CutTree, Cuts, Cutting, JobRange, JobTree, MOST_LEVELS, job, keygen_job, keygen_jobs,
    sign_jobs,
};
pub use slh_workers::{
    BatchQuestion, End, Gate, Go, NoGate, NoMemory, Question, RunFault, Work, WorkerEnd, Workers,
    answer_all, answer_batches, push_batches, run_all, work_off,
};
pub use verify_item::VerifyItem;
pub use verifying::verify_all;
