//! All files of SLH-DSA: the calls of `slh_key_files` and of `slh_vectors`, with the streams that a report needs.
#![tactic(auto)]

pub use slh_io::{Sink, WriteFault};
pub use slh_key_files::{
    AnyKey, FileFault, KeyKind, either_is_read, push_key_bytes, read_key, read_public, read_secret,
    upgraded_stays, write_public, write_secret, written_is_read,
};
pub use slh_vectors::{Outcome, Test, VectorFault, read_vectors, report, run_test, run_vectors};
