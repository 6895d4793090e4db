//! Files, a source of bytes and sinks for bytes, as traits, and the loops over them. Contracts state the bytes that
//! each gave or took.
#![tactic(auto)]

pub use disk::Disk;
pub use files::Files;
pub use opener::Opener;
pub use sink::{Sink, WriteFault, Writer, put_all};
pub use source::{FetchFault, Reader, Source, take_up_to};
pub use text::{put_number, put_text, put_two};

mod disk;
mod files;
mod opener;
mod retry;
mod sink;
mod source;
mod text;
