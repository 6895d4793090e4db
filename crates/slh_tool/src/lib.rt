//! The commands of the program `slh`, over files and streams that the caller hands in.
#![tactic(auto)]

pub use arguments::slh_command;
pub use fault::Fault;
pub use program::{command, refuse};
pub use slh_io::{FetchFault, Files, Source};

mod arguments;
mod content;
mod cuts;
mod fault;
mod generate;
mod keys;
mod options;
mod params;
mod program;
mod reading;
mod reply;
mod request;
mod seeds;
mod set;
mod sign;
mod tell;
mod vectors;
mod verify;
