//! Compares the library with tables of known values, which other implementations of FIPS 205 made.
//!
//! The program reads rows from standard input. The fields of a row have tabs between them: the name of a function, its
//! arguments, and the expected values. Lines that begin with `#` are comments. For each row it prints the function's
//! name and one of these:
//!
//! - `right`;
//! - `differs`, and the first other value that was found;
//! - `malformed`, if the row has another number of fields, or an argument can't be read;
//! - `unknown`, if no function has the name.
//!
//! `tests/test_tables.py` runs it over the tables of `tests/vectors/tables`.
#![tactic(auto, using(slh_params::proofs::Bounds::n_high))]

mod cuttings;
mod fors;
mod functions;
mod hashes;
mod key_files;
mod keys;
mod lanes;
mod params;
mod row;
mod sets;
mod signatures;
mod sources;
mod trees;
mod verdicts;
mod way;
mod wots;
mod xmss;

use row::{Row, Verdict};
use std::alloc::Global;
use std::io;

/// The finding about a row.
fn judge(alloc: Global, line: &str) -> Verdict {
    let mut row = Row::new(alloc, line);
    let function = row.text();
    if functions::run(function, &mut row) {
        row.verdict()
    } else {
        Verdict::Unknown
    }
}

fn main(rt: HostRuntime) -> io::Result<()> {
    for line in rt.lines(rt.alloc()) {
        let line = line?;
        if !line.as_str().starts_with('#') {
            let name = line.as_str().split('\t').next().unwrap_or("");
            println!(rt; "{name} {}", judge(rt.alloc(), line.as_str()))?;
        }
    }
    Ok(())
}
