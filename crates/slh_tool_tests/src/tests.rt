//! Commands through `command`, with memory refused, and with files, inputs and outputs that fail or never end.
mod batches;
mod callers;
mod devices;
mod disk;
mod failures;
mod faults;
mod fixtures;
mod key_files;
mod memory;
mod own_files;
mod passing;
mod roots;
mod vector_memory;
mod vectors;

use crate::{Answer, Folder, words_of};
use slh_io::{Files, Reader, Sink, Source, Writer};
use slh_tool::command;
use std::fmt::Debug;
use std::process::Abort;
use std::test::Fail;
use std::thread::Threads;

/// Fails the test unless the two are equal.
fn equal<T: PartialEq + Debug>(rt: &impl Abort, found: &T, expected: &T) {
    assert_eq!(rt; found, expected);
}

/// Runs a command over files, an input and an output.
fn run_to<R: AllocGlobal + Threads + Sync, F: Files, S: Source, O: Sink>(
    rt: &R,
    words: &[&str],
    files: &mut F,
    input: &mut S,
    output: &mut O,
) -> Result<(u8, Vec<u8>), Fail> {
    let words = words_of(rt.alloc(), words)?;
    let mut errors = Writer::new(Vec::new(rt.alloc()));
    let alloc = rt.alloc();
    let status = command(
        rt,
        alloc,
        words.as_slice(),
        files,
        input,
        output,
        &mut errors,
    );
    Ok((status, errors.into_inner()))
}

/// Runs a command over an input.
fn run<R: AllocGlobal + Threads + Sync, S: Source>(
    rt: &R,
    words: &[&str],
    input: &mut S,
) -> Result<Answer, Fail> {
    let mut output = Writer::new(Vec::new(rt.alloc()));
    let (status, errors) = run_to(rt, words, &mut Folder::new(&[]), input, &mut output)?;
    Ok(Answer {
        status,
        output: output.into_inner(),
        errors,
    })
}

/// Runs a command over files.
fn run_over<R: AllocGlobal + Threads + Sync, F: Files>(
    rt: &R,
    words: &[&str],
    files: &mut F,
) -> Result<Answer, Fail> {
    let mut output = Writer::new(Vec::new(rt.alloc()));
    let mut input = Reader::new([].as_slice());
    let (status, errors) = run_to(rt, words, files, &mut input, &mut output)?;
    Ok(Answer {
        status,
        output: output.into_inner(),
        errors,
    })
}

/// A refusal: these errors, no output, and the status 2.
fn check_refused(rt: &impl Abort, answer: &Answer, errors: &[u8]) {
    equal(rt, &answer.errors.as_slice(), &errors);
    assert!(rt; answer.output.is_empty());
    equal(rt, &answer.status, &2);
}
