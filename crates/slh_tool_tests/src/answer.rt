//! Runs a command over files of known bytes, and stores its answer.
ghost use Rattle.std.specs.Prelude.{◌≡◌, ◌≢◌, IfOk, map, string_bytes};
ghost use Rattle.slh_tool_tests.specs.Answers.{RepliesOver};

use super::folder::Folder;
use slh_io::{Disk, Reader, Writer};
use slh_tool::command;
use std::alloc::{AllocError, Global};
use std::thread::Threads;

/// The answer of a command: its status, its output and its errors.
#[derive(Drop)]
pub struct Answer {
    pub status: u8,
    pub output: Vec<u8>,
    pub errors: Vec<u8>,
}

/// Copies of the arguments.
pub fn words_of(alloc: Global, words: &[&str]) -> Result<Vec<String>, AllocError>
    ensures { IfOk result (λ list. map string_bytes list.items ≡ map (λ word. word.now) words.now) }
{
    let mut list = Vec::new(alloc);
    for word in words {
        list.push(String::from_str(alloc, word)?)?;
    }
    Ok(list)
}

/// Runs a command over open files of known bytes and an empty input.
pub fn answer_over<R: AllocGlobal + Threads + Sync>(
    rt: &R,
    words: &[String],
    files: &[(&str, &[u8])],
) -> Answer
    ensures { result.status ≢ 2 → RepliesOver (map string_bytes words.now) files.now result.status result.output.items }
{
    let mut output = Writer::new(Vec::new(rt.alloc()));
    let mut errors = Writer::new(Vec::new(rt.alloc()));
    let status = command(
        rt,
        rt.alloc(),
        words,
        &mut Disk::new(Folder::new(files)),
        &mut Reader::new([].as_slice()),
        &mut output,
        &mut errors,
    );
    Answer {
        status,
        output: output.into_inner(),
        errors: errors.into_inner(),
    }
}
