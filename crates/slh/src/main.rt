//! The program `slh`: keys and signatures of SLH-DSA (FIPS 205) with SHA-2.
#![tactic(auto)]

use hint::{general_hint, hint_of, shown};
use slh_io::{Disk, Reader, WriteFault, Writer, put_text, put_two};
use slh_tool::{Fault, command, refuse};
use std::fs::File;
use std::io::{IsTerminal, Read, Stderr, Stdin, Stdout};
use std::process::ExitCode;
use std::rt::{Env, Files};
use std::thread::Threads;
use std::{env, io};
use told::Told;

mod hint;
mod told;

/// The least limit of the stack, in bytes, under which each command has room on the first thread and on all others. A
/// program that overflows its stack is ended without a message, so `main` looks at the limit before anything else.
const LEAST_STACK: u64 = 192 * 1024;

fn main(rt: HostRuntime) -> ExitCode {
    let mut errors = Told::new(rt.stderr());
    let status = if stack_limit(&rt).is_some_and(|limit| limit < LEAST_STACK) {
        refuse(&mut errors, Fault::NoMemory)
    } else {
        run(&rt, rt.stdin(), rt.stdout(), &mut errors)
    };
    if let Some(number) = errors.number() {
        if rt.stderr().is_terminal() {
            explain(&rt, number, &mut errors);
        }
    }
    ExitCode::from(status)
}

/// Adds a sentence to a refusal: its cause and its cure. A failure of that write is ignored.
fn explain<R: AllocGlobal + Env + Files>(rt: &R, number: u8, errors: &mut Told<Stderr>) {
    let _ = match general_hint(number) {
        Some(text) => put_two(errors, text, "\n"),
        None => explain_words(rt, number, errors),
    };
}

/// Adds the sentence that the arguments and their files give. It is a function apart, as `run` is.
#[inline(never)]
fn explain_words<R: AllocGlobal + Env + Files>(
    rt: &R,
    number: u8,
    errors: &mut Told<Stderr>,
) -> Result<(), WriteFault> {
    let Ok(words) = words_of(rt) else {
        return put_text(
            errors,
            "an argument is not UTF-8: name the file otherwise\n",
        );
    };
    let Ok(Some(hint)) = hint_of(rt, words.as_slice(), number) else {
        return Ok(());
    };
    match shown(rt.alloc(), hint.as_str()) {
        Ok(line) => put_text(errors, line.as_str()),
        Err(_) => Ok(()),
    }
}

/// The limit of the stack in bytes, if the system names it, from the list of limits that Linux has for each process. It
/// is a function apart from `main`, whose stack frame is below that of each command.
#[inline(never)]
fn stack_limit<R: Files>(rt: &R) -> Option<u64> {
    let mut list = [0; 512];
    let n = File::open(rt, "/proc/self/limits")
        .ok()?
        .read(&mut list)
        .ok()?;
    let line = str::from_utf8(list.get(..n)?)
        .ok()?
        .lines()
        .find_map(|line| line.strip_prefix("Max stack size"))?;
    line.split_whitespace().next()?.parse().ok()
}

/// The command that the program's arguments ask for, over the files of the system. It is a function apart from `main`,
/// which needs room on a stack that is too small for any command.
#[inline(never)]
fn run<R: AllocGlobal + Env + Files + Threads + Sync>(
    rt: &R,
    input: Stdin,
    output: Stdout,
    errors: &mut Told<Stderr>,
) -> u8 {
    let words = match words_of(rt) {
        Ok(words) => words,
        Err(fault) => return refuse(errors, fault),
    };
    let mut disk = match disk_of(rt) {
        Ok(disk) => disk,
        Err(fault) => return refuse(errors, fault),
    };
    command(
        rt,
        rt.alloc(),
        words.as_slice(),
        &mut *disk,
        &mut Reader::new(input),
        &mut Writer::new(output),
        errors,
    )
}

/// The files of the system. They are on the heap, since they have room for a path of 4 KB. The parser of a deep vector
/// file needs nearly all of the stack that Linux maps at the start.
#[inline(never)]
fn disk_of<R: AllocGlobal + Files>(rt: &R) -> Result<Box<Disk<&R>>, Fault> {
    match Box::new(rt.alloc(), Disk::new(rt)) {
        Ok(disk) => Ok(disk),
        Err(_) => Err(Fault::NoMemory),
    }
}

/// The arguments after the program's name. Refused with `BadWords` if one of them is not UTF-8.
fn words_of<R: Env + AllocGlobal>(rt: &R) -> Result<Vec<String>, Fault> {
    let args = env::args(rt).map_err(|error| fault_of(&error))?;
    let mut words = Vec::new(rt.alloc());
    for word in args.skip(1) {
        words.push(word).map_err(|_| Fault::NoMemory)?;
    }
    Ok(words)
}

fn fault_of(error: &io::Error) -> Fault {
    match error.kind() {
        io::ErrorKind::OutOfMemory => Fault::NoMemory,
        _ => Fault::BadWords,
    }
}
