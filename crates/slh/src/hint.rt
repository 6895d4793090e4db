//! Hints: one sentence on the cause and the cure of a refusal, for a terminal. The program looks at the arguments and
//! files again, so a hint may be wrong: a file may have changed meanwhile.
use clap::{ArgMatches, Command};
use slh_tool::slh_command;
use std::alloc::AllocError;
use std::rt::Files;

mod key;
mod options;
mod paths;
mod shown;
mod words;

pub(crate) use shown::shown;

/// A sentence, or none if the cause is not found.
type Hint = Result<Option<String>, AllocError>;

/// A refused command: its name, and the values of its options.
#[derive(Clone, Copy)]
struct Refused<'m, 'a> {
    name: &'a str,
    values: &'m ArgMatches<'a>,
}

/// The sentence on the refusal of these arguments with this number.
#[inline(never)]
pub(crate) fn hint_of<R: AllocGlobal + Files>(rt: &R, arguments: &[String], number: u8) -> Hint {
    let program = slh_command(rt.alloc())?;
    let command = known_command(&program, arguments);
    match program.try_get_matches_from(arguments) {
        Ok(matches) => match matches.subcommand() {
            Some((name, values)) => hint_of_command(rt, Refused { name, values }, number),
            None => Ok(None),
        },
        Err(error) => words::hint(rt.alloc(), command, &error),
    }
}

/// The first argument, if it is a command.
fn known_command<'a>(program: &Command<'_>, arguments: &'a [String]) -> Option<&'a str> {
    let first = arguments.first()?.as_str();
    program.find_subcommand(first)?;
    Some(first)
}

/// The sentence on the refusal of a command whose options are as its help says.
fn hint_of_command<R: AllocGlobal + Files>(rt: &R, refused: Refused<'_, '_>, number: u8) -> Hint {
    match number {
        35 => options::value_hint(rt, refused),
        4 => options::cutting_hint(rt, refused),
        11 | 13..=15 => key::hint(rt, refused, number),
        12 => match refused.values.get_str("set") {
            Some(name) => options::set_hint(rt.alloc(), name),
            None => key::hint(rt, refused, number),
        },
        21..=24 => paths::vectors_hint(rt.alloc(), refused, number),
        32 => paths::unread_hint(rt, refused),
        34 => options::seeds_hint(rt.alloc(), refused),
        36 => paths::too_long_hint(rt, refused),
        _ => Ok(None),
    }
}

/// The sentence on a refusal that neither arguments nor files explain. It takes no memory.
pub(crate) fn general_hint(number: u8) -> Option<&'static str> {
    match number {
        1 => Some(
            "there is too little memory: see `ulimit -v`, and `ulimit -s`, which is 192 or more",
        ),
        2 => Some("--context has more than 255 bytes, which are 510 hexadecimal digits"),
        33 => Some(
            "standard output could not be written: is the disk full, or did its reader end?",
        ),
        38 => Some(
            "two computations of one signature differ, so memory or the processor failed: nothing was signed; test this machine before it signs again",
        ),
        _ => None,
    }
}
