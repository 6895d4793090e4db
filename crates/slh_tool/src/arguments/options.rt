//! The options of the command line, as `clap` takes them.
ghost use Rattle.std.specs.Prelude.{◌≡◌, false, IfOk};
ghost use Rattle.clap.specs.Words.{rule_of};
ghost use Rattle.slh_tool.specs.Arguments.{AddsOptions, HasNoGlobals, cuts_rules, flag, form_rules, levels_rule, levels_rules, message_rules, optional, required, safety_rules, work_rules, workers_rule};

use clap::builder::ValueParser;
use clap::{Arg, ArgAction, Command};
use std::alloc::{AllocError, Global};

/// An option that may be left out.
pub(crate) fn optional<'a>(alloc: Global, name: &'a str, value: &'a str, help: &'a str) -> Arg<'a>
    ensures rule { rule_of result ≡ optional name.entry.now }
    ensures local { result.global ≡ false }
{
    Arg::new(alloc, name)
        .long(name)
        .value_name(value)
        .help(help)
}

/// An option that the arguments must give.
pub(crate) fn required<'a>(alloc: Global, name: &'a str, value: &'a str, help: &'a str) -> Arg<'a>
    ensures rule { rule_of result ≡ required name.entry.now }
    ensures local { result.global ≡ false }
{
    optional(alloc, name, value, help).required(true)
}

/// An option without a value.
fn flag<'a>(alloc: Global, name: &'a str, help: &'a str) -> Arg<'a>
    ensures rule { rule_of result ≡ flag name.entry.now }
    ensures local { result.global ≡ false }
{
    Arg::new(alloc, name)
        .long(name)
        .action(ArgAction::SetTrue)
        .help(help)
}

/// The option on the number of workers.
pub(crate) fn workers<'a>(alloc: Global) -> Arg<'a>
    ensures rule { rule_of result ≡ workers_rule }
    ensures local { result.global ≡ false }
{
    optional(alloc, "workers", "N", "The number of workers, 1 to 64")
        .value_parser(ValueParser::Signed(1, 64))
        .default_value("1")
}

/// An option on the levels by which the trees of one kind are cut.
fn levels<'a>(alloc: Global, name: &'a str, help: &'a str) -> Arg<'a>
    ensures rule { rule_of result ≡ levels_rule name.entry.now }
    ensures local { result.global ≡ false }
{
    optional(alloc, name, "N", help)
        .value_parser(ValueParser::Signed(0, 8))
        .default_value("0")
}

const XMSS_LEVELS_HELP: &str = "Cuts each XMSS tree into 2^N ranges for the workers,
N 0 to 8";

const FORS_LEVELS_HELP: &str = "Cuts each FORS tree into 2^N ranges for the workers,
N 0 to 8";

/// The command, which then also takes the levels of both kinds of tree.
fn with_levels<'a>(alloc: Global, command: Command<'a>) -> Result<Command<'a>, AllocError>
    requires { HasNoGlobals command }
    ensures { IfOk result (AddsOptions command.entry levels_rules) }
{
    command
        .arg(levels(alloc, "xmss-levels", XMSS_LEVELS_HELP))?
        .arg(levels(alloc, "fors-levels", FORS_LEVELS_HELP))
}

const XMSS_CUTS_HELP: &str = "Cuts each XMSS tree before these leaves instead, as
2,4,6: at most 255 rising numbers";

const FORS_CUTS_HELP: &str = "Cuts each FORS tree before these leaves instead, as
2,4,6: at most 255 rising numbers";

/// The command, which then also takes the cut points of both kinds of tree.
fn with_cuts<'a>(alloc: Global, command: Command<'a>) -> Result<Command<'a>, AllocError>
    requires { HasNoGlobals command }
    ensures { IfOk result (AddsOptions command.entry cuts_rules) }
{
    command
        .arg(optional(alloc, "xmss-cuts", "LIST", XMSS_CUTS_HELP))?
        .arg(optional(alloc, "fors-cuts", "LIST", FORS_CUTS_HELP))
}

/// The command, which then also takes the workers and the cuts.
pub(crate) fn with_work<'a>(alloc: Global, command: Command<'a>) -> Result<Command<'a>, AllocError>
    requires { HasNoGlobals command }
    ensures { IfOk result (AddsOptions command.entry work_rules) }
{
    let command = command.arg(workers(alloc))?;
    with_cuts(alloc, with_levels(alloc, command)?)
}

/// A command on a key and a message.
pub(crate) fn message_command<'a>(
    alloc: Global,
    command: Command<'a>,
    key: &'a str,
) -> Result<Command<'a>, AllocError>
    requires { HasNoGlobals command }
    ensures { IfOk result (AddsOptions command.entry message_rules) }
{
    command.arg(required(alloc, "key", "FILE", key))?.arg(required(
        alloc,
        "message",
        "FILE",
        "The message, any bytes",
    ))
}

const RANDOM_HELP: &str = "The randomizer, 2n hexadecimal digits: 32 for a 128
set, 48 for a 192 set, 64 for a 256 set
[default: deterministic signing]";

const TWICE_HELP: &str = "Signs twice and compares: 38 Fault if a byte differs";

/// The command, which then also takes a randomizer, and whether to sign twice.
pub(crate) fn with_safety<'a>(
    alloc: Global,
    command: Command<'a>,
) -> Result<Command<'a>, AllocError>
    requires { HasNoGlobals command }
    ensures { IfOk result (AddsOptions command.entry safety_rules) }
{
    command
        .arg(optional(alloc, "random", "HEX", RANDOM_HELP))?
        .arg(flag(alloc, "twice", TWICE_HELP))
}

const CONTEXT_HELP: &str = "The context, at most 255 bytes in hexadecimal digits
[default: empty]";

const PREHASH_HELP: &str = "The pre-hash form with SHA2-224, SHA2-256, SHA2-384,
SHA2-512, SHA2-512/224 or SHA2-512/256
[default: the pure form]";

/// The command, which then also takes the form in which the message is signed.
pub(crate) fn with_form<'a>(alloc: Global, command: Command<'a>) -> Result<Command<'a>, AllocError>
    requires { HasNoGlobals command }
    ensures { IfOk result (AddsOptions command.entry form_rules) }
{
    command
        .arg(optional(alloc, "context", "HEX", CONTEXT_HELP))?
        .arg(optional(alloc, "prehash", "NAME", PREHASH_HELP))
}
