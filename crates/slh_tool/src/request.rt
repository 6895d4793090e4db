//! The command that the arguments ask for, with its options.
ghost use Rattle.std.specs.Prelude.{◌≡◌, Some, option_map, map, IfOk, IfErr, string_bytes};
ghost use Rattle.clap.specs.Words.{first_of, found_of, rows_of, subcommand_rows_of};
ghost use Rattle.slh_tool.specs.Requests.{Asks, RefusesRequest, asked, asked_by, asked_in, asked_of_file, cut_asked, cut_in, flag_of, form_asked, form_in, keygen_in, number_of, sign_in, vectors_in, verify_in, work_asked, work_in};

use crate::arguments::slh_command;
use clap::ArgMatches;
use clap::error::ErrorKind;
use std::alloc::Global;

/// The command that the arguments ask for.
#[derive(Clone, Copy)]
pub(crate) enum Request<'a> {
    Params(Option<&'a str>),
    Root(&'a str),
    Keygen(KeygenWords<'a>),
    Public(&'a str),
    Check(&'a str),
    Upgrade(&'a str),
    Sign(SignWords<'a>),
    Verify(VerifyWords<'a>),
    Vectors(&'a str, u8),
}

/// The options on the form in which a message is signed.
#[derive(Clone, Copy)]
pub(crate) struct FormWords<'a> {
    pub(crate) context: Option<&'a str>,
    pub(crate) prehash: Option<&'a str>,
}

/// The options on how the trees of one kind are cut: if a list of cut points is given, the levels are ignored.
#[derive(Clone, Copy)]
pub(crate) struct CutWords<'a> {
    pub(crate) levels: u32,
    pub(crate) points: Option<&'a str>,
}

/// The options on how the work is shared among workers.
#[derive(Clone, Copy)]
pub(crate) struct WorkWords<'a> {
    pub(crate) workers: u8,
    pub(crate) xmss: CutWords<'a>,
    pub(crate) fors: CutWords<'a>,
}

/// The options of `keygen`.
#[derive(Clone, Copy)]
pub(crate) struct KeygenWords<'a> {
    pub(crate) set: &'a str,
    pub(crate) work: WorkWords<'a>,
}

/// The options of `sign`.
#[derive(Clone, Copy)]
pub(crate) struct SignWords<'a> {
    pub(crate) key: &'a str,
    pub(crate) message: &'a str,
    pub(crate) form: FormWords<'a>,
    pub(crate) random: Option<&'a str>,
    pub(crate) twice: bool,
    pub(crate) work: WorkWords<'a>,
}

/// The options of `verify`.
#[derive(Clone, Copy)]
pub(crate) struct VerifyWords<'a> {
    pub(crate) key: &'a str,
    pub(crate) message: &'a str,
    pub(crate) signature: &'a str,
    pub(crate) form: FormWords<'a>,
}

/// Why no request is read from the arguments.
#[derive(Drop)]
pub(crate) enum Refusal {
    Help(clap::Error),
    Version,
    BadWords,
    NoMemory,
}

/// The request of the arguments after the program's name. It is never inlined, so that the stack holds nothing of the
/// parser while a command runs.
#[inline(never)]
pub(crate) fn parsed<'a>(alloc: Global, words: &'a [String]) -> Result<Request<'a>, Refusal>
    ensures ok { IfOk result (λ r. Asks (map string_bytes words.entry.now) (asked r)) }
    ensures err { IfErr result (RefusesRequest (map string_bytes words.entry.now)) }
{
    let Ok(command) = slh_command(alloc) else {
        return Err(Refusal::NoMemory);
    };
    match command.try_get_matches_from(words) {
        Ok(matches) => match request_of(&matches) {
            Some(request) => Ok(request),
            None => Err(Refusal::BadWords),
        },
        Err(error) => match error.kind() {
            ErrorKind::DisplayHelp => Err(Refusal::Help(error)),
            ErrorKind::DisplayVersion => Err(Refusal::Version),
            ErrorKind::OutOfMemory => Err(Refusal::NoMemory),
            _ => Err(Refusal::BadWords),
        },
    }
}

fn request_of<'a>(matches: &ArgMatches<'a>) -> Option<Request<'a>>
    ensures { option_map asked result ≡ asked_by (subcommand_rows_of matches.now) }
{
    match matches.subcommand() {
        Some((name, values)) => request_in(name, values),
        None => Some(Request::Params(None)),
    }
}

/// The request of a subcommand. `clap` gives a required option a value, so none is missed.
fn request_in<'a>(name: &str, values: &ArgMatches<'a>) -> Option<Request<'a>>
    ensures { option_map asked result ≡ asked_in name.now (rows_of (found_of values.now)) }
{
    if name == "params" {
        Some(Request::Params(value(values, "set")))
    } else if name == "root" {
        Some(Request::Root(value(values, "set")?))
    } else if name == "keygen" {
        keygen_request(values)
    } else {
        request_of_file(name, values)
    }
}

/// The request of a subcommand on a file.
fn request_of_file<'a>(name: &str, values: &ArgMatches<'a>) -> Option<Request<'a>>
    ensures { option_map asked result ≡ asked_of_file name.now (rows_of (found_of values.now)) }
{
    if name == "public" {
        Some(Request::Public(value(values, "key")?))
    } else if name == "check" {
        Some(Request::Check(value(values, "key")?))
    } else if name == "sign" {
        sign_request(values)
    } else if name == "verify" {
        verify_request(values)
    } else if name == "upgrade" {
        Some(Request::Upgrade(value(values, "key")?))
    } else if name == "vectors" {
        vectors_request(values)
    } else {
        None
    }
}

fn keygen_request<'a>(values: &ArgMatches<'a>) -> Option<Request<'a>>
    ensures { option_map asked result ≡ keygen_in (rows_of (found_of values.now)) }
{
    Some(Request::Keygen(KeygenWords {
        set: value(values, "set")?,
        work: work_words(values),
    }))
}

fn vectors_request<'a>(values: &ArgMatches<'a>) -> Option<Request<'a>>
    ensures { option_map asked result ≡ vectors_in (rows_of (found_of values.now)) }
{
    Some(Request::Vectors(value(values, "file")?, number(values, "workers")))
}

fn sign_request<'a>(values: &ArgMatches<'a>) -> Option<Request<'a>>
    ensures { option_map asked result ≡ sign_in (rows_of (found_of values.now)) }
{
    Some(Request::Sign(SignWords {
        key: value(values, "key")?,
        message: value(values, "message")?,
        form: form_words(values),
        random: value(values, "random"),
        twice: flag(values, "twice"),
        work: work_words(values),
    }))
}

fn verify_request<'a>(values: &ArgMatches<'a>) -> Option<Request<'a>>
    ensures { option_map asked result ≡ verify_in (rows_of (found_of values.now)) }
{
    Some(Request::Verify(VerifyWords {
        key: value(values, "key")?,
        message: value(values, "message")?,
        signature: value(values, "signature")?,
        form: form_words(values),
    }))
}

fn form_words<'a>(values: &ArgMatches<'a>) -> FormWords<'a>
    ensures { form_asked result ≡ form_in (rows_of (found_of values.now)) }
{
    FormWords {
        context: value(values, "context"),
        prehash: value(values, "prehash"),
    }
}

fn work_words<'a>(values: &ArgMatches<'a>) -> WorkWords<'a>
    ensures { work_asked result ≡ work_in (rows_of (found_of values.now)) }
{
    WorkWords {
        workers: number(values, "workers"),
        xmss: cut_words(values, "xmss-levels", "xmss-cuts"),
        fors: cut_words(values, "fors-levels", "fors-cuts"),
    }
}

fn cut_words<'a>(values: &ArgMatches<'a>, levels: &str, points: &str) -> CutWords<'a>
    ensures { cut_asked result ≡ cut_in levels.now points.now (rows_of (found_of values.now)) }
{
    CutWords {
        levels: u32::from(number(values, levels)),
        points: value(values, points),
    }
}

/// The number that an option has. `clap` gives each of them a default, so there is one.
fn number(values: &ArgMatches, name: &str) -> u8
    ensures { result ≡ number_of name.now (rows_of (found_of values.now)) }
{
    values.get_one::<u8>(name).unwrap_or(0)
}

/// Whether a flag is given. `clap` gives each of them a default, so there is a value.
fn flag(values: &ArgMatches, name: &str) -> bool
    ensures { result ≡ flag_of name.now (rows_of (found_of values.now)) }
{
    values.get_one::<bool>(name).unwrap_or(false)
}

/// The value of an option.
fn value<'a>(values: &ArgMatches<'a>, name: &str) -> Option<&'a str>
    ensures { option_map (λ s. s.now) result ≡ first_of name.now (rows_of (found_of values.now)) }
{
    values.get_str(name)
}
