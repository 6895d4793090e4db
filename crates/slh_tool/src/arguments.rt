//! The command line of the program `slh`, as a command of `clap`.
ghost use Rattle.std.specs.Prelude.{◌≡◌, [], IfOk};
ghost use Rattle.clap.specs.Words.{Shape, app_of, with_subcommand};
ghost use Rattle.slh_tool.specs.Arguments.{CommandIs, no_command, subcommand};
ghost use Rattle.slh_tool.specs.Arguments.{check_shape, key_app, keygen_shape, message_app, params_shape, public_shape, root_shape, seed_app, sign_shape, slh_app, upgrade_shape, vectors_shape, verify_shape};

use clap::Command;
use options::{message_command, optional, required, with_form, with_safety, with_work, workers};
use std::alloc::{AllocError, Global};

mod options;

/// A subcommand with no options so far, with its purpose and an example.
fn subcommand<'a>(alloc: Global, name: &'a str, about: &'a str, example: &'a str) -> Command<'a>
    ensures { CommandIs (subcommand name.entry.now []) result }
{
    Command::new(alloc, name).about(about).after_help(example)
}

const SET_HELP: &str = "The parameter set: SLH-DSA-SHA2-128s, -128f, -192s,
-192f, -256s or -256f, or custom:n,lg_w,h',d,a,k";

const PARAMS_HELP: &str = "Usual refusals:
  12 UnknownSet    a short name: 128f is SLH-DSA-SHA2-128f.
Refusals: man slh, docs/FORMATS.md
Example: slh params --set SLH-DSA-SHA2-128f";

fn params_command<'a>(alloc: Global) -> Result<Command<'a>, AllocError>
    ensures { IfOk result (CommandIs params_shape) }
{
    subcommand(
        alloc,
        "params",
        "Prints the numbers of one parameter set, or of all",
        PARAMS_HELP,
    )
    .arg(optional(alloc, "set", "NAME", SET_HELP))
}

const ROOT_HELP: &str =
    "The seeds SK.seed, SK.prf and PK.seed are one line of 6n hexadecimal digits:
96 for a 128 set, 144 for a 192 set, 192 for a 256 set.
Usual refusals:
  12 UnknownSet    a short name: 128f is SLH-DSA-SHA2-128f.
  34 BadSeeds      the seeds of another set, or raw bytes.
Refusals: man slh, docs/FORMATS.md
Example: slh root --set SLH-DSA-SHA2-128f < seeds.txt";

fn root_command<'a>(alloc: Global) -> Result<Command<'a>, AllocError>
    ensures { IfOk result (CommandIs root_shape) }
{
    subcommand(
        alloc,
        "root",
        "Prints the public key of the seeds on standard input",
        ROOT_HELP,
    )
    .arg(required(alloc, "set", "NAME", SET_HELP))
}

const KEYGEN_HELP: &str =
    "The seeds SK.seed, SK.prf and PK.seed are one line of 6n hexadecimal digits:
96 for a 128 set, 144 for a 192 set, 192 for a 256 set.
Usual refusals:
  4 BadCutting     levels above the height of the set's trees.
  12 UnknownSet    a short name: 128f is SLH-DSA-SHA2-128f.
  34 BadSeeds      the seeds of another set, or raw bytes.
Refusals: man slh, docs/FORMATS.md
Example: umask 077; set -C
openssl rand -hex 48 | slh keygen --set SLH-DSA-SHA2-128f > secret.key";

fn keygen_command<'a>(alloc: Global) -> Result<Command<'a>, AllocError>
    ensures { IfOk result (CommandIs keygen_shape) }
{
    let command = subcommand(
        alloc,
        "keygen",
        "Writes the secret key file of the seeds on standard input",
        KEYGEN_HELP,
    );
    let command = command.arg(required(alloc, "set", "NAME", SET_HELP))?;
    with_work(alloc, command)
}

const PUBLIC_HELP: &str = "Usual refusals:
  11 NotAKeyFile   a public key, a PEM file, raw bytes, carriage returns.
  32 ReadFailed    a wrong name, or no right to read.
Refusals: man slh, docs/FORMATS.md
Example: slh public --key secret.key > public.key";

fn public_command<'a>(alloc: Global) -> Result<Command<'a>, AllocError>
    ensures { IfOk result (CommandIs public_shape) }
{
    subcommand(
        alloc,
        "public",
        "Writes the public key file of a secret key file",
        PUBLIC_HELP,
    )
    .arg(required(alloc, "key", "FILE", "A secret key file"))
}

const CHECK_HELP: &str = "Usual refusals:
  11 NotAKeyFile   a public key, a PEM file, raw bytes, carriage returns.
  32 ReadFailed    a wrong name, or no right to read.
Refusals: man slh, docs/FORMATS.md
Example: slh check --key secret.key";

fn check_command<'a>(alloc: Global) -> Result<Command<'a>, AllocError>
    ensures { IfOk result (CommandIs check_shape) }
{
    subcommand(
        alloc,
        "check",
        "Checks the root in a secret key file against its seeds",
        CHECK_HELP,
    )
    .arg(required(alloc, "key", "FILE", "A secret key file"))
}

const UPGRADE_HELP: &str = "Usual refusals:
  11 NotAKeyFile   a PEM file, raw bytes, carriage returns.
  32 ReadFailed    a wrong name, or no right to read.
Refusals: man slh, docs/FORMATS.md
Example: umask 077; set -C
slh upgrade --key old.key > new.key";

fn upgrade_command<'a>(alloc: Global) -> Result<Command<'a>, AllocError>
    ensures { IfOk result (CommandIs upgrade_shape) }
{
    subcommand(
        alloc,
        "upgrade",
        "Writes a key file of either version as a key file of version 2",
        UPGRADE_HELP,
    )
    .arg(required(alloc, "key", "FILE", "A public or secret key file"))
}

const SIGN_HELP: &str = "Hardware faults in signing can allow forgeries: use --random and --twice.
Usual refusals:
  11 NotAKeyFile   a public key, a PEM file, raw bytes, carriage returns.
  32 ReadFailed    a wrong name, or no right to read.
  35 BadOption     a randomizer of another set's length, a context of no digits.
Refusals: man slh, docs/FORMATS.md
Example: slh sign --key secret.key --message letter.txt --twice \\
--random \"$(openssl rand -hex 16)\" > letter.sig";

fn sign_command<'a>(alloc: Global) -> Result<Command<'a>, AllocError>
    ensures { IfOk result (CommandIs sign_shape) }
{
    let command = subcommand(
        alloc,
        "sign",
        "Writes the signature of a message",
        SIGN_HELP,
    );
    let command = message_command(alloc, command, "A secret key file")?;
    let command = with_form(alloc, with_safety(alloc, command)?)?;
    with_work(alloc, command)
}

const VERIFY_HELP: &str = "Usual refusals:
  11 NotAKeyFile   a secret key, a PEM file, raw bytes, or the signature.
  32 ReadFailed    a wrong name, or no right to read.
Refusals: man slh, docs/FORMATS.md
Example: slh verify --key public.key --message letter.txt --signature letter.sig";

fn verify_command<'a>(alloc: Global) -> Result<Command<'a>, AllocError>
    ensures { IfOk result (CommandIs verify_shape) }
{
    let command = subcommand(
        alloc,
        "verify",
        "Verifies the signature of a message",
        VERIFY_HELP,
    );
    let command = message_command(alloc, command, "A public key file")?.arg(required(
        alloc,
        "signature",
        "FILE",
        "The raw signature",
    ))?;
    with_form(alloc, command)
}

const VECTORS_HELP: &str = "Usual refusals:
  21 NotJson       a file that was cut off, or bytes after its value.
  24 Bad           a member that is not as docs/FORMATS.md says.
  32 ReadFailed    a wrong name, or no right to read.
Refusals: man slh, docs/FORMATS.md
Example: slh vectors --file tests/vectors/smoke-128f.json";

fn vectors_command<'a>(alloc: Global) -> Result<Command<'a>, AllocError>
    ensures { IfOk result (CommandIs vectors_shape) }
{
    subcommand(
        alloc,
        "vectors",
        "Runs the tests of a vector file and reports on them",
        VECTORS_HELP,
    )
    .arg(required(alloc, "file", "FILE", "A vector file"))?
    .arg(workers(alloc))
}

const STATUS_HELP: &str = "Exit status: 0 for done, valid, consistent or all tests passed;
1 for invalid, inconsistent or a failed test; 2 for a refusal, which writes
`slh: NUMBER NAME` to standard error, and to a terminal also the cause.
The man page and docs/FORMATS.md have a table of refusals, with usual causes.";

/// That of the file `VERSION`.
const VERSION: &str = "1.0.0";

const ABOUT: &str = "slh 1.0.0: keys and signatures of SLH-DSA (FIPS 205) with SHA-2";

/// The program with no subcommand so far, with its version, its purpose and the end of its help.
fn no_command<'a>(
    alloc: Global,
    version: &'a str,
    about: &'a str,
    help: &'a str,
) -> Result<Command<'a>, AllocError>
    ensures { IfOk result (λ c. app_of c ≡ no_command) }
{
    Command::new(alloc, "slh")
        .no_binary_name(true)
        .version(version)
        .about(about)
        .after_help(help)
        .bin_name("slh")
}

/// The program with one more subcommand, if that was made.
fn with_subcommand<'a>(
    program: Command<'a>,
    made: Result<Command<'a>, AllocError>,
) -> Result<Command<'a>, AllocError>
    ensures { (s : Shape) → IfOk made.entry (CommandIs s)
        → IfOk result (λ c. app_of c ≡ with_subcommand (app_of program.entry) s) }
{
    program.subcommand(made?)
}

/// The program with the commands that take no key file.
fn seed_commands<'a>(alloc: Global) -> Result<Command<'a>, AllocError>
    ensures { IfOk result (λ c. app_of c ≡ seed_app) }
{
    let program = no_command(alloc, VERSION, ABOUT, STATUS_HELP)?;
    let program = with_subcommand(program, params_command(alloc))?;
    let program = with_subcommand(program, root_command(alloc))?;
    with_subcommand(program, keygen_command(alloc))
}

/// The program with `public` and `sign` too.
fn message_commands<'a>(alloc: Global) -> Result<Command<'a>, AllocError>
    ensures { IfOk result (λ c. app_of c ≡ message_app) }
{
    let program = with_subcommand(seed_commands(alloc)?, public_command(alloc))?;
    with_subcommand(program, sign_command(alloc))
}

/// The program with all commands on key files.
fn key_commands<'a>(alloc: Global) -> Result<Command<'a>, AllocError>
    ensures { IfOk result (λ c. app_of c ≡ key_app) }
{
    let program = with_subcommand(message_commands(alloc)?, verify_command(alloc))?;
    let program = with_subcommand(program, check_command(alloc))?;
    with_subcommand(program, upgrade_command(alloc))
}

/// The program `slh` with its subcommands, as a command of `clap` that is not built yet.
pub fn slh_command<'a>(alloc: Global) -> Result<Command<'a>, AllocError>
    ensures { IfOk result (λ c. app_of c ≡ slh_app) }
{
    with_subcommand(key_commands(alloc)?, vectors_command(alloc))
}
