//! The line of a refusal.
ghost use Rattle.std.specs.Prelude.{◌≡◌, ◌++◌};
ghost use Rattle.slh_io.specs.Devices.{CountsFailure, Puts};
ghost use Rattle.slh_tool.specs.Faults.{line, place, place_text};
ghost use Rattle.slh_vectors.specs.Reading.{member_name};

use super::fault::Fault;
use slh_io::{Sink, WriteFault, put_number, put_text};
use slh_vectors::Member;

/// Puts the line of a fault: its number and name, and for a fault in a test of a vector file the place.
pub(crate) fn tell<E: Sink>(errors: &mut E, fault: Fault) -> Result<(), WriteFault>
    ensures puts { Puts (E.state errors.old).contents (E.state errors.new).contents result (line fault) }
    ensures failed { CountsFailure (E.state errors.old).failures (E.state errors.new).failures result }
{
    put_text(errors, fault.head())?;
    put_place(errors, fault)?;
    put_text(errors, "\n")
}

fn put_place<E: Sink>(errors: &mut E, fault: Fault) -> Result<(), WriteFault>
    ensures puts { Puts (E.state errors.old).contents (E.state errors.new).contents result (place fault) }
    ensures failed { CountsFailure (E.state errors.old).failures (E.state errors.new).failures result }
{
    match fault {
        Fault::Missing { test, member } => put_member(errors, test, member),
        Fault::Bad { test, member } => put_member(errors, test, member),
        _ => Ok(()),
    }
}

fn put_member<E: Sink>(errors: &mut E, test: u64, member: Member) -> Result<(), WriteFault>
    ensures puts { Puts (E.state errors.old).contents (E.state errors.new).contents result (place_text test member) }
    ensures failed { CountsFailure (E.state errors.old).failures (E.state errors.new).failures result }
{
    put_number(errors, " test ", test, " member ")?;
    put_text(errors, member.name())
}
