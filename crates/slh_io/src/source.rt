//! Sources of bytes, and reading a buffer full.
ghost use Rattle.std.specs.Prelude.{◌≡◌, ◌<◌, ◌≤◌, length, take, IfOk};
ghost use Rattle.std.specs.Io.KnownBytes.{Consumes, IsAtEnd, ReadConsumes};
ghost use Rattle.slh_io.specs.Devices.{CountsFailure, SourceState, TakesAtMost};

use super::retry::read_again;
use std::io::Read;

/// A read that failed.
#[derive(Clone, Copy, Debug, PartialEq, Eq)]
pub struct FetchFault;

/// A source, which gives bytes in any pieces.
pub trait Source {
    // The state of the source, for contracts.
    ghost state: { Self → SourceState };

    /// Writes the next bytes to the beginning of `out`, and returns their number: 0 only at the end, or if `out` is
    /// empty.
    fn take(&mut self, out: &mut [u8]) -> Result<usize, FetchFault>
        ensures count { IfOk result (λ n. n ≤ length out.new) }
        ensures bytes { ReadConsumes (state self.old).left (state self.new).left result out.new }
        ensures failed { CountsFailure (state self.old).failures (state self.new).failures result };
}

/// Fills the buffer, or takes the rest if that is less, and returns the number of bytes. It refuses if a read failed.
pub fn take_up_to<S: Source>(input: &mut S, room: &mut [u8]) -> Result<usize, FetchFault>
    ensures count { IfOk result (λ n. n ≤ length room.new) }
    ensures bytes { IfOk result (λ n. Consumes (S.state input.old).left (S.state input.new).left (take n room.new)) }
    ensures end { IfOk result (λ n. n < length room.new → IsAtEnd (S.state input.new).left) }
    ensures at_most { TakesAtMost (S.state input.old).left (S.state input.new).left (length room.new) }
    ensures failed { CountsFailure (S.state input.old).failures (S.state input.new).failures result }
{
    let mut at = 0;
    while at < room.len() {
        let n = input.take(&mut room[at..])?;
        if n == 0 {
            break;
        }
        at += n;
    }
    Ok(at)
}

/// A reader that counts its failures. A read that a signal interrupts is tried again.
#[derive(Drop)]
pub struct Reader<R> {
    pub reader: R,
    pub failures: u64,
}

impl<R> Reader<R> {
    /// The reader, with no failure so far.
    pub fn new(reader: R) -> Reader<R>
        ensures reader { result.reader ≡ reader }
        ensures failures { result.failures ≡ 0 }
    {
        Reader {
            reader,
            failures: 0,
        }
    }
}

impl<R: Read> Source for Reader<R> {
    ghost state = { λ s. record { left = R.remaining s.reader; failures = s.failures } };

    fn take(&mut self, out: &mut [u8]) -> Result<usize, FetchFault> {
        match read_again(&mut self.reader, out) {
            Ok(n) => Ok(n),
            Err(_) => {
                self.failures = self.failures.saturating_add(1);
                Err(FetchFault)
            }
        }
    }
}
