//! Sinks for bytes, and writing a whole buffer.
ghost use Rattle.std.specs.Prelude.{◌≡◌, ◌<◌, ◌≤◌, length, IfOk, OnOk, OnErr};
ghost use Rattle.std.specs.Io.KnownBytes.{Appends, WriteAppends};
ghost use Rattle.slh_io.specs.Devices.{CountsFailure, LetsThrough, SinkState};

use super::retry::write_again;
use std::io::Write;

/// A write that failed.
#[derive(Clone, Copy, Debug, PartialEq, Eq)]
pub struct WriteFault;

/// A sink, which takes bytes in any pieces.
pub trait Sink {
    // The state of the sink, for contracts.
    ghost state: { Self → SinkState };

    /// Takes a prefix of the bytes, and returns their number; at least one, unless there are none.
    fn put(&mut self, bytes: &[u8]) -> Result<usize, WriteFault>
        ensures count { IfOk result (λ n. n ≤ length bytes.now) }
        ensures some { 0 < length bytes.now → IfOk result (λ n. 0 < n) }
        ensures bytes { WriteAppends (state self.old).contents (state self.new).contents result bytes.now }
        ensures failed { CountsFailure (state self.old).failures (state self.new).failures result };
}

/// Puts all the bytes, or a prefix of them if a write failed.
pub fn put_all<W: Sink>(output: &mut W, bytes: &[u8]) -> Result<(), WriteFault>
    ensures ok { OnOk result (Appends (W.state output.old).contents (W.state output.new).contents bytes.now) }
    ensures err { OnErr result (LetsThrough (W.state output.old).contents (W.state output.new).contents bytes.now) }
    ensures failed { CountsFailure (W.state output.old).failures (W.state output.new).failures result }
{
    let mut at = 0;
    while at < bytes.len() {
        at += output.put(&bytes[at..])?;
    }
    Ok(())
}

/// A writer that counts its failures. A write that a signal interrupts is tried again, and one that takes nothing
/// of bytes that are not empty has failed.
#[derive(Drop)]
pub struct Writer<W> {
    pub writer: W,
    pub failures: u64,
}

impl<W> Writer<W> {
    /// The writer, with no failure so far.
    pub fn new(writer: W) -> Writer<W>
        ensures writer { result.writer ≡ writer }
        ensures failures { result.failures ≡ 0 }
    {
        Writer {
            writer,
            failures: 0,
        }
    }

    /// The writer below.
    pub fn into_inner(self) -> W
        ensures { result ≡ self.writer }
    {
        let Writer {
            writer,
            failures: _,
        } = self;
        writer
    }
}

impl<W: Write> Sink for Writer<W> {
    ghost state = { λ s. record { contents = W.contents s.writer; failures = s.failures } };

    fn put(&mut self, bytes: &[u8]) -> Result<usize, WriteFault> {
        match write_again(&mut self.writer, bytes) {
            Ok(n) => {
                if n > 0 || bytes.is_empty() {
                    return Ok(n);
                }
            }
            Err(_) => {}
        }
        self.failures = self.failures.saturating_add(1);
        Err(WriteFault)
    }
}
