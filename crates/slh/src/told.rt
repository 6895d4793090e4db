//! Standard error, with a copy of the first bytes that were written to it.
use slh_io::{Sink, WriteFault, Writer};
use std::io::Write;

/// Room for the number of a refusal, which stands in the first ten bytes of its line.
const KEPT: usize = 16;

/// A sink with a copy of its first bytes. `command` returns a status alone, and the line that it writes has the number
/// of the refusal.
#[derive(Drop)]
pub(crate) struct Told<W: Write> {
    errors: Writer<W>,
    start: Start,
}

/// The first bytes of a text.
#[derive(Clone, Copy)]
struct Start {
    bytes: [u8; KEPT],
    length: usize,
}

impl Start {
    /// Adds bytes, as far as there is room.
    fn add(&mut self, bytes: &[u8]) {
        for byte in bytes {
            if self.length < KEPT {
                self.bytes[self.length] = *byte;
                self.length += 1;
            }
        }
    }
}

impl<W: Write> Told<W> {
    pub(crate) fn new(writer: W) -> Told<W> {
        Told {
            errors: Writer::new(writer),
            start: Start {
                bytes: [0; KEPT],
                length: 0,
            },
        }
    }

    /// The number of the refusal, if one was written.
    pub(crate) fn number(&self) -> Option<u8> {
        let line = str::from_utf8(self.start.bytes.get(..self.start.length)?).ok()?;
        line.strip_prefix("slh: ")?.split(' ').next()?.parse().ok()
    }
}

impl<W: Write> Sink for Told<W> {
    ghost state = { λ s. record { contents = W.contents s.errors.writer; failures = s.errors.failures } };

    fn put(&mut self, bytes: &[u8]) -> Result<usize, WriteFault> {
        let n = self.errors.put(bytes)?;
        self.start.add(&bytes[..n]);
        Ok(n)
    }
}
