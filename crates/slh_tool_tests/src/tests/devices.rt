//! A file and an input that never end, and an input and an output that fail.
ghost use Rattle.std.specs.Prelude.{None};

pub(super) use crate::Folder;
use slh_io::{FetchFault, Files, Sink, Source, WriteFault};

/// A file of zeros that never ends, beside those of a folder.
#[derive(Drop)]
pub(super) struct WithEndlessFile<'a> {
    pub(super) folder: Folder<'a>,
    pub(super) name: &'a str,
}

impl Files for WithEndlessFile<'_> {
    ghost state = { λ s. record { bytes_at = λ _. None; failures = s.folder.failures } };

    fn fetch(&mut self, path: &str, at: u64, out: &mut [u8]) -> Result<usize, FetchFault> {
        if path == self.name {
            return Ok(out.len());
        }
        self.folder.fetch(path, at, out)
    }
}

/// An input of digits that never ends, which counts the bytes that it handed out.
#[derive(Drop)]
pub(super) struct Endless {
    pub(super) taken: u64,
}

impl Source for Endless {
    ghost state = { λ _. record { left = None; failures = 0 } };

    fn take(&mut self, out: &mut [u8]) -> Result<usize, FetchFault> {
        out.fill(b'0');
        self.taken = self.taken.saturating_add(out.len() as u64);
        Ok(out.len())
    }
}

/// An input that hands out this many digits, one at a time, and then fails.
#[derive(Drop)]
pub(super) struct Broken {
    pub(super) good: u64,
    pub(super) failures: u64,
}

impl Source for Broken {
    ghost state = { λ s. record { left = None; failures = s.failures } };

    fn take(&mut self, out: &mut [u8]) -> Result<usize, FetchFault> {
        if self.good == 0 || out.is_empty() {
            self.failures = self.failures.saturating_add(1);
            return Err(FetchFault);
        }
        self.good -= 1;
        out[0] = b'0';
        Ok(1)
    }
}

/// An output that takes this many bytes and then fails.
#[derive(Drop)]
pub(super) struct Full {
    pub(super) room: usize,
    pub(super) failures: u64,
}

impl Sink for Full {
    ghost state = { λ s. record { contents = None; failures = s.failures } };

    fn put(&mut self, bytes: &[u8]) -> Result<usize, WriteFault> {
        let n = bytes.len().min(self.room);
        if n == 0 && !bytes.is_empty() {
            self.failures = self.failures.saturating_add(1);
            return Err(WriteFault);
        }
        self.room -= n;
        Ok(n)
    }
}

/// An output that stores this many bytes, at most three at a time, and then fails.
#[derive(Drop)]
pub(super) struct Narrow {
    pub(super) taken: Vec<u8>,
    pub(super) room: usize,
    pub(super) failures: u64,
}

impl Sink for Narrow {
    ghost state = { λ s. record { contents = None; failures = s.failures } };

    fn put(&mut self, bytes: &[u8]) -> Result<usize, WriteFault> {
        let n = bytes.len().min(self.room).min(3);
        if (n == 0 && !bytes.is_empty()) || self.taken.extend_from_slice(&bytes[..n]).is_err() {
            self.failures = self.failures.saturating_add(1);
            return Err(WriteFault);
        }
        self.room -= n;
        Ok(n)
    }
}
