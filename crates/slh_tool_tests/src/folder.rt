//! Files in memory, whose bytes contracts know, and whose fetches can fail.
ghost use Rattle.std.specs.Prelude.{◌≡◌, Some, option_map, drop};
ghost use Rattle.slh_tool_tests.specs.Folder.{bytes_in};

use slh_io::{FetchFault, Files, Opener};
use std::io;
use std::io::{Cursor, ErrorKind};

/// Files by name, whose bytes contracts know. A fetch of a name that no file has fails, and so does the fetch of
/// number `fails_at`, counted from 1.
#[derive(Drop)]
pub struct Folder<'a> {
    pub files: &'a [(&'a str, &'a [u8])],
    fetches: u64,
    pub fails_at: u64,
    pub failures: u64,
}

impl<'a> Folder<'a> {
    /// These files, of which no fetch fails.
    pub fn new(files: &'a [(&'a str, &'a [u8])]) -> Folder<'a>
        ensures files { result.files ≡ files.entry }
        ensures failures { result.failures ≡ 0 }
    {
        Folder {
            files,
            fetches: 0,
            fails_at: 0,
            failures: 0,
        }
    }

    /// The bytes of the first file of this name.
    fn bytes_of(&self, path: &str) -> Option<&'a [u8]>
        ensures { option_map (λ bytes. bytes.now) result ≡ bytes_in self.now.files.now path.now }
    {
        let (_, bytes) = self.files.iter().find(|(name, _)| *name == path)?;
        Some(*bytes)
    }
}

/// The same files, as open ones hand out their bytes.
impl<'a> Opener for Folder<'a> {
    type File = Cursor<&'a [u8]>;

    ghost bytes_at = { λ s. bytes_in s.files.now };

    ghost left = { λ folder path whole known f bytes at of_bytes of_position. cc };

    fn open(&self, path: &str) -> io::Result<Cursor<&'a [u8]>> {
        match self.bytes_of(path) {
            Some(bytes) => Ok(Cursor::new(bytes)),
            None => Err(io::Error::from(ErrorKind::NotFound)),
        }
    }
}

impl Files for Folder<'_> {
    ghost state = { λ s. record { bytes_at = bytes_in s.files.now; failures = s.failures } };

    fn fetch(&mut self, path: &str, at: u64, out: &mut [u8]) -> Result<usize, FetchFault> {
        self.fetches = self.fetches.saturating_add(1);
        if self.fetches != self.fails_at {
            if let Some(bytes) = self.bytes_of(path) {
                let from = (at as usize).min(bytes.len());
                let n = out.len().min(bytes.len() - from);
                out[..n].copy_from_slice(&bytes[from..from + n]);
                return Ok(n);
            }
        }
        self.failures = self.failures.saturating_add(1);
        Err(FetchFault)
    }
}
