//! Files that a test defines, as a runtime opens them.
use std::alloc::Allocator;
use std::cell::Cell;
use std::fs::{Metadata, OpenFile, OpenOptions};
use std::io;
use std::io::{ErrorKind, Read, Seek, SeekFrom, Write};
use std::rt::Files;

/// How files are read.
#[derive(Clone, Copy)]
pub(super) struct Ways {
    /// The read of this number fails, counted from 1 over all files; at 0 none.
    pub(super) fails_at: u64,
    /// A read gives at most this many bytes.
    pub(super) most: usize,
    /// Each other read is interrupted by a signal.
    pub(super) is_interrupted: bool,
    /// A file can only be read forwards.
    pub(super) is_pipe: bool,
}

/// Files that are read whole, in large pieces.
pub(super) const PLAIN: Ways = Ways {
    fails_at: 0,
    most: usize::MAX,
    is_interrupted: false,
    is_pipe: false,
};

/// How often files were opened and read.
#[derive(Drop)]
pub(super) struct Counts {
    pub(super) opens: Cell<u64>,
    pub(super) reads: Cell<u64>,
}

impl Counts {
    pub(super) fn new() -> Counts {
        Counts {
            opens: Cell::new(0),
            reads: Cell::new(0),
        }
    }
}

/// Adds one, and gives the sum.
fn next(count: &Cell<u64>) -> u64 {
    let number = count.get().saturating_add(1);
    count.set(number);
    number
}

/// A runtime that has only these files.
#[derive(Drop)]
pub(super) struct OwnFiles<'f, 'c> {
    pub(super) files: &'f [(&'f str, &'f [u8])],
    pub(super) ways: Ways,
    pub(super) counts: &'c Counts,
}

#[derive(Drop)]
pub(super) struct OwnFile<'f, 'c> {
    left: &'f [u8],
    whole: &'f [u8],
    ways: Ways,
    counts: &'c Counts,
}

impl Read for OwnFile<'_, '_> {
    fn read(&mut self, out: &mut [u8]) -> io::Result<usize> {
        let number = next(&self.counts.reads);
        if number == self.ways.fails_at {
            return Err(io::Error::from(ErrorKind::InvalidData));
        }
        if self.ways.is_interrupted && number % 2 == 1 {
            return Err(io::Error::from(ErrorKind::Interrupted));
        }
        let n = out.len().min(self.ways.most).min(self.left.len());
        let (part, rest) = self.left.split_at(n);
        out[..n].copy_from_slice(part);
        self.left = rest;
        Ok(n)
    }
}

fn unsupported<T>() -> io::Result<T> {
    Err(io::Error::from(ErrorKind::Unsupported))
}

impl Seek for OwnFile<'_, '_> {
    fn seek(&mut self, to: SeekFrom) -> io::Result<u64> {
        match to {
            SeekFrom::Start(at) if !self.ways.is_pipe => {
                let from = (at as usize).min(self.whole.len());
                self.left = &self.whole[from..];
                Ok(at)
            }
            _ => unsupported(),
        }
    }
}

impl Write for OwnFile<'_, '_> {
    fn write(&mut self, _bytes: &[u8]) -> io::Result<usize> {
        Err(io::Error::from(ErrorKind::Unsupported))
    }

    fn flush(&mut self) -> io::Result<()> {
        unsupported()
    }
}

impl OpenFile for OwnFile<'_, '_> {
    fn metadata(&self) -> io::Result<Metadata> {
        unsupported()
    }

    fn set_len(&self, _size: u64) -> io::Result<()> {
        unsupported()
    }

    fn sync_all(&self) -> io::Result<()> {
        unsupported()
    }

    fn sync_data(&self) -> io::Result<()> {
        unsupported()
    }
}

impl<'f, 'c> Files for OwnFiles<'f, 'c> {
    type File = OwnFile<'f, 'c>;

    type Dir = &'static [u8];

    fn open_file(&self, _how: &OpenOptions, path: &str) -> io::Result<OwnFile<'f, 'c>> {
        for (name, bytes) in self.files {
            if *name == path {
                next(&self.counts.opens);
                return Ok(OwnFile {
                    left: bytes,
                    whole: bytes,
                    ways: self.ways,
                    counts: self.counts,
                });
            }
        }
        Err(io::Error::from(ErrorKind::NotFound))
    }

    fn open_dir(&self, _path: &str) -> io::Result<&'static [u8]> {
        unsupported()
    }

    fn metadata(&self, _path: &str) -> io::Result<Metadata> {
        unsupported()
    }

    fn symlink_metadata(&self, _path: &str) -> io::Result<Metadata> {
        unsupported()
    }

    fn copy(&self, _from: &str, _to: &str) -> io::Result<u64> {
        unsupported()
    }

    fn rename(&self, _from: &str, _to: &str) -> io::Result<()> {
        unsupported()
    }

    fn remove_file(&self, _path: &str) -> io::Result<()> {
        unsupported()
    }

    fn create_dir(&self, _path: &str) -> io::Result<()> {
        unsupported()
    }

    fn remove_dir(&self, _path: &str) -> io::Result<()> {
        unsupported()
    }

    fn remove_dir_all<B: Allocator>(&self, _alloc: B, _path: &str) -> io::Result<()> {
        unsupported()
    }
}
