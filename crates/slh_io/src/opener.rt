//! The trait of an opener of files, and the system's files as one.
ghost use Rattle.std.specs.Prelude.{◌≡◌, ℕ, List, Option, Some, None, IfOk, drop};
ghost use Rattle.slh_io.specs.Places.{IsOpened};

use std::fs::File;
use std::io::{Read, Seek};
use std::{io, rt};

/// An opener of files by their paths.
pub trait Opener {
    type File: Read + Seek + Drop;

    // The bytes of the file at a path, if they are known.
    ghost bytes_at: { Self → List ℕ → Option (List ℕ) };

    /// Opens the file at `path` for reading, at its first byte.
    fn open(&self, path: &str) -> io::Result<Self::File>
        ensures { IfOk result (λ f.
            IsOpened (bytes_at self.now path.now) (Self.File.stream_position f) (Self.File.stream_bytes f)) };

    // If bytes are known, the rest of an open file is its bytes from its position on.
    ghost left: { (opener : Self) (path whole : List ℕ) → bytes_at opener path ≡ Some whole
        → (f : Self.File) (bytes : List ℕ) (at : ℕ)
        → Self.File.stream_bytes f ≡ Some bytes → Self.File.stream_position f ≡ Some at
        → Self.File.remaining f ≡ Some (drop at bytes) };
}

/// The files of the system. Contracts know none of their bytes.
impl<R: rt::Files> Opener for &R {
    type File = R::File;

    ghost bytes_at = { λ _ _. None };

    ghost left = { λ opener path whole known. cc };

    fn open(&self, path: &str) -> io::Result<R::File> {
        File::open(*self, path)
    }
}
