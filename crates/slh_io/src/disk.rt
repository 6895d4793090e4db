//! Files that are read by pieces through an opener, with a count of failures.
ghost use Rattle.std.specs.Prelude.{◌≡◌, ◌↔◌, ◌+◌, ◌<◌, ◌≤◌, ◌^◌, IsTrue, IsOk, IfOk, OnOk, MatchResult, IfSome, IsSomeAnd, length, take};
ghost use Rattle.std.specs.Io.{ReadsAtMost};
ghost use Rattle.std.specs.Io.KnownBytes.{ReadConsumes};
ghost use Rattle.slh_io.specs.Devices.{EndsBy, HasPart};
ghost use Rattle.std.proofs.Props.{props};
ghost use Rattle.slh_io.specs.Places.{IsLeftFrom};

use super::files::Files;
use super::opener::Opener;
use super::retry::read_again;
use super::source::FetchFault;
use arrayvec::ArrayVec;
use std::io;
use std::io::{ErrorKind, Read, Seek, SeekFrom};

/// The files that something opens, with a count of the failures. `&rt` opens those of the system.
///
/// A file stays open from one fetch to the next, so that one which can only be read forwards, as a pipe, is read too.
#[derive(Drop)]
pub struct Disk<O: Opener> {
    pub opener: O,
    current: Option<OpenFile<O::File>>,
    pub failures: u64,
    ghost stands: { IfSome current (λ f.
        IsLeftFrom (O.bytes_at opener f.path.items) f.at (O.File.remaining f.file)) } by { Prim.hlevel props },
}

/// A file that is open at a place.
#[derive(Drop)]
struct OpenFile<F> {
    path: ArrayVec<u8, 4096>,
    file: F,
    at: u64,
}

impl<F: Read> OpenFile<F> {
    /// Reads on from its place.
    fn read_on(&mut self, out: &mut [u8]) -> io::Result<usize>
        requires within { self.old.at + length out.old ≤ 2 ^ 30 + 1 }
        ensures bound { ReadsAtMost result out.new }
        ensures bytes { ReadConsumes (F.remaining self.old.file) (F.remaining self.new.file) result out.new }
        ensures place { MatchResult result (λ n. self.new.at ≡ self.old.at + n) (λ _. self.new.at ≡ self.old.at) }
        ensures path { self.new.path ≡ self.old.path }
    {
        let n = read_again(&mut self.file, out)?;
        self.at += n as u64;
        Ok(n)
    }
}

impl<O: Opener> Disk<O> {
    /// The files that this opens, with no failure so far.
    pub fn new(opener: O) -> Disk<O>
        ensures opener { result.opener ≡ opener }
        ensures failures { result.failures ≡ 0 }
    {
        Disk {
            opener,
            current: None,
            failures: 0,
        }
    }

    /// Reads the file at `path` from place `at` on. A read that begins at the end of the last one continues it.
    fn read(&mut self, path: &str, at: u64, out: &mut [u8]) -> io::Result<usize>
        requires within { at + length out.old ≤ 2 ^ 30 + 1 }
        ensures bound { ReadsAtMost result out.new }
        ensures bytes { IfOk result (λ n. HasPart (O.bytes_at self.old.opener path.now) at (take n out.new)) }
        ensures end { IfOk result (λ n. n ≡ 0 → 0 < length out.new → EndsBy (O.bytes_at self.old.opener path.now) at) }
        // The next read of the file begins at the end of this one.
        ensures place { IfOk result (λ n.
            IsSomeAnd self.new.current (λ f. (f.path.items ≡ path.now) × (f.at ≡ at + n))) }
        // If the file is open at that place, it is not opened again.
        ensures goes_on { IfSome self.old.current (λ f. f.path.items ≡ path.now → f.at ≡ at → 0 < at
            → IsSomeAnd self.new.current (λ g.
            ReadConsumes (O.File.remaining f.file) (O.File.remaining g.file) result out.new)) }
        ensures same { self.new.opener ≡ self.old.opener }
        ensures failures { self.new.failures ≡ self.old.failures }
    {
        self.go_to(path, at)?;
        match &mut self.current {
            Some(open) => open.read_on(out),
            None => unreachable!(),
        }
    }

    /// Opens the file at `path` at place `at`, unless it is open there.
    fn go_to(&mut self, path: &str, at: u64) -> io::Result<()>
        ensures there { OnOk result (IsSomeAnd self.new.current (λ f. (f.path.items ≡ path.now) × (f.at ≡ at))) }
        ensures kept { IfSome self.old.current (λ f. f.path.items ≡ path.now → f.at ≡ at → 0 < at
            → (self.new ≡ self.old) × IsOk result) }
        ensures same { self.new.opener ≡ self.old.opener }
        ensures failures { self.new.failures ≡ self.old.failures }
    {
        if !self.is_at(path, at) {
            self.current = Some(open_at(&self.opener, path, at)?);
        }
        Ok(())
    }

    /// Whether the file at `path` is open at place `at`, which is not its start.
    fn is_at(&self, path: &str, at: u64) -> bool
        ensures { IsTrue result
            ↔ ((0 < at) × IsSomeAnd self.now.current (λ f. (f.path.items ≡ path.now) × (f.at ≡ at))) }
    {
        match &self.current {
            Some(open) => at > 0 && open.at == at && open.path.as_slice() == path.as_bytes(),
            None => false,
        }
    }
}

impl<O: Opener> Files for Disk<O> {
    ghost state = { λ s. record { bytes_at = O.bytes_at s.opener; failures = s.failures } };

    fn fetch(&mut self, path: &str, at: u64, out: &mut [u8]) -> Result<usize, FetchFault> {
        match self.read(path, at, out) {
            Ok(n) => Ok(n),
            Err(_) => {
                self.failures = self.failures.saturating_add(1);
                Err(FetchFault)
            }
        }
    }
}

/// Opens the file at `path` and goes to place `at`.
fn open_at<O: Opener>(opener: &O, path: &str, at: u64) -> io::Result<OpenFile<O::File>>
    ensures path { IfOk result (λ f. f.path.items ≡ path.now) }
    ensures at { IfOk result (λ f. f.at ≡ at) }
    ensures left { IfOk result (λ f. IsLeftFrom (O.bytes_at opener.now path.now) at (O.File.remaining f.file)) }
{
    let mut file = opener.open(path)?;
    if at > 0 {
        file.seek(SeekFrom::Start(at))?;
    }
    let mut copy = ArrayVec::new();
    if copy.try_extend_from_slice(path.as_bytes()).is_err() {
        return Err(io::Error::from(ErrorKind::InvalidInput));
    }
    Ok(OpenFile {
        path: copy,
        file,
        at,
    })
}
