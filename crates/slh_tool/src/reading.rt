//! Reads files by pieces, up to their limits.
ghost use Rattle.std.specs.Prelude.{◌≡◌, ℕ, ◌+◌, ◌≤◌, ◌^◌, List, ◌++◌, [], length, take, IfOk, IfErr, OnOk};
ghost use Rattle.slh_core.specs.Keys.{Key};
ghost use Rattle.slh_core.specs.PreHashing.{HasFed};
ghost use Rattle.slh_core.specs.Verifying.{IsVerifierOf};
ghost use Rattle.slh_core.specs.declared.pre_hash.PreHash.{PreHash};
ghost use Rattle.slh_io.specs.Devices.{CountsFailure, EndsBy, HasPart};
ghost use Rattle.slh_key_files.specs.KeyFile.{AreReadAlike, IsKeyFront};
ghost use Rattle.slh_tool.specs.Reading.{AdmitsFailure, AreKeptUnlessFailed, IsDigestOfFile, IsFile, IsFrontOfFile, IsFrontOfKeyFile, IsLater, RefusesFile, file_limit};

use super::fault::Fault;
use slh_core::{MessageDigest, PreHash, PreHasher, Verifier};
use slh_io::{FetchFault, Files};
use slh_key_files::push_key_bytes;
use std::alloc::{AllocError, Allocator};

/// The most bytes that a file may have.
const FILE_LIMIT: usize = 1 << 30;

/// The bytes that are read at a time.
const PIECE: usize = 4096;

/// A receiver of the bytes of a file, a piece at a time.
pub(crate) trait Receiver {
    // That it has received these bytes, put end to end, since it was the first of the two.
    ghost has_received: { Self → Self → List ℕ → Type 0 };

    fn receive(&mut self, piece: &[u8]) -> Result<(), AllocError>
        requires { (begin : Self) × (bytes : List ℕ) × has_received begin self.old bytes }
        ensures { OnOk result ((begin : Self) (bytes : List ℕ) → has_received begin self.old bytes
            → has_received begin self.new (bytes ++ piece.now)) };
}

/// The first bytes of a file, at most `most` of them.
#[derive(Drop)]
struct Front<A: Allocator> {
    bytes: Vec<u8, A>,
    most: usize,
}

impl<A: Allocator> Receiver for Front<A> {
    ghost has_received = { λ begin front bytes. (front.most ≡ begin.most)
        × (front.bytes.items ≡ take begin.most bytes) };

    fn receive(&mut self, piece: &[u8]) -> Result<(), AllocError> {
        let room = self.most - self.bytes.len();
        self.bytes
            .extend_from_slice(&piece[..piece.len().min(room)])
    }
}

/// What the key of a key file depends on, or its first fault.
#[derive(Drop)]
struct KeyFront<A: Allocator> {
    bytes: Vec<u8, A>,
}

impl<A: Allocator> Receiver for KeyFront<A> {
    ghost has_received = { λ begin front bytes. IsKeyFront front.bytes.items × AreReadAlike front.bytes.items bytes };

    fn receive(&mut self, piece: &[u8]) -> Result<(), AllocError> {
        push_key_bytes(&mut self.bytes, piece)
    }
}

impl Receiver for PreHasher {
    ghost has_received = { λ begin hasher bytes. (function : PreHash)
        → HasFed begin function [] → HasFed hasher function bytes };

    fn receive(&mut self, piece: &[u8]) -> Result<(), AllocError> {
        self.update(piece);
        Ok(())
    }
}

impl Receiver for Verifier<'_> {
    ghost has_received = { λ begin verifier bytes. (key : Key) (context signature : List ℕ)
        → IsVerifierOf begin key context signature [] → IsVerifierOf verifier key context signature bytes };

    fn receive(&mut self, piece: &[u8]) -> Result<(), AllocError> {
        self.update(piece);
        Ok(())
    }
}

/// A receiver that stores nothing.
#[derive(Drop)]
struct Nothing;

impl Receiver for Nothing {
    ghost has_received = { λ begin nothing bytes. Unit {0} };

    fn receive(&mut self, _piece: &[u8]) -> Result<(), AllocError> {
        Ok(())
    }
}

/// Hands the bytes of a file to a receiver, of which no more than a piece is held here.
pub(crate) fn read_through<F: Files, R: Receiver>(
    files: &mut F,
    path: &str,
    receiver: &mut R,
) -> Result<(), Fault>
    requires none { R.has_received receiver.old receiver.old [] }
    ensures done { OnOk result ((whole : List ℕ) × IsFile (F.state files.old) path.now whole
        × R.has_received receiver.old receiver.new whole) }
    ensures refused { IfErr result (RefusesFile (F.state files.old) (F.state files.new) path.now) }
    ensures kept { AreKeptUnlessFailed (F.state files.old) (F.state files.new) result }
    ensures admits { IfErr result AdmitsFailure }
    ensures later { IsLater (F.state files.old) (F.state files.new) }
{
    let mut piece = [0; PIECE];
    let mut at = 0;
    while at <= FILE_LIMIT {
        let Ok(part) = next_part(files, path, at, &mut piece) else {
            return Err(Fault::ReadFailed);
        };
        if part.is_empty() {
            return Ok(());
        }
        receiver.receive(part)?;
        at += part.len();
    }
    Err(Fault::FileTooLong)
}

/// The bytes of a file.
pub(crate) fn read_file<A: Allocator, F: Files>(
    alloc: A,
    files: &mut F,
    path: &str,
) -> Result<Vec<u8, A>, Fault>
    ensures done { IfOk result (λ bytes. IsFile (F.state files.old) path.now bytes.items) }
    ensures refused { IfErr result (RefusesFile (F.state files.old) (F.state files.new) path.now) }
    ensures kept { AreKeptUnlessFailed (F.state files.old) (F.state files.new) result }
{
    read_front(alloc, files, path, FILE_LIMIT)
}

/// The first bytes of a file, `most` of them and one more. The others are read, but not held.
pub(crate) fn read_front<A: Allocator, F: Files>(
    alloc: A,
    files: &mut F,
    path: &str,
    most: usize,
) -> Result<Vec<u8, A>, Fault>
    requires most { most ≤ file_limit }
    ensures done { IfOk result (λ bytes. IsFrontOfFile (F.state files.old) path.now most bytes.items) }
    ensures refused { IfErr result (RefusesFile (F.state files.old) (F.state files.new) path.now) }
    ensures kept { AreKeptUnlessFailed (F.state files.old) (F.state files.new) result }
    ensures later { IsLater (F.state files.old) (F.state files.new) }
{
    let mut front = Front {
        bytes: Vec::new(alloc),
        most: most + 1,
    };
    read_through(files, path, &mut front)?;
    Ok(front.bytes)
}

/// Reads a file only for its refusal: nothing of it is stored.
pub(crate) fn read_past<F: Files>(files: &mut F, path: &str) -> Result<(), Fault>
    ensures done { OnOk result ((whole : List ℕ) × IsFile (F.state files.old) path.now whole) }
    ensures refused { IfErr result (RefusesFile (F.state files.old) (F.state files.new) path.now) }
    ensures kept { AreKeptUnlessFailed (F.state files.old) (F.state files.new) result }
    ensures admits { IfErr result AdmitsFailure }
{
    read_through(files, path, &mut Nothing)
}

/// The bytes that decide the key of a key file, or its first fault. The other bytes are read, but not stored.
pub(crate) fn read_key_file<A: Allocator, F: Files>(
    alloc: A,
    files: &mut F,
    path: &str,
) -> Result<Vec<u8, A>, Fault>
    ensures done { IfOk result (λ bytes. IsFrontOfKeyFile (F.state files.old) path.now bytes.items) }
    ensures refused { IfErr result (RefusesFile (F.state files.old) (F.state files.new) path.now) }
    ensures kept { AreKeptUnlessFailed (F.state files.old) (F.state files.new) result }
{
    let mut front = KeyFront {
        bytes: Vec::new(alloc),
    };
    read_through(files, path, &mut front)?;
    Ok(front.bytes)
}

/// The digest of a file, of which no more than a piece is held.
pub(crate) fn digest_file<F: Files>(
    files: &mut F,
    path: &str,
    function: PreHash,
) -> Result<MessageDigest, Fault>
    ensures done { IfOk result (λ digest. IsDigestOfFile (F.state files.old) path.now function digest) }
    ensures refused { IfErr result (RefusesFile (F.state files.old) (F.state files.new) path.now) }
    ensures kept { AreKeptUnlessFailed (F.state files.old) (F.state files.new) result }
{
    let mut hasher = PreHasher::new(function);
    read_through(files, path, &mut hasher)?;
    Ok(hasher.finish())
}

/// The next bytes of a file from a place on: none at its end, and none past the limit but one.
fn next_part<'p, F: Files>(
    files: &mut F,
    path: &str,
    at: usize,
    piece: &'p mut [u8; PIECE],
) -> Result<&'p [u8], FetchFault>
    requires within { at ≤ file_limit }
    ensures part { IfOk result (λ part. HasPart ((F.state files.old).bytes_at path.now) at part.now) }
    ensures end { IfOk result (λ part. length part.now ≡ 0 → EndsBy ((F.state files.old).bytes_at path.now) at) }
    ensures count { IfOk result (λ part. at + length part.now ≤ file_limit + 1) }
    ensures same { (F.state files.new).bytes_at ≡ (F.state files.old).bytes_at }
    ensures failed { CountsFailure (F.state files.old).failures (F.state files.new).failures result }
{
    let room = &mut piece[..PIECE.min(FILE_LIMIT + 1 - at)];
    let n = files.fetch(path, at as u64, room)?;
    Ok(&room[..n])
}
