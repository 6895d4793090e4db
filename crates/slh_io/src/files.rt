//! The trait of files that are read by pieces.
ghost use Rattle.std.specs.Prelude.{◌≡◌, ◌+◌, ◌<◌, ◌≤◌, ◌^◌, length, take, IfOk};
ghost use Rattle.slh_io.specs.Devices.{CountsFailure, FilesState, HasPart, EndsBy};

use super::source::FetchFault;

/// Files that are read by pieces.
pub trait Files {
    // The state of the files, for contracts.
    ghost state: { Self → FilesState };

    /// Writes the bytes of the file at `path` from place `at` on to the beginning of `out`, and returns their number.
    /// It is 0 only at the end of the file, or if `out` is empty.
    fn fetch(&mut self, path: &str, at: u64, out: &mut [u8]) -> Result<usize, FetchFault>
        requires within { at + length out.old ≤ 2 ^ 30 + 1 }
        ensures count { IfOk result (λ n. n ≤ length out.new) }
        ensures bytes { IfOk result (λ n. HasPart ((state self.old).bytes_at path.now) at (take n out.new)) }
        ensures end { IfOk result (λ n. n ≡ 0 → 0 < length out.new → EndsBy ((state self.old).bytes_at path.now) at) }
        ensures same { (state self.new).bytes_at ≡ (state self.old).bytes_at }
        ensures failed { CountsFailure (state self.old).failures (state self.new).failures result };
}
