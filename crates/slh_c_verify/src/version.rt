//! The export of the version (ours).
ghost use Rattle.std.specs.Prelude.{◌≡◌};

/// The library's version, that of the file `VERSION`, as one number: 1,000,000 times its first part, 1,000 times its
/// second, and its third.
#[unsafe(no_mangle)]
pub extern "C" fn slh_version() -> u32
    ensures version { result ≡ 1000000 }
{
    1_000_000
}
