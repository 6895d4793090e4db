//! The kinds and versions of key files.
ghost use Rattle.std.specs.Prelude.{◌≡◌};
ghost use Rattle.slh_params.specs.ParamSet.{params};
ghost use Rattle.slh_key_files.specs.KeyFile.{allows, first_line, key_len, version_of};

use slh_params::ParamSet;

/// Which key a file holds.
#[derive(Clone, Copy, Debug, PartialEq, Eq)]
pub enum KeyKind {
    Public,
    Secret,
}

/// The version of a key file. A file of version 1 has a key of one of the standard's sets.
#[derive(Clone, Copy, Debug, PartialEq, Eq)]
pub(crate) enum Version {
    One,
    Two,
}

impl Version {
    /// Whether a file of this version can have a key of this set.
    pub(crate) fn allows(self, set: ParamSet) -> bool
        ensures { result ≡ allows self set }
    {
        match self {
            Version::One => set.is_fips_205(),
            Version::Two => true,
        }
    }
}

impl KeyKind {
    /// The first line of a file of this kind, without its line feed.
    pub(crate) fn first_line(self, version: Version) -> &'static str
        ensures { result.now ≡ first_line self version }
    {
        match (self, version) {
            (KeyKind::Public, Version::One) => "slh-dsa-public 1",
            (KeyKind::Public, Version::Two) => "slh-dsa-public 2",
            (KeyKind::Secret, Version::One) => "slh-dsa-secret 1",
            (KeyKind::Secret, Version::Two) => "slh-dsa-secret 2",
        }
    }

    /// The version that the first line of a file of this kind tells.
    pub(crate) fn version_of(self, line: &[u8]) -> Option<Version>
        ensures { result ≡ version_of self line.now }
    {
        if line == self.first_line(Version::One).as_bytes() {
            Some(Version::One)
        } else if line == self.first_line(Version::Two).as_bytes() {
            Some(Version::Two)
        } else {
            None
        }
    }

    /// The length of a key of this kind in bytes.
    pub fn key_len(self, set: ParamSet) -> usize
        ensures { result ≡ key_len self (params set) }
    {
        match self {
            KeyKind::Public => set.pk_len(),
            KeyKind::Secret => set.sk_len(),
        }
    }
}
