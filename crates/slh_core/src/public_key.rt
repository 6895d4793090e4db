//! Public keys (FIPS 205, section 9.1).
ghost use Rattle.std.specs.Prelude.{◌≡◌, ◌↔◌, IsOk, IfOk, length};
ghost use Rattle.slh_params.specs.Params.{pk_len};
ghost use Rattle.slh_params.specs.ParamSet.{params};
ghost use Rattle.slh_core.specs.Keys.{Key, pk_seed, pk_root};

use crate::fault::KeyFault;
use arrayvec::ArrayVec;
use slh_params::ParamSet;
use std::marker::Model;

/// A public key PK.seed ‖ PK.root of 2n bytes (FIPS 205, section 9.1).
#[derive(Drop)]
pub struct PublicKey {
    set: ParamSet,
    bytes: ArrayVec<u8, 64>,
}

impl Model for PublicKey {
    ghost Value = { Key };

    ghost view = { λ key. record { set = key.set; bytes = key.bytes.items } };

    ghost invariant = { λ key. length key.bytes.items ≡ pk_len (params key.set) };
}

impl PublicKey {
    /// The key of these bytes. Refused if they are not `pk_len`.
    pub fn from_bytes(set: ParamSet, bytes: &[u8]) -> Result<PublicKey, KeyFault>
        ensures accepted { IsOk result ↔ (length bytes.now ≡ pk_len (params set)) }
        ensures key { IfOk result (λ key. key ≡ record { set = set; bytes = bytes.now }) }
    {
        if bytes.len() != set.pk_len() {
            return Err(KeyFault::BadLength);
        }
        Ok(PublicKey::of(set, bytes))
    }

    /// The key of these bytes, as many as the set asks for.
    pub(crate) fn of(set: ParamSet, bytes: &[u8]) -> PublicKey
        requires { length bytes.now ≡ pk_len (params set) }
        ensures { result ≡ record { set = set; bytes = bytes.now } }
    {
        let mut copy = ArrayVec::new();
        let _ = copy.try_extend_from_slice(bytes);
        PublicKey { set, bytes: copy }
    }

    /// The key's parameter set.
    pub fn set(&self) -> ParamSet
        ensures { result ≡ self.now.set }
    {
        self.set
    }

    /// The key as bytes.
    pub fn bytes(&self) -> &[u8]
        ensures value { result.now ≡ self.now.bytes }
        ensures len { length result.now ≡ pk_len (params self.now.set) }
    {
        self.bytes.as_slice()
    }

    /// PK.seed, n bytes.
    pub fn pk_seed(&self) -> &[u8]
        ensures value { result.now ≡ pk_seed self.now }
        ensures len { length result.now ≡ (params self.now.set).n }
    {
        &self.bytes()[..self.set.n()]
    }

    /// PK.root, n bytes.
    pub fn pk_root(&self) -> &[u8]
        ensures value { result.now ≡ pk_root self.now }
        ensures len { length result.now ≡ (params self.now.set).n }
    {
        &self.bytes()[self.set.n()..]
    }
}
