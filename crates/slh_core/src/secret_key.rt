//! Secret keys (FIPS 205, section 9.1).
ghost use Rattle.std.specs.Prelude.{◌≡◌, ◌++◌, ◌↔◌, IsOk, IfOk, length};
ghost use Rattle.slh_params.specs.Params.{pk_len, sk_len};
ghost use Rattle.slh_params.specs.ParamSet.{params};
ghost use Rattle.slh_core.specs.Keys.{Key, sk_seed, sk_prf, public_of, pk_seed, pk_root};

use crate::fault::KeyFault;
use crate::public_key::PublicKey;
use arrayvec::ArrayVec;
use slh_few::{Seeds, SigningContext};
use slh_params::ParamSet;
use std::marker::Model;

/// A secret key SK.seed ‖ SK.prf ‖ PK.seed ‖ PK.root of 4n bytes (FIPS 205, section 9.1).
#[derive(Drop)]
pub struct SecretKey {
    set: ParamSet,
    bytes: ArrayVec<u8, 128>,
}

impl Model for SecretKey {
    ghost Value = { Key };

    ghost view = { λ key. record { set = key.set; bytes = key.bytes.items } };

    ghost invariant = { λ key. length key.bytes.items ≡ sk_len (params key.set) };
}

impl SecretKey {
    /// The key of these bytes. Refused if they are not `sk_len`; whether PK.root belongs to the seeds is not looked at.
    pub fn from_bytes(set: ParamSet, bytes: &[u8]) -> Result<SecretKey, KeyFault>
        ensures accepted { IsOk result ↔ (length bytes.now ≡ sk_len (params set)) }
        ensures key { IfOk result (λ key. key ≡ record { set = set; bytes = bytes.now }) }
    {
        if bytes.len() != set.sk_len() {
            return Err(KeyFault::BadLength);
        }
        let mut copy = ArrayVec::new();
        let _ = copy.try_extend_from_slice(bytes);
        Ok(SecretKey { set, bytes: copy })
    }

    /// The key of these parts, each of n bytes; whether PK.root belongs to the seeds is not looked at.
    pub fn from_parts(
        set: ParamSet,
        sk_seed: &[u8],
        sk_prf: &[u8],
        pk_seed: &[u8],
        pk_root: &[u8],
    ) -> SecretKey
        requires sk_seed { length sk_seed.now ≡ (params set).n }
        requires sk_prf { length sk_prf.now ≡ (params set).n }
        requires pk_seed { length pk_seed.now ≡ (params set).n }
        requires pk_root { length pk_root.now ≡ (params set).n }
        ensures { result ≡ record { set = set; bytes = sk_seed.now ++ sk_prf.now ++ pk_seed.now ++ pk_root.now } }
    {
        let mut bytes = ArrayVec::new();
        let _ = bytes.try_extend_from_slice(sk_seed);
        let _ = bytes.try_extend_from_slice(sk_prf);
        let _ = bytes.try_extend_from_slice(pk_seed);
        let _ = bytes.try_extend_from_slice(pk_root);
        SecretKey { set, bytes }
    }

    /// The key's parameter set.
    pub fn set(&self) -> ParamSet
        ensures { result ≡ self.now.set }
    {
        self.set
    }

    /// The key as bytes.
    pub fn bytes(&self) -> &[u8]
        ensures value { result.now ≡ self.now.bytes }
        ensures len { length result.now ≡ sk_len (params self.now.set) }
    {
        self.bytes.as_slice()
    }

    /// SK.seed, n bytes.
    pub fn sk_seed(&self) -> &[u8]
        ensures value { result.now ≡ sk_seed self.now }
        ensures len { length result.now ≡ (params self.now.set).n }
    {
        &self.bytes()[..self.set.n()]
    }

    /// SK.prf, n bytes.
    pub fn sk_prf(&self) -> &[u8]
        ensures value { result.now ≡ sk_prf self.now }
        ensures len { length result.now ≡ (params self.now.set).n }
    {
        let n = self.set.n();
        &self.bytes()[n..2 * n]
    }

    /// PK.seed ‖ PK.root, 2n bytes.
    pub fn public_bytes(&self) -> &[u8]
        ensures value { result.now ≡ (public_of self.now).bytes }
        ensures len { length result.now ≡ pk_len (params self.now.set) }
    {
        &self.bytes()[2 * self.set.n()..]
    }

    /// PK.seed, n bytes.
    pub fn pk_seed(&self) -> &[u8]
        ensures value { result.now ≡ pk_seed (public_of self.now) }
        ensures len { length result.now ≡ (params self.now.set).n }
    {
        &self.public_bytes()[..self.set.n()]
    }

    /// PK.root, n bytes.
    pub fn pk_root(&self) -> &[u8]
        ensures value { result.now ≡ pk_root (public_of self.now) }
        ensures len { length result.now ≡ (params self.now.set).n }
    {
        &self.public_bytes()[self.set.n()..]
    }

    /// SK.seed with the midstates of PK.seed: what the trees of the key are made from.
    pub fn signer(&self) -> SigningContext<'_>
        ensures set { result.public.set ≡ self.now.set }
        ensures sk_seed { result.sk_seed.now ≡ sk_seed self.now }
        ensures pk_seed { result.public.pk_seed.now ≡ pk_seed (public_of self.now) }
    {
        let seeds = Seeds {
            set: self.set,
            sk_seed: self.sk_seed(),
            pk_seed: self.pk_seed(),
        };
        SigningContext::new(&seeds)
    }

    /// The public key that belongs to this key.
    pub fn public(&self) -> PublicKey
        ensures { result ≡ public_of self.now }
    {
        PublicKey::of(self.set, self.public_bytes())
    }
}
