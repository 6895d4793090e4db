//! The checkpoints of the chains of one key (ours).
ghost use Rattle.std.specs.Prelude.{◌≡◌};

use std::alloc::Allocator;
use std::marker::Model;

/// The checkpoints of the key that signs on a layer, from which `wots_sign_from_checkpoints` of `slh_few` signs.
/// Contracts see their bytes.
#[derive(Drop)]
pub(crate) struct KeyCheckpoints<A: Allocator> {
    bytes: Vec<u8, A>,
}

impl<A: Allocator> Model for KeyCheckpoints<A> {
    ghost use Rattle.std.specs.Prelude.{ℕ, List};

    ghost Value = { List ℕ };

    ghost view = { λ k. k.bytes.items };
}

impl<A: Allocator> KeyCheckpoints<A> {
    /// These bytes.
    pub(crate) fn new(bytes: Vec<u8, A>) -> KeyCheckpoints<A>
        ensures { result ≡ bytes.items }
    {
        KeyCheckpoints { bytes }
    }

    /// The bytes, `key_checkpoints_len` of `slh_few`.
    pub(crate) fn bytes(&self) -> &[u8]
        ensures { result.now ≡ self.now }
    {
        self.bytes.as_slice()
    }
}
