//! SHA-512 of eight messages that come word after word, one in each lane (FIPS 180-4, section 6.4).
ghost use Rattle.std.specs.Prelude.{◌≡◌, ℕ, ◌+◌, ◌*◌, ◌^◌, ◌<◌, ◌≤◌, ◌++◌, List, length, slice_index, take};
ghost use Rattle.std.specs.Int.{to_be_bytes, w32};
ghost use Rattle.sha2.specs.Sha256.{digest_bytes};
ghost use Rattle.sha2.specs.Sha512.{compress, digest_bytes as long_digest_bytes, initial_hash_512, sha512};
ghost use Rattle.slh_params.specs.Address.{Address, compressed};
ghost use Rattle.slh_lanes.specs.Columns.{column};
ghost use Rattle.slh_lanes.specs.LongBlock.{HasLongWords};
ghost use Rattle.slh_lanes.specs.Lanes.{HasAddress};
ghost use Rattle.slh_lanes.specs.Streams.{HoldsLongAt, half_on, long_vectors, vectors};

use crate::eight_blocks::compress_long;
use crate::lane_adrs::LaneAdrs;
use crate::lane_nodes::LaneNodes;
use crate::long_block::LONG_TWEAK_LEN;
use crate::long_words::{LongVector, LongWords, long_word_of_halves};
use crate::short_lanes::ShortLanes;
use crate::short_stream::address_words;
use crate::words::{GROUP, Vector, Words};

/// SHA-512 of eight messages of the same length, as far as they have come.
///
/// Each ends in the middle of a word: after the block of PK.seed come the 22 bytes of an address and then whole words.
#[derive(Clone, Copy)]
pub(crate) struct LongStream {
    pub(crate) state: [LongVector; 8],
    /// Two bytes that come before the last block, and its bytes so far.
    pub(crate) words: [Vector; 33],
    /// The length of each message in bytes, modulo 2^32.
    pub(crate) len: u32,
}

/// The vectors without their structs.
#[inline(always)]
pub(crate) fn bare(state: &[LongVector; 8]) -> [LongWords; 8]
    ensures { result ≡ long_vectors state.now }
{
    let [a, b, c, d, e, f, g, h] = *state;
    [
        a.words, b.words, c.words, d.words, e.words, f.words, g.words, h.words,
    ]
}

/// The vectors in structs.
#[inline(always)]
pub(crate) fn wrapped(state: &[LongWords; 8]) -> [LongVector; 8]
    ensures { long_vectors result ≡ state.now }
{
    let [a, b, c, d, e, f, g, h] = *state;
    [
        LongVector { words: a },
        LongVector { words: b },
        LongVector { words: c },
        LongVector { words: d },
        LongVector { words: e },
        LongVector { words: f },
        LongVector { words: g },
        LongVector { words: h },
    ]
}

/// The block whose words begin in the middle of these.
#[inline(always)]
fn shifted(words: &[Vector; 33]) -> [LongWords; 16]
    ensures { (j : ℕ) → j < GROUP → HasLongWords (take 128 (half_on (column j (vectors words.now)) 33)) (column j result) }
{
    let mut block = [LongWords::splat(0); 16];
    'words: for k in 0..16 {
        let first = words[2 * k].words;
        let second = words[2 * k + 1].words;
        let third = words[2 * k + 2].words;
        first.tell_short();
        second.tell_short();
        third.tell_short();
        block[k] = long_word_of_halves(first, second, third);
    }
    block
}

/// The words of the address, each begun by the second half of the word before it.
fn long_address_words(adrs: &LaneAdrs) -> [Vector; 33]
    ensures { (j : ℕ) → j < GROUP → (a : Address) → HasAddress adrs.now j a
        → half_on (column j (vectors result)) 6 ≡ compressed a }
{
    let mut words = [Vector {
        words: Words::splat(0),
    }; 33];
    words[..17].copy_from_slice(&address_words(adrs));
    words
}

/// The end of the zeros of the padding in the second of two blocks, before the 16 bytes of the length. The byte that
/// begins the padding is counted off.
const ZEROS_END: u32 = 2 * 128 - 16 - 1;

impl LongStream {
    /// The messages of one block and an address, from the hash value after the block.
    pub(crate) fn new(state: &[LongWords; 8], adrs: &LaneAdrs) -> Self
        ensures { (j : ℕ) → j < GROUP → (a : Address) → HasAddress adrs.now j a → (s : List ℕ) → length s ≡ 128
            → column j state.now ≡ compress initial_hash_512 s → HoldsLongAt result j (s ++ compressed a) }
    {
        LongStream {
            state: wrapped(state),
            words: long_address_words(adrs),
            len: LONG_TWEAK_LEN,
        }
    }

    /// Adds to each message the word in its lane.
    fn push(&mut self, word: Words)
        ensures { (j : ℕ) → j < GROUP → (m : List ℕ) → HoldsLongAt self.old j m
            → HoldsLongAt self.new j (m ++ to_be_bytes w32 (slice_index word j)) }
    {
        let used = (self.len % 128 + 2) / 4;
        self.words[used as usize] = Vector { words: word };
        self.len = self.len.wrapping_add(4);
        if used == 32 {
            self.take_block();
            self.words[0] = Vector { words: word };
        }
    }

    /// Takes the block into the hash value.
    fn take_block(&mut self)
        ensures len { self.new.len ≡ self.old.len }
        ensures words { self.new.words ≡ self.old.words }
        ensures state { (j : ℕ) → j < GROUP → column j (long_vectors self.new.state)
            ≡ compress (column j (long_vectors self.old.state))
            (take 128 (half_on (column j (vectors self.old.words)) 33)) }
    {
        let mut state = bare(&self.state);
        compress_long(&mut state, &shifted(&self.words));
        self.state = wrapped(&state);
    }

    /// Adds to each message the first words in its lane, as many as `count`.
    pub(crate) fn absorb(&mut self, nodes: &LaneNodes, count: usize)
        requires { count ≤ 8 }
        ensures { (j : ℕ) → j < GROUP → (m : List ℕ) → HoldsLongAt self.old j m
            → HoldsLongAt self.new j (m ++ digest_bytes (column j nodes.now) count) }
    {
        'words: for k in 0..count {
            self.push(nodes[k]);
        }
    }

    /// The digest of each message (FIPS 180-4, section 5.1.2: a bit 1, zeros, and the length in bits).
    pub(crate) fn finish(mut self) -> [LongWords; 8]
        ensures { (j : ℕ) → j < GROUP → (m : List ℕ) → HoldsLongAt self j m → length m < 2 ^ 29
            → long_digest_bytes (column j result) 8 ≡ sha512 m }
    {
        let bits = Words::splat(self.len.wrapping_mul(8));
        // The length has 16 bytes, of which the first twelve are zeros.
        let zeros = (ZEROS_END - self.len % 128) % 128;
        self.push(Words::splat(0x8000_0000));
        'zeros: for _ in 0..zeros / 4 + 2 {
            self.push(Words::splat(0));
        }
        self.push(bits.high());
        self.push(bits.low());
        bare(&self.state)
    }
}
