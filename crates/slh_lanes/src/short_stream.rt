//! SHA-256 of eight messages that come word after word, one in each lane (FIPS 180-4, section 6.2).
ghost use Rattle.std.specs.Prelude.{◌≡◌, ℕ, ◌+◌, ◌*◌, ◌^◌, ◌<◌, ◌≤◌, ◌++◌, List, length, slice_index, take};
ghost use Rattle.std.specs.Int.{to_be_bytes, w32};
ghost use Rattle.sha2.specs.Sha256.{compress, digest_bytes, initial_hash_256, sha256};
ghost use Rattle.slh_params.specs.Address.{Address, compressed};
ghost use Rattle.slh_lanes.specs.Columns.{column, HasWords};
ghost use Rattle.slh_lanes.specs.Lanes.{HasAddress};
ghost use Rattle.slh_lanes.specs.Streams.{HoldsAt, half_on, vectors};

use crate::block::TWEAK_LEN;
use crate::eight_blocks::compress;
use crate::lane_adrs::LaneAdrs;
use crate::lane_nodes::LaneNodes;
use crate::short_lanes::{ShortLanes, tell_all};
use crate::words::{GROUP, Vector, Words};

/// SHA-256 of eight messages of the same length, as far as they have come.
///
/// Each ends in the middle of a word: after the block of PK.seed come the 22 bytes of an address and then whole words.
#[derive(Clone, Copy)]
pub(crate) struct ShortStream {
    pub(crate) state: [Vector; 8],
    /// Two bytes that come before the last block, and its bytes so far.
    pub(crate) words: [Vector; 17],
    /// The length of each message in bytes, modulo 2^32.
    pub(crate) len: u32,
}

/// The vectors without their structs.
#[inline(always)]
pub(crate) fn bare(state: &[Vector; 8]) -> [Words; 8]
    ensures { result ≡ vectors state.now }
{
    let [a, b, c, d, e, f, g, h] = *state;
    [
        a.words, b.words, c.words, d.words, e.words, f.words, g.words, h.words,
    ]
}

/// The vectors in structs.
#[inline(always)]
pub(crate) fn wrapped(state: &[Words; 8]) -> [Vector; 8]
    ensures { vectors result ≡ state.now }
{
    let [a, b, c, d, e, f, g, h] = *state;
    [
        Vector { words: a },
        Vector { words: b },
        Vector { words: c },
        Vector { words: d },
        Vector { words: e },
        Vector { words: f },
        Vector { words: g },
        Vector { words: h },
    ]
}

/// The block whose words begin in the middle of these.
#[inline(always)]
fn shifted(words: &[Vector; 17]) -> [Words; 16]
    ensures { (j : ℕ) → j < GROUP → HasWords (take 64 (half_on (column j (vectors words.now)) 17)) (column j result) }
{
    let mut block = [Words::splat(0); 16];
    'words: for k in 0..16 {
        words[k].words.tell_short();
        words[k + 1].words.tell_short();
        block[k] = words[k].words.halves(words[k + 1].words);
    }
    block
}

/// The words of the address, each begun by the second half of the word before it.
pub(crate) fn address_words(adrs: &LaneAdrs) -> [Vector; 17]
    ensures { (j : ℕ) → j < GROUP → (a : Address) → HasAddress adrs.now j a
        → half_on (column j (vectors result)) 6 ≡ compressed a }
{
    tell_all(adrs);
    let mut words = [Vector {
        words: Words::splat(0),
    }; 17];
    words[0] = Vector {
        words: adrs[0].high(),
    };
    words[1] = Vector {
        words: adrs[0].halves(adrs[1]),
    };
    words[2] = Vector {
        words: adrs[1].halves(adrs[2]),
    };
    words[3] = Vector {
        words: adrs[2].halves(adrs[3]),
    };
    words[4] = Vector {
        words: adrs[3].halves(adrs[4]),
    };
    words[5] = Vector {
        words: adrs[4].halves(adrs[5]),
    };
    words
}

/// The end of the zeros of the padding in the second of two blocks, before the 8 bytes of the length. The byte that
/// begins the padding is counted off.
const ZEROS_END: u32 = 2 * 64 - 8 - 1;

impl ShortStream {
    /// The messages of one block and an address, from the hash value after the block.
    pub(crate) fn new(state: &[Words; 8], adrs: &LaneAdrs) -> Self
        ensures { (j : ℕ) → j < GROUP → (a : Address) → HasAddress adrs.now j a → (s : List ℕ) → length s ≡ 64
            → column j state.now ≡ compress initial_hash_256 s → HoldsAt result j (s ++ compressed a) }
    {
        ShortStream {
            state: wrapped(state),
            words: address_words(adrs),
            len: TWEAK_LEN,
        }
    }

    /// Adds to each message the word in its lane.
    fn push(&mut self, word: Words)
        ensures { (j : ℕ) → j < GROUP → (m : List ℕ) → HoldsAt self.old j m
            → HoldsAt self.new j (m ++ to_be_bytes w32 (slice_index word j)) }
    {
        let used = (self.len % 64 + 2) / 4;
        self.words[used as usize] = Vector { words: word };
        self.len = self.len.wrapping_add(4);
        if used == 16 {
            self.take_block();
            self.words[0] = Vector { words: word };
        }
    }

    /// Takes the block into the hash value.
    fn take_block(&mut self)
        ensures len { self.new.len ≡ self.old.len }
        ensures words { self.new.words ≡ self.old.words }
        ensures state { (j : ℕ) → j < GROUP → column j (vectors self.new.state)
            ≡ compress (column j (vectors self.old.state)) (take 64 (half_on (column j (vectors self.old.words)) 17)) }
    {
        let mut state = bare(&self.state);
        compress(&mut state, &shifted(&self.words));
        self.state = wrapped(&state);
    }

    /// Adds to each message the first words in its lane, as many as `count`.
    pub(crate) fn absorb(&mut self, nodes: &LaneNodes, count: usize)
        requires { count ≤ 8 }
        ensures { (j : ℕ) → j < GROUP → (m : List ℕ) → HoldsAt self.old j m
            → HoldsAt self.new j (m ++ digest_bytes (column j nodes.now) count) }
    {
        'words: for k in 0..count {
            self.push(nodes[k]);
        }
    }

    /// The digest of each message (FIPS 180-4, section 5.1.1: a bit 1, zeros, and the length in bits).
    pub(crate) fn finish(mut self) -> [Words; 8]
        ensures { (j : ℕ) → j < GROUP → (m : List ℕ) → HoldsAt self j m → length m < 2 ^ 29
            → digest_bytes (column j result) 8 ≡ sha256 m }
    {
        let bits = Words::splat(self.len.wrapping_mul(8));
        let zeros = (ZEROS_END - self.len % 64) % 64;
        self.push(Words::splat(0x8000_0000));
        'zeros: for _ in 0..zeros / 4 {
            self.push(Words::splat(0));
        }
        self.push(bits.high());
        self.push(bits.low());
        bare(&self.state)
    }
}
