//! The block after PK.seed's that F and PRF hash, and H if n is 16, in each lane (FIPS 205, section 11.2), and the hash
//! value before it.
ghost use Rattle.std.specs.Prelude.{◌≡◌, ℕ, ◌/◌, ◌<◌, ◌⊎◌, length, slice_index, take};
ghost use Rattle.sha2.specs.Sha256.{digest_bytes, hash_after, initial_hash_256};
ghost use Rattle.slh_lanes.specs.Block.{marked, second_block};
ghost use Rattle.slh_lanes.specs.Columns.{column, lane_column, HasWords};

use crate::bytes::load_all;
use crate::eight_blocks::compress;
use crate::short_lanes::{ShortLanes, tell_all};
use crate::words::{GROUP, Words};

/// The length of a block of SHA-256 in bytes.
pub(crate) const BLOCK_LEN: usize = 64;

/// The initial hash value (FIPS 180-4, section 5.3.3) in each lane.
fn initial() -> [Words; 8]
    ensures { (j : ℕ) → j < GROUP → column j result ≡ initial_hash_256 }
{
    [
        Words::splat(0x6a09_e667),
        Words::splat(0xbb67_ae85),
        Words::splat(0x3c6e_f372),
        Words::splat(0xa54f_f53a),
        Words::splat(0x510e_527f),
        Words::splat(0x9b05_688c),
        Words::splat(0x1f83_d9ab),
        Words::splat(0x5be0_cd19),
    ]
}

/// The words in lane 0.
fn first_lane(words: &[Words; 8]) -> [u32; 8]
    ensures { result ≡ column 0 words.now }
{
    let [a, b, c, d, e, f, g, h] = *words;
    [
        a.to_array()[0],
        b.to_array()[0],
        c.to_array()[0],
        d.to_array()[0],
        e.to_array()[0],
        f.to_array()[0],
        g.to_array()[0],
        h.to_array()[0],
    ]
}

/// The hash value after the whole blocks of the bytes (FIPS 180-4, section 6.2.2).
pub(crate) fn hash_after(bytes: &[u8]) -> [u32; 8]
    ensures { result ≡ hash_after initial_hash_256 bytes.now (length bytes.now / 64) }
{
    let mut state = initial();
    for b in 0..bytes.len() / BLOCK_LEN {
        let mut block = [Words::splat(0); 16];
        load_all(&mut block, &bytes[BLOCK_LEN * b..BLOCK_LEN * b + BLOCK_LEN]);
        compress(&mut state, &block);
    }
    first_lane(&state)
}

/// Eight words, each in all lanes.
#[inline(always)]
pub(crate) fn splat_all<W: ShortLanes>(words: &[u32; 8]) -> [W; 8]
    ensures { (j : ℕ) → j < W.LANES → lane_column W.lane j result ≡ words.now }
{
    let [a, b, c, d, e, f, g, h] = *words;
    [
        W::splat(a),
        W::splat(b),
        W::splat(c),
        W::splat(d),
        W::splat(e),
        W::splat(f),
        W::splat(g),
        W::splat(h),
    ]
}

/// The bytes before a value in what is hashed (FIPS 205, section 11.2): the block of PK.seed, and an address.
pub(crate) const TWEAK_LEN: u32 = 64 + 22;

/// The words of a value of n bytes, the word that begins the padding, and zeros.
#[inline(always)]
fn marked<W: ShortLanes>(x: &[W; 8], n: usize) -> [W; 9]
    ensures { (j : ℕ) → j < W.LANES → lane_column W.lane j result ≡ marked n (lane_column W.lane j x.now) }
{
    let [a, b, c, d, e, f, g, h] = *x;
    let mark = W::splat(0x8000_0000);
    let zero = W::splat(0);
    if n == 16 {
        [a, b, c, d, mark, zero, zero, zero, zero]
    } else if n == 24 {
        [a, b, c, d, e, f, mark, zero, zero]
    } else {
        [a, b, c, d, e, f, g, h, mark]
    }
}

/// The 22 bytes of the address, the n bytes of the value, and the padding.
#[inline(always)]
pub(crate) fn second_block<W: ShortLanes>(n: usize, adrs: &[W; 6], x: &[W; 8]) -> [W; 16]
    requires { (n ≡ 16) ⊎ (n ≡ 24) ⊎ (n ≡ 32) }
    ensures words { (j : ℕ) → j < W.LANES → HasWords
        (second_block (take 22 (digest_bytes (lane_column W.lane j adrs.now) 6))
        (take n (digest_bytes (lane_column W.lane j x.now) 8)))
        (lane_column W.lane j result) }
    ensures front { (j k : ℕ) → k < 5
        → slice_index (lane_column W.lane j result) k ≡ slice_index (lane_column W.lane j adrs.now) k }
{
    tell_all(adrs);
    tell_all(x);
    let m = marked(x, n);
    [
        adrs[0],
        adrs[1],
        adrs[2],
        adrs[3],
        adrs[4],
        adrs[5].high().halves(m[0]),
        m[0].halves(m[1]),
        m[1].halves(m[2]),
        m[2].halves(m[3]),
        m[3].halves(m[4]),
        m[4].halves(m[5]),
        m[5].halves(m[6]),
        m[6].halves(m[7]),
        m[7].halves(m[8]),
        W::splat(0),
        W::splat((TWEAK_LEN + n as u32) * 8),
    ]
}
