//! The base-w digits of a message and of its checksum (FIPS 205, section 5).
ghost use Rattle.std.specs.Prelude.{◌≡◌, ℕ, List, ◌-◌, ◌≤◌, ◌<◌, length, slice_index};
ghost use Rattle.slh_params.specs.Params.{len, len1, len2, w};
ghost use Rattle.slh_params.specs.ParamSet.{params};
ghost use Rattle.slh_params.specs.Bits.{AllBytes};
ghost use Rattle.slh_few.specs.Wots.{digits as digits_of, digit, checksum, checksum_digits, NowhereBelow};

use crate::lanes::{ChainNumbers, MOST_DIGITS};
use crate::nodes::bytes_of;
use slh_params::{Node, ParamSet, base_2b, to_byte};

/// The most chains of a key in any set: 128 digits of a message, where n is 32 and lg_w 2, and 5 of its checksum.
pub(crate) const MOST_CHAINS: usize = 128 + 5;

/// No checksum is larger: at most 128 digits of a message, each at most 255 below w - 1.
const MOST_CHECKSUM: u32 = 128 * 255;

/// How far below w - 1 the digits of a message are, in all.
#[tactic(auto, using(crate::proofs::Checksum::digit_bounds))]
fn checksum(set: ParamSet, digits: &[u32]) -> u32
    requires few { length digits.now ≡ len1 (params set) }
    requires small { (c : ℕ) → slice_index digits.now c ≤ w (params set) - 1 }
    ensures value { result ≡ checksum (params set) digits.now }
    ensures small { result ≤ MOST_CHECKSUM }
{
    let last = set.w() - 1;
    let mut sum = 0;
    for digit in digits {
        sum += last - *digit;
    }
    sum
}

/// The digits of a checksum, which are read from whole bytes: len_2 numbers below w.
#[tactic(auto, using(crate::proofs::Checksum::digit_bounds))]
fn checksum_digits(set: ParamSet, checksum: u32, out: &mut [u32])
    requires small { checksum ≤ MOST_CHECKSUM }
    requires out { length out.old ≡ len2 (params set) }
    ensures { out.new ≡ checksum_digits (params set) checksum }
{
    let bits = set.len2() as u32 * set.lg_w();
    let shift = (8 - bits % 8) % 8;
    let mut buffer = [0; 2];
    let bytes = &mut buffer[..bits.div_ceil(8) as usize];
    to_byte(u64::from(checksum << shift), bytes);
    base_2b(bytes, set.lg_w(), out);
}

/// The digits of a message of n bytes, then those of their checksum: len numbers below w
/// (Algorithm 7, lines 1 to 7).
#[tactic(auto, using(crate::proofs::Checksum::digit_bounds))]
pub fn digits(set: ParamSet, msg: &Node, out: &mut [u32])
    requires msg { length msg.now.items ≡ (params set).n }
    requires out { length out.old ≡ len (params set) }
    ensures digits { out.new ≡ digits_of (params set) msg.now.items }
    ensures no_other { (other : List ℕ) → length other ≡ (params set).n → AllBytes other
        → NowhereBelow (digits_of (params set) other) out.new → other ≡ msg.now.items }
{
    let (message, rest) = out.split_at_mut(set.len1());
    base_2b(bytes_of(msg), set.lg_w(), message);
    checksum_digits(set, checksum(set, message), rest);
}

/// The digits of a message, with zeros after them.
pub(crate) fn digits_of(set: ParamSet, msg: &Node) -> ChainNumbers
    requires { length msg.now.items ≡ (params set).n }
    ensures digits { (c : ℕ) → c < len (params set) → slice_index result c
        ≡ digit (params set) msg.now.items c }
    ensures small { (c : ℕ) → c < len (params set) → slice_index result c ≤ w (params set) - 1 }
    ensures rest { (c : ℕ) → len (params set) ≤ c → slice_index result c ≡ 0 }
{
    let mut out = [0; MOST_DIGITS];
    let count = set.len();
    digits(set, msg, &mut out[..count]);
    out
}
