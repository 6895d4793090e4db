//! Bits and bytes as numbers (FIPS 205, section 4.4).
ghost use Rattle.std.specs.Prelude.{◌≡◌, ◌*◌, ◌%◌, ◌^◌, ◌≤◌, length};
ghost use Rattle.slh_params.specs.Bits.{to_int, to_byte, base_2b};

/// toInt (FIPS 205, Algorithm 2): the number that at most 8 bytes write, most significant first.
pub fn to_int(bytes: &[u8]) -> u64
    requires { length bytes.now ≤ 8 }
    ensures { result ≡ to_int bytes.now }
{
    let mut value = 0;
    for byte in bytes {
        value = value * 256 + *byte as u64;
    }
    value
}

/// toByte (Algorithm 3): the low bytes of `x`, most significant first, as many as `out` has. A longer
/// `out` has zeros in front.
pub fn to_byte(x: u64, out: &mut [u8])
    ensures bytes { out.new ≡ to_byte x (length out.old) }
    ensures number { to_int out.new ≡ x % 2 ^ (8 * length out.old) }
{
    let mut rest = x;
    for i in (0..out.len()).rev() {
        out[i] = (rest % 256) as u8;
        rest /= 256;
    }
}

/// base_2^b (Algorithm 4): the first groups of `b` bits of `x` as numbers, as many as `out` has. `b` is
/// from 1 to 16, and `x` has the bits that are asked for.
pub fn base_2b(x: &[u8], b: u32, out: &mut [u32])
    requires low { 1 ≤ b }
    requires high { b ≤ 16 }
    requires enough { b * length out.old ≤ 8 * length x.now }
    ensures { out.new ≡ base_2b x.now b (length out.old) }
{
    let mut at = 0;
    let mut count = 0;
    let mut word: u32 = 0;
    'groups: for g in 0..out.len() {
        'fill: while count < b {
            word = word * 256 + x[at] as u32;
            at += 1;
            count += 8;
        }
        count -= b;
        out[g] = word >> count;
        word &= (1 << count) - 1;
    }
}
