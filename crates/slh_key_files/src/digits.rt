//! Hexadecimal digits, and the bytes that they spell. The digits may be a secret key's. So they are read and written by
//! sums and comparisons, and no `match` and no table takes one.
ghost use Rattle.std.specs.Prelude.{◌≡◌, ◌*◌, ◌<◌, true, length, slice_index, Some, Ok};
ghost use Rattle.std.specs.List.{list_all};
ghost use Rattle.hex.specs.Hex.{decode_of, encode_lower, hex_digit_value, is_hex_digit, lower_digits};

/// Whether each byte is a hexadecimal digit, of either case.
pub fn are_hex_digits(digits: &[u8]) -> bool
    ensures { result ≡ list_all is_hex_digit digits.now }
{
    digits.iter().all(|byte| is_hex_digit(*byte))
}

/// Whether a byte is a hexadecimal digit, of either case. At most one of the three holds, so `^` gives what `|` would.
/// Of `|` the compiler makes branches, which tell a number from a letter.
pub fn is_hex_digit(byte: u8) -> bool
    ensures { result ≡ is_hex_digit byte }
{
    let is_number = (b'0' <= byte) & (byte <= b'9');
    let is_upper = (b'A' <= byte) & (byte <= b'F');
    let is_lower = (b'a' <= byte) & (byte <= b'f');
    is_number ^ is_upper ^ is_lower
}

/// The value of a hexadecimal digit.
fn value_of(digit: u8) -> u8
    requires { is_hex_digit digit ≡ true }
    ensures value { hex_digit_value digit ≡ Some result }
    ensures small { result < 16 }
{
    digit - b'0' - 7 * u8::from(digit >= b'A') - 32 * u8::from(digit >= b'a')
}

/// Writes the bytes that the digits spell, which fill `bytes`.
pub fn decode_digits(digits: &[u8], bytes: &mut [u8])
    requires hex { list_all is_hex_digit digits.now ≡ true }
    requires sized { length digits.now ≡ 2 * length bytes.old }
    ensures { decode_of digits.now ≡ Ok bytes.new }
{
    'bytes: for i in 0..bytes.len() {
        bytes[i] = value_of(digits[2 * i]) * 16 + value_of(digits[2 * i + 1]);
    }
}

/// The lower-case digit of a value.
fn digit_of(value: u8) -> u8
    requires { value < 16 }
    ensures { result ≡ slice_index lower_digits value }
{
    b'0' + value + 39 * u8::from(value >= 10)
}

/// Writes the digits of the bytes, two each, in lower case.
pub fn encode_digits(bytes: &[u8], digits: &mut [u8])
    requires { length digits.old ≡ 2 * length bytes.now }
    ensures { digits.new ≡ encode_lower bytes.now }
{
    'bytes: for i in 0..bytes.len() {
        digits[2 * i] = digit_of(bytes[i] >> 4);
        digits[2 * i + 1] = digit_of(bytes[i] & 15);
    }
}
