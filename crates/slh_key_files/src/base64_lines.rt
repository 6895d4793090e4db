//! Base64 (RFC 4648, section 4) of bytes that may be a secret key's. So its characters are read and written by sums and
//! comparisons, and no `match` and no table takes one.
ghost use Rattle.std.specs.Prelude.{◌≡◌, ◌+◌, ◌*◌, ◌/◌, ◌%◌, ◌<◌, ◌≤◌, ◌-◌, ◌++◌, ℕ, List, length, replicate, slice_index, take};
ghost use Rattle.hex.specs.Hex.{IsBytes};
ghost use Rattle.base64.specs.Rfc4648.{encode_symbols};
ghost use Rattle.slh_key_files.specs.Lines.{line};
ghost use Rattle.slh_key_files.specs.Base64Lines.{base64_lines, characters, chars_len, in_lines, line_count, lines_len};

/// The character of a value.
fn char_of(value: u8) -> u8
    requires { value < 64 }
    ensures { result ≡ slice_index characters value }
{
    b'A' + value + 6 * u8::from(value >= 26)
        - 75 * u8::from(value >= 52)
        - 15 * u8::from(value >= 62)
        + 3 * u8::from(value >= 63)
}

/// The value of a character; that of any other byte has no meaning.
fn value_of(byte: u8) -> u8
    ensures value { (v : ℕ) → v < 64 → byte ≡ slice_index characters v → result ≡ v }
    ensures small { result < 64 }
{
    let byte = byte & 127;
    let next = 3 * u8::from(byte >= b'/') + 12 * u8::from(byte >= b'0');
    (byte + 19 - next - 69 * u8::from(byte >= b'A') - 6 * u8::from(byte >= b'a')) & 63
}

/// Writes the characters of bytes, four of each three.
fn encode_groups(bytes: &[u8], chars: &mut [u8])
    requires whole { length bytes.now % 3 ≡ 0 }
    requires sized { 3 * length chars.old ≡ 4 * length bytes.now }
    ensures { chars.new ≡ encode_symbols characters bytes.now }
{
    'groups: for i in 0..bytes.len() / 3 {
        let (one, two, three) = (bytes[3 * i], bytes[3 * i + 1], bytes[3 * i + 2]);
        chars[4 * i] = char_of(one / 4);
        chars[4 * i + 1] = char_of(one % 4 * 16 + two / 16);
        chars[4 * i + 2] = char_of(two % 16 * 4 + three / 64);
        chars[4 * i + 3] = char_of(three % 64);
    }
}

/// Writes the bytes of characters, three of each four.
fn decode_groups(chars: &[u8], bytes: &mut [u8])
    requires whole { length bytes.old % 3 ≡ 0 }
    requires sized { 3 * length chars.now ≡ 4 * length bytes.old }
    ensures { (m : List ℕ) → IsBytes m → length m ≡ length bytes.old → chars.now ≡ encode_symbols characters m → bytes.new ≡ m }
{
    'groups: for i in 0..bytes.len() / 3 {
        let (one, two) = (value_of(chars[4 * i]), value_of(chars[4 * i + 1]));
        let (three, four) = (value_of(chars[4 * i + 2]), value_of(chars[4 * i + 3]));
        bytes[3 * i] = one * 4 + two / 16;
        bytes[3 * i + 1] = two % 16 * 16 + three / 4;
        bytes[3 * i + 2] = three % 4 * 64 + four;
    }
}

/// Writes a line: these bytes, and a line feed.
fn put_line(bytes: &[u8], text: &mut [u8])
    requires { length text.old ≡ length bytes.now + 1 }
    ensures { text.new ≡ line bytes.now }
{
    let (front, feed) = text.split_at_mut(bytes.len());
    front.copy_from_slice(bytes);
    feed.fill(b'\n');
}

/// Writes characters in lines of 64.
fn put_lines(chars: &[u8], text: &mut [u8])
    requires few { length chars.now ≤ 200 }
    requires sized { length text.old ≡ length chars.now + line_count (length chars.now) }
    ensures { text.new ≡ in_lines (line_count (length chars.now)) chars.now }
{
    'lines: for i in 0..(chars.len() + 63) / 64 {
        let end = chars.len().min(64 * i + 64);
        put_line(&chars[64 * i..end], &mut text[65 * i..end + i + 1]);
    }
}

/// Writes the characters of lines of 64.
fn take_lines(text: &[u8], chars: &mut [u8])
    requires few { length chars.old ≤ 200 }
    requires room { length chars.old + length chars.old / 64 ≤ length text.now }
    ensures { (i : ℕ) → i < length chars.old → slice_index chars.new i ≡ slice_index text.now (i + i / 64) }
{
    'chars: for i in 0..chars.len() {
        chars[i] = text[i + i / 64];
    }
}

/// Writes bytes, and zeros from there to the end.
fn put_zeros_after(bytes: &[u8], out: &mut [u8])
    requires { length bytes.now ≤ length out.old }
    ensures { out.new ≡ bytes.now ++ replicate (length out.old - length bytes.now) 0 }
{
    let (front, rest) = out.split_at_mut(bytes.len());
    front.copy_from_slice(bytes);
    rest.fill(0);
}

/// Writes a character from a place to the end.
fn end_with(char: u8, from: usize, chars: &mut [u8])
    requires { from ≤ length chars.old }
    ensures { chars.new ≡ take from chars.old ++ replicate (length chars.old - from) char }
{
    let (_, rest) = chars.split_at_mut(from);
    rest.fill(char);
}

/// Writes the base64 of bytes, in lines.
pub(crate) fn put_base64(bytes: &[u8], text: &mut [u8])
    requires few { length bytes.now ≤ 150 }
    requires sized { length text.old ≡ lines_len (length bytes.now) }
    ensures { text.new ≡ base64_lines bytes.now }
{
    let groups = (bytes.len() + 2) / 3;
    let mut whole_buffer = [0; 150];
    let whole = &mut whole_buffer[..3 * groups];
    put_zeros_after(bytes, whole);
    let mut buffer = [0; 200];
    let chars = &mut buffer[..4 * groups];
    encode_groups(whole, chars);
    end_with(b'=', groups + bytes.len(), chars);
    put_lines(chars, text);
}

/// Writes the bytes whose base64 in lines the text begins with. Any other text gives bytes with no meaning.
pub(crate) fn get_base64(text: &[u8], bytes: &mut [u8])
    requires few { length bytes.old ≤ 150 }
    requires room { chars_len (length bytes.old) + chars_len (length bytes.old) / 64 ≤ length text.now }
    ensures { (m more : List ℕ) → IsBytes m → length m ≡ length bytes.old → text.now ≡ base64_lines m ++ more → bytes.new ≡ m }
{
    let groups = (bytes.len() + 2) / 3;
    let mut buffer = [0; 200];
    let chars = &mut buffer[..4 * groups];
    take_lines(text, chars);
    end_with(b'A', groups + bytes.len(), chars);
    let mut whole_buffer = [0; 150];
    let whole = &mut whole_buffer[..3 * groups];
    decode_groups(chars, whole);
    bytes.copy_from_slice(&whole[..bytes.len()]);
}
