//! Texts and decimal numbers, written to a sink.
ghost use Rattle.std.specs.Prelude.{◌≡◌, ◌++◌};
ghost use Rattle.std.specs.Fmt.{decimal};
ghost use Rattle.slh_io.specs.Devices.{CountsFailure, Puts};

use super::sink::{Sink, WriteFault, put_all};

/// Puts bytes.
fn put_bytes<W: Sink>(output: &mut W, bytes: &[u8]) -> Result<(), WriteFault>
    ensures puts { Puts (W.state output.old).contents (W.state output.new).contents result bytes.now }
    ensures failed { CountsFailure (W.state output.old).failures (W.state output.new).failures result }
{
    put_all(output, bytes)
}

/// Puts a text, or a prefix of it if a write failed. It takes no memory.
pub fn put_text<W: Sink>(output: &mut W, text: &str) -> Result<(), WriteFault>
    ensures puts { Puts (W.state output.old).contents (W.state output.new).contents result text.now }
    ensures failed { CountsFailure (W.state output.old).failures (W.state output.new).failures result }
{
    put_bytes(output, text.as_bytes())
}

/// Puts a number in decimal digits.
#[tactic(auto, using(crate::proofs::Texts::decimal_ended, crate::proofs::Texts::decimal_stopped, crate::proofs::Texts::decimal_went_on))]
fn put_decimal<W: Sink>(output: &mut W, n: u64) -> Result<(), WriteFault>
    ensures puts { Puts (W.state output.old).contents (W.state output.new).contents result (decimal n) }
    ensures failed { CountsFailure (W.state output.old).failures (W.state output.new).failures result }
{
    if n < 10 {
        return put_bytes(output, &[b'0' + n as u8]);
    }
    put_decimal(output, n / 10)?;
    put_bytes(output, &[b'0' + (n % 10) as u8])
}

/// Puts a text, a number in decimal digits and a text, or a prefix of these if a write failed. It takes no memory.
pub fn put_number<W: Sink>(
    output: &mut W,
    before: &str,
    n: u64,
    after: &str,
) -> Result<(), WriteFault>
    ensures puts { Puts (W.state output.old).contents (W.state output.new).contents result
        (before.now ++ decimal n ++ after.now) }
    ensures failed { CountsFailure (W.state output.old).failures (W.state output.new).failures result }
{
    put_bytes(output, before.as_bytes())?;
    put_decimal(output, n)?;
    put_bytes(output, after.as_bytes())
}

/// Puts two texts, or a prefix of these if a write failed. It takes no memory.
#[tactic(auto, using(crate::proofs::Texts::ended, crate::proofs::Texts::stopped))]
pub fn put_two<W: Sink>(output: &mut W, first: &str, second: &str) -> Result<(), WriteFault>
    ensures puts { Puts (W.state output.old).contents (W.state output.new).contents result (first.now ++ second.now) }
    ensures failed { CountsFailure (W.state output.old).failures (W.state output.new).failures result }
{
    put_bytes(output, first.as_bytes())?;
    put_bytes(output, second.as_bytes())
}
