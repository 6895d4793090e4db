//! The start of a signature: R, the digest of the message, and their tag (FIPS 205, Algorithm 19, lines 2 to 5).
ghost use Rattle.std.specs.Prelude.{◌≡◌, ◌↔◌, ◌+◌, ◌≤◌, IsTrue, IsOk, OnOk, OnErr, length};
ghost use Rattle.slh_params.specs.ParamSet.{params};
ghost use Rattle.slh_hash.specs.Keyed.{joined};
ghost use Rattle.slh_core.specs.Keys.{public_of};
ghost use Rattle.slh_core.specs.Messages.{message_in_form};
ghost use Rattle.slh_core.specs.Randomizers.{HasLength};
ghost use Rattle.slh_jobs.specs.Starts.{begun_by, start_by, IsStart};
ghost use Rattle.slh_core.specs.declared.digest_parts.TheConstants.{MOST_DIGEST_LEN};
ghost use Rattle.slh_jobs.specs.Tags.{begun_len, start_len};
ghost use Rattle.slh_jobs.specs.declared.start.TheConstants.{MOST_START_LEN};

use crate::tag::start_tag;
use arrayvec::ArrayVec;
use slh_core::signing_steps::{MOST_DIGEST_LEN, randomized_digest};
use slh_core::{Form, Randomizer, SecretKey, SignFault, are_same};
use slh_params::ParamSet;

/// No start is longer, in any set: R, a digest and a tag.
pub const MOST_START_LEN: usize = 32 + MOST_DIGEST_LEN + 32;

/// The length of a start, in bytes: 2n + m.
pub fn start_len(set: ParamSet) -> usize
    ensures value { result ≡ start_len (params set) }
    ensures small { result ≤ MOST_START_LEN }
{
    begun_len(set) + set.n()
}

/// The length of R and a digest.
fn begun_len(set: ParamSet) -> usize
    ensures value { result ≡ begun_len (params set) }
    ensures small { result ≤ 32 + MOST_DIGEST_LEN }
{
    set.n() + set.m()
}

/// A copy of a start.
pub(crate) type StartCopy = ArrayVec<u8, MOST_START_LEN>;

/// A copy of a start. A call that checks a start and then uses it reads one copy for both, so that nobody can change it
/// in between.
pub(crate) fn copy_of_start(start: &[u8]) -> StartCopy
    requires { length start.now ≤ MOST_START_LEN }
    ensures { result.items ≡ start.now }
{
    let mut copy = StartCopy::new();
    let _ = copy.try_extend_from_slice(start);
    copy
}

/// Whether the bytes end with the tag of those before the tag.
pub(crate) fn is_start(sk: &SecretKey, start: &[u8]) -> bool
    requires { length start.now ≡ start_len (params sk.now.set) }
    ensures { IsTrue result ↔ IsStart sk.now start.now }
{
    let (begun, tag) = start.split_at(begun_len(sk.set()));
    are_same(start_tag(sk, begun).as_slice(), tag)
}

/// Writes R and the digest of the parts put end to end.
fn put_begun(parts: &[&[u8]], sk: &SecretKey, randomizer: Randomizer, begun: &mut [u8])
    requires randomizer { HasLength randomizer (params sk.now.set).n }
    requires begun { length begun.old ≡ begun_len (params sk.now.set) }
    ensures { begun.new ≡ begun_by sk.now (joined parts.now) randomizer.entry }
{
    let (front, digest) = begun.split_at_mut(sk.set().n());
    let r = randomized_digest(parts, sk, randomizer, digest);
    front.copy_from_slice(&r);
}

/// Writes R and the digest of the parts put end to end, and their tag.
fn start_parts(parts: &[&[u8]], sk: &SecretKey, randomizer: Randomizer, start: &mut [u8])
    requires randomizer { HasLength randomizer (params sk.now.set).n }
    requires start { length start.old ≡ start_len (params sk.now.set) }
    ensures start { start.new ≡ start_by sk.now (joined parts.now) randomizer.entry }
    ensures tagged { IsStart sk.now start.new }
{
    let (begun, tag) = start.split_at_mut(begun_len(sk.set()));
    put_begun(parts, sk, randomizer, begun);
    tag.copy_from_slice(&start_tag(sk, begun));
}

/// Begins the signature of a message in a form, under a context (FIPS 205, Algorithms 22 and 23): writes R, the digest
/// of M' and their tag under this key, `start_len` bytes, which all jobs of this signature are given. They are no
/// secrets: R is a part of the signature, the digest follows from it, and the tag is sent beside them. But the message
/// that they state is signed. Refused, with nothing written, if the context has over 255 bytes.
pub fn sign_start(
    form: Form,
    msg: &[u8],
    ctx: &[u8],
    sk: &SecretKey,
    randomizer: Randomizer,
    start: &mut [u8],
) -> Result<(), SignFault>
    requires randomizer { HasLength randomizer (params sk.now.set).n }
    requires start { length start.old ≡ start_len (params sk.now.set) }
    ensures accepted { IsOk result ↔ (length ctx.now ≤ 255) }
    ensures start { OnOk result (start.new ≡ start_by sk.now (message_in_form form ctx.now msg.now) randomizer.entry) }
    ensures tagged { OnOk result (IsStart sk.now start.new) }
    ensures refused { OnErr result (start.new ≡ start.old) }
{
    let Some(message) = form.message(msg, ctx) else {
        return Err(SignFault::ContextTooLong);
    };
    start_parts(&message.parts(), sk, randomizer, start);
    Ok(())
}
