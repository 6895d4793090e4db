//! M', what is signed of a message in a form and under a context (FIPS 205, section 10.2).
ghost use Rattle.std.specs.Prelude.{◌≡◌, ◌↔◌, ◌≤◌, [], ◌∷◌, IsSome, IfSome, length};
ghost use Rattle.slh_hash.specs.Keyed.{joined};
ghost use Rattle.slh_core.specs.Messages.{bytes_of, message_bytes, oid_bytes, pure_message, pre_hash_message};

use crate::message_digest::MessageDigest;

/// The most bytes of a context: one byte of M' has their number (FIPS 205, Algorithm 22, line 8).
pub(crate) const MOST_CONTEXT_LEN: usize = u8::MAX as usize;

/// The first two bytes of M': its form, and the length of the context. `None` for a context of over 255
/// bytes, which has no M'.
fn head_of(form: u8, ctx: &[u8]) -> Option<[u8; 2]>
    ensures accepted { IsSome result ↔ (length ctx.now ≤ 255) }
    ensures head { IfSome result (λ head. head ≡ form ∷ length ctx.now ∷ []) }
{
    if ctx.len() > MOST_CONTEXT_LEN {
        return None;
    }
    Some([form, ctx.len() as u8])
}

/// The first two bytes of M' in the pure form, 0 and the length of the context (FIPS 205, Algorithm 22,
/// line 8); the context and the message follow them. `None` for a context of over 255 bytes.
pub(crate) fn pure_head(ctx: &[u8]) -> Option<[u8; 2]>
    ensures accepted { IsSome result ↔ (length ctx.now ≤ 255) }
    ensures head { IfSome result (λ head. head ≡ 0 ∷ length ctx.now ∷ []) }
{
    head_of(0, ctx)
}

/// M' under a context of at most 255 bytes. Neither message nor context is copied; a digest is.
#[derive(Drop)]
pub struct FormattedMessage<'a> {
    head: [u8; 2],
    ctx: &'a [u8],
    content: Content<'a>,
}

/// What follows the context in M'.
#[derive(Drop)]
enum Content<'a> {
    /// The message.
    Message(&'a [u8]),
    /// The object identifier of the pre-hash function, and the message's digest.
    Digest([u8; 11], MessageDigest),
}

impl<'a> FormattedMessage<'a> {
    /// M' in the pure form (Algorithm 22, line 8). `None` for a context of over 255 bytes.
    #[tactic(auto, unfolding(crate::specs::Messages::bytes_of))]
    pub(crate) fn of_message(msg: &'a [u8], ctx: &'a [u8]) -> Option<FormattedMessage<'a>>
        ensures accepted { IsSome result ↔ (length ctx.now ≤ 255) }
        ensures bytes { IfSome result (λ message. bytes_of message ≡ pure_message ctx.now msg.now) }
    {
        let head = pure_head(ctx)?;
        let content = Content::Message(msg);
        Some(FormattedMessage { head, ctx, content })
    }

    /// M' in the pre-hash form, of a digest: 1 and the length of the context, the context, the function's object
    /// identifier and the digest (Algorithm 23). `None` for a context of over 255 bytes.
    #[tactic(auto, unfolding(crate::specs::Messages::bytes_of))]
    pub fn of_digest(digest: &MessageDigest, ctx: &'a [u8]) -> Option<FormattedMessage<'a>>
        ensures accepted { IsSome result ↔ (length ctx.now ≤ 255) }
        ensures bytes { IfSome result (λ message. bytes_of message
            ≡ pre_hash_message ctx.now digest.now.function digest.now.bytes) }
    {
        let head = head_of(1, ctx)?;
        let content = Content::Digest(digest.function().oid(), digest.copy());
        Some(FormattedMessage { head, ctx, content })
    }

    /// The first two bytes.
    fn head(&self) -> &[u8]
        ensures { result.now ≡ self.now.head }
    {
        &self.head
    }

    /// The context.
    fn ctx(&self) -> &[u8]
        ensures { result.now ≡ self.now.ctx.now }
    {
        self.ctx
    }

    /// The object identifier of the pre-hash function; none in the pure form.
    fn oid(&self) -> &[u8]
        ensures { result.now ≡ oid_bytes self.now.content }
    {
        match &self.content {
            Content::Message(_) => &[],
            Content::Digest(oid, _) => oid,
        }
    }

    /// The message, or its digest in the pre-hash form.
    fn message(&self) -> &[u8]
        ensures { result.now ≡ message_bytes self.now.content }
    {
        match &self.content {
            Content::Message(msg) => msg,
            Content::Digest(_, digest) => digest.bytes(),
        }
    }

    /// The parts which, put end to end, are M'.
    #[tactic(auto, unfolding(crate::specs::Messages::bytes_of))]
    pub fn parts(&self) -> [&[u8]; 4]
        ensures { joined result ≡ bytes_of self.now }
    {
        [self.head(), self.ctx(), self.oid(), self.message()]
    }
}
