//! The output of a command, with its exit status.
ghost use Rattle.std.specs.Prelude.{◌≡◌, ◌<◌, IfOk, string_bytes};
ghost use Rattle.slh_tool.specs.Replies.{IsVerdict};

use std::alloc::{AllocError, Allocator};

/// The standard output of a command, and its exit status: 0 for done, valid, consistent or all tests passed, 1 for
/// invalid, inconsistent or a failed test.
#[derive(Drop)]
pub(crate) struct Reply<A: Allocator> {
    pub(crate) status: u8,
    pub(crate) output: Vec<u8, A>,
    ghost answered: { status < 2 },
}

impl<A: Allocator> Reply<A> {
    /// These bytes, and status 0.
    pub(crate) fn done(output: Vec<u8, A>) -> Reply<A>
        ensures status { result.status ≡ 0 }
        ensures output { result.output.items ≡ output.items }
    {
        Reply { status: 0, output }
    }

    /// This text, and status 0.
    pub(crate) fn text(text: String<A>) -> Reply<A>
        ensures status { result.status ≡ 0 }
        ensures output { result.output.items ≡ string_bytes text }
    {
        Reply::done(text.into_bytes())
    }

    /// One of two lines, and status 0 for the first.
    pub(crate) fn verdict(
        alloc: A,
        answer: bool,
        affirmed: &str,
        denied: &str,
    ) -> Result<Reply<A>, AllocError>
        ensures { IfOk result (λ r. IsVerdict answer affirmed.now denied.now r.status r.output.items) }
    {
        let (status, line) = if answer { (0, affirmed) } else { (1, denied) };
        let output = Vec::from_slice(alloc, line.as_bytes())?;
        Ok(Reply { status, output })
    }
}
