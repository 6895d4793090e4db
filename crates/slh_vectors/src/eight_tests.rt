//! The outcomes of eight verify tests at a time (FIPS 205, sections 9.3 and 10.3).
ghost use Rattle.std.specs.Prelude.{◌≡◌, ◌↔◌, ℕ, ◌<◌, Bool, IsTrue, IsSome, IfSome, slice_index_or};
ghost use Rattle.std.specs.Borrow.{Bor};
ghost use Rattle.slh_core.specs.Keyed.{joined};
ghost use Rattle.slh_core.specs.EightSignatures.{IsPartsValid};
ghost use Rattle.slh_workers.specs.Items.{AreAnswers};
ghost use Rattle.slh_vectors.specs.Cases.{input_view, test_view, verify, verify_view};
ghost use Rattle.slh_vectors.specs.EightTests.{IsSignedValid, IsTestValid, content_bytes};
ghost use Rattle.slh_vectors.specs.Outcomes.{HasMessage, IsOutcome, message_of};
ghost use Rattle.slh_vectors.specs.declared.eight_tests.Signed.{Signed};
ghost use Rattle.slh_vectors.specs.declared.outcome.Outcome.{Outcome};
ghost use Rattle.slh_vectors.specs.declared.test.Test.TheVariants.{Verify};
ghost use Rattle.slh_vectors.specs.declared.test.VerifyTest.{VerifyTest};

use super::outcome::Outcome;
use super::running::outcome_of;
use super::test::{Input, Interface, Test, VerifyTest};
use slh_core::{FormattedMessage, PublicKey, SignedParts, verify_eight};

/// The message as the first of four parts, of which the others are empty.
fn one_part<'m>(message: &'m &[u8]) -> [&'m [u8]; 4]
    ensures { joined result ≡ message.now.now }
{
    let message: &'m [u8] = message;
    [message, &[], &[], &[]]
}

/// M' of an input.
#[derive(Drop)]
enum Content<'a> {
    /// The message itself.
    Message(&'a [u8]),
    /// The message in a form and under a context.
    Formatted(FormattedMessage<'a>),
}

impl<'a> Content<'a> {
    /// M' of the input. `None` for a context of over 255 bytes.
    fn of(input: &'a Input) -> Option<Content<'a>>
        ensures accepted { IsSome result ↔ HasMessage input.now.form input.now.context.items }
        ensures bytes { IfSome result (λ content. content_bytes content ≡ message_of (input_view input.now)) }
    {
        let message = input.message.as_slice();
        match input.form {
            Interface::Internal => Some(Content::Message(message)),
            Interface::External(form) => {
                let formatted = form.message(message, input.context.as_slice())?;
                Some(Content::Formatted(formatted))
            }
        }
    }

    /// The parts which, put end to end, are M'.
    fn parts(&self) -> [&[u8]; 4]
        ensures { joined result ≡ content_bytes self.now }
    {
        match self {
            Content::Message(message) => one_part(message),
            Content::Formatted(formatted) => formatted.parts(),
        }
    }
}

/// A signature, with its key and M'.
#[derive(Drop)]
struct Signed<'a> {
    pk: PublicKey,
    /// None if the context has over 255 bytes.
    content: Option<Content<'a>>,
    sig: &'a [u8],
}

/// The key of the test.
fn key_of(test: &VerifyTest) -> PublicKey
    ensures { result ≡ record { set = test.now.set; bytes = test.now.pk.items } }
{
    match PublicKey::from_bytes(test.set, test.pk.as_slice()) {
        Ok(key) => key,
        // The test has as many bytes as a key of its set.
        Err(_) => unreachable!(),
    }
}

impl<'a> Signed<'a> {
    /// The signature of the test.
    fn of(test: &'a VerifyTest) -> Signed<'a>
        ensures { IsSignedValid result ↔ IsTestValid (verify_view test.now) }
    {
        Signed {
            pk: key_of(test),
            content: Content::of(&test.input),
            sig: test.signature.as_slice(),
        }
    }

    /// The signature, with M' in parts. If there is no M', no bytes stand for the signature, which are not valid.
    fn parts(&self) -> SignedParts<'_>
        ensures { IsPartsValid result ↔ IsSignedValid self.now }
    {
        let pk = &self.pk;
        match &self.content {
            Some(content) => SignedParts {
                pk,
                parts: content.parts(),
                sig: self.sig,
            },
            None => SignedParts {
                pk,
                parts: [&[]; 4],
                sig: &[],
            },
        }
    }
}

/// Whether each of eight signatures is valid.
fn verdicts_of_signed(all: &[Signed; 8]) -> [bool; 8]
    ensures { (j : ℕ) (valid : Bool) (x : Signed) → j < 8
        → IsTrue (slice_index_or result j valid) ↔ IsSignedValid (slice_index_or all.now j x) }
{
    let [a, b, c, d, e, f, g, h] = all;
    verify_eight(&[
        a.parts(),
        b.parts(),
        c.parts(),
        d.parts(),
        e.parts(),
        f.parts(),
        g.parts(),
        h.parts(),
    ])
}

/// Whether the signature of each of eight tests is valid.
fn verdicts_of_eight(tests: &[&VerifyTest; 8]) -> [bool; 8]
    ensures { (j : ℕ) (valid : Bool) (test : Bor VerifyTest) → j < 8
        → IsTrue (slice_index_or result j valid) ↔ IsTestValid (verify_view (slice_index_or tests.now j test).now) }
{
    let [a, b, c, d, e, f, g, h] = tests;
    verdicts_of_signed(&[
        Signed::of(a),
        Signed::of(b),
        Signed::of(c),
        Signed::of(d),
        Signed::of(e),
        Signed::of(f),
        Signed::of(g),
        Signed::of(h),
    ])
}

/// The outcome of a test whose signature is valid or not.
fn outcome_by(valid: bool, test: &VerifyTest) -> Outcome
    ensures { (IsTrue valid ↔ IsTestValid (verify_view test.now)) → IsOutcome (verify (verify_view test.now)) result }
{
    outcome_of(valid == test.valid)
}

/// The outcome of each of eight tests. It is never inlined, as `run_test` is not.
#[inline(never)]
fn outcomes_of_eight(tests: &[&VerifyTest; 8]) -> [Outcome; 8]
    ensures { (j : ℕ) (outcome : Outcome) (test : Bor VerifyTest) → j < 8
        → IsOutcome (verify (verify_view (slice_index_or tests.now j test).now)) (slice_index_or result j outcome) }
{
    let valid = verdicts_of_eight(tests);
    let mut outcomes = [Outcome::Fail; 8];
    for j in 0..8 {
        outcomes[j] = outcome_by(valid[j], tests[j]);
    }
    outcomes
}

/// The test, if it is a verify test.
fn verify_test(test: &Test) -> Option<&VerifyTest>
    ensures { IfSome result (λ t. test.now ≡ Verify t.now) }
{
    match test {
        Test::Verify(test) => Some(test),
        _ => None,
    }
}

/// The outcomes of the tests, if they are eight verify tests.
pub(crate) fn outcomes_of_batch(tests: &[Test]) -> Option<[Outcome; 8]>
    ensures { IfSome result (λ outcomes.
        AreAnswers (λ test outcome. IsOutcome (test_view test) outcome) tests.now outcomes) }
{
    let [a, b, c, d, e, f, g, h] = tests else {
        return None;
    };
    Some(outcomes_of_eight(&[
        verify_test(a)?,
        verify_test(b)?,
        verify_test(c)?,
        verify_test(d)?,
        verify_test(e)?,
        verify_test(f)?,
        verify_test(g)?,
        verify_test(h)?,
    ]))
}
