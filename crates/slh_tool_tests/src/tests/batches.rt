//! Many verify tests of one set, some of which are run eight at a time: of the signature of "abc" under the key of
//! SLH-DSA-SHA2-128f and the seeds 00, 01, 02, ..
use super::equal;
use super::passing::signature;
use slh_vectors::{Outcome, read_vectors, run_test, run_vectors};
use slh_workers::Workers;
use std::alloc::Global;
use std::test::Fail;

/// A verify test of the key, up to its input.
const FRONT: &str =
    "{\"kind\":\"verify\",\"set\":\"SLH-DSA-SHA2-128f\",\"pk\":\"202122232425262728292a2b2c2d2e2f3b56e816847f000386aeec2e2bb9e1b5\",";

/// Inputs of which this is the signature: "abc" in the pure form, and its M' itself.
const PURE: &str = "\"form\":\"pure\",\"message\":\"616263\",\"context\":\"\",";

const INTERNAL: &str = "\"form\":\"internal\",\"message\":\"0000616263\",\"context\":\"\",";

/// Inputs of which it is not: of another message, in another form, and under another context.
const OTHER: &str = "\"form\":\"pure\",\"message\":\"616264\",\"context\":\"\",";

const HASHED: &str = "\"form\":\"SHA2-256\",\"message\":\"616263\",\"context\":\"\",";

const UNDER_CONTEXT: &str = "\"form\":\"pure\",\"message\":\"616263\",\"context\":\"00\",";

/// A test of generating the key, which fails.
const KEYGEN: &str =
    "{\"kind\":\"keygen\",\"set\":\"SLH-DSA-SHA2-128f\",\"skSeed\":\"000102030405060708090A0b0c0d0e0f\",\"skPrf\":\"000102030405060708090A0b0c0d0e0f\",\"pkSeed\":\"000102030405060708090A0b0c0d0e0f\",\"sk\":\"000102030405060708090a0b0c0d0e0f000102030405060708090a0b0c0d0e0f000102030405060708090a0b0c0d0e0f000102030405060708090a0b0c0d0e0f\",\"pk\":\"000102030405060708090a0b0c0d0e0f000102030405060708090a0b0c0d0e0f\"}";

/// The inputs of the tests in their order, the `valid` of each, and whether it passes. No batch has a keygen test:
/// 19 tests come before it, and 8 after it.
const TESTS: [(&str, bool, bool); 27] = [
    (PURE, true, true),
    (OTHER, false, true),
    (INTERNAL, true, true),
    (PURE, false, true),
    (HASHED, false, true),
    (PURE, false, false),
    (UNDER_CONTEXT, true, false),
    (INTERNAL, false, false),
    (OTHER, true, false),
    (PURE, true, true),
    (PURE, true, true),
    (PURE, true, true),
    (INTERNAL, true, true),
    (PURE, true, true),
    (PURE, true, true),
    (PURE, false, false),
    (OTHER, false, true),
    (PURE, true, true),
    (OTHER, true, false),
    (PURE, true, true),
    (PURE, true, true),
    (UNDER_CONTEXT, false, true),
    (PURE, true, true),
    (INTERNAL, true, true),
    (PURE, true, true),
    (PURE, true, true),
    (OTHER, true, false),
];

/// The place of the test with another signature.
const BROKEN: usize = 3;

/// The text of the tests with the signature, in hex, and of a keygen test after the first 19. One test has the other
/// signature.
fn text_of(alloc: Global, sig: &str, broken: &str) -> Result<Vec<u8>, Fail> {
    let mut text = Vec::new(alloc);
    text.push(b'[')?;
    for (place, (input, valid, _)) in TESTS.iter().enumerate() {
        if place == 19 {
            text.extend_from_slice(KEYGEN.as_bytes())?;
            text.push(b',')?;
        }
        let sig = if place == BROKEN { broken } else { sig };
        for part in [FRONT, *input, "\"signature\":\"", sig, "\",\"valid\":"] {
            text.extend_from_slice(part.as_bytes())?;
        }
        let end = if *valid { "true}," } else { "false}," };
        text.extend_from_slice(end.as_bytes())?;
    }
    let _ = text.pop();
    text.push(b']')?;
    Ok(text)
}

/// The outcomes of the tests, in their order.
fn expected(alloc: Global) -> Result<Vec<Outcome>, Fail> {
    let mut outcomes = Vec::new(alloc);
    for (place, (_, _, passes)) in TESTS.iter().enumerate() {
        if place == 19 {
            outcomes.push(Outcome::Fail)?;
        }
        outcomes.push(if *passes {
            Outcome::Pass
        } else {
            Outcome::Fail
        })?;
    }
    Ok(outcomes)
}

#[test]
fn verify_tests_at_each_place_of_a_batch(rt: HostRuntime) -> Result<(), Fail> {
    let mut sig = signature(&rt, rt.alloc())?;
    let hex = hex::encode(rt.alloc(), sig.as_slice())?;
    if let Some(byte) = sig.last_mut() {
        *byte ^= 1;
    }
    let broken = hex::encode(rt.alloc(), sig.as_slice())?;
    let text = text_of(rt.alloc(), hex.as_str(), broken.as_str())?;
    let tests = read_vectors(rt.alloc(), text.as_slice())?;
    let expected = expected(rt.alloc())?;
    equal(&rt, &tests.len(), &28);
    for (test, outcome) in tests.iter().zip(&expected) {
        equal(&rt, &run_test(rt.alloc(), test)?, outcome);
    }
    for number in [1u8, 2, 4] {
        let workers = Workers::new(number).ok_or("workers")?;
        let outcomes = run_vectors(&rt, rt.alloc(), &tests, workers)?;
        equal(&rt, &outcomes.as_slice(), &expected.as_slice());
    }
    Ok(())
}
