//! Vector tests that pass: of the key of SLH-DSA-SHA2-128f and the seeds 00, 01, 02, .., and of its signature of "abc".
use super::equal;
use sha2::{Digest, Sha256};
use slh_core::{Randomizer, SecretKey, sign};
use slh_params::ParamSet;
use slh_vectors::{Outcome, read_vectors, run_test, run_vectors};
use slh_workers::Workers;
use std::alloc::Global;
use std::process::Abort;
use std::test::Fail;

/// The secret key as another implementation has it.
const KEY: &str =
    "000102030405060708090a0b0c0d0e0f101112131415161718191a1b1c1d1e1f202122232425262728292a2b2c2d2e2f3b56e816847f000386aeec2e2bb9e1b5";

/// The SHA-256 of the deterministic signature of "abc", as another implementation has it.
const OF_ABC: &str = "7c4622720e758897ec5f2089049bb5e5d98fc2e88bfdacf4fad3a1e20f80d5f8";

/// A test of this key, and the front of a test of this signature.
const FRONT: &[u8] =
    b"[{\"kind\":\"keygen\",\"set\":\"SLH-DSA-SHA2-128f\",\"skSeed\":\"000102030405060708090a0b0c0d0e0f\",\"skPrf\":\"101112131415161718191a1b1c1d1e1f\",\"pkSeed\":\"202122232425262728292a2b2c2d2e2f\",\"sk\":\"000102030405060708090a0b0c0d0e0f101112131415161718191a1b1c1d1e1f202122232425262728292a2b2c2d2e2f3b56e816847f000386aeec2e2bb9e1b5\",\"pk\":\"202122232425262728292a2b2c2d2e2f3b56e816847f000386aeec2e2bb9e1b5\"},{\"kind\":\"sign\",\"set\":\"SLH-DSA-SHA2-128f\",\"sk\":\"000102030405060708090a0b0c0d0e0f101112131415161718191a1b1c1d1e1f202122232425262728292a2b2c2d2e2f3b56e816847f000386aeec2e2bb9e1b5\",\"form\":\"pure\",\"message\":\"616263\",\"context\":\"\",\"random\":\"\",\"signature\":\"";

/// The signature of "abc", which has the SHA-256 of the other implementation's.
pub(super) fn signature(rt: &impl Abort, alloc: Global) -> Result<Vec<u8>, Fail> {
    let bytes = hex::decode(alloc, KEY)?;
    let sk = SecretKey::from_bytes(ParamSet::S128f, bytes.as_slice())?;
    let mut sig = vec![in alloc; 0u8; sk.set().sig_len()]?;
    sign(b"abc", b"", &sk, Randomizer::Deterministic, &mut sig)?;
    let sum = hex::encode(alloc, Sha256::digest(&sig).as_slice())?;
    equal(rt, &sum.as_str(), &OF_ABC);
    Ok(sig)
}

/// A file with both tests, whose signature is this one.
fn both_tests(alloc: Global, signature: &[u8]) -> Result<Vec<u8>, Fail> {
    let mut text = Vec::new(alloc);
    text.extend_from_slice(FRONT)?;
    text.extend_from_slice(hex::encode(alloc, signature)?.as_str().as_bytes())?;
    text.extend_from_slice(b"\"}]")?;
    Ok(text)
}

#[test]
fn a_key_and_its_signature_pass(rt: HostRuntime) -> Result<(), Fail> {
    let sig = signature(&rt, rt.alloc())?;
    let file = both_tests(rt.alloc(), sig.as_slice())?;
    let tests = read_vectors(rt.alloc(), file.as_slice())?;
    equal(&rt, &tests.len(), &2);
    for test in &tests {
        equal(&rt, &run_test(rt.alloc(), test)?, &Outcome::Pass);
    }
    for number in [1u8, 2] {
        let workers = Workers::new(number).ok_or("workers")?;
        let outcomes = run_vectors(&rt, rt.alloc(), &tests, workers)?;
        equal(&rt, &outcomes.as_slice(), &[Outcome::Pass; 2].as_slice());
    }
    Ok(())
}
