//! Each call once, against values of other implementations.
ghost use Rattle.std.specs.Prelude.{◌≡◌, IfOk, length};
ghost use Rattle.slh_params.specs.Params.{sig_len};
ghost use Rattle.slh_params.specs.ParamSet.{params};
ghost use Rattle.slh_core.specs.Keys.{IsGeneratedKey};
ghost use Rattle.slh_jobs.specs.Tags.{start_len as length_of_start};

use crate::{
    Signed, StopFlag, both_valid, is_letter_of, is_valid_package, join_of_two_runs, new_key,
    sign_by_own_threads, sign_by_threads, sign_letter, sign_package, sign_unless_stopped,
};
use rand_chacha::ChaCha20Rng;
use rand_core::SeedableRng;
use refusing_allocator::Refusing;
use sha2::{Digest, Sha256};
use slh_core::{Form, ParamSet, PreHash, Randomizer, SecretKey, check_pair};
use slh_jobs::{
    JobFault, Levels, answer_len, answer_start, answers_len, sign_job, sign_jobs, sign_start,
    start_len,
};
use slh_par::{ParFault, Workers};
use std::alloc::{AllocError, Global};
use std::process::Abort;
use std::test::Fail;

const SET: ParamSet = ParamSet::S128f;

/// The secret key of the tests.
const KEY: &str = concat!(
    "2405753dcaa2a51e87212c4a4b0c9e11d58535cb6eb2c2272bafdb675dcb8739",
    "d2d79fb9f9456875cf42de28fe04af67a31ca94490eff4f38d562a1c6190d702"
);

/// The secret key of the seeds 00, 01, 02, ..
const COUNTING_KEY: &str = concat!(
    "000102030405060708090a0b0c0d0e0f101112131415161718191a1b1c1d1e1f",
    "202122232425262728292a2b2c2d2e2f3b56e816847f000386aeec2e2bb9e1b5"
);

/// The SHA-256 of the signature of "abc" under that key by OpenSSL 3.5, deterministic and with no context.
const OF_ABC: &str = "7c4622720e758897ec5f2089049bb5e5d98fc2e88bfdacf4fad3a1e20f80d5f8";

/// The SHA-256 of the signature of the empty message, made likewise.
const OF_EMPTY: &str = "8f99272708b347baa34e384b3188cc225d0d8c8a20bbd91e7f5bd9370da4c81b";

/// The secret key that these hexadecimal digits spell.
fn key(alloc: Global, set: ParamSet, digits: &str) -> Result<SecretKey, Fail>
    ensures { IfOk result (λ sk. sk.set ≡ set) }
{
    Ok(SecretKey::from_bytes(set, &hex::decode(alloc, digits)?)?)
}

/// Room for a signature by the key.
fn room(alloc: Global, sk: &SecretKey) -> Result<Vec<u8>, Fail>
    ensures { IfOk result (λ sig. length sig.items ≡ sig_len (params sk.now.set)) }
{
    Ok(vec![in alloc; 0; sk.set().sig_len()]?)
}

/// The SHA-256 of the bytes, in hexadecimal digits.
fn sha256_hex(alloc: Global, bytes: &[u8]) -> Result<String, Fail> {
    Ok(hex::encode(alloc, Sha256::digest(bytes).as_slice())?)
}

/// That many workers.
fn workers(number: u8) -> Result<Workers, Fail> {
    Ok(Workers::new(number).ok_or("no such number of workers")?)
}

/// The trees of the set, cut by these levels.
fn levels(set: ParamSet, xmss: u32, fors: u32) -> Result<Levels, Fail>
    ensures { IfOk result (λ levels. levels.set ≡ set) }
{
    Ok(Levels::new(set, xmss, fors).ok_or("no such levels")?)
}

/// The secret key of the seeds 00, 01, 02, .., of which PK.root is computed again.
fn counting_key(alloc: Global) -> Result<SecretKey, Fail>
    ensures { IfOk result IsGeneratedKey }
{
    let sk = key(alloc, SET, COUNTING_KEY)?;
    let generated = if check_pair(&sk) { Some(sk) } else { None };
    Ok(generated.ok_or("PK.root is another")?)
}

/// The answers of all jobs of a signature, in turn.
fn answers(
    rt: &impl Abort,
    alloc: Global,
    levels: &Levels,
    sk: &SecretKey,
    start: &[u8],
) -> Result<Vec<u8>, Fail>
    requires set { sk.now.set ≡ levels.now.set }
    requires start { length start.now ≡ length_of_start (params levels.now.set) }
{
    let mut answers = vec![in alloc; 0; answers_len(levels)]?;
    for job in 0..sign_jobs(levels) {
        let first = answer_start(levels, job);
        let len = answer_len(levels, job);
        assert!(rt; first <= answers.len() && len <= answers.len() - first);
        sign_job(levels, sk, start, job, &mut answers[first..][..len])?;
    }
    Ok(answers)
}

/// The first 48 bytes of ChaCha20 under the key of 32 bytes 00 (RFC 8439, appendix A.1) are the seeds; PK.root is by a
/// reference in Python, which gives the roots of OpenSSL 3.5 for other seeds.
#[test]
fn key_from_a_generator(rt: HostRuntime) -> Result<(), Fail> {
    let mut rng = ChaCha20Rng::from_seed([0; 32]);
    let sk = new_key(SET, &mut rng);
    assert_eq!(rt;
        hex::encode(rt.alloc(), sk.bytes())?.as_str(),
        concat!(
            "76b8e0ada0f13d90405d6ae55386bd28bdd219b8a08ded1aa836efcc8b770dc7",
            "da41597c5157488d7724e03fb8d84a37322d913e2cfa3356dee4283dfca396de"
        )
    );
    assert!(rt; new_key(SET, &mut rng).bytes() != sk.bytes());
    Ok(())
}

// With PK.seed as the randomizer signatures are those of the deterministic variant, of which the digests are.
#[test]
fn letters(rt: HostRuntime) -> Result<(), Fail> {
    let sk = key(rt.alloc(), SET, KEY)?;
    let mut sig = room(rt.alloc(), &sk)?;
    let random = sk.pk_seed();
    let refused = sign_letter(&sk, &[7; 256], b"\xda", random, &mut sig).err();
    assert_eq!(rt; refused.map(|fault| fault.name()), Some("ContextTooLong"));
    sign_letter(&sk, b"\xf6", b"\xda", random, &mut sig)?;
    assert_eq!(rt;
        sha256_hex(rt.alloc(), &sig)?.as_str(),
        "0450b6cdd47d6f6245d879c7d6b8cb92517d8f33f3f9bb8f9379287c1d7a6edc"
    );
    let pk = sk.public();
    assert!(rt; is_letter_of(&pk, b"\xf6", b"\xda", &sig));
    assert!(rt; !is_letter_of(&pk, b"", b"\xda", &sig));
    assert!(rt; !is_letter_of(&pk, &[7; 256], b"\xda", &sig));
    Ok(())
}

/// The secret key, the randomizer and the SHA-256 of the signature of an empty message under the context
/// fc89fd046fd7ce, from `tests/vectors/slh-dsa-sha2-128f.json`.
const RANDOMIZED: (&str, &[u8; 16], &str) = (
    concat!(
        "f3c1a9ca44d1f82d3de52aaf58f6b254e1a2dd90db1a31c916e88d1fca3767fe",
        "f5fc9507745a38cbef416fddeab66a6302ab62deae8362054f0447ca372e1ca2"
    ),
    b"\x79\x4b\x81\x0e\xd2\x15\x9d\x66\xc4\x9a\xed\xa2\xeb\x14\xa7\x82",
    "0a83b591884faaf0a4a7479710298f87290a83acbb570cd5b9062bfb207ba32e",
);

#[test]
fn randomized_letter(rt: HostRuntime) -> Result<(), Fail> {
    let (digits, random, digest) = RANDOMIZED;
    let sk = key(rt.alloc(), SET, digits)?;
    let mut sig = room(rt.alloc(), &sk)?;
    let department = b"\xfc\x89\xfd\x04\x6f\xd7\xce";
    assert!(rt; random.len() == sk.set().n());
    sign_letter(&sk, department, b"", random, &mut sig)?;
    assert_eq!(rt; sha256_hex(rt.alloc(), &sig)?.as_str(), digest);
    assert!(rt; is_letter_of(&sk.public(), department, b"", &sig));
    Ok(())
}

#[test]
fn packages(rt: HostRuntime) -> Result<(), Fail> {
    let sk = key(rt.alloc(), SET, KEY)?;
    let mut sig = room(rt.alloc(), &sk)?;
    sign_package(&sk, PreHash::Sha256, b"\x67", b"\xdb\x48", &mut sig);
    assert_eq!(rt;
        sha256_hex(rt.alloc(), &sig)?.as_str(),
        "928ac85ca8ae5547151614b7ca6e573ca6f37f43d4add3b9ab50eaa5ee458ffa"
    );
    let pk = sk.public();
    assert!(rt; is_valid_package(&pk, PreHash::Sha256, b"\x67\xdb", b"\x48", &sig));
    assert!(rt; !is_valid_package(&pk, PreHash::Sha256, b"\xdb\x48", b"\x67", &sig));
    assert!(rt; !is_valid_package(&pk, PreHash::Sha512, b"\x67", b"\xdb\x48", &sig));
    Ok(())
}

#[test]
fn threads_and_a_stop_flag(rt: HostRuntime) -> Result<(), Fail> {
    let sk = key(rt.alloc(), SET, COUNTING_KEY)?;
    let three = workers(3)?;
    let mut sig = room(rt.alloc(), &sk)?;
    let flag = StopFlag::new();
    sign_by_threads(&rt, rt.alloc(), &sk, b"abc", three, &mut sig)?;
    assert_eq!(rt; sha256_hex(rt.alloc(), &sig)?.as_str(), OF_ABC);
    let mut sig = room(rt.alloc(), &sk)?;
    sign_unless_stopped(&rt, rt.alloc(), &sk, b"abc", three, &flag, &mut sig)?;
    assert_eq!(rt; sha256_hex(rt.alloc(), &sig)?.as_str(), OF_ABC);

    flag.raise();
    let mut sig = room(rt.alloc(), &sk)?;
    let stopped = sign_unless_stopped(&rt, rt.alloc(), &sk, b"abc", three, &flag, &mut sig);
    assert_eq!(rt; stopped.err(), Some(ParFault::Stopped));
    assert!(rt; sig.iter().all(|&byte| byte == 0));
    Ok(())
}

#[test]
fn own_threads(rt: HostRuntime) -> Result<(), Fail> {
    let sk = counting_key(rt.alloc())?;
    for (xmss, fors, threads) in [(0, 0, 1), (1, 1, 3), (3, 6, 8)] {
        let cut = levels(sk.set(), xmss, fors)?;
        let mut sig = room(rt.alloc(), &sk)?;
        sign_by_own_threads(&rt, rt.alloc(), &sk, b"abc", &cut, threads, &mut sig)?;
        assert_eq!(rt;
            sha256_hex(rt.alloc(), &sig)?.as_str(),
            OF_ABC,
            "{xmss} {fors}"
        );
    }
    Ok(())
}

/// The answers are all that is allocated: the first growth is refused, and there is no second.
#[test]
fn own_threads_without_memory(rt: HostRuntime) -> Result<(), Fail> {
    let sk = counting_key(rt.alloc())?;
    for nth in [1, 2] {
        let cut = levels(sk.set(), 1, 0)?;
        let alloc = Refusing::new(rt.alloc(), rt.alloc(), nth)?;
        let mut sig = room(rt.alloc(), &sk)?;
        let signed = sign_by_own_threads(&rt, alloc.clone()?, &sk, b"abc", &cut, 3, &mut sig);
        assert_eq!(rt; alloc.has_refused(), nth == 1);
        assert_eq!(rt;
            signed.err(),
            if nth == 1 { Some(AllocError) } else { None }
        );
        assert_eq!(rt; sig.iter().all(|&byte| byte == 0), nth == 1);
    }
    Ok(())
}

#[test]
fn two_runs_of_all_jobs(rt: HostRuntime) -> Result<(), Fail> {
    let sk = key(rt.alloc(), SET, COUNTING_KEY)?;
    let cut = levels(sk.set(), 0, 0)?;
    let mut start = vec![in rt.alloc(); 0; start_len(sk.set())]?;
    sign_start(
        Form::Pure,
        b"abc",
        b"",
        &sk,
        Randomizer::Deterministic,
        &mut start,
    )?;
    let answers = answers(&rt, rt.alloc(), &cut, &sk, &start)?;
    let mut others = answers.as_slice().to_vec(rt.alloc())?;
    let mut sig = room(rt.alloc(), &sk)?;
    join_of_two_runs(&cut, &sk, &start, &answers, &others, &mut sig)?;
    assert_eq!(rt; sha256_hex(rt.alloc(), &sig)?.as_str(), OF_ABC);
    others.push(0)?;
    let refused = join_of_two_runs(&cut, &sk, &start, &answers, &others, &mut sig);
    assert_eq!(rt; refused.err(), Some(JobFault::AnswersDisagree));
    Ok(())
}

#[test]
fn two_signatures_at_once(rt: HostRuntime) -> Result<(), Fail> {
    let sk = key(rt.alloc(), SET, COUNTING_KEY)?;
    let pk = sk.public();
    let mut of_abc = room(rt.alloc(), &sk)?;
    sign_letter(&sk, b"", b"abc", sk.pk_seed(), &mut of_abc)?;
    assert_eq!(rt; sha256_hex(rt.alloc(), &of_abc)?.as_str(), OF_ABC);
    let mut of_empty = room(rt.alloc(), &sk)?;
    sign_letter(&sk, b"", b"", sk.pk_seed(), &mut of_empty)?;
    assert_eq!(rt; sha256_hex(rt.alloc(), &of_empty)?.as_str(), OF_EMPTY);
    let abc = Signed {
        msg: b"abc",
        sig: &of_abc,
    };
    let empty = Signed {
        msg: b"",
        sig: &of_empty,
    };
    let exchanged = Signed {
        msg: b"abc",
        sig: &of_empty,
    };
    for (first, second, valid) in [
        (abc, empty, true),
        (abc, exchanged, false),
        (exchanged, abc, false),
    ] {
        assert_eq!(rt; both_valid(&rt, rt.alloc(), &pk, &first, &second)?, valid);
    }
    Ok(())
}
