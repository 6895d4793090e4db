//! Memory that is refused.
use super::devices::Folder;
use super::equal;
use super::fixtures::{NOT_VALID, PUBLIC, SECRET, SIGN, SIGN_HASHED, SIGN_TWICE, VECTORS, VERIFY};
use crate::{Answer, words_of};
use refusing_allocator::Refusing;
use slh_io::{Reader, Writer};
use slh_tool::command;
use std::test::Fail;
use std::thread::Threads;

/// More growths than any command here asks for.
const MANY: u64 = 2000;

/// The answer of a command, the number of growths that it asked for, and whether one was refused.
#[derive(Drop)]
struct Counted {
    answer: Answer,
    growths: u64,
    refused: bool,
}

/// Runs a command with these files and this standard input. The growth of that number is refused; none if it is 0.
fn run_counted<R: AllocGlobal + Threads + Sync>(
    rt: &R,
    words: &[&str],
    files: &[(&str, &[u8])],
    input: &[u8],
    refused: u64,
) -> Result<Counted, Fail> {
    let alloc = Refusing::new(rt.alloc(), rt.alloc(), refused)?;
    let words = words_of(rt.alloc(), words)?;
    let mut output = Writer::new(Vec::new(rt.alloc()));
    let mut errors = Writer::new(Vec::new(rt.alloc()));
    let status = command(
        rt,
        alloc.clone()?,
        words.as_slice(),
        &mut Folder::new(files),
        &mut Reader::new(input),
        &mut output,
        &mut errors,
    );
    let answer = Answer {
        status,
        output: output.into_inner(),
        errors: errors.into_inner(),
    };
    Ok(Counted {
        answer,
        growths: alloc.growths(),
        refused: alloc.has_refused(),
    })
}

#[test]
fn refuses_each_growth_and_then_works(rt: HostRuntime) -> Result<(), Fail> {
    let set = ["--set", "SLH-DSA-SHA2-128f"];
    let files = [
        ("secret", SECRET),
        (
            "public",
            b"slh-dsa-public 1\nSLH-DSA-SHA2-128f\n202122232425262728292a2b2c2d2e2f3b56e816847f000386aeec2e2bb9e1b5\n".as_slice(),
        ),
        ("abc", b"abc".as_slice()),
        ("sig", b"no signature".as_slice()),
        ("tests", NOT_VALID),
    ];
    let commands: [&[&str]; 17] = [
        &["--version"],
        &["params"],
        &["params", set[0], set[1]],
        &["root", set[0], set[1]],
        &["root", "--help"],
        &["keygen", set[0], set[1]],
        &[
            "keygen",
            set[0],
            set[1],
            "--workers",
            "3",
            "--xmss-levels",
            "1",
        ],
        &["public", "--key", "secret"],
        &["check", "--key", "secret"],
        &["upgrade", "--key", "secret"],
        &["upgrade", "--key", "public"],
        &SIGN,
        &SIGN_TWICE,
        &SIGN_HASHED,
        &[
            "sign",
            "--key",
            "secret",
            "--message",
            "abc",
            "--workers",
            "2",
            "--fors-cuts",
            "31,33",
        ],
        &VERIFY,
        &VECTORS,
    ];
    for words in commands {
        let mut refusals = 0u64;
        for nth in 1..MANY {
            let run = run_counted(&rt, words, &files, &[b'7'; 96], nth)?;
            if !run.refused {
                assert!(rt; run.answer.status < 2);
                break;
            }
            assert!(rt; run.answer.output.is_empty());
            equal(
                &rt,
                &run.answer.errors.as_slice(),
                &b"slh: 1 NoMemory\n".as_slice(),
            );
            refusals = nth;
        }
        assert!(rt; 0 < refusals && refusals.wrapping_add(1) < MANY);
    }
    Ok(())
}

/// The growths of `verify` with a signature file of this many bytes.
fn growths_of_verify<R: AllocGlobal + Threads + Sync>(rt: &R, len: usize) -> Result<u64, Fail> {
    let mut signature = Vec::new(rt.alloc());
    signature.resize(len, 7u8)?;
    let files = [
        ("public", PUBLIC),
        ("abc", b"abc".as_slice()),
        ("sig", signature.as_slice()),
    ];
    let run = run_counted(rt, &VERIFY, &files, &[], 0)?;
    if run.answer.status == 2 {
        return Err("the command was refused".into());
    }
    Ok(run.growths)
}

#[test]
fn holds_no_more_of_a_signature_than_a_byte_too_many(rt: HostRuntime) -> Result<(), Fail> {
    let least = growths_of_verify(&rt, 17089)?;
    for len in [17090, 40_000, 1_000_000] {
        equal(&rt, &growths_of_verify(&rt, len)?, &least);
    }
    Ok(())
}

/// Runs `public` with a key file of this many digits and the bytes after them.
fn run_public<R: AllocGlobal + Threads + Sync>(
    rt: &R,
    digits: usize,
    after: &[u8],
) -> Result<Counted, Fail> {
    let mut file = Vec::new(rt.alloc());
    file.extend_from_slice(b"slh-dsa-secret 1\nSLH-DSA-SHA2-128f\n")?;
    let len = file.len().wrapping_add(digits);
    file.resize(len, b'7')?;
    file.extend_from_slice(after)?;
    run_counted(
        rt,
        &["public", "--key", "secret"],
        &[("secret", file.as_slice())],
        &[],
        0,
    )
}

#[test]
fn holds_a_front_of_a_long_key_file(rt: HostRuntime) -> Result<(), Fail> {
    let afters: [(&[u8], &[u8]); 4] = [
        (b"", b"slh: 14 BadKeyLength\n"),
        (b"\nxx", b"slh: 14 BadKeyLength\n"),
        (b"x", b"slh: 13 BadHex\n"),
        (b"77x7\n", b"slh: 13 BadHex\n"),
    ];
    for (after, errors) in afters {
        let most = run_public(&rt, 600, after)?.growths;
        for digits in [4061, 4062, 40_000, 1_000_000] {
            let run = run_public(&rt, digits, after)?;
            equal(&rt, &run.answer.errors.as_slice(), &errors);
            assert!(rt; run.growths <= most);
        }
    }
    Ok(())
}
