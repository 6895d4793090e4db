//! Files of a runtime, as the program reads them.
use super::devices::Folder;
use super::fixtures::{PUBLIC, SECRET, SIGN, VECTORS, VERIFY, VERIFY_HASHED};
use super::own_files::{Counts, OwnFiles, PLAIN, Ways};
use super::{check_refused, equal, run_over};
use crate::Answer;
use slh_io::{Disk, Files};
use std::process::Abort;
use std::test::Fail;
use std::thread::Threads;

/// Ways to read files, in each of which all bytes come.
const WAYS: [Ways; 6] = [
    PLAIN,
    Ways { most: 1, ..PLAIN },
    Ways {
        most: 1000,
        ..PLAIN
    },
    Ways {
        is_interrupted: true,
        ..PLAIN
    },
    Ways {
        is_pipe: true,
        ..PLAIN
    },
    Ways {
        most: 1000,
        is_interrupted: true,
        is_pipe: true,
        ..PLAIN
    },
];

/// A message that is longer than two pieces.
fn long_message<R: AllocGlobal>(rt: &R) -> Result<Vec<u8>, Fail> {
    let mut message = Vec::new(rt.alloc());
    for k in 0..10_000u32 {
        message.push((k % 251) as u8)?;
    }
    Ok(message)
}

/// The signature of a message, read at once.
fn signature<R: AllocGlobal + Threads + Sync>(
    rt: &R,
    secret: &[u8],
    message: &[u8],
) -> Result<Vec<u8>, Fail> {
    let files = [("secret", secret), ("abc", message)];
    Ok(run_over(rt, &SIGN, &mut Folder::new(&files))?.output)
}

/// The answer of a command over the files of a runtime.
fn answer_over_own<'f, R: AllocGlobal + Threads + Sync>(
    rt: &R,
    words: &[&str],
    files: &'f [(&'f str, &'f [u8])],
    ways: Ways,
    counts: &Counts,
) -> Result<Answer, Fail> {
    let own = OwnFiles {
        files,
        ways,
        counts,
    };
    run_over(rt, words, &mut Disk::new(&own))
}

/// Signs and verifies over these files, read in one way, and looks at the answers and at how often a file was opened.
fn check_way<'f, R: Abort + AllocGlobal + Threads + Sync>(
    rt: &R,
    files: &'f [(&'f str, &'f [u8])],
    ways: Ways,
    signature: &[u8],
) -> Result<(), Fail> {
    let counts = Counts::new();
    let signed = answer_over_own(rt, &SIGN, files, ways, &counts)?;
    equal(rt, &signed.output.as_slice(), &signature);
    equal(rt, &counts.opens.get(), &2);
    let told = answer_over_own(rt, &VERIFY, files, ways, &counts)?;
    equal(rt, &told.output.as_slice(), &b"valid\n".as_slice());
    equal(rt, &counts.opens.get(), &5);
    equal(rt, &told.status, &0);
    Ok(())
}

fn check_ways<'f, R: Abort + AllocGlobal + Threads + Sync>(
    rt: &R,
    secret: &'f [u8],
    message: &'f [u8],
    signature: &'f [u8],
) -> Result<(), Fail> {
    let files = [
        ("secret", secret),
        ("public", PUBLIC),
        ("abc", message),
        ("sig", signature),
    ];
    for ways in WAYS {
        check_way(rt, &files, ways, signature)?;
    }
    Ok(())
}

#[test]
fn reads_files_in_any_pieces(rt: HostRuntime) -> Result<(), Fail> {
    let message = long_message(&rt)?;
    let signature = signature(&rt, SECRET, message.as_slice())?;
    equal(&rt, &signature.len(), &17088);
    check_ways(&rt, SECRET, message.as_slice(), signature.as_slice())
}

/// The number of reads that the command makes, each of which ends it by 32 if it fails, and the number of reads that
/// follow the failed ones.
fn reads<'f, R: Abort + AllocGlobal + Threads + Sync>(
    rt: &R,
    words: &[&str],
    files: &'f [(&'f str, &'f [u8])],
) -> Result<(u64, u64), Fail> {
    let mut after = 0u64;
    for fails_at in 1..40u64 {
        let counts = Counts::new();
        let answer = answer_over_own(rt, words, files, Ways { fails_at, ..PLAIN }, &counts)?;
        if answer.status != 2 {
            return Ok((fails_at - 1, after));
        }
        check_refused(rt, &answer, b"slh: 32 ReadFailed\n");
        after = after.saturating_add(counts.reads.get().saturating_sub(fails_at));
    }
    Err("no run without a failure".into())
}

#[test]
fn tells_each_read_that_fails(rt: HostRuntime) -> Result<(), Fail> {
    let message = long_message(&rt)?;
    let files = [
        ("secret", SECRET),
        ("public", PUBLIC),
        ("abc", message.as_slice()),
        ("sig", message.as_slice()),
        ("tests", b"[]".as_slice()),
    ];
    // A key file is read once for its bytes and once for its end, the message and the signature three times and once.
    // In the pure form the signature is read first. If that fails, the message is still read, for its refusal.
    let cases: [(&[&str], (u64, u64)); 5] = [
        (&["check", "--key", "secret"], (2, 0)),
        (&SIGN, (6, 0)),
        (&VERIFY, (10, 16)),
        (&VERIFY_HASHED, (10, 0)),
        (&VECTORS, (2, 0)),
    ];
    for (words, count) in cases {
        equal(&rt, &reads(&rt, words, &files)?, &count);
    }
    Ok(())
}

#[test]
fn reads_two_files_by_turns(rt: HostRuntime) -> Result<(), Fail> {
    let (first, second) = (b"abcdefghij".as_slice(), b"0123456789".as_slice());
    let files = [("first", first), ("other", second)];
    let counts = Counts::new();
    let own = OwnFiles {
        files: &files,
        ways: PLAIN,
        counts: &counts,
    };
    let mut disk = Disk::new(&own);
    for at in [0, 3, 6, 9, 2usize] {
        for (name, bytes) in [("first", first), ("other", second)] {
            let mut room = [0; 3];
            let got = disk.fetch(name, at as u64, &mut room);
            let left = &bytes[at.min(bytes.len())..];
            let most = left.len().min(3);
            equal(&rt, &got, &Ok(most));
            equal(&rt, &&room[..most], &&left[..most]);
        }
    }
    let mut room = [0; 3];
    equal(&rt, &disk.fetch("first", 10, &mut room), &Ok(0));
    assert!(rt; disk.fetch("none", 0, &mut room).is_err());
    equal(&rt, &disk.failures, &1);
    Ok(())
}
