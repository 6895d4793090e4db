//! Files and outputs that fail, and a file that never ends.
use super::devices::{Folder, Full, WithEndlessFile};
use super::fixtures::{PUBLIC, SECRET, SIGN, SIGN_HASHED, VERIFY, VERIFY_HASHED};
use super::own_files::{Counts, OwnFiles, PLAIN, Ways};
use super::{equal, run_over, run_to};
use slh_io::{FetchFault, Opener, Reader, Sink, Source, WriteFault, Writer};
use std::process::Abort;
use std::test::Fail;
use std::thread::Threads;

/// The number of fetches that the command makes, each of which ends it by 32 if it fails.
fn fetches<R: Abort + AllocGlobal + Threads + Sync>(
    rt: &R,
    words: &[&str],
    secret: &[u8],
) -> Result<u64, Fail> {
    let files = [
        ("secret", secret),
        ("public", PUBLIC),
        ("abc", b"abc".as_slice()),
        ("sig", b"no signature".as_slice()),
    ];
    for fails_at in 1..20u64 {
        let mut folder = Folder::new(&files);
        folder.fails_at = fails_at;
        let answer = run_over(rt, words, &mut folder)?;
        if answer.status != 2 {
            assert!(rt; !answer.output.is_empty());
            assert!(rt; answer.errors.is_empty());
            return Ok(fails_at - 1);
        }
        assert!(rt; answer.output.is_empty());
        assert_eq!(rt;
            answer.errors.as_slice(),
            b"slh: 32 ReadFailed\n".as_slice(),
            "{fails_at}"
        );
    }
    Err("no run without a failure".into())
}

#[test]
fn tells_each_fetch_that_fails(rt: HostRuntime) -> Result<(), Fail> {
    // Each file is fetched once for its bytes and once for its end.
    let cases: [(&[&str], u64); 6] = [
        (&["public", "--key", "secret"], 2),
        (&["check", "--key", "secret"], 2),
        (&SIGN, 4),
        (&SIGN_HASHED, 4),
        (&VERIFY, 6),
        (&VERIFY_HASHED, 6),
    ];
    for (words, count) in cases {
        equal(&rt, &fetches(&rt, words, SECRET)?, &count);
    }
    Ok(())
}

#[test]
fn tells_an_output_that_breaks_off(rt: HostRuntime) -> Result<(), Fail> {
    let files = [("secret", SECRET), ("abc", b"abc".as_slice())];
    let digits = [b'7'; 96];
    let cases: [&[&str]; 5] = [
        &["params"],
        &["keygen", "--set", "SLH-DSA-SHA2-128f"],
        &["public", "--key", "secret"],
        &["check", "--key", "secret"],
        &SIGN,
    ];
    for words in cases {
        let mut output = Full {
            room: 10,
            failures: 0,
        };
        let mut input = Reader::new(digits.as_slice());
        let mut folder = Folder::new(&files);
        let (status, errors) = run_to(&rt, words, &mut folder, &mut input, &mut output)?;
        equal(
            &rt,
            &errors.as_slice(),
            &b"slh: 33 WriteFailed\n".as_slice(),
        );
        equal(&rt, &status, &2);
        equal(&rt, &output.room, &0);
    }
    Ok(())
}

#[test]
fn reads_a_message_by_pieces_up_to_the_limit(rt: HostRuntime) -> Result<(), Fail> {
    let files = [("public", PUBLIC)];
    let mut files = WithEndlessFile {
        folder: Folder::new(&files),
        name: "abc",
    };
    // There is no signature, but the message is refused first, also if it is read last.
    let commands: [&[&str]; 2] = [&VERIFY_HASHED, &VERIFY];
    for words in commands {
        let answer = run_over(&rt, words, &mut files)?;
        equal(
            &rt,
            &answer.errors.as_slice(),
            &b"slh: 36 FileTooLong\n".as_slice(),
        );
        equal(&rt, &answer.status, &2);
    }
    Ok(())
}

#[test]
fn a_reader_counts_each_failure_once(rt: HostRuntime) -> Result<(), Fail> {
    let counts = Counts::new();
    let own = OwnFiles {
        files: &[("abc", b"abc".as_slice())],
        ways: Ways {
            fails_at: 1,
            ..PLAIN
        },
        counts: &counts,
    };
    let mut reader = Reader::new((&own).open("abc")?);
    let mut room = [0; 3];
    equal(&rt, &reader.take(&mut room), &Err(FetchFault));
    equal(&rt, &reader.failures, &1);
    equal(&rt, &reader.take(&mut room), &Ok(3));
    equal(&rt, &reader.failures, &1);
    Ok(())
}

/// Each write to a file fails.
#[test]
fn a_writer_counts_each_failure_once(rt: HostRuntime) -> Result<(), Fail> {
    let counts = Counts::new();
    let own = OwnFiles {
        files: &[("abc", b"abc".as_slice())],
        ways: PLAIN,
        counts: &counts,
    };
    let mut writer = Writer::new((&own).open("abc")?);
    for failures in [1, 2] {
        equal(&rt, &writer.put(b"abc"), &Err(WriteFault));
        equal(&rt, &writer.failures, &failures);
    }
    Ok(())
}
