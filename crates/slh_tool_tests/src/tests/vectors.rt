//! Files and outputs of `vectors` that fail.
use super::devices::{Folder, Full, Narrow};
use super::fixtures::{NOT_VALID, THREE_TESTS, VECTORS};
use super::{equal, run_over, run_to};
use slh_io::Reader;
use slh_vectors::{Outcome, read_vectors, report};
use std::test::Fail;

#[test]
fn tells_a_read_and_a_write_that_fail(rt: HostRuntime) -> Result<(), Fail> {
    // The file is fetched once for its bytes and once for its end.
    for fails_at in [1, 2] {
        let files = [("tests", NOT_VALID)];
        let mut folder = Folder::new(&files);
        folder.fails_at = fails_at;
        let answer = run_over(&rt, &VECTORS, &mut folder)?;
        equal(
            &rt,
            &answer.errors.as_slice(),
            &b"slh: 32 ReadFailed\n".as_slice(),
        );
        equal(&rt, &answer.status, &2);
    }
    for room in [0, 1, 40] {
        let mut output = Full { room, failures: 0 };
        let mut input = Reader::new([].as_slice());
        let mut folder = Folder::new(&[("tests", NOT_VALID)]);
        let (status, errors) = run_to(&rt, &VECTORS, &mut folder, &mut input, &mut output)?;
        equal(
            &rt,
            &errors.as_slice(),
            &b"slh: 33 WriteFailed\n".as_slice(),
        );
        equal(&rt, &status, &2);
    }
    Ok(())
}

const OUTCOMES: [Outcome; 3] = [Outcome::Fail, Outcome::Pass, Outcome::Fail];

/// The report on `THREE_TESTS` if these are their outcomes.
const REPORT: &[u8] =
    b"test 1 keygen SLH-DSA-SHA2-128f fail\ntest 2 sign SLH-DSA-SHA2-128f pass\ntest 3 verify SLH-DSA-SHA2-128f fail\npassed 1 failed 2\n";

#[test]
fn a_failed_write_lets_a_front_through(rt: HostRuntime) -> Result<(), Fail> {
    let tests = read_vectors(rt.alloc(), THREE_TESTS)?;
    assert!(rt; tests.len() == 3);
    for room in 0..=REPORT.len() {
        let mut output = Narrow {
            taken: Vec::new(rt.alloc()),
            room,
            failures: 0,
        };
        let done = report(&tests, &OUTCOMES, &mut output);
        equal(&rt, &done.is_ok(), &(room == REPORT.len()));
        equal(&rt, &output.taken.as_slice(), &&REPORT[..room]);
    }
    Ok(())
}
