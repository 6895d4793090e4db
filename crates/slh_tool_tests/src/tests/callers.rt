//! The callers over files of known bytes.
use super::equal;
use super::fixtures::{PUBLIC, SECRET};
use crate::{check_known, verify_known};
use std::test::Fail;

#[test]
fn callers_over_known_files(rt: HostRuntime) -> Result<(), Fail> {
    let answer = check_known(&rt, SECRET)?;
    equal(&rt, &answer.output.as_slice(), &b"consistent\n".as_slice());
    equal(&rt, &answer.status, &0);
    let answer = verify_known(&rt, PUBLIC, b"abc", b"")?;
    equal(&rt, &answer.output.as_slice(), &b"invalid\n".as_slice());
    equal(&rt, &answer.status, &1);
    Ok(())
}
