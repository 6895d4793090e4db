//! Inputs and outputs of `root` that never end or that fail.
use super::devices::{Broken, Endless, Folder, Full};
use super::{equal, run, run_to};
use slh_io::Reader;
use std::test::Fail;

#[test]
fn takes_no_more_of_an_endless_input_than_a_key_needs(rt: HostRuntime) -> Result<(), Fail> {
    let mut input = Endless { taken: 0 };
    let answer = run(&rt, &["root", "--set", "SLH-DSA-SHA2-128s"], &mut input)?;
    equal(
        &rt,
        &answer.errors.as_slice(),
        &b"slh: 34 BadSeeds\n".as_slice(),
    );
    equal(&rt, &input.taken, &98);
    Ok(())
}

#[test]
fn tells_a_failed_read_and_a_failed_write(rt: HostRuntime) -> Result<(), Fail> {
    let words = ["root", "--set", "SLH-DSA-SHA2-128f"];
    for good in [0, 1, 96, 97] {
        let mut input = Broken { good, failures: 0 };
        let answer = run(&rt, &words, &mut input)?;
        equal(&rt, &answer.status, &2);
        assert_eq!(rt;
            answer.errors.as_slice(),
            b"slh: 32 ReadFailed\n".as_slice(),
            "{good}"
        );
        assert!(rt; answer.output.is_empty());
    }
    let digits = [b'7'; 96];
    for room in [0, 10] {
        let mut output = Full { room, failures: 0 };
        let (status, errors) = run_to(
            &rt,
            &words,
            &mut Folder::new(&[]),
            &mut Reader::new(digits.as_slice()),
            &mut output,
        )?;
        equal(&rt, &status, &2);
        assert_eq!(rt;
            errors.as_slice(),
            b"slh: 33 WriteFailed\n".as_slice(),
            "{room}"
        );
    }
    Ok(())
}
