//! Sets of other numbers than the standard's: the bytes of several workers are those of one thread.
ghost use Rattle.std.specs.Prelude.{◌≡◌};

use super::fixtures::workers;
use super::signing::Form;
use crate::seeds::key;
use crate::shared::equal;
use slh_core::{SecretKey, check_pair, verify};
use slh_par::{Cuts, Cutting, NoGate};
use slh_params::ParamSet;
use std::alloc::Global;
use std::process::Abort;
use std::test::Fail;
use std::thread::Threads;

const LABELS: [&str; 3] = [
    "custom:16,2,1,1,1,1",
    "custom:24,2,1,65,1,8",
    "custom:32,8,5,13,3,5",
];

/// Signs "abc" by 1 and 3 workers, with whole trees and with trees that are cut in two.
fn sign_in_each_way<R: Abort + Threads + Sync>(
    rt: &R,
    alloc: Global,
    sk: &SecretKey,
    expected: &[u8],
) -> Result<(), Fail> {
    for levels in [0u32, 1] {
        let cutting = Cutting::new(sk.set(), Cuts::Levels(levels), Cuts::Levels(levels))?;
        for number in [1u8, 3] {
            let some = workers(number)?;
            let sig = Form::Pure.abc_par(rt, alloc, sk, some, &cutting, &NoGate)?;
            equal(rt, &(sig.as_slice() == expected), &true);
        }
    }
    Ok(())
}

/// The keys whose seeds are the bytes 00, 01, 02, ..
#[test]
fn three_records(rt: HostRuntime) -> Result<(), Fail> {
    for label in LABELS {
        let set = ParamSet::from_label(label.as_bytes()).ok_or("no label of a set")?;
        let sk = key(set);
        equal(&rt, &check_pair(&sk), &true);
        let sig = Form::Pure.abc(rt.alloc(), &sk)?;
        equal(&rt, &verify(b"abc", b"", &sig, &sk.public()), &true);
        sign_in_each_way(&rt, rt.alloc(), &sk, &sig)?;
    }
    Ok(())
}
