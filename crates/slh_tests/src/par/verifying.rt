//! Many signatures at once.
use super::fixtures::{SET, workers};
use super::signing::Form;
use crate::seeds::key;
use crate::shared::equal;
use slh_core::PreHash;
use slh_par::{VerifyItem, verify_all};
use std::test::Fail;

#[test]
fn verdicts_in_the_order_of_the_items(rt: HostRuntime) -> Result<(), Fail> {
    let sk = key(SET);
    let pk = sk.public();
    let good = Form::Pure.abc(rt.alloc(), &sk)?;
    let of_digest = Form::PreHash.abc(rt.alloc(), &sk)?;
    let mut shorter = Form::Pure.abc(rt.alloc(), &sk)?;
    let _ = shorter.pop();
    let mut longer = Form::Pure.abc(rt.alloc(), &sk)?;
    longer.push(0)?;
    equal(
        &rt,
        &(shorter.len(), good.len(), longer.len()),
        &(17087, 17088, 17089),
    );
    let item = |sig, prehash| VerifyItem {
        pk: &pk,
        msg: b"abc",
        ctx: b"",
        prehash,
        sig,
    };
    let items = [
        item(shorter.as_slice(), None),
        item(longer.as_slice(), None),
        item(b"", None),
        item(good.as_slice(), None),
        item(good.as_slice(), Some(PreHash::Sha256)),
        item(of_digest.as_slice(), None),
        item(of_digest.as_slice(), Some(PreHash::Sha256)),
        item(of_digest.as_slice(), Some(PreHash::Sha512)),
    ];
    let expected = [false, false, false, true, false, false, true, false];
    for number in [1u8, 2, 64] {
        for count in [8usize, 4, 0] {
            let answers = verify_all(&rt, rt.alloc(), &items[..count], workers(number)?)?;
            equal(&rt, &answers.as_slice(), &&expected[..count]);
        }
    }
    Ok(())
}
