//! Batches: how many items they have, and signatures verified eight at a time.
use super::fixtures::{SET, workers};
use super::signing::Form;
use crate::seeds::key;
use crate::shared::equal;
use slh_core::{PreHash, Randomizer, SecretKey, sign};
use slh_par::{VerifyItem, Workers, push_batches, verify_all};
use slh_params::ParamSet;
use slh_workers::BATCH;
use std::alloc::Global;
use std::process::Abort;
use std::test::Fail;
use std::thread::Threads;

/// The numbers of items of the batches of so many items for so many workers.
fn sizes(alloc: Global, count: usize, workers: Workers) -> Result<Vec<usize>, Fail> {
    let items = vec![in alloc; 0u8; count]?;
    let mut batches = Vec::new(alloc);
    push_batches(&mut batches, items.as_slice(), workers)?;
    let mut sizes = Vec::new(alloc);
    for batch in &batches {
        sizes.push(batch.len())?;
    }
    Ok(sizes)
}

/// Fails the test unless the first batches have eight items, so many of them, and so many after them one.
fn check_sizes(rt: &impl Abort, sizes: &[usize], whole: usize, single: usize) {
    equal(
        rt,
        &sizes.iter().filter(|size| **size == BATCH).count(),
        &whole,
    );
    equal(
        rt,
        &sizes.iter().take_while(|size| **size == 8).count(),
        &whole,
    );
    equal(
        rt,
        &sizes.iter().filter(|size| **size == 1).count(),
        &single,
    );
    equal(rt, &sizes.len(), &whole.wrapping_add(single));
}

#[test]
fn whole_batches_while_each_worker_has_one(rt: HostRuntime) -> Result<(), Fail> {
    let expected = [
        (1u8, 0usize, 0usize, 0usize),
        (1, 7, 0, 7),
        (1, 8, 1, 0),
        (1, 17, 2, 1),
        (2, 15, 0, 15),
        (2, 31, 2, 15),
        (4, 64, 8, 0),
        (4, 95, 8, 31),
        (64, 511, 0, 511),
        (64, 513, 64, 1),
    ];
    for (number, count, whole, single) in expected {
        let sizes = sizes(rt.alloc(), count, workers(number)?)?;
        check_sizes(&rt, sizes.as_slice(), whole, single);
    }
    Ok(())
}

/// Verifies the first items at a time, and compares the verdicts with those of the items one by one, of which so many
/// are not valid.
fn check_items<R: Abort + Threads + Sync>(
    rt: &R,
    alloc: Global,
    items: &[VerifyItem; 64],
    wrong: usize,
) -> Result<(), Fail> {
    let mut expected = Vec::new(alloc);
    for item in items {
        expected.push(item.is_valid())?;
    }
    equal(
        rt,
        &expected.iter().filter(|valid| !**valid).count(),
        &wrong,
    );
    for number in [1u8, 2, 4] {
        for count in [9usize, 17, 64] {
            let answers = verify_all(rt, alloc, &items[..count], workers(number)?)?;
            equal(rt, &answers.len(), &count);
            let same = answers
                .iter()
                .zip(&expected)
                .all(|(found, valid)| found == valid);
            equal(rt, &same, &true);
        }
    }
    Ok(())
}

/// The signature of "abc" in the pure form, under the context.
fn of_abc(alloc: Global, sk: &SecretKey, ctx: &[u8]) -> Result<Vec<u8>, Fail> {
    let mut sig = vec![in alloc; 0u8; sk.set().sig_len()]?;
    sign(b"abc", ctx, sk, Randomizer::Deterministic, &mut sig)?;
    Ok(sig)
}

#[test]
fn a_wrong_item_at_each_place_of_a_batch(rt: HostRuntime) -> Result<(), Fail> {
    let sk = key(ParamSet::custom(16, 4, 2, 2, 3, 8)?);
    let pk = sk.public();
    let sig = of_abc(rt.alloc(), &sk, b"")?;
    let good = VerifyItem {
        pk: &pk,
        msg: b"abc",
        ctx: b"",
        prehash: None,
        sig: sig.as_slice(),
    };
    let wrong = VerifyItem {
        msg: b"abd",
        ..good
    };
    let mut items = [good; 64];
    for place in 0..8usize {
        items[9 * place] = wrong;
    }
    check_items(&rt, rt.alloc(), &items, 8)?;
    let mut reversed = [wrong; 64];
    for place in 0..8usize {
        reversed[9 * place] = good;
    }
    check_items(&rt, rt.alloc(), &reversed, 56)
}

#[test]
fn contexts_that_are_too_long_at_each_place(rt: HostRuntime) -> Result<(), Fail> {
    let sk = key(ParamSet::custom(16, 4, 2, 2, 3, 8)?);
    let pk = sk.public();
    let longest = [7u8; 255];
    let sig = of_abc(rt.alloc(), &sk, &longest)?;
    let good = VerifyItem {
        pk: &pk,
        msg: b"abc",
        ctx: &longest,
        prehash: None,
        sig: sig.as_slice(),
    };
    let long = [7u8; 256];
    let too_long = VerifyItem { ctx: &long, ..good };
    let digest_too_long = VerifyItem {
        prehash: Some(PreHash::Sha256),
        ..too_long
    };
    let mut items = [good; 64];
    for place in 0..8usize {
        items[9 * place] = too_long;
    }
    items[1] = digest_too_long;
    check_items(&rt, rt.alloc(), &items, 9)
}

#[test]
fn items_of_several_sets_and_forms(rt: HostRuntime) -> Result<(), Fail> {
    let sk = key(SET);
    let pk = sk.public();
    let small = ParamSet::custom(32, 4, 2, 2, 3, 8)?;
    let small_sk = key(small);
    let small_pk = small_sk.public();
    let pure = of_abc(rt.alloc(), &sk, b"")?;
    let of_digest = Form::PreHash.abc(rt.alloc(), &sk)?;
    let of_small = of_abc(rt.alloc(), &small_sk, b"")?;
    let good = VerifyItem {
        pk: &pk,
        msg: b"abc",
        ctx: b"",
        prehash: None,
        sig: pure.as_slice(),
    };
    let hashed = VerifyItem {
        prehash: Some(PreHash::Sha256),
        sig: of_digest.as_slice(),
        ..good
    };
    let other = VerifyItem {
        pk: &small_pk,
        sig: of_small.as_slice(),
        ..good
    };
    let kinds = [good, other, hashed];
    let mut items = [good; 64];
    for j in 0..64usize {
        items[j] = kinds[j % 3];
    }
    check_items(&rt, rt.alloc(), &items, 0)?;
    for place in 0..8usize {
        let item = items[9 * place];
        items[9 * place] = VerifyItem { msg: b"ab", ..item };
    }
    items[1] = VerifyItem { pk: &pk, ..other };
    check_items(&rt, rt.alloc(), &items, 9)
}
