//! Calls with the 1st growth of memory refused, then the 2nd, and so on until a call meets no refusal. Their gates stop
//! the run once a growth was refused, and the refusal is NoMemory all the same.
use super::fixtures::{SET, is_unwritten, key_par, unwritten, whole_trees, workers};
use super::gates::StopOnceRefused;
use super::signing::{FORMS, Form};
use crate::seeds::key;
use crate::shared::{MANY, check_count, equal};
use refusing_allocator::Refusing;
use slh_par::{Cuts, Cutting, ParFault, VerifyItem, verify_all};
use std::alloc::Global;
use std::process::Abort;
use std::test::Fail;
use std::thread::Threads;

#[test]
fn keygen_par_refuses_at_each_growth(rt: HostRuntime) -> Result<(), Fail> {
    let cutting = Cutting::new(SET, Cuts::Levels(1), Cuts::Levels(1))?;
    for number in [1u8, 2] {
        let mut refusals = 0u64;
        for nth in 1..MANY {
            let alloc = Refusing::new(rt.alloc(), rt.alloc(), nth)?;
            let gate = StopOnceRefused {
                alloc: alloc.clone()?,
            };
            let outcome = key_par(&rt, alloc.clone()?, workers(number)?, &cutting, &gate);
            if !alloc.has_refused() {
                equal(&rt, &outcome?.bytes(), &key(SET).bytes());
                break;
            }
            equal(&rt, &outcome.err(), &Some(ParFault::NoMemory));
            refusals = nth;
        }
        check_count(&rt, 1, refusals, number);
    }
    Ok(())
}

/// Signs by that many workers with one growth refused. Whether the call asked for it.
fn refuse_one<R: Abort + Threads + Sync>(
    rt: &R,
    alloc: Global,
    form: Form,
    number: u8,
    nth: u64,
) -> Result<bool, Fail> {
    let sk = key(SET);
    let cutting = whole_trees(sk.set())?;
    let refusing = Refusing::new(alloc, alloc, nth)?;
    let mut out = unwritten(alloc, sk.set())?;
    let some = workers(number)?;
    let given = refusing.clone()?;
    let gate = StopOnceRefused {
        alloc: refusing.clone()?,
    };
    let outcome = form.sign_par(rt, given, b"abc", b"", &sk, some, &cutting, &gate, &mut out);
    let has_refused = refusing.has_refused();
    if has_refused {
        equal(rt, &outcome.err(), &Some(ParFault::NoMemory));
        equal(rt, &is_unwritten(&out), &true);
    } else {
        outcome?;
        let expected = form.abc(alloc, &sk)?;
        equal(rt, &(out == expected), &true);
    }
    Ok(has_refused)
}

/// Signs by that many workers with each growth refused in turn.
fn refuse_signing<R: Abort + Threads + Sync>(
    rt: &R,
    alloc: Global,
    form: Form,
    number: u8,
) -> Result<(), Fail> {
    let mut refusals = 0u64;
    for nth in 1..MANY {
        if !refuse_one(rt, alloc, form, number, nth)? {
            break;
        }
        refusals = nth;
    }
    check_count(rt, 1, refusals, number);
    Ok(())
}

/// The 20th growth is one of the run of the 55 jobs.
#[test]
fn signing_refuses_a_growth_of_the_run(rt: HostRuntime) -> Result<(), Fail> {
    for form in FORMS {
        let has_refused = refuse_one(&rt, rt.alloc(), form, 1, 20)?;
        equal(&rt, &has_refused, &true);
    }
    Ok(())
}

#[test]
fn signing_refuses_at_each_growth(rt: HostRuntime) -> Result<(), Fail> {
    for form in FORMS {
        for number in [1u8, 2] {
            refuse_signing(&rt, rt.alloc(), form, number)?;
        }
    }
    Ok(())
}

/// Verifies the items by one and by two workers with each growth refused in turn. Only the last of them is valid.
fn refuse_verifying<R: Abort + Threads + Sync>(
    rt: &R,
    alloc: Global,
    items: &[VerifyItem],
) -> Result<(), Fail> {
    // One more worker asks for more growths, so their count shows whether the number of workers is passed on.
    let mut before = 0u64;
    for number in [1u8, 2] {
        let mut refusals = 0u64;
        for nth in 1..MANY {
            let refusing = Refusing::new(alloc, alloc, nth)?;
            let outcome = verify_all(rt, refusing.clone()?, items, workers(number)?);
            if !refusing.has_refused() {
                let answers = outcome?;
                equal(rt, &answers.len(), &items.len());
                equal(rt, &answers.iter().filter(|valid| **valid).count(), &1);
                equal(rt, &answers.last(), &Some(&true));
                break;
            }
            equal(rt, &outcome.err(), &Some(ParFault::NoMemory));
            refusals = nth;
        }
        check_count(rt, before.wrapping_add(1), refusals, number);
        before = refusals;
    }
    Ok(())
}

#[test]
fn verify_all_refuses_at_each_growth(rt: HostRuntime) -> Result<(), Fail> {
    let sk = key(SET);
    let pk = sk.public();
    let good = Form::Pure.abc(rt.alloc(), &sk)?;
    let valid = VerifyItem {
        pk: &pk,
        msg: b"abc",
        ctx: b"",
        prehash: None,
        sig: good.as_slice(),
    };
    let empty = VerifyItem { sig: b"", ..valid };
    refuse_verifying(&rt, rt.alloc(), &[empty, valid])?;
    // The last item is the last of a batch, and then one after two batches.
    let mut sixteen = [empty; 16];
    sixteen[15] = valid;
    refuse_verifying(&rt, rt.alloc(), &sixteen)?;
    let mut more = [empty; 17];
    more[16] = valid;
    refuse_verifying(&rt, rt.alloc(), &more)
}
