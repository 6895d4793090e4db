//! Reads vector files (docs/FORMATS.md, "Vector file").
ghost use Rattle.std.specs.Prelude.{◌≡◌, ◌≤◌, ◌<◌, ◌^◌, List, length, IfOk, Ok};
ghost use Rattle.slh_vectors.specs.Sizes.{AreSeeds};
ghost use Rattle.slh_vectors.specs.Grammar.{IsVectorFile};
ghost use Rattle.serde_json.specs.View.{view, items_view};
ghost use Rattle.slh_vectors.specs.Cases.{Case, seeds_view, input_view, keygen_view, sign_view, verify_view, test_view, views};
ghost use Rattle.slh_vectors.specs.Reading.{Gives, seeds_in, input_in, keygen_in, sign_in, verify_in, of_kind, test_in, tests_from, tests_in, json_of, or_fault};
ghost use Rattle.slh_vectors.specs.declared.fault.VectorFault.TheVariants.{NotJson};

use super::fault::{Member, VectorFault};
use super::members::{bytes, context, form, hex_bytes, kind, random, set, truth};
use super::test::{Input, KeygenTest, Kind, Seeds, SignTest, Test, VerifyTest};
use serde_json::Value;
use slh_params::ParamSet;
use std::alloc::Global;

/// The seeds of a keygen test.
#[tactic(auto, unfolding(crate::specs::Reading::seeds_in))]
fn seeds(alloc: Global, n: u64, set: ParamSet, test: &Value) -> Result<Seeds, VectorFault>
    ensures value { Gives seeds_view result (seeds_in n set (view test.now)) }
    ensures sized { IfOk result (λ s. AreSeeds set s) }
{
    let sk_seed = bytes(alloc, n, Member::SkSeed, set.n(), test)?;
    let sk_prf = bytes(alloc, n, Member::SkPrf, set.n(), test)?;
    let pk_seed = bytes(alloc, n, Member::PkSeed, set.n(), test)?;
    Ok(Seeds {
        sk_seed,
        sk_prf,
        pk_seed,
    })
}

/// The signed content of a sign or verify test.
#[tactic(auto, unfolding(crate::specs::Reading::input_in))]
fn input(alloc: Global, n: u64, test: &Value) -> Result<Input, VectorFault>
    ensures { Gives input_view result (input_in n (view test.now)) }
{
    let form = form(n, test)?;
    let message = hex_bytes(alloc, n, Member::Message, test)?;
    let context = context(alloc, n, form, test)?;
    Ok(Input {
        form,
        message,
        context,
    })
}

/// The members of a keygen test after `kind` and `set`.
#[tactic(auto, using(slh_params::proofs::Bounds::n_high), unfolding(crate::specs::Reading::keygen_in))]
fn keygen(alloc: Global, n: u64, set: ParamSet, test: &Value) -> Result<KeygenTest, VectorFault>
    ensures { Gives keygen_view result (keygen_in n set (view test.now)) }
{
    let seeds = seeds(alloc, n, set, test)?;
    let sk = bytes(alloc, n, Member::Sk, 4 * set.n(), test)?;
    let pk = bytes(alloc, n, Member::Pk, 2 * set.n(), test)?;
    Ok(KeygenTest { set, seeds, sk, pk })
}

/// Those of a sign test.
#[tactic(auto, using(slh_params::proofs::Bounds::n_high), unfolding(crate::specs::Reading::sign_in))]
fn sign(alloc: Global, n: u64, set: ParamSet, test: &Value) -> Result<SignTest, VectorFault>
    ensures { Gives sign_view result (sign_in n set (view test.now)) }
{
    let sk = bytes(alloc, n, Member::Sk, 4 * set.n(), test)?;
    let input = input(alloc, n, test)?;
    let random = random(alloc, n, set, test)?;
    let signature = hex_bytes(alloc, n, Member::Signature, test)?;
    Ok(SignTest {
        set,
        sk,
        input,
        random,
        signature,
    })
}

/// Those of a verify test.
#[tactic(auto, using(slh_params::proofs::Bounds::n_high), unfolding(crate::specs::Reading::verify_in))]
fn verify(alloc: Global, n: u64, set: ParamSet, test: &Value) -> Result<VerifyTest, VectorFault>
    ensures { Gives verify_view result (verify_in n set (view test.now)) }
{
    let pk = bytes(alloc, n, Member::Pk, 2 * set.n(), test)?;
    let input = input(alloc, n, test)?;
    let signature = hex_bytes(alloc, n, Member::Signature, test)?;
    let valid = truth(n, Member::Valid, test)?;
    Ok(VerifyTest {
        set,
        pk,
        input,
        signature,
        valid,
    })
}

/// Test `n`, whose kind and set are known.
#[tactic(auto, unfolding(crate::specs::Reading::of_kind))]
fn test_of_kind(
    alloc: Global,
    n: u64,
    kind: Kind,
    set: ParamSet,
    test: &Value,
) -> Result<Test, VectorFault>
    ensures { Gives test_view result (of_kind n kind set (view test.now)) }
{
    match kind {
        Kind::Keygen => Ok(Test::Keygen(keygen(alloc, n, set, test)?)),
        Kind::Sign => Ok(Test::Sign(sign(alloc, n, set, test)?)),
        Kind::Verify => Ok(Test::Verify(verify(alloc, n, set, test)?)),
    }
}

/// Test `n`, counted from 1.
#[tactic(auto, unfolding(crate::specs::Reading::test_in))]
fn test(alloc: Global, n: u64, test: &Value) -> Result<Test, VectorFault>
    ensures { Gives test_view result (test_in n (view test.now)) }
{
    let kind = kind(n, test)?;
    let set = set(n, test)?;
    test_of_kind(alloc, n, kind, set, test)
}

/// The tests of a list, in its order.
fn tests(alloc: Global, list: &[Value]) -> Result<Vec<Test>, VectorFault>
    ensures { Gives (λ ts. views ts.items) result (tests_from 1 (items_view list.now)) }
{
    let mut tests = Vec::new(alloc);
    let mut n = 0u64;
    for value in list {
        n += 1;
        tests.push(test(alloc, n, value)?)?;
    }
    Ok(tests)
}

/// The JSON value of a text. `serde_json` recurses as deep as values nest, so the stack has to hold nothing else than
/// it needs.
#[inline(never)]
fn json(alloc: Global, bytes: &[u8]) -> Result<Value, VectorFault>
    ensures { Gives view result (or_fault (json_of bytes.now) NotJson) }
{
    let Ok(text) = str::from_utf8(bytes) else {
        return Err(VectorFault::NotJson);
    };
    match Value::from_str(alloc, text) {
        Ok(value) => Ok(value),
        Err(error) if error.is_memory() => Err(VectorFault::NoMemory),
        Err(_) => Err(VectorFault::NotJson),
    }
}

/// The tests of a file.
#[tactic(auto, unfolding(crate::specs::Reading::tests_in))]
fn tests_of_file(alloc: Global, bytes: &[u8]) -> Result<Vec<Test>, VectorFault>
    ensures { Gives (λ ts. views ts.items) result (tests_in bytes.now) }
{
    let value = json(alloc, bytes)?;
    match value.as_array() {
        Some(list) => tests(alloc, list.as_slice()),
        None => Err(VectorFault::NotAList),
    }
}

/// The tests of a vector file, in its order. Refused with the first fault: the file is not JSON, then it is not a list,
/// then, test by test, a member is missing or has no valid value. Members are checked in the order of `Member`. It is
/// refused for lack of memory at the step that meets it.
pub fn read_vectors(alloc: Global, bytes: &[u8]) -> Result<Vec<Test>, VectorFault>
    // The result is the tests of the file.
    ensures found { IfOk result (λ ts. IsVectorFile bytes.now (views ts.items)) }
    // A file of tests is read, unless memory runs out.
    ensures only { (cs : List Case) → IsVectorFile bytes.now cs → Gives (λ ts. views ts.items) result (Ok cs) }
    // Which fault it is.
    ensures exact { Gives (λ ts. views ts.items) result (tests_in bytes.now) }
{
    tests_of_file(alloc, bytes)
}
