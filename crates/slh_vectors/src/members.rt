//! The members of a test, with their first fault.
ghost use Rattle.std.specs.Prelude.{◌≡◌, ◌≢◌, ◌*◌, length, IfOk};
ghost use Rattle.slh_params.specs.ParamSet.{params};
ghost use Rattle.serde_json.specs.View.{view};
ghost use Rattle.slh_vectors.specs.Reading.{Gives, member_in, text_in, bool_in, hex_in, bytes_in, kind_in, set_in, form_in, context_in, random_in};

use super::fault::{Member, VectorFault};
use super::names::{form_named, kind_named};
use super::test::{Interface, Kind};
use hex::FromHexError;
use serde_json::Value;
use slh_params::ParamSet;
use std::alloc::Global;

/// A member of test `n`.
fn member<'v>(n: u64, name: Member, test: &'v Value) -> Result<&'v Value, VectorFault>
    ensures { Gives (λ v. view v.now) result (member_in n name (view test.now)) }
{
    match test.get(name.name()) {
        Some(value) => Ok(value),
        None => Err(VectorFault::Missing {
            test: n,
            member: name,
        }),
    }
}

/// The text of a member.
fn text<'v>(n: u64, name: Member, test: &'v Value) -> Result<&'v str, VectorFault>
    ensures { Gives (λ s. s.now) result (text_in n name (view test.now)) }
{
    match member(n, name, test)?.as_str() {
        Some(text) => Ok(text),
        None => Err(VectorFault::Bad {
            test: n,
            member: name,
        }),
    }
}

/// The truth value of a member.
pub(crate) fn truth(n: u64, name: Member, test: &Value) -> Result<bool, VectorFault>
    ensures { Gives (λ b. b) result (bool_in n name (view test.now)) }
{
    match member(n, name, test)?.as_bool() {
        Some(truth) => Ok(truth),
        None => Err(VectorFault::Bad {
            test: n,
            member: name,
        }),
    }
}

/// The bytes of a member that is a hexadecimal text.
#[tactic(auto, unfolding(crate::specs::Reading::hex_in))]
pub(crate) fn hex_bytes(
    alloc: Global,
    n: u64,
    name: Member,
    test: &Value,
) -> Result<Vec<u8>, VectorFault>
    ensures { Gives (λ v. v.items) result (hex_in n name (view test.now)) }
{
    let digits = text(n, name, test)?;
    match hex::decode(alloc, digits) {
        Ok(bytes) => Ok(bytes),
        Err(FromHexError::OutOfMemory) => Err(VectorFault::NoMemory),
        Err(_) => Err(VectorFault::Bad {
            test: n,
            member: name,
        }),
    }
}

/// The same, of this many bytes.
#[tactic(auto, unfolding(crate::specs::Reading::bytes_in))]
pub(crate) fn bytes(
    alloc: Global,
    n: u64,
    name: Member,
    len: usize,
    test: &Value,
) -> Result<Vec<u8>, VectorFault>
    ensures value { Gives (λ v. v.items) result (bytes_in n name len (view test.now)) }
    ensures sized { IfOk result (λ v. length v.items ≡ len) }
{
    let bytes = hex_bytes(alloc, n, name, test)?;
    if bytes.len() == len {
        Ok(bytes)
    } else {
        Err(VectorFault::Bad {
            test: n,
            member: name,
        })
    }
}

/// The member `kind`.
#[tactic(auto, unfolding(crate::specs::Reading::kind_in))]
pub(crate) fn kind(n: u64, test: &Value) -> Result<Kind, VectorFault>
    ensures { Gives (λ k. k) result (kind_in n (view test.now)) }
{
    match kind_named(text(n, Member::Kind, test)?) {
        Some(kind) => Ok(kind),
        None => Err(VectorFault::Bad {
            test: n,
            member: Member::Kind,
        }),
    }
}

/// The member `set`.
#[tactic(auto, unfolding(crate::specs::Reading::set_in))]
pub(crate) fn set(n: u64, test: &Value) -> Result<ParamSet, VectorFault>
    ensures { Gives (λ s. s) result (set_in n (view test.now)) }
{
    match ParamSet::from_name(text(n, Member::Set, test)?) {
        Some(set) => Ok(set),
        None => Err(VectorFault::Bad {
            test: n,
            member: Member::Set,
        }),
    }
}

/// The member `form`.
#[tactic(auto, unfolding(crate::specs::Reading::form_in))]
pub(crate) fn form(n: u64, test: &Value) -> Result<Interface, VectorFault>
    ensures { Gives (λ f. f) result (form_in n (view test.now)) }
{
    match form_named(text(n, Member::Form, test)?) {
        Some(form) => Ok(form),
        None => Err(VectorFault::Bad {
            test: n,
            member: Member::Form,
        }),
    }
}

/// The member `context`. A message that is signed as it is has none.
#[tactic(auto, unfolding(crate::specs::Reading::context_in))]
pub(crate) fn context(
    alloc: Global,
    n: u64,
    form: Interface,
    test: &Value,
) -> Result<Vec<u8>, VectorFault>
    ensures { Gives (λ v. v.items) result (context_in n form (view test.now)) }
{
    match form {
        Interface::Internal => Ok(Vec::new(alloc)),
        Interface::External(_) => hex_bytes(alloc, n, Member::Context, test),
    }
}

/// The member `random`: n bytes, or none.
#[tactic(auto, unfolding(crate::specs::Reading::random_in))]
pub(crate) fn random(
    alloc: Global,
    n: u64,
    set: ParamSet,
    test: &Value,
) -> Result<Vec<u8>, VectorFault>
    ensures value { Gives (λ v. v.items) result (random_in n set (view test.now)) }
    ensures sized { IfOk result (λ v. (length v.items ≢ 0) → length v.items ≡ (params set).n) }
{
    let bytes = hex_bytes(alloc, n, Member::Random, test)?;
    if bytes.is_empty() || bytes.len() == set.n() {
        Ok(bytes)
    } else {
        Err(VectorFault::Bad {
            test: n,
            member: Member::Random,
        })
    }
}
