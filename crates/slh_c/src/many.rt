//! The export that verifies many signatures, eight at a time (FIPS 205, sections 9.3 and 10.3).
ghost use Rattle.std.specs.Prelude.{◌≡◌, ◌≢◌, ◌↔◌, ℕ, ◌<◌, ◌≤◌, Bool, Some, IfOk, IfErr, IfSome, IsTrue, length, replicate, slice_index_or};
ghost use Rattle.slh_core.specs.EightSignatures.{IsPartsValid};
ghost use Rattle.slh_c.specs.Many.{AreSigned, AreVerdicts, AreVerdictsTo, IsJudged, IsPreparedFor, IsPreparedValid, IsVerdict, first_fault, number_of};
ghost use Rattle.slh_c.specs.Numbers.{InSet, set_numbered};
ghost use Rattle.slh_c.specs.Refusals.{number};
ghost use Rattle.slh_c.specs.Rules.{first_refusal, verify_many_rules};
ghost use Rattle.slh_c.specs.declared.many.Prepared.{Prepared};
ghost use Rattle.slh_c.specs.declared.many.Signed.{Signed};

use crate::keys::public_key;
use crate::numbers::set_of;
use crate::pure_form::slh_verify;
use crate::refusal::{DONE, INVALID, Refusal};
use slh_core::{Form, FormattedMessage, PublicKey, SignedParts, verify_eight};
use slh_params::ParamSet;

/// A public key, a message, a context and a signature: any bytes.
#[repr(C)]
#[derive(Clone, Copy)]
pub struct Signed<'a> {
    /// The key that is to have signed.
    pub pk: &'a [u8],
    /// The message.
    pub msg: &'a [u8],
    /// The context.
    pub ctx: &'a [u8],
    /// The signature.
    pub sig: &'a [u8],
}

/// An item as `verify_eight` needs it: its key, M' and its signature.
#[derive(Drop)]
struct Prepared<'a> {
    pk: PublicKey,
    message: FormattedMessage<'a>,
    sig: &'a [u8],
}

impl<'a> Prepared<'a> {
    /// The key and M' of an item. `None` if its key does not have 2n bytes, or its context over 255.
    fn of(set: ParamSet, item: &Signed<'a>) -> Option<Prepared<'a>>
        ensures { IfSome result (λ it. IsPreparedFor set item.now it) }
    {
        let Ok(pk) = public_key(set, item.pk) else {
            return None;
        };
        let message = Form::Pure.message(item.msg, item.ctx)?;
        let sig = item.sig;
        Some(Prepared { pk, message, sig })
    }

    /// The signature, with M' in parts.
    fn parts(&self) -> SignedParts<'_>
        ensures { IsPartsValid result ↔ IsPreparedValid self.now }
    {
        SignedParts {
            pk: &self.pk,
            parts: self.message.parts(),
            sig: self.sig,
        }
    }
}

/// Whether each of eight signatures is valid.
fn are_valid(all: &[Prepared; 8]) -> [bool; 8]
    ensures { (j : ℕ) (valid : Bool) (x : Prepared) → j < 8
        → IsTrue (slice_index_or result j valid) ↔ IsPreparedValid (slice_index_or all.now j x) }
{
    let [a, b, c, d, e, f, g, h] = all;
    verify_eight(&[
        a.parts(),
        b.parts(),
        c.parts(),
        d.parts(),
        e.parts(),
        f.parts(),
        g.parts(),
        h.parts(),
    ])
}

/// Whether each of eight items is valid. `None` if a key does not have 2n bytes, or a context over 255.
fn judged(set: ParamSet, items: &[Signed; 8]) -> Option<[bool; 8]>
    ensures { IfSome result (λ all. (j : ℕ) (valid : Bool) (item : Signed) → j < 8
        → IsJudged set (slice_index_or items.now j item) (slice_index_or all j valid)) }
{
    let [a, b, c, d, e, f, g, h] = items;
    let first = Prepared::of(set, a)?;
    let second = Prepared::of(set, b)?;
    let third = Prepared::of(set, c)?;
    let fourth = Prepared::of(set, d)?;
    let fifth = Prepared::of(set, e)?;
    let sixth = Prepared::of(set, f)?;
    let seventh = Prepared::of(set, g)?;
    let eighth = Prepared::of(set, h)?;
    Some(are_valid(&[first, second, third, fourth, fifth, sixth, seventh, eighth]))
}

/// The number of a verdict.
fn number_of(valid: bool) -> u32
    ensures { result ≡ number_of valid }
{
    if valid { DONE } else { INVALID }
}

/// The numbers of eight verdicts.
fn numbers_of(valid: &[bool; 8]) -> [u32; 8]
    ensures { (j verdict : ℕ) (is : Bool) → j < 8
        → slice_index_or result j verdict ≡ number_of (slice_index_or valid.now j is) }
{
    let mut verdicts = [INVALID; 8];
    for j in 0..8 {
        verdicts[j] = number_of(valid[j]);
    }
    verdicts
}

/// The verdicts on the first eight items. `None` if there are fewer, if a key does not have 2n bytes, or if a context
/// has over 255.
fn verdicts_of_eight(set: u32, of: ParamSet, items: &[Signed]) -> Option<[u32; 8]>
    requires { set_numbered set ≡ Some of }
    ensures enough { IfSome result (λ _. 8 ≤ length items.now) }
    ensures verdicts { IfSome result (λ all. (j verdict : ℕ) (item : Signed) → j < 8
        → IsVerdict set (slice_index_or items.now j item) (slice_index_or all j verdict)) }
{
    let eight = items.first_chunk::<8>()?;
    let valid = judged(of, eight)?;
    Some(numbers_of(&valid))
}

/// Writes the verdicts on eight items from this place on, or the verdict on the one at this place. Returns the place
/// after them.
fn put_next(set: u32, of: ParamSet, items: &[Signed], at: usize, verdicts: &mut [u32]) -> usize
    requires set { set_numbered set ≡ Some of }
    requires at { at < length items.now }
    requires len { length verdicts.old ≡ length items.now }
    ensures more { at < result }
    ensures inside { result ≤ length items.now }
    ensures verdicts { AreVerdictsTo at set items.now verdicts.old
        → AreVerdictsTo result set items.now verdicts.new }
{
    match verdicts_of_eight(set, of, &items[at..]) {
        Some(eight) => {
            verdicts[at..at + 8].copy_from_slice(&eight);
            at + 8
        }
        None => {
            let item = items[at];
            verdicts[at] = slh_verify(set, item.pk, item.msg, item.ctx, item.sig);
            at + 1
        }
    }
}

/// Writes the verdict on each item.
fn put_verdicts(set: u32, of: ParamSet, items: &[Signed], verdicts: &mut [u32])
    requires set { set_numbered set ≡ Some of }
    requires len { length verdicts.old ≡ length items.now }
    ensures { AreVerdicts set items.now verdicts.new }
{
    let mut at = 0;
    while at < items.len() {
        at = put_next(set, of, items, at, verdicts);
    }
}

/// The first verdict that is not `DONE`, or `DONE` if all are.
fn first_fault(verdicts: &[u32]) -> u32
    ensures { result ≡ first_fault verdicts.now }
{
    for verdict in verdicts {
        if *verdict != DONE {
            return *verdict;
        }
    }
    DONE
}

/// The set of a number, if there is room for as many verdicts as items.
fn set_with_room(set: u32, items: &[Signed], verdicts: &[u32]) -> Result<ParamSet, Refusal>
    ensures refused { let rules = verify_many_rules set items.now verdicts.now in
        IfErr result (λ refusal. first_refusal rules ≡ number refusal) }
    ensures done { let rules = verify_many_rules set items.now verdicts.now in
        IfOk result (λ _. first_refusal rules ≡ DONE) }
    ensures set { IfOk result (λ of. set_numbered set ≡ Some of) }
    ensures len { IfOk result (λ _. length verdicts.now ≡ length items.now) }
{
    let of = set_of(set)?;
    if verdicts.len() != items.len() {
        return Err(Refusal::BadOutputLength);
    }
    Ok(of)
}

/// Verifies many signatures (FIPS 205, Algorithm 24). Each item has its own key and context. The verdict on an item is
/// the number that `slh_verify` returns for it. Returns the first verdict that is not `DONE`, and `DONE` if all items
/// are valid. Refuses, by `verify_many_rules`, a number that is not a set's, and another number of verdicts than of
/// items. Then it writes the refusal to each verdict, so that none says `DONE`.
#[unsafe(no_mangle)]
pub extern "C" fn slh_verify_many(set: u32, items: &[Signed], verdicts: &mut [u32]) -> u32
    ensures valid { (result ≡ DONE)
        ↔ (length verdicts.old ≡ length items.now) × InSet set (λ s. AreSigned s items.now) }
    ensures verdicts { first_refusal (verify_many_rules set items.now verdicts.old) ≡ DONE
        → AreVerdicts set items.now verdicts.new }
    ensures first { first_refusal (verify_many_rules set items.now verdicts.old) ≡ DONE
        → result ≡ first_fault verdicts.new }
    ensures refused { let refusal = first_refusal (verify_many_rules set items.now verdicts.old) in
        refusal ≢ DONE → (result ≡ refusal) × (verdicts.new ≡ replicate (length verdicts.old) refusal) }
{
    match set_with_room(set, items, verdicts) {
        Ok(of) => {
            put_verdicts(set, of, items, verdicts);
            first_fault(verdicts)
        }
        Err(refusal) => {
            verdicts.fill(refusal.number());
            refusal.number()
        }
    }
}
