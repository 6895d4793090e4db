//! Eight signatures at a time (FIPS 205, Algorithms 24 and 25).
ghost use Rattle.std.specs.Prelude.{◌≡◌, ◌↔◌, ℕ, ◌<◌, Bool, IsTrue, slice_index_or};
ghost use Rattle.slh_core.specs.EightSignatures.{IsPartsValid};
ghost use Rattle.slh_par.specs.EightItems.{IsFormattedValid};
ghost use Rattle.slh_par.specs.Verdicts.{IsVerified};
ghost use Rattle.slh_par.specs.declared.eight_items.Formatted.{Formatted};
ghost use Rattle.slh_par.specs.declared.verify_item.VerifyItem.{VerifyItem};

use crate::verify_item::VerifyItem;
use slh_core::{Form, FormattedMessage, PublicKey, SignedParts, verify_eight};

/// A signature, with its key and M'.
#[derive(Drop)]
struct Formatted<'a> {
    pk: &'a PublicKey,
    /// None if the context has over 255 bytes.
    message: Option<FormattedMessage<'a>>,
    sig: &'a [u8],
}

impl<'a> Formatted<'a> {
    /// The item's signature, with M' of its message in its form and under its context.
    fn of(item: &VerifyItem<'a>) -> Formatted<'a>
        ensures { IsFormattedValid result ↔ IsVerified item.now }
    {
        Formatted {
            pk: item.pk,
            message: Form::with(item.prehash).message(item.msg, item.ctx),
            sig: item.sig,
        }
    }

    /// The signature, with M' in parts. If there is no M', no bytes stand for the signature, which are not valid.
    fn parts(&self) -> SignedParts<'_>
        ensures { IsPartsValid result ↔ IsFormattedValid self.now }
    {
        let pk = self.pk;
        match &self.message {
            Some(message) => SignedParts {
                pk,
                parts: message.parts(),
                sig: self.sig,
            },
            None => SignedParts {
                pk,
                parts: [&[]; 4],
                sig: &[],
            },
        }
    }
}

/// Whether each of eight signatures is valid.
fn verdicts_of_formatted(all: &[Formatted; 8]) -> [bool; 8]
    ensures { (j : ℕ) (valid : Bool) (x : Formatted) → j < 8
        → IsTrue (slice_index_or result j valid) ↔ IsFormattedValid (slice_index_or all.now j x) }
{
    let [a, b, c, d, e, f, g, h] = all;
    verify_eight(&[
        a.parts(),
        b.parts(),
        c.parts(),
        d.parts(),
        e.parts(),
        f.parts(),
        g.parts(),
        h.parts(),
    ])
}

/// Whether each of eight items is valid.
pub(crate) fn verdicts_of_eight(items: &[VerifyItem; 8]) -> [bool; 8]
    ensures { (j : ℕ) (valid : Bool) (item : VerifyItem) → j < 8
        → IsTrue (slice_index_or result j valid) ↔ IsVerified (slice_index_or items.now j item) }
{
    let [a, b, c, d, e, f, g, h] = items;
    verdicts_of_formatted(&[
        Formatted::of(a),
        Formatted::of(b),
        Formatted::of(c),
        Formatted::of(d),
        Formatted::of(e),
        Formatted::of(f),
        Formatted::of(g),
        Formatted::of(h),
    ])
}
