//! The kinds and forms by their names in a vector file.
ghost use Rattle.std.specs.Prelude.{◌≡◌};
ghost use Rattle.slh_vectors.specs.Names.{form_named, kind_named};

use super::test::{Interface, Kind};
use slh_core::{Form, PreHash};

/// The kind of this name.
pub(crate) fn kind_named(text: &str) -> Option<Kind>
    ensures { result ≡ kind_named text.now }
{
    if text == "keygen" {
        Some(Kind::Keygen)
    } else if text == "sign" {
        Some(Kind::Sign)
    } else if text == "verify" {
        Some(Kind::Verify)
    } else {
        None
    }
}

/// The form of this name.
pub(crate) fn form_named(text: &str) -> Option<Interface>
    ensures { result ≡ form_named text.now }
{
    if text == "internal" {
        Some(Interface::Internal)
    } else if text == "pure" {
        Some(Interface::External(Form::Pure))
    } else {
        let function = PreHash::from_name(text)?;
        Some(Interface::External(Form::PreHash(function)))
    }
}
