//! Hints on the values of options.
use super::key::set_of_key;
use super::{Hint, Refused};
use slh_params::ParamSet;
use std::alloc::{AllocError, Global};
use std::rt::Files;

/// The functions of the pre-hash form.
const FUNCTIONS: [&str; 6] = [
    "SHA2-224",
    "SHA2-256",
    "SHA2-384",
    "SHA2-512",
    "SHA2-512/224",
    "SHA2-512/256",
];

/// Which option has a value that is not of its form. None of the values is shown.
pub(super) fn value_hint<R: AllocGlobal + Files>(rt: &R, refused: Refused<'_, '_>) -> Hint {
    let alloc = rt.alloc();
    let values = refused.values;
    if let Some(context) = values.get_str("context") {
        if let Some(why) = context_fault(context) {
            return Ok(Some(String::from_str(alloc, why)?));
        }
    }
    if let Some(name) = values.get_str("prehash") {
        if !FUNCTIONS.contains(&name) {
            return function_hint(alloc, name);
        }
    }
    if let Some(random) = values.get_str("random") {
        let set = set_of_key(rt, refused);
        if !is_randomizer(random, set) {
            return random_hint(alloc, set);
        }
    }
    cuts_hint(alloc, refused)
}

/// The fault of a context, if it has one.
fn context_fault(digits: &str) -> Option<&'static str> {
    if !are_hex(digits) {
        return Some(
            "--context takes hexadecimal digits: \"$(printf letters | xxd -p | tr -d '\\n')\"",
        );
    }
    if digits.len() % 2 == 1 {
        return Some(
            "--context takes two hexadecimal digits for each byte, and has an odd number of them",
        );
    }
    None
}

fn are_hex(text: &str) -> bool {
    text.as_bytes().iter().all(|byte| byte.is_ascii_hexdigit())
}

fn function_hint(alloc: Global, name: &str) -> Hint {
    for function in FUNCTIONS {
        if is_like(alloc, name, function)? {
            return Ok(Some(format!(in alloc; "--prehash {name}: write {function}")?));
        }
    }
    Ok(Some(format!(in alloc;
        "--prehash {name}: write SHA2-224, -256, -384, -512, -512/224 or -512/256"
    )?))
}

/// Whether these may be the digits of a randomizer of a set, or of any if none is known.
#[tactic(auto, using(slh_params::proofs::Bounds::n_high))]
fn is_randomizer(digits: &str, set: Option<ParamSet>) -> bool {
    let fits = match set {
        Some(set) => digits.len() == set.n() * 2,
        None => [32, 48, 64].contains(&digits.len()),
    };
    fits && are_hex(digits)
}

#[tactic(auto, using(slh_params::proofs::Bounds::n_high))]
fn random_hint(alloc: Global, set: Option<ParamSet>) -> Hint {
    let Some(set) = set else {
        let text =
            "--random takes 32 hexadecimal digits for a 128 set, 48 for a 192 set, 64 for a 256 set";
        return Ok(Some(String::from_str(alloc, text)?));
    };
    let (label, n) = (set.label(), set.n());
    let (label, digits) = (label.as_str(), n * 2);
    Ok(Some(format!(in alloc;
        "--random takes {digits} hexadecimal digits for {label}, as `openssl rand -hex {n}` prints"
    )?))
}

/// The hint on lists of cut points, of which one or both are given.
fn cuts_hint(alloc: Global, refused: Refused<'_, '_>) -> Hint {
    let option = match refused.values.get_str("xmss-cuts") {
        Some(list) if !is_list(list) => "xmss",
        _ => "fors",
    };
    Ok(Some(format!(in alloc;
        "--{option}-cuts takes up to 255 rising numbers, separated by commas, as 2,4,6"
    )?))
}

/// Whether this is a list of numbers.
fn is_list(list: &str) -> bool {
    list.split(',').count() <= 256
        && list.split(',').all(|it| !it.is_empty()
            && it.len() < 10
            && it.as_bytes().iter().all(|byte| byte.is_ascii_digit()))
}

/// The hint on levels or cut points that do not fit the trees of the set.
pub(super) fn cutting_hint<R: AllocGlobal + Files>(rt: &R, refused: Refused<'_, '_>) -> Hint {
    let named = match refused.values.get_str("set") {
        Some(name) => ParamSet::from_label(name.as_bytes()),
        None => set_of_key(rt, refused),
    };
    let Some(set) = named else {
        return Ok(None);
    };
    let label = set.label();
    let (label, hp, a) = (label.as_str(), set.hp().min(8), set.a().min(8));
    let (leaves, fors_leaves) = (1u32 << set.hp().min(31), 1u32 << set.a().min(31));
    Ok(Some(format!(in rt.alloc();
        "{label} takes --xmss-levels up to {hp} and --fors-levels up to {a}; cut points rise, from 1 to below {leaves} (XMSS) or {fors_leaves} (FORS)"
    )?))
}

/// The hint on a name that is no set's.
pub(super) fn set_hint(alloc: Global, name: &str) -> Hint {
    for set in ParamSet::all() {
        if is_like(alloc, name, set.name())? {
            let right = set.name();
            return Ok(Some(format!(in alloc; "--set {name}: write {right}")?));
        }
    }
    Ok(Some(format!(in alloc;
        "--set {name}: no parameter set has this name; `slh params` lists the sets"
    )?))
}

/// The hint on seeds that are not one line of digits. The input is not read again.
#[tactic(auto, using(slh_params::proofs::Bounds::n_high))]
pub(super) fn seeds_hint(alloc: Global, refused: Refused<'_, '_>) -> Hint {
    let Some(set) = refused.values.get_str("set") else {
        return Ok(None);
    };
    let Some(set) = ParamSet::from_label(set.as_bytes()) else {
        return Ok(None);
    };
    let label = set.label();
    let (label, bytes) = (label.as_str(), set.n() * 3);
    let digits = bytes * 2;
    Ok(Some(format!(in alloc;
        "the seeds of {label} are one line of {digits} hexadecimal digits: `openssl rand -hex {bytes} | slh ..`"
    )?))
}

/// Whether a name ends as a written word does, if only letters and digits count, and their case does not. A family's
/// name before the number may be left out, as in sha256.
fn is_like(alloc: Global, word: &str, name: &str) -> Result<bool, AllocError> {
    let word = plain(alloc, word)?;
    let end = word.as_str().trim_start_matches("sha");
    Ok(end.len() > 2 && plain(alloc, name)?.as_str().ends_with(end))
}

/// The letters and digits of a word, in lower case.
fn plain(alloc: Global, word: &str) -> Result<String, AllocError> {
    word.chars()
        .filter(|c| c.is_ascii_alphanumeric())
        .map(|c| c.to_ascii_lowercase())
        .collect(alloc)
}
