//! The options for the form, the context and the randomizer.
ghost use Rattle.std.specs.Prelude.{◌≡◌, Some, option_map, IfOk, IfErr, IfSome, length};
ghost use Rattle.std.specs.Result.{result_ok};
ghost use Rattle.hex.specs.Hex.{decode_sized};
ghost use Rattle.slh_params.specs.ParamSet.{params};
ghost use Rattle.slh_tool.specs.Options.{HasForm, RefusesForm, context_of, form_of, random_of};
ghost use Rattle.slh_tool.specs.Requests.{form_asked, sign_asked};

use super::fault::Fault;
use super::request::{FormWords, SignWords};
use arrayvec::ArrayVec;
use slh_core::{Form, PreHash};
use slh_params::ParamSet;
use std::alloc::Allocator;

/// The form in which a message is signed, and the context under which it is.
#[derive(Drop)]
pub(crate) struct FormAndContext<A: Allocator> {
    pub(crate) form: Form,
    pub(crate) context: Vec<u8, A>,
}

/// The form and the context that the options give.
pub(crate) fn form_and_context<A: Allocator>(
    alloc: A,
    words: FormWords<'_>,
) -> Result<FormAndContext<A>, Fault>
    ensures done { IfOk result (λ it. HasForm (form_asked words.entry) it.context.items it.form) }
    ensures refused { IfErr result (RefusesForm (form_asked words.entry)) }
{
    let context = context_of(alloc, words)?;
    let Some(form) = form_of(words) else {
        return Err(Fault::BadOption);
    };
    Ok(FormAndContext { form, context })
}

/// The context, which is empty if the option is absent.
#[tactic(auto, unfolding(crate::specs::Options::context_of))]
fn context_of<A: Allocator>(alloc: A, words: FormWords<'_>) -> Result<Vec<u8, A>, Fault>
    ensures done { IfOk result (λ context. context_of (form_asked words.entry).context ≡ Some context.items) }
    ensures refused { IfErr result (RefusesForm (form_asked words.entry)) }
{
    match words.context {
        Some(digits) => match hex::decode(alloc, digits.as_bytes()) {
            Ok(context) => Ok(context),
            Err(hex::FromHexError::OutOfMemory) => Err(Fault::NoMemory),
            Err(_) => Err(Fault::BadOption),
        },
        None => Ok(Vec::new(alloc)),
    }
}

/// The pre-hash form with the function that the option names, or the pure form where it does not stand. `None` if it
/// names no function.
#[tactic(auto, unfolding(crate::specs::Options::form_of))]
fn form_of(words: FormWords<'_>) -> Option<Form>
    ensures { result ≡ form_of (form_asked words.entry).prehash }
{
    let Some(name) = words.prehash else {
        return Some(Form::Pure);
    };
    let function = PreHash::from_name(name)?;
    Some(Form::PreHash(function))
}

/// A randomizer of any set.
pub(crate) type Random = ArrayVec<u8, 32>;

/// The randomizer, `Some(None)` if the option is absent. `None` if its value is not n bytes.
#[tactic(auto, unfolding(crate::specs::Options::random_of))]
pub(crate) fn random_of(set: ParamSet, words: SignWords<'_>) -> Option<Option<Random>>
    ensures value { option_map (λ random. option_map (λ bytes. bytes.items) random) result
        ≡ random_of set (sign_asked words.entry).random }
    ensures len { IfSome result (λ random. IfSome random (λ bytes. length bytes.items ≡ (params set).n)) }
{
    match words.random {
        Some(digits) => match random_in(set, digits) {
            Some(random) => Some(Some(random)),
            None => None,
        },
        None => Some(None),
    }
}

/// The randomizer that digits spell.
fn random_in(set: ParamSet, digits: &str) -> Option<Random>
    ensures value { option_map (λ bytes. bytes.items) result ≡ result_ok (decode_sized digits.now (params set).n) }
    ensures len { IfSome result (λ bytes. length bytes.items ≡ (params set).n) }
{
    let mut room = [0; 32];
    let room = &mut room[..set.n()];
    if hex::decode_to_slice(digits.as_bytes(), room).is_err() {
        return None;
    }
    let mut random = ArrayVec::new();
    let _ = random.try_extend_from_slice(room);
    Some(random)
}
