//! The outcome of one test: key generation, signing or verifying (FIPS 205, sections 9 and 10).
ghost use Rattle.std.specs.Prelude.{◌≡◌, ◌≢◌, ◌↔◌, ◌≤◌, ℕ, List, IsOk, IsSome, IsTrue, IfErr, IfOk, IfSome, OnOk, length};
ghost use Rattle.slh_core.specs.Randomizers.{HasLength, opt_rand};
ghost use Rattle.slh_core.specs.Signatures.{signature_by};
ghost use Rattle.slh_params.specs.Params.{sig_len};
ghost use Rattle.slh_params.specs.ParamSet.{params};
ghost use Rattle.slh_vectors.specs.Cases.{input_view, keygen_view, sign_view, test_view, verify_view};
ghost use Rattle.slh_vectors.specs.Outcomes.{HasMessage, IsOutcome, IsValidFor, KeygenPasses, SignPasses, VerifyPasses, message_of, opt_rand_of};
ghost use Rattle.slh_vectors.specs.declared.fault.VectorFault.TheVariants.{NoMemory};
ghost use Rattle.slh_vectors.specs.declared.outcome.Outcome.TheVariants.{Pass};

use super::fault::VectorFault;
use super::outcome::Outcome;
use super::test::{Input, Interface, KeygenTest, SignTest, Test, VerifyTest};
use slh_core::{
    PublicKey, Randomizer, SecretKey, SignFault, keygen_internal, sign_internal, verify_internal,
};
use std::alloc::Allocator;

/// The outcome of a test. A keygen test passes if both keys are the generated ones. A sign test passes if signing is
/// not refused and gives exactly its signature. A verify test passes if the answer is its `valid`. Refused only for
/// lack of memory, which a sign test takes for one signature. It is never inlined, so that the stack holds no
/// signature's locals while a file is read.
#[inline(never)]
pub fn run_test<A: Allocator>(alloc: A, test: &Test) -> Result<Outcome, VectorFault>
    ensures done { IfOk result (IsOutcome (test_view test.now)) }
    ensures refused { IfErr result (λ e. e ≡ NoMemory) }
{
    match test {
        Test::Keygen(test) => Ok(outcome_of(keygen_passes(test))),
        Test::Sign(test) => Ok(outcome_of(sign_passes(alloc, test)?)),
        Test::Verify(test) => Ok(outcome_of(verify_passes(test))),
    }
}

/// `Pass` or `Fail`.
pub(crate) fn outcome_of(passes: bool) -> Outcome
    ensures { (result ≡ Pass) ↔ IsTrue passes }
{
    if passes { Outcome::Pass } else { Outcome::Fail }
}

fn keygen_passes(test: &KeygenTest) -> bool
    ensures { IsTrue result ↔ KeygenPasses (keygen_view test.now) }
{
    let sk_seed = test.seeds.sk_seed.as_slice();
    let sk_prf = test.seeds.sk_prf.as_slice();
    let pk_seed = test.seeds.pk_seed.as_slice();
    let key = keygen_internal(test.set, sk_seed, sk_prf, pk_seed);
    test.sk.as_slice() == key.bytes() && test.pk.as_slice() == key.public_bytes()
}

/// Whether the signature that is made is the one of the test.
fn sign_passes<A: Allocator>(alloc: A, test: &SignTest) -> Result<bool, VectorFault>
    ensures done { IfOk result (λ b. IsTrue b ↔ SignPasses (sign_view test.now)) }
    ensures refused { IfErr result (λ e. e ≡ NoMemory) }
{
    // The test has as many bytes as a key of its set.
    let Ok(key) = SecretKey::from_bytes(test.set, test.sk.as_slice()) else {
        return Ok(false);
    };
    let randomizer = randomizer_of(test.random.as_slice());
    match signature_of(alloc, &key, &test.input, randomizer)? {
        Some(made) => Ok(test.signature.as_slice() == made.as_slice()),
        None => Ok(false),
    }
}

/// The signature of the input of a test. `None` if signing is refused.
fn signature_of<A: Allocator>(
    alloc: A,
    key: &SecretKey,
    input: &Input,
    randomizer: Randomizer,
) -> Result<Option<Vec<u8, A>>, VectorFault>
    requires { HasLength randomizer (params key.now.set).n }
    ensures accepted { IfOk result (λ made. IsSome made ↔ HasMessage input.now.form input.now.context.items) }
    ensures done { IfOk result (λ made. IfSome made (λ bytes. bytes.items
        ≡ signature_by key.now (message_of (input_view input.now)) randomizer.entry)) }
    ensures refused { IfErr result (λ e. e ≡ NoMemory) }
{
    let mut made = Vec::new(alloc);
    made.resize(key.set().sig_len(), 0)?;
    match signed(key, input, randomizer, made.as_mut_slice()) {
        Ok(()) => Ok(Some(made)),
        Err(_) => Ok(None),
    }
}

/// The randomizer of the random bytes of a test: no bytes mean the deterministic variant.
fn randomizer_of(random: &[u8]) -> Randomizer<'_>
    ensures value { (seed : List ℕ) → opt_rand result seed ≡ opt_rand_of random.now seed }
    ensures len { (n : ℕ) → (length random.now ≢ 0 → length random.now ≡ n) → HasLength result n }
{
    if random.is_empty() {
        Randomizer::Deterministic
    } else {
        Randomizer::Given(random)
    }
}

/// Signs the input of a test.
fn signed(
    key: &SecretKey,
    input: &Input,
    randomizer: Randomizer,
    out: &mut [u8],
) -> Result<(), SignFault>
    requires randomizer { HasLength randomizer (params key.now.set).n }
    requires out { length out.old ≡ sig_len (params key.now.set) }
    ensures accepted { IsOk result ↔ HasMessage input.now.form input.now.context.items }
    ensures signature { OnOk result (out.new
        ≡ signature_by key.now (message_of (input_view input.now)) randomizer.entry) }
{
    let message = input.message.as_slice();
    let context = input.context.as_slice();
    match input.form {
        Interface::Internal => {
            sign_internal(&[message], key, randomizer, out);
            Ok(())
        }
        Interface::External(form) => form.sign(message, context, key, randomizer, out),
    }
}

/// Whether the signature is as valid as the test says.
fn verify_passes(test: &VerifyTest) -> bool
    ensures { IsTrue result ↔ VerifyPasses (verify_view test.now) }
{
    // The test has as many bytes as a key of its set.
    let Ok(key) = PublicKey::from_bytes(test.set, test.pk.as_slice()) else {
        return false;
    };
    is_valid(&key, &test.input, test.signature.as_slice()) == test.valid
}

/// Whether the bytes are a valid signature of the input of a test.
fn is_valid(key: &PublicKey, input: &Input, sig: &[u8]) -> bool
    ensures { IsTrue result ↔ IsValidFor (input_view input.now) key.now sig.now }
{
    let message = input.message.as_slice();
    let context = input.context.as_slice();
    match input.form {
        Interface::Internal => verify_internal(&[message], sig, key),
        Interface::External(form) => form.verify(message, context, sig, key),
    }
}
