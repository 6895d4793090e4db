//! The export that tests itself by known answers (ours): key generation, signing and verifying (FIPS 205, sections 9.1,
//! 10.2 and 10.3).
ghost use Rattle.std.specs.Prelude.{◌≡◌, ◌≢◌, ◌↔◌, ◌≤◌, Some, IsTrue, [], length};
ghost use Rattle.slh_params.specs.Params.{sig_len};
ghost use Rattle.slh_params.specs.ParamSet.{params};
ghost use Rattle.sha2.specs.Sha256.{sha256};
ghost use Rattle.slh_core.specs.Keys.{pk_root};
ghost use Rattle.slh_core.specs.Messages.{pure_message};
ghost use Rattle.slh_core.specs.Signatures.{IsValid};
ghost use Rattle.slh_c.specs.Numbers.{InSet, set_numbered};
ghost use Rattle.slh_c.specs.Rules.{first_refusal, self_test_rules};
ghost use Rattle.slh_c.specs.SelfTest.{HasKnownAnswers, known_hash, known_key, known_root, known_signature, message, other_message};

use crate::numbers::set_of;
use crate::refusal::{DONE, Refusal, or_refuse};
use crate::rules::{self, judge};
use slh_core::{
    PreHash, PreHasher, PublicKey, Randomizer, SecretKey, keygen_internal, sign, verify,
};
use slh_params::ParamSet;

/// The message that is signed, and another one.
const MESSAGE: &[u8; 3] = b"abc";

const OTHER_MESSAGE: &[u8; 3] = b"abd";

/// The bytes from which the seeds are cut.
const COUNTING: [u8; 96] = [
    0x00, 0x01, 0x02, 0x03, 0x04, 0x05, 0x06, 0x07, 0x08, 0x09, 0x0a, 0x0b, 0x0c, 0x0d, 0x0e, 0x0f,
    0x10, 0x11, 0x12, 0x13, 0x14, 0x15, 0x16, 0x17, 0x18, 0x19, 0x1a, 0x1b, 0x1c, 0x1d, 0x1e, 0x1f,
    0x20, 0x21, 0x22, 0x23, 0x24, 0x25, 0x26, 0x27, 0x28, 0x29, 0x2a, 0x2b, 0x2c, 0x2d, 0x2e, 0x2f,
    0x30, 0x31, 0x32, 0x33, 0x34, 0x35, 0x36, 0x37, 0x38, 0x39, 0x3a, 0x3b, 0x3c, 0x3d, 0x3e, 0x3f,
    0x40, 0x41, 0x42, 0x43, 0x44, 0x45, 0x46, 0x47, 0x48, 0x49, 0x4a, 0x4b, 0x4c, 0x4d, 0x4e, 0x4f,
    0x50, 0x51, 0x52, 0x53, 0x54, 0x55, 0x56, 0x57, 0x58, 0x59, 0x5a, 0x5b, 0x5c, 0x5d, 0x5e, 0x5f,
];

/// PK.root of the known key, and SHA-256 of the signature, as OpenSSL gives them.
#[derive(Drop)]
struct KnownAnswer {
    pk_root: &'static [u8],
    sig_hash: [u8; 32],
}

/// The answer of a set, by its number.
#[tactic(auto, unfolding(crate::specs::SelfTest::known_root, crate::specs::SelfTest::known_hash))]
fn known_answer(set: u32) -> KnownAnswer
    ensures root { result.pk_root.now ≡ known_root set }
    ensures hash { result.sig_hash ≡ known_hash set }
{
    match set {
        1 => KnownAnswer {
            pk_root: &[
                0x99, 0x0c, 0xe6, 0x29, 0x87, 0x92, 0xb1, 0x28, 0x84, 0x6a, 0x8e, 0x4a, 0x3a, 0x68,
                0x95, 0x4c,
            ],
            sig_hash: [
                0x22, 0x98, 0xd7, 0x5c, 0x43, 0xb7, 0x1c, 0xec, 0xf2, 0x47, 0x7f, 0x10, 0xc7, 0x96,
                0x5c, 0x9b, 0xe9, 0x45, 0xe9, 0xb7, 0x9b, 0x7e, 0xdf, 0xa9, 0x88, 0xb4, 0xba, 0x71,
                0xd4, 0x13, 0x5b, 0xae,
            ],
        },
        2 => KnownAnswer {
            pk_root: &[
                0x3b, 0x56, 0xe8, 0x16, 0x84, 0x7f, 0x00, 0x03, 0x86, 0xae, 0xec, 0x2e, 0x2b, 0xb9,
                0xe1, 0xb5,
            ],
            sig_hash: [
                0x7c, 0x46, 0x22, 0x72, 0x0e, 0x75, 0x88, 0x97, 0xec, 0x5f, 0x20, 0x89, 0x04, 0x9b,
                0xb5, 0xe5, 0xd9, 0x8f, 0xc2, 0xe8, 0x8b, 0xfd, 0xac, 0xf4, 0xfa, 0xd3, 0xa1, 0xe2,
                0x0f, 0x80, 0xd5, 0xf8,
            ],
        },
        3 => KnownAnswer {
            pk_root: &[
                0xb6, 0xf2, 0x82, 0xce, 0x11, 0x6f, 0xf5, 0x9b, 0xce, 0x2d, 0x9f, 0xc4, 0xa6, 0x7c,
                0x60, 0x31, 0xda, 0xbd, 0xce, 0x32, 0x6c, 0x34, 0xf5, 0x41,
            ],
            sig_hash: [
                0xed, 0x48, 0x57, 0xe6, 0x24, 0x6e, 0xd2, 0xe0, 0x15, 0x42, 0x7b, 0x31, 0x1d, 0x42,
                0x5b, 0xec, 0x6f, 0x71, 0x7d, 0x0d, 0x09, 0x03, 0xe7, 0x72, 0xbc, 0xb3, 0xe3, 0x98,
                0xe4, 0xbe, 0x51, 0xe7,
            ],
        },
        4 => KnownAnswer {
            pk_root: &[
                0x92, 0x36, 0xcc, 0xeb, 0xbb, 0x3a, 0x90, 0xac, 0x24, 0x52, 0xdd, 0x89, 0xde, 0x49,
                0xda, 0xb1, 0x34, 0x0e, 0xc0, 0x24, 0x19, 0xa2, 0x87, 0x0e,
            ],
            sig_hash: [
                0x61, 0xe8, 0xfb, 0xd5, 0xd6, 0x37, 0x29, 0x60, 0x9c, 0x76, 0xdd, 0xba, 0x97, 0x86,
                0x67, 0x39, 0x95, 0xd7, 0x18, 0x46, 0xfe, 0xfd, 0x93, 0xe4, 0x22, 0x1f, 0xe6, 0x20,
                0xed, 0x0d, 0x05, 0x74,
            ],
        },
        5 => KnownAnswer {
            pk_root: &[
                0xda, 0x71, 0x63, 0xe6, 0x01, 0x35, 0x25, 0x15, 0xbc, 0x0f, 0x06, 0xf9, 0xf4, 0xf4,
                0x4b, 0xe7, 0x1a, 0x5a, 0x65, 0xee, 0x9d, 0xca, 0x55, 0x75, 0xcf, 0x4a, 0x7b, 0x6d,
                0x4a, 0x87, 0xd6, 0xe2,
            ],
            sig_hash: [
                0x92, 0xb7, 0xbc, 0x7d, 0xf0, 0x42, 0x50, 0x35, 0xd8, 0xc9, 0x89, 0x81, 0x30, 0xda,
                0x84, 0x6d, 0x34, 0xaf, 0x62, 0xda, 0xe8, 0x5d, 0x01, 0x74, 0x61, 0xd2, 0x61, 0x18,
                0xc5, 0xbd, 0x56, 0x65,
            ],
        },
        _ => KnownAnswer {
            pk_root: &[
                0x42, 0xcf, 0xfe, 0x64, 0xdd, 0xbd, 0x67, 0x31, 0x06, 0x37, 0x52, 0x68, 0x4d, 0xf7,
                0x7c, 0x8b, 0x58, 0xc2, 0x25, 0xdc, 0x6b, 0x49, 0x12, 0x08, 0x91, 0x6b, 0x65, 0x4e,
                0xa1, 0x39, 0x31, 0x76,
            ],
            sig_hash: [
                0x95, 0xaf, 0x7c, 0xab, 0x79, 0x91, 0xd8, 0x01, 0x01, 0xbe, 0x2e, 0x55, 0x87, 0x17,
                0x58, 0xd9, 0xe7, 0xcf, 0x68, 0x84, 0x9b, 0xe2, 0x98, 0x9b, 0xa2, 0x1b, 0x1f, 0x31,
                0x3a, 0x3b, 0xe4, 0x6b,
            ],
        },
    }
}

/// The key of the counting bytes.
#[tactic(auto, using(slh_params::proofs::Bounds::n_high), unfolding(crate::specs::SelfTest::known_key, crate::specs::SelfTest::counting))]
fn known_key(set: ParamSet) -> SecretKey
    ensures key { result ≡ known_key set }
    ensures set { result.set ≡ set }
{
    let n = set.n();
    keygen_internal(
        set,
        &COUNTING[..n],
        &COUNTING[n..2 * n],
        &COUNTING[2 * n..3 * n],
    )
}

/// Whether SHA-256 of the bytes is this hash.
fn has_hash(bytes: &[u8], hash: &[u8; 32]) -> bool
    ensures { IsTrue result ↔ (sha256 bytes.now ≡ hash.now) }
{
    let mut hasher = PreHasher::new(PreHash::Sha256);
    hasher.update(bytes);
    hasher.finish().bytes() == hash.as_slice()
}

/// Signs the message with the known key.
#[tactic(auto, unfolding(crate::specs::SelfTest::known_signature))]
fn sign_message(set: ParamSet, sk: &SecretKey, sig: &mut [u8])
    requires sk { sk.now ≡ known_key set }
    requires set { sk.now.set ≡ set }
    requires len { length sig.old ≡ sig_len (params set) }
    ensures { sig.new ≡ known_signature set }
{
    let _signed = sign(MESSAGE, &[], sk, Randomizer::Deterministic, sig);
}

/// Whether the signature is valid for the message, and not for the other one.
fn is_told_apart(sig: &[u8], pk: &PublicKey) -> bool
    ensures { IsTrue result ↔ IsValid pk.now (pure_message [] message) sig.now
        × (IsValid pk.now (pure_message [] other_message) sig.now → ⊥) }
{
    verify(MESSAGE, &[], sig, pk) && !verify(OTHER_MESSAGE, &[], sig, pk)
}

/// Whether this is PK.root of the key.
fn is_root(pk: &PublicKey, root: &[u8]) -> bool
    ensures { IsTrue result ↔ (pk_root pk.now ≡ root.now) }
{
    pk.pk_root() == root
}

/// Whether the set gives its known answers. Writes the signature.
fn has_known_answers(number: u32, set: ParamSet, sig: &mut [u8]) -> bool
    requires set { set_numbered number ≡ Some set }
    requires len { length sig.old ≡ sig_len (params set) }
    ensures answers { IsTrue result ↔ HasKnownAnswers number set }
    ensures signature { sig.new ≡ known_signature set }
{
    let answer = known_answer(number);
    let sk = known_key(set);
    let pk = sk.public();
    sign_message(set, &sk, sig);
    is_root(&pk, answer.pk_root) && has_hash(sig, &answer.sig_hash) && is_told_apart(sig, &pk)
}

/// Tests key generation, signing and verifying by the answers that other implementations gave for one key and one
/// message, in `scratch` of `sig_len` bytes, which gets the signature. Refused by `self_test_rules`, with nothing
/// written: a number that is not a set's, scratch of another length. `SelfTestFailed` if an answer differs.
#[unsafe(no_mangle)]
pub extern "C" fn slh_self_test(set: u32, scratch: &mut [u8]) -> u32
    ensures passed { (result ≡ DONE) ↔ (first_refusal (self_test_rules set scratch.old) ≡ DONE)
        × InSet set (λ s. HasKnownAnswers set s) }
    ensures failed { first_refusal (self_test_rules set scratch.old) ≡ DONE → result ≢ DONE → result ≡ 40 }
    ensures signature { first_refusal (self_test_rules set scratch.old) ≡ DONE
        → InSet set (λ s. scratch.new ≡ known_signature s) }
    ensures refused { let refusal = first_refusal (self_test_rules set scratch.old) in
        refusal ≢ DONE → (result ≡ refusal) × (scratch.new ≡ scratch.old) }
{
    let of = or_refuse!(set_of(set));
    or_refuse!(judge(&[rules::output(of.sig_len(), scratch)]));
    if has_known_answers(set, of, scratch) {
        DONE
    } else {
        Refusal::SelfTestFailed.number()
    }
}
