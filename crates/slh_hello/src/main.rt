//! A whole program to copy: makes a key from 32 random bytes of standard input, signs a letter, and says whether the
//! signature is valid.
#![tactic(auto, using(slh_params::proofs::Bounds::bounds))]

ghost use Rattle.std.specs.Prelude.{◌≡◌, IfOk, length};
ghost use Rattle.slh_params.specs.Params.{sig_len};
ghost use Rattle.slh_params.specs.ParamSet.{params};

use rand_chacha::ChaCha20Rng;
use rand_core::SeedableRng;
use slh_core::{FromRng, ParamSet, Randomizer, SecretKey, keygen, sign, verify};
use std::alloc::{AllocError, Allocator};
use std::io::{self, Read};

const LETTER: &[u8] = b"Dear reader,";

/// Room for a signature by the key.
fn room<A: Allocator>(alloc: A, sk: &SecretKey) -> Result<Vec<u8, A>, AllocError>
    ensures { IfOk result (λ sig. length sig.items ≡ sig_len (params sk.now.set)) }
{
    vec![in alloc; 0; sk.set().sig_len()]
}

fn main(rt: HostRuntime) -> io::Result<()> {
    let mut seed = [0; 32];
    rt.stdin().read_exact(&mut seed)?;
    let rng = ChaCha20Rng::from_seed(seed);
    let Ok(sk) = keygen(ParamSet::S128f, &mut FromRng { rng }) else {
        unreachable!()
    };
    let mut sig = room(rt.alloc(), &sk)?;
    match sign(LETTER, &[], &sk, Randomizer::Deterministic, &mut sig) {
        Ok(()) => println!(rt; "signed: {} bytes", sig.len())?,
        Err(_) => unreachable!(),
    }
    let valid = verify(LETTER, &[], &sig, &sk.public());
    println!(rt; "valid: {valid}")
}
