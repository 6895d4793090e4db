//! The commands `root` and `keygen` (FIPS 205, section 9.1).
ghost use Rattle.std.specs.Prelude.{◌≡◌, ◌*◌, ◌++◌, ◌∷◌, [], length, IfOk, IfErr, string_bytes};
ghost use Rattle.hex.specs.Hex.{encode_lower};
ghost use Rattle.slh_core.specs.Keys.{public_of};
ghost use Rattle.slh_io.specs.Devices.{TakesAtMost};
ghost use Rattle.slh_params.specs.Label.{set_of_label};
ghost use Rattle.slh_params.specs.ParamSet.{params};
ghost use Rattle.slh_tool.specs.Keys.{IsGeneratedFrom, RefusesSeedsOf, key_of_seeds};
ghost use Rattle.slh_tool.specs.Replies.{RefusesKeygen, ShowsRoot, WritesKey, limit_of_set};
ghost use Rattle.slh_tool.specs.Requests.{keygen_asked};
ghost use Rattle.slh_tool.specs.Seeds.{IsUnfailedUnlessRefused};
ghost use Rattle.slh_tool.specs.declared.fault.Fault.TheVariants.{NoMemory};

use super::cuts::{cutting_of, workers_of};
use super::fault::Fault;
use super::request::KeygenWords;
use super::seeds::read_seeds;
use slh_core::{SecretKey, keygen_internal};
use slh_io::Source;
use slh_key_files::write_secret;
use slh_par::{Cutting, NoGate, ParFault, Workers, keygen_par};
use slh_params::ParamSet;
use std::alloc::{AllocError, Allocator};
use std::thread::Threads;

/// The public key of the seeds on the input, as digits and a line feed.
#[inline(never)]
pub(crate) fn root<A: Allocator, S: Source>(
    alloc: A,
    name: &str,
    input: &mut S,
) -> Result<String<A>, Fault>
    ensures done { IfOk result (λ s. ShowsRoot name.now (S.state input.old) (S.state input.new) (string_bytes s)) }
    ensures refused { IfErr result (RefusesSeedsOf name.now (S.state input.old) (S.state input.new)) }
    ensures at_most { TakesAtMost (S.state input.old).left (S.state input.new).left
        (limit_of_set (set_of_label name.now)) }
    ensures unfailed { IsUnfailedUnlessRefused (S.state input.old) (S.state input.new) result }
{
    let key = generated(name, input)?;
    Ok(root_line(alloc, &key)?)
}

/// The secret key file of the seeds on the input. The cutting is checked before the seeds are read.
#[inline(never)]
pub(crate) fn keygen<R: Threads + Sync, A: Allocator + Clone + Send + Sync, S: Source>(
    rt: &R,
    alloc: A,
    words: KeygenWords<'_>,
    input: &mut S,
) -> Result<String<A>, Fault>
    ensures done { IfOk result (λ s. WritesKey (keygen_asked words.entry)
        (S.state input.old) (S.state input.new) (string_bytes s)) }
    ensures refused { IfErr result (RefusesKeygen (keygen_asked words.entry) (S.state input.old) (S.state input.new)) }
    ensures at_most { TakesAtMost (S.state input.old).left (S.state input.new).left
        (limit_of_set (set_of_label words.entry.set.now)) }
    ensures unfailed { IsUnfailedUnlessRefused (S.state input.old) (S.state input.new) result }
{
    let Some(set) = ParamSet::from_label(words.set.as_bytes()) else {
        return Err(Fault::UnknownSet);
    };
    let cutting = cutting_of(set, words.work)?;
    let seeds = read_seeds(set, input)?;
    let workers = workers_of(words.work.workers);
    let key = key_by_workers(rt, alloc.clone()?, set, seeds.as_slice(), workers, &cutting)?;
    let Ok(text) = write_secret(alloc, &key) else {
        return Err(Fault::NoMemory);
    };
    Ok(text)
}

/// The secret key of three seeds, by several workers. No gate stops it.
fn key_by_workers<R: Threads + Sync, A: Allocator + Clone + Send + Sync>(
    rt: &R,
    alloc: A,
    set: ParamSet,
    seeds: &[u8],
    workers: Workers,
    cutting: &Cutting,
) -> Result<SecretKey, Fault>
    requires seeds { length seeds.now ≡ 3 * (params set).n }
    requires cutting { cutting.now.set ≡ set }
    ensures set { IfOk result (λ key. key.set ≡ set) }
    ensures generated { IfOk result (λ key. key ≡ key_of_seeds set seeds.now) }
    ensures refused { IfErr result (λ e. e ≡ NoMemory) }
{
    let (sk_seed, others) = seeds.split_at(set.n());
    let (sk_prf, pk_seed) = others.split_at(set.n());
    match keygen_par(
        rt, alloc, set, sk_seed, sk_prf, pk_seed, workers, cutting, &NoGate,
    ) {
        Ok(key) => Ok(key),
        Err(ParFault::NoMemory) => Err(Fault::NoMemory),
        Err(_) => unreachable!(),
    }
}

/// The secret key of the named set and of the seeds on the input.
fn generated<S: Source>(name: &str, input: &mut S) -> Result<SecretKey, Fault>
    ensures done { IfOk result (IsGeneratedFrom name.now (S.state input.old) (S.state input.new)) }
    ensures refused { IfErr result (RefusesSeedsOf name.now (S.state input.old) (S.state input.new)) }
    ensures at_most { TakesAtMost (S.state input.old).left (S.state input.new).left
        (limit_of_set (set_of_label name.now)) }
    ensures unfailed { IsUnfailedUnlessRefused (S.state input.old) (S.state input.new) result }
{
    let Some(set) = ParamSet::from_label(name.as_bytes()) else {
        return Err(Fault::UnknownSet);
    };
    let seeds = read_seeds(set, input)?;
    Ok(key_of_seeds(set, seeds.as_slice()))
}

/// The secret key of three seeds.
fn key_of_seeds(set: ParamSet, seeds: &[u8]) -> SecretKey
    requires { length seeds.now ≡ 3 * (params set).n }
    ensures set { result.set ≡ set }
    ensures generated { result ≡ key_of_seeds set seeds.now }
{
    let (sk_seed, others) = seeds.split_at(set.n());
    let (sk_prf, pk_seed) = others.split_at(set.n());
    keygen_internal(set, sk_seed, sk_prf, pk_seed)
}

/// The public key as digits, and a line feed.
fn root_line<A: Allocator>(alloc: A, key: &SecretKey) -> Result<String<A>, AllocError>
    ensures { IfOk result (λ s. string_bytes s ≡ encode_lower (public_of key.now).bytes ++ 10 ∷ []) }
{
    let mut line = hex::encode(alloc, key.public().bytes())?;
    line.push_str("\n")?;
    Ok(line)
}
