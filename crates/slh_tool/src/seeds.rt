//! The seeds on standard input (docs/FORMATS.md, "Seeds on standard input").
ghost use Rattle.std.specs.Prelude.{◌≡◌, ◌*◌, length, option_map, IfSome, IfOk, IfErr};
ghost use Rattle.slh_io.specs.Devices.{TakesAtMost};
ghost use Rattle.slh_params.specs.ParamSet.{params};
ghost use Rattle.slh_tool.specs.Seeds.{AreSeeds, IsUnfailedUnlessRefused, RefusesSeeds, seeds_limit, seeds_of, without_line_feed};

use super::fault::Fault;
use arrayvec::ArrayVec;
use slh_io::{Source, take_up_to};
use slh_params::ParamSet;

/// Room for three seeds of any set.
pub(crate) type Seeds = ArrayVec<u8, 96>;

/// The seeds SK.seed, SK.prf and PK.seed, which the input spells as 6n hexadecimal digits and at most one line
/// feed. At most 6n + 2 bytes are taken.
pub(crate) fn read_seeds<S: Source>(set: ParamSet, input: &mut S) -> Result<Seeds, Fault>
    ensures seeds { IfOk result (λ v. AreSeeds set (S.state input.old) (S.state input.new) v.items) }
    ensures len { IfOk result (λ v. length v.items ≡ 3 * (params set).n) }
    ensures refused { IfErr result (RefusesSeeds set (S.state input.old) (S.state input.new)) }
    ensures at_most { TakesAtMost (S.state input.old).left (S.state input.new).left (seeds_limit set) }
    ensures unfailed { IsUnfailedUnlessRefused (S.state input.old) (S.state input.new) result }
{
    let mut room = [0; 194];
    let room = &mut room[..6 * set.n() + 2];
    let Ok(count) = take_up_to(input, room) else {
        return Err(Fault::ReadFailed);
    };
    match seeds_of(set, &room[..count]) {
        Some(seeds) => Ok(seeds),
        None => Err(Fault::BadSeeds),
    }
}

/// The seeds that a text spells.
fn seeds_of(set: ParamSet, text: &[u8]) -> Option<Seeds>
    ensures value { option_map (λ v. v.items) result ≡ seeds_of set text.now }
    ensures len { IfSome result (λ v. length v.items ≡ 3 * (params set).n) }
{
    let mut room = [0; 96];
    let room = &mut room[..3 * set.n()];
    if hex::decode_to_slice(without_line_feed(text), room).is_err() {
        return None;
    }
    let mut seeds = ArrayVec::new();
    let _ = seeds.try_extend_from_slice(room);
    Some(seeds)
}

fn without_line_feed(text: &[u8]) -> &[u8]
    ensures { result.now ≡ without_line_feed text.now }
{
    match text.strip_suffix(b"\n") {
        Some(front) => front,
        None => text,
    }
}
