//! Signatures from jobs, against those of OpenSSL 3.5 and of a reference in Python.
use super::fixtures::{OF_ABC, answers, begin_pure, join, levels, sha256_hex};
use crate::seeds::key;
use slh_core::{SecretKey, keygen_internal};
use slh_jobs::Levels;
use slh_params::ParamSet;
use std::alloc::Global;
use std::process::Abort;
use std::test::Fail;

/// Checks the deterministic signature of "abc" from the jobs under these levels by its SHA-256.
fn check_of_abc(
    rt: &impl Abort,
    alloc: Global,
    sk: &SecretKey,
    xmss: u32,
    fors: u32,
    want: &str,
) -> Result<(), Fail> {
    let levels = levels(sk.set(), xmss, fors)?;
    let start = begin_pure(alloc, b"abc", sk)?;
    let answers = answers(rt, alloc, &levels, sk, &start)?;
    let sig = join(rt, alloc, &levels, sk, &start, &answers)??;
    assert_eq!(rt;
        sha256_hex(alloc, &sig)?.as_str(),
        want,
        "levels {xmss} and {fors}"
    );
    Ok(())
}

#[test]
fn all_levels_of_128f(rt: HostRuntime) -> Result<(), Fail> {
    let set = ParamSet::S128f;
    let sk = key(set);
    for xmss in 0..=3 {
        for fors in 0..=6 {
            check_of_abc(&rt, rt.alloc(), &sk, xmss, fors, OF_ABC)?;
        }
    }
    for (xmss, fors) in [(4, 0), (0, 7), (9, 0), (0, 9), (u32::MAX, 0), (0, u32::MAX)] {
        assert!(rt;
            Levels::new(set, xmss, fors).is_none(),
            "levels {xmss} and {fors}"
        );
    }
    Ok(())
}

#[test]
fn other_sets(rt: HostRuntime) -> Result<(), Fail> {
    for (set, xmss, fors, want) in [
        (
            ParamSet::S192f,
            2,
            1,
            "61e8fbd5d63729609c76ddba9786673995d71846fefd93e4221fe620ed0d0574",
        ),
        (
            ParamSet::S256f,
            4,
            3,
            "95af7cab7991d80101be2e55871758d9e7cf68849be2989ba21b1f313a3be46b",
        ),
        (
            ParamSet::S128s,
            8,
            8,
            "2298d75c43b71cecf2477f10c7965c9be945e9b79b7edfa988b4ba71d4135bae",
        ),
    ] {
        check_of_abc(&rt, rt.alloc(), &key(set), xmss, fors, want)?;
    }
    Ok(())
}

/// A set of other numbers than the standard's, the seeds of a key end to end, and the SHA-256 of its deterministic
/// signature of "abc" by a plain reference in Python (`tests/vectors/records.json`).
#[derive(Clone, Copy)]
struct Sample {
    label: &'static str,
    seeds: &'static str,
    levels: (u32, u32),
    of_abc: &'static str,
}

const SAMPLES: [Sample; 5] = [
    Sample {
        label: "custom:24,2,1,65,1,8",
        seeds: concat!(
            "5f39cc4935ef60d63b4034f68a1db0e48e8ee1dd109be93b33eac004947f9e82921f6e669c8e5effe4de8fcf83b00239",
            "089a4913efd3843e65cd15c12ad2263e920e3ca7cc870355"
        ),
        levels: (1, 1),
        of_abc: "60be26a0580bd8a011c23f8d7b99047316398d2b6f87c1a99f0b9304d2aca570",
    },
    Sample {
        label: "custom:32,8,5,13,3,5",
        seeds: concat!(
            "d1520df8b68c4a8500f64d0ff244c3dd8d81dfd9a9878ea3c999a293dbfe6624181ec95085a369afc4f423bc2d2c15a1",
            "5ac5ee4ab39d53c86d124f23f5657123233686094c029177f89e299ba41de2247e735a60e2b8da1d5059ee37dbe5089c"
        ),
        levels: (2, 3),
        of_abc: "d41eda3d12256b37d04146bf5e7dc91ff32a3e2c81644647101275bdd0c2d9d0",
    },
    Sample {
        label: "custom:24,8,1,2,5,7",
        seeds: concat!(
            "ca722be23facc2e6f0c66ef6a7b8f983ebb8b106a3fdb8d86d1a0be6ba38194d39b58c6b8abf4b35a5c457a0cba02a80",
            "ae7d0a089f96993b002e43a84ca307a4ed23289c3c2316da"
        ),
        levels: (1, 5),
        of_abc: "79dbd856e39df93dbce7ceb9ce06dce2450fa83052045f6913388142106e0cd1",
    },
    Sample {
        label: "custom:16,4,12,1,1,1",
        seeds: concat!(
            "0b33e68d8ab2508775afcc560a6537d5a406bae18cf6c10aec0240343c4f33b4be61e5ae7c1e84d7bc274af9b2a1fea4",
            ""
        ),
        levels: (8, 1),
        of_abc: "8db72001e37ba2b8ca3166014841181e82bc9599e5f189a25837e717d9f4e04c",
    },
    Sample {
        label: "custom:32,4,2,2,14,2",
        seeds: concat!(
            "f7da3421c7df1bb4be8887ac84748f216a68f96d4763ddd0661dd833194ab3caac386f25fefaedb5a54c5ff29a301cb5",
            "657761f2f49ee04439e8ef5343ccff0300bff4d0b9adcf24b1de1b166be1ab53be7d335d7eff3ef49fb88a35b42d4589"
        ),
        levels: (2, 8),
        of_abc: "8d7ff5cbf076e71c2042c32ddfb2805d65eb41c4256e5812ae7dc2aa09e63941",
    },
];

#[test]
fn sets_of_other_numbers(rt: HostRuntime) -> Result<(), Fail> {
    for sample in SAMPLES {
        let set = ParamSet::from_label(sample.label.as_bytes()).ok_or("no label of a set")?;
        let seeds = hex::decode(rt.alloc(), sample.seeds)?;
        let n = set.n();
        assert!(rt; seeds.len() == 3 * n, "{}", sample.label);
        let sk = keygen_internal(set, &seeds[..n], &seeds[n..2 * n], &seeds[2 * n..3 * n]);
        let (xmss, fors) = sample.levels;
        check_of_abc(&rt, rt.alloc(), &sk, xmss, fors, sample.of_abc)?;
    }
    Ok(())
}
