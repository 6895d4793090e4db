//! Key files and arguments that the tests share.

/// The secret key of SLH-DSA-SHA2-128f and the seeds 00, 01, 02, .. as another implementation has it.
pub(super) const SECRET: &[u8] =
    b"slh-dsa-secret 2\nSLH-DSA-SHA2-128f\n000102030405060708090a0b0c0d0e0f101112131415161718191a1b1c1d1e1f202122232425262728292a2b2c2d2e2f3b56e816847f000386aeec2e2bb9e1b5\n";

/// Its public key.
pub(super) const PUBLIC: &[u8] =
    b"slh-dsa-public 2\nSLH-DSA-SHA2-128f\n202122232425262728292a2b2c2d2e2f3b56e816847f000386aeec2e2bb9e1b5\n";

pub(super) const SIGN: [&str; 5] = ["sign", "--key", "secret", "--message", "abc"];

pub(super) const SIGN_TWICE: [&str; 6] = ["sign", "--key", "secret", "--message", "abc", "--twice"];

pub(super) const SIGN_HASHED: [&str; 7] = [
    "sign",
    "--key",
    "secret",
    "--message",
    "abc",
    "--prehash",
    "SHA2-256",
];

pub(super) const VERIFY: [&str; 7] = [
    "verify",
    "--key",
    "public",
    "--message",
    "abc",
    "--signature",
    "sig",
];

pub(super) const VERIFY_HASHED: [&str; 9] = [
    "verify",
    "--key",
    "public",
    "--message",
    "abc",
    "--signature",
    "sig",
    "--prehash",
    "SHA2-256",
];

pub(super) const VECTORS: [&str; 3] = ["vectors", "--file", "tests"];

/// A verify test of a key of zeros, an empty message and an empty signature.
pub(super) const NOT_VALID: &[u8] =
    b"[{\"kind\":\"verify\",\"set\":\"SLH-DSA-SHA2-128f\",\"pk\":\"0000000000000000000000000000000000000000000000000000000000000000\",\"form\":\"pure\",\"message\":\"\",\"context\":\"\",\"signature\":\"\",\"valid\":false}]";

/// A test of each kind: of generating a key, of signing and of verifying.
pub(super) const THREE_TESTS: &[u8] =
    b"[{\"kind\":\"keygen\",\"set\":\"SLH-DSA-SHA2-128f\",\"skSeed\":\"000102030405060708090A0b0c0d0e0f\",\"skPrf\":\"000102030405060708090A0b0c0d0e0f\",\"pkSeed\":\"000102030405060708090A0b0c0d0e0f\",\"sk\":\"000102030405060708090a0b0c0d0e0f000102030405060708090a0b0c0d0e0f000102030405060708090a0b0c0d0e0f000102030405060708090a0b0c0d0e0f\",\"pk\":\"000102030405060708090a0b0c0d0e0f000102030405060708090a0b0c0d0e0f\"},{\"kind\":\"sign\",\"set\":\"SLH-DSA-SHA2-128f\",\"sk\":\"000102030405060708090a0b0c0d0e0f000102030405060708090a0b0c0d0e0f000102030405060708090a0b0c0d0e0f000102030405060708090a0b0c0d0e0f\",\"form\":\"SHA2-512/256\",\"message\":\"\",\"context\":\"00\",\"random\":\"000102030405060708090A0b0c0d0e0f\",\"signature\":\"00\"},{\"kind\":\"verify\",\"set\":\"SLH-DSA-SHA2-128f\",\"pk\":\"000102030405060708090a0b0c0d0e0f000102030405060708090a0b0c0d0e0f\",\"form\":\"pure\",\"message\":\"616263\",\"context\":\"\",\"signature\":\"\",\"valid\":false}]";
