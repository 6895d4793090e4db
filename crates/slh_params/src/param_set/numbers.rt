//! The numbers of a parameter set (FIPS 205, sections 5 to 8 and 11).
ghost use Rattle.std.specs.Prelude.{◌≡◌, ◌^◌, ◌≤◌, ◌<◌, length};
ghost use Rattle.std.specs.Int.Digits.{digits_of};
ghost use Rattle.slh_params.specs.ParamSet.{params};
ghost use Rattle.slh_params.specs.Params.{h, m, w, md_len, tree_len, leaf_len, len, len1, len2, pk_len, sk_len, sig_len};

use super::ParamSet;

impl ParamSet {
    /// n: the length of a hash value in bytes.
    #[tactic(auto, unfolding(crate::specs::ParamSet::params))]
    pub fn n(&self) -> usize
        ensures { result ≡ (params self.now).n }
    {
        self.n as usize
    }

    /// lg_w: the bits of a digit of a WOTS+ key; its chains have 2^lg_w values.
    #[tactic(auto, unfolding(crate::specs::ParamSet::params))]
    pub fn lg_w(&self) -> u32
        ensures { result ≡ (params self.now).lg_w }
    {
        self.lg_w
    }

    /// h': the height of an XMSS tree.
    #[tactic(auto, unfolding(crate::specs::ParamSet::params))]
    pub fn hp(&self) -> u32
        ensures { result ≡ (params self.now).hp }
    {
        self.hp
    }

    /// d: the layers of the hypertree.
    #[tactic(auto, unfolding(crate::specs::ParamSet::params))]
    pub fn d(&self) -> u32
        ensures { result ≡ (params self.now).d }
    {
        self.d
    }

    /// a: the height of a FORS tree.
    #[tactic(auto, unfolding(crate::specs::ParamSet::params))]
    pub fn a(&self) -> u32
        ensures { result ≡ (params self.now).a }
    {
        self.a
    }

    /// k: the number of FORS trees.
    #[tactic(auto, unfolding(crate::specs::ParamSet::params))]
    pub fn k(&self) -> u32
        ensures { result ≡ (params self.now).k }
    {
        self.k
    }

    /// h: the height of the hypertree, all layers together.
    pub fn h(&self) -> u32
        ensures { result ≡ h (params self.now) }
    {
        self.hp() * self.d()
    }

    /// The bytes of a message digest that FORS signs.
    pub fn md_len(&self) -> usize
        ensures { result ≡ md_len (params self.now) }
    {
        (self.k() as usize * self.a() as usize).div_ceil(8)
    }

    /// The bytes of a message digest that choose the tree.
    pub fn tree_len(&self) -> usize
        ensures { result ≡ tree_len (params self.now) }
    {
        ((self.h() - self.hp()) as usize).div_ceil(8)
    }

    /// The bytes of a message digest that choose the leaf.
    pub fn leaf_len(&self) -> usize
        ensures { result ≡ leaf_len (params self.now) }
    {
        (self.hp() as usize).div_ceil(8)
    }

    /// m: the length of a message digest in bytes.
    pub fn m(&self) -> usize
        ensures { result ≡ m (params self.now) }
    {
        self.md_len() + self.tree_len() + self.leaf_len()
    }

    /// w: the values of a chain of a WOTS+ key.
    pub fn w(&self) -> u32
        ensures { result ≡ w (params self.now) }
    {
        1 << self.lg_w()
    }

    /// len_1: the digits of a message that a WOTS+ key signs.
    pub fn len1(&self) -> usize
        ensures { result ≡ len1 (params self.now) }
    {
        (8 * self.n()).div_ceil(self.lg_w() as usize)
    }

    /// len_2: the digits of the checksum (FIPS 205, section 5, Algorithm 1).
    pub fn len2(&self) -> usize
        ensures { result ≡ len2 (params self.now) }
    {
        digit_count(self.len1() as u32 * (self.w() - 1), self.w())
    }

    /// len: the chains of a WOTS+ key, one for each digit of the message and of the checksum.
    #[tactic(auto, unfolding(crate::specs::Params::len))]
    pub fn len(&self) -> usize
        ensures { result ≡ len (params self.now) }
    {
        self.len1() + self.len2()
    }

    /// The length of a public key in bytes.
    pub fn pk_len(&self) -> usize
        ensures { result ≡ pk_len (params self.now) }
    {
        self.n() + self.n()
    }

    /// The length of a secret key in bytes.
    pub fn sk_len(&self) -> usize
        ensures { result ≡ sk_len (params self.now) }
    {
        4 * self.n()
    }

    /// The length of a signature in bytes.
    pub fn sig_len(&self) -> usize
        ensures { result ≡ sig_len (params self.now) }
    {
        let fors = self.k() as usize * (1 + self.a() as usize);
        let tree = self.h() as usize + self.d() as usize * self.len();
        (1 + fors + tree) * self.n()
    }
}

/// The digits that a number has in a base.
fn digit_count(number: u32, base: u32) -> usize
    requires base { 2 ≤ base }
    requires small { base ≤ 256 }
    requires some { 1 ≤ number }
    requires few { number < 2 ^ 24 }
    ensures { result ≡ length (digits_of base number) }
{
    let mut count = 1;
    let mut capacity = base;
    while capacity <= number {
        count += 1;
        capacity *= base;
    }
    count
}
