//! A row of a table, which is read field by field from the left (ours).
ghost use Rattle.std.specs.Prelude.{◌≡◌, ◌<◌, ◌≤◌, ◌^◌, ◌-◌, ◌%◌, IfSome, length};
ghost use Rattle.slh_params.specs.Params.{h};
ghost use Rattle.slh_params.specs.ParamSet.{params};

use sha2::{Digest, Sha256};
use slh_params::{Node, ParamSet, node_of};
use std::alloc::Global;
use std::fmt;

/// The rest of a row, and the finding so far.
#[derive(Drop)]
pub struct Row<'a> {
    alloc: Global,
    rest: Option<&'a str>,
    malformed: bool,
    differs: bool,
    found: String,
}

/// The finding about a row.
#[derive(Drop)]
pub enum Verdict {
    Right,
    /// The first value that is not the row's.
    Differs(String),
    Malformed,
    Unknown,
}

impl fmt::Display for Verdict {
    fn fmt<W: fmt::Write>(&self, f: &mut fmt::Formatter<W>) -> fmt::Result {
        match self {
            Verdict::Right => f.write_str("right"),
            Verdict::Differs(found) => write!(f, "differs: {found}"),
            Verdict::Malformed => f.write_str("malformed"),
            Verdict::Unknown => f.write_str("unknown"),
        }
    }
}

impl<'a> Row<'a> {
    /// The row of these fields.
    pub fn new(alloc: Global, fields: &'a str) -> Row<'a> {
        Row {
            alloc,
            rest: Some(fields),
            malformed: false,
            differs: false,
            found: String::new(alloc),
        }
    }

    /// The finding, after the whole row is read.
    pub fn verdict(self) -> Verdict {
        if self.malformed || self.rest.is_some() {
            Verdict::Malformed
        } else if self.differs {
            Verdict::Differs(self.found)
        } else {
            Verdict::Right
        }
    }

    /// The source of memory.
    pub fn alloc(&self) -> Global {
        self.alloc
    }

    /// Makes the row malformed.
    pub fn refuse(&mut self) {
        self.malformed = true;
    }

    /// Whether fields are left.
    pub fn has_more(&self) -> bool {
        self.rest.is_some()
    }

    /// Whether the next field is there and empty.
    pub fn next_is_empty(&self) -> bool {
        match self.rest {
            Some(rest) => rest.is_empty() || rest.starts_with('\t'),
            None => false,
        }
    }

    /// The next field.
    pub fn text(&mut self) -> &'a str {
        let Some(rest) = self.rest else {
            self.malformed = true;
            return "";
        };
        match rest.split_once('\t') {
            Some((field, after)) => {
                self.rest = Some(after);
                field
            }
            None => {
                self.rest = None;
                rest
            }
        }
    }

    /// The next field, a file's text: `\n` and `\r` stand for a line feed and a carriage return.
    pub fn file(&mut self) -> String {
        let text = self.text();
        match text.replace(self.alloc, "\\n", "\n") {
            Ok(lines) => lines.replace(self.alloc, "\\r", "\r"),
            Err(error) => Err(error),
        }
        .unwrap_or(String::new(self.alloc))
    }

    /// The next field, bytes as hexadecimal digits.
    pub fn bytes(&mut self) -> Vec<u8> {
        match hex::decode(self.alloc, self.text()) {
            Ok(bytes) => bytes,
            Err(_) => {
                self.malformed = true;
                Vec::new(self.alloc)
            }
        }
    }

    /// The next field, n bytes as hexadecimal digits.
    pub fn node(&mut self, set: ParamSet) -> Node
        ensures { length result.items ≡ (params set).n }
    {
        let bytes = self.bytes();
        if bytes.len() == set.n() {
            return node_of(&bytes);
        }
        self.malformed = true;
        node_of(&[0; 32][..set.n()])
    }

    /// The next field, a number.
    pub fn number(&mut self) -> u64 {
        match self.text().parse::<u64>() {
            Ok(x) => x,
            Err(_) => {
                self.malformed = true;
                0
            }
        }
    }

    /// The next field, a number below the bound.
    pub fn below(&mut self, bound: u64) -> u64
        requires { 0 < bound }
        ensures { result < bound }
    {
        let x = self.number();
        if x < bound {
            return x;
        }
        self.malformed = true;
        0
    }

    /// The next field, a number of 32 bits.
    pub fn word(&mut self) -> u32 {
        self.below(1 << 32) as u32
    }

    /// The next field, a layer.
    pub fn layer(&mut self) -> u8 {
        self.below(256) as u8
    }

    /// The next field, the label of a set.
    pub fn set(&mut self) -> ParamSet {
        match ParamSet::from_label(self.text().as_bytes()) {
            Some(set) => set,
            None => {
                self.malformed = true;
                ParamSet::S128f
            }
        }
    }

    /// The next field, a leaf of an XMSS tree.
    #[tactic(auto, using(slh_params::proofs::Bounds::hp_high))]
    pub fn leaf(&mut self, set: ParamSet) -> u32
        ensures { result < 2 ^ (params set).hp }
    {
        let leaf = self.word();
        if leaf < 1 << set.hp() {
            return leaf;
        }
        self.malformed = true;
        0
    }

    /// The next field, an XMSS tree of layer 0.
    #[tactic(auto, using(slh_params::proofs::Bounds::digest_bounds))]
    pub fn low_tree(&mut self, set: ParamSet) -> u64
        ensures { result < 2 ^ (h (params set) - (params set).hp) }
    {
        let tree = self.number();
        let low = low_bits(tree, set.h() - set.hp());
        if low != tree {
            self.malformed = true;
        }
        low
    }

    /// So many bytes 00.
    pub fn zeros(&mut self, len: usize) -> Option<Vec<u8>>
        ensures { IfSome result (λ bytes. length bytes.items ≡ len) }
    {
        match vec![in self.alloc; 0; len] {
            Ok(bytes) => Some(bytes),
            Err(_) => {
                self.malformed = true;
                None
            }
        }
    }

    /// Something was found in place of the row's value.
    fn differ(&mut self, found: &str) {
        if !self.differs {
            self.differs = true;
            self.found = String::from_str(self.alloc, found).unwrap_or(String::new(self.alloc));
        }
    }

    /// The fact that the row states without a field.
    pub fn is_true(&mut self, found: bool) {
        if !found {
            self.differ("false");
        }
    }

    /// The next field is this text.
    pub fn is_text(&mut self, found: &str) {
        if self.text() != found {
            self.differ(found);
        }
    }

    /// The next field is how this is printed.
    pub fn is_display<T: fmt::Display>(&mut self, found: &T) {
        match format!(in self.alloc; "{found}") {
            Ok(text) => self.is_text(text.as_str()),
            Err(_) => self.malformed = true,
        }
    }

    /// The next field is this number.
    pub fn is_number(&mut self, found: u64) {
        self.is_display(&found);
    }

    /// The next field is this file's text.
    pub fn is_file(&mut self, found: &str) {
        if self.file().as_str() != found {
            self.differ(found);
        }
    }

    /// The next field is these bytes.
    pub fn is_bytes(&mut self, found: &[u8]) {
        match hex::encode(self.alloc, found) {
            Ok(digits) => self.is_text(digits.as_str()),
            Err(_) => self.malformed = true,
        }
    }

    /// The next field is the SHA-256 of these bytes.
    pub fn is_digest(&mut self, found: &[u8]) {
        self.is_bytes(&Sha256::digest(found));
    }

    /// The next field is the number and the name of a refusal.
    pub fn is_refusal(&mut self, number: u8, name: &str) {
        self.is_number(number as u64);
        self.is_text(name);
    }
}

/// `x` modulo 2 ^ `count`.
fn low_bits(x: u64, count: u32) -> u64
    requires { count ≤ 64 }
    ensures { result ≡ x % 2 ^ count }
{
    match 1u64.checked_shl(count) {
        Some(bound) => x % bound,
        None => x,
    }
}
