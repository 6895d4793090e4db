//! Answers as they are passed in, before any check, and their nodes, which are copied and compared with their tags
//! (ours).
ghost use Rattle.std.specs.Prelude.{◌≡◌, ◌↔◌, ℕ, List, ◌+◌, ◌*◌, ◌<◌, ◌≤◌, ◌^◌, IsTrue, IsSome, IfSome, length, take};
ghost use Rattle.slh_params.specs.Params.{Params};
ghost use Rattle.slh_hash.specs.Stream.{IsKeyed};
ghost use Rattle.slh_few.specs.Chunks.{end_to_end};
ghost use Rattle.slh_jobs.specs.Ranges.{IsShape, below, answer_len, given, node_given, tag_given, path_given, rest_given};
ghost use Rattle.slh_lanes.specs.HmacLanes.{IsBegun};
ghost use Rattle.slh_lanes.specs.Lanes.{value_at};
ghost use Rattle.slh_jobs.specs.Tags.{node_tag};
ghost use Rattle.slh_jobs.specs.AnswerTags.{AreBegun, HaveTags};
ghost use Rattle.slh_jobs.specs.declared.shape.TheConstants.{MOST_OWN_LEN};
ghost use Rattle.slh_subtrees.specs.declared.jobs.TheConstants.{MOST_JOBS_OF_A_KIND};

use crate::jobs::ranges;
use crate::shape::Shape;
use crate::tag::{AnswerTags, answer_tag};
use slh_core::are_same;
use slh_hash::CategoryHmac;
use slh_lanes::{GROUP, HmacLanes, LaneNodes, lane_node, node_lanes, set_lane};
use slh_params::{Node, node_of, put_node};

/// Answers of one shape, put end to end, and whatever bytes follow them.
#[derive(Clone, Copy)]
pub(crate) struct AnswerBytes<'a> {
    pub(crate) shape: Shape,
    pub(crate) bytes: &'a [u8],
    ghost is_shape: { ∥ IsShape shape ∥₁ },
    ghost own: { shape.own ≤ MOST_OWN_LEN },
}

impl<'a> AnswerBytes<'a> {
    /// Answer `c`.
    fn answer(&self, c: usize) -> &'a [u8]
        requires { (c + 1) * answer_len self.now.shape ≤ length self.now.bytes.now }
        ensures value { result.now ≡ given self.now.shape self.now.bytes.now c }
        ensures len { length result.now ≡ answer_len self.now.shape }
    {
        let len = self.shape.answer_len();
        let start = c * len;
        &self.bytes[start..start + len]
    }

    /// The node of answer `c`.
    fn node(&self, c: usize) -> Node
        requires { (c + 1) * answer_len self.now.shape ≤ length self.now.bytes.now }
        ensures value { result.items ≡ node_given self.now.shape self.now.bytes.now c }
        ensures len { length result.items ≡ self.now.shape.n }
    {
        node_of(&self.answer(c)[..self.shape.n])
    }

    /// The tag of answer `c`.
    fn tag(&self, c: usize) -> &'a [u8]
        requires { (c + 1) * answer_len self.now.shape ≤ length self.now.bytes.now }
        ensures { result.now ≡ tag_given self.now.shape self.now.bytes.now c }
    {
        let n = self.shape.n;
        &self.answer(c)[n..2 * n]
    }

    /// The nodes of a path of answer `c`.
    pub(crate) fn path(&self, c: usize) -> &'a [u8]
        requires there { (c + 1) * answer_len self.now.shape ≤ length self.now.bytes.now }
        requires room { below self.now.shape * self.now.shape.n ≤ self.now.shape.own }
        ensures value { result.now ≡ path_given self.now.shape self.now.bytes.now c }
        ensures len { length result.now ≡ below self.now.shape * self.now.shape.n }
    {
        &self.answer(c)[2 * self.shape.n..][..self.shape.path_len()]
    }

    /// The bytes after these in answer `c`.
    pub(crate) fn rest(&self, c: usize) -> &'a [u8]
        requires there { (c + 1) * answer_len self.now.shape ≤ length self.now.bytes.now }
        requires room { below self.now.shape * self.now.shape.n ≤ self.now.shape.own }
        ensures value { result.now ≡ rest_given self.now.shape self.now.bytes.now c }
        ensures len { length result.now + below self.now.shape * self.now.shape.n ≡ self.now.shape.own }
    {
        &self.answer(c)[2 * self.shape.n..][self.shape.path_len()..]
    }
}

/// At least the length of the nodes of a tree's ranges: 256 nodes of 32 bytes.
pub(crate) const MOST_NODES_LEN: usize = 256 * 32;

/// The answers of the ranges of one tree, from answer `first` on.
#[derive(Clone, Copy)]
pub(crate) struct TreeRanges<'a> {
    pub(crate) given: AnswerBytes<'a>,
    pub(crate) first: u32,
    ghost few: { first ≤ MOST_JOBS_OF_A_KIND },
    ghost there: { (first + 2 ^ given.shape.levels) * answer_len given.shape ≤ length given.bytes.now },
}

/// The node of answer `c`, if it has the tag of this job.
fn judged_node(given: &AnswerBytes, c: u32, keyed: &CategoryHmac, job: u32) -> Option<Node>
    requires { (c + 1) * answer_len given.now.shape ≤ length given.now.bytes.now }
    ensures tag { (p : Params) (key front : List ℕ) → IsKeyed keyed.now p key front
        → IsSome result ↔ (node_tag p key front job (node_given given.now.shape given.now.bytes.now c)
        ≡ tag_given given.now.shape given.now.bytes.now c) }
    ensures node { IfSome result (λ node. node.items ≡ node_given given.now.shape given.now.bytes.now c) }
    ensures len { IfSome result (λ node. length node.items ≡ given.now.shape.n) }
{
    let node = given.node(c as usize);
    let tag = answer_tag(keyed, job, &node);
    if are_same(tag.as_slice(), given.tag(c as usize)) {
        Some(node)
    } else {
        None
    }
}

/// Copies the nodes of a tree's ranges, whose answers begin with answer `first`, one after another. Whether each has its
/// tag, where the first is that of job `job`.
fn judged_alone(
    given: &AnswerBytes,
    first: u32,
    keyed: &CategoryHmac,
    job: u32,
    copies: &mut [u8],
) -> bool
    requires shape { IsShape given.now.shape }
    requires few { first ≤ MOST_JOBS_OF_A_KIND }
    requires job { job ≤ 2 * MOST_JOBS_OF_A_KIND }
    requires there { (first + 2 ^ given.now.shape.levels) * answer_len given.now.shape ≤ length given.now.bytes.now }
    requires copies { length copies.old ≡ 2 ^ given.now.shape.levels * given.now.shape.n }
    ensures tags { (p : Params) (key front : List ℕ) → IsKeyed keyed.now p key front
        → IsTrue result ↔ HaveTags p key front given.now.shape given.now.bytes.now job first
        (2 ^ given.now.shape.levels) }
    ensures copied { IsTrue result → copies.new
        ≡ end_to_end (λ r. node_given given.now.shape given.now.bytes.now (first + r)) (2 ^ given.now.shape.levels) }
{
    let n = given.shape.n;
    for r in 0..ranges(given.shape.levels) {
        let Some(node) = judged_node(given, first + r, keyed, job + r) else {
            return false;
        };
        put_node(copies, r as usize * n, &node);
    }
    true
}

/// The nodes of 16 bytes of the ranges from `r` on, as many as `used`, one in each lane. Each is read once, and copied.
fn copied_group(
    given: &AnswerBytes,
    first: u32,
    r: usize,
    used: usize,
    copies: &mut [u8],
) -> LaneNodes
    requires n { given.now.shape.n ≡ 16 }
    requires used { used ≤ GROUP }
    requires few { first ≤ MOST_JOBS_OF_A_KIND }
    requires there { (first + (r + used)) * answer_len given.now.shape ≤ length given.now.bytes.now }
    requires copies { (r + used) * 16 ≤ length copies.old }
    ensures len { length copies.new ≡ length copies.old }
    ensures lanes { (j : ℕ) → j < used
        → value_at result j 16 ≡ node_given given.now.shape given.now.bytes.now (first + (r + j)) }
    ensures copied { let node = λ (i : ℕ). node_given given.now.shape given.now.bytes.now (first + i) in
        take (r * 16) copies.old ≡ end_to_end node r → take ((r + used) * 16) copies.new ≡ end_to_end node (r + used) }
{
    let mut nodes = node_lanes(&[]);
    for j in 0..used {
        let node = given.node(first as usize + (r + j));
        put_node(copies, (r + j) * 16, &node);
        set_lane(&mut nodes, j, &node);
    }
    nodes
}

/// Whether the tags of the ranges from `r` on, as many as `used`, begin the values in the lanes.
fn have_tags(given: &AnswerBytes, first: u32, r: usize, used: usize, values: &LaneNodes) -> bool
    requires used { used ≤ GROUP }
    requires few { first ≤ MOST_JOBS_OF_A_KIND }
    requires there { (first + (r + used)) * answer_len given.now.shape ≤ length given.now.bytes.now }
    ensures { IsTrue result ↔ ((j : ℕ) → j < used
        → value_at values.now j 16 ≡ tag_given given.now.shape given.now.bytes.now (first + (r + j))) }
{
    for j in 0..used {
        let tag = given.tag(first as usize + (r + j));
        if !are_same(lane_node(values, j, 16).as_slice(), tag) {
            return false;
        }
    }
    true
}

/// As `judged_alone`, for nodes of 16 bytes, eight at a time.
fn judged_in_lanes(
    given: &AnswerBytes,
    first: u32,
    lanes: &HmacLanes,
    job: u32,
    copies: &mut [u8],
) -> bool
    requires n { given.now.shape.n ≡ 16 }
    requires shape { IsShape given.now.shape }
    requires few { first ≤ MOST_JOBS_OF_A_KIND }
    requires job { job ≤ 2 * MOST_JOBS_OF_A_KIND }
    requires there { (first + 2 ^ given.now.shape.levels) * answer_len given.now.shape ≤ length given.now.bytes.now }
    requires copies { length copies.old ≡ 2 ^ given.now.shape.levels * 16 }
    ensures tags { (p : Params) (key front : List ℕ) → p.n ≡ 16 → IsBegun lanes.now key front
        → IsTrue result ↔ HaveTags p key front given.now.shape given.now.bytes.now job first
        (2 ^ given.now.shape.levels) }
    ensures copied { IsTrue result → copies.new
        ≡ end_to_end (λ r. node_given given.now.shape given.now.bytes.now (first + r)) (2 ^ given.now.shape.levels) }
{
    let count = ranges(given.shape.levels) as usize;
    for group in 0..count.div_ceil(GROUP) {
        let r = GROUP * group;
        let used = (count - r).min(GROUP);
        let nodes = copied_group(given, first, r, used, copies);
        let values = lanes.digests(job + r as u32, &nodes);
        if !have_tags(given, first, r, used, &values) {
            return false;
        }
    }
    true
}

/// Copies the nodes of a tree's ranges, whose answers begin with answer `first`. Whether each has its tag, if the first
/// is that of job `job`. Nothing else reads the node of an answer. So the hashed node is the compared one, even if
/// somebody changes the bytes of the answers meanwhile.
pub(crate) fn are_judged(
    given: &AnswerBytes,
    first: u32,
    tags: &AnswerTags,
    job: u32,
    copies: &mut [u8],
) -> bool
    requires shape { IsShape given.now.shape }
    requires few { first ≤ MOST_JOBS_OF_A_KIND }
    requires job { job ≤ 2 * MOST_JOBS_OF_A_KIND }
    requires there { (first + 2 ^ given.now.shape.levels) * answer_len given.now.shape ≤ length given.now.bytes.now }
    requires copies { length copies.old ≡ 2 ^ given.now.shape.levels * given.now.shape.n }
    ensures tags { (p : Params) (key front : List ℕ) → AreBegun tags.now p key front
        → IsTrue result ↔ HaveTags p key front given.now.shape given.now.bytes.now job first
        (2 ^ given.now.shape.levels) }
    ensures copied { IsTrue result → copies.new
        ≡ end_to_end (λ r. node_given given.now.shape given.now.bytes.now (first + r)) (2 ^ given.now.shape.levels) }
{
    match tags.lanes_for(given.shape.n) {
        Some(lanes) => judged_in_lanes(given, first, lanes, job, copies),
        None => judged_alone(given, first, &tags.keyed, job, copies),
    }
}
