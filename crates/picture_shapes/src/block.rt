//! What lies in a block, from one writer to the next.

ghost use Rattle.std.specs.Prelude.{◌≡◌, ◌<◌, ◌&&◌, IfSome, length, nat_lt};
ghost use Rattle.picture_shapes.specs.Blocks.{as_marked, as_touched, as_written, block_place, differs, fresh_block};
ghost use Rattle.picture_shapes.specs.Blocks.{is_effect, medium_span, same_ticket, says_differs, says_written};
ghost use Rattle.picture_shapes.specs.Blocks.{seen_span};

use crate::content::{Content, unwritten};
use nvme_model::entry::BlockLine;
use nvme_model::operation::Found;

/// Of which of two values of a block something is said.
#[derive(Clone, Copy, Debug, PartialEq, Eq)]
pub enum SpanKind {
    /// What observers see: what the last unit wrote that took effect.
    Seen,
    /// What lies there, where that is another ticket's.
    Medium,
}

/// What lay in a block from one place to another: from the step that made it so to the one that ended it, if one did.
#[derive(Clone, Copy, Debug, PartialEq, Eq)]
pub struct Span {
    pub lba: u64,
    pub kind: SpanKind,
    pub content: Content,
    pub begun: u64,
    pub ended: Option<u64>,
}

/// What a block is now: what observers see of it, since which place, and what lies there, since which place that or the
/// other was so. It is touched where a step that is drawn touched it.
#[derive(Clone, Copy, Debug, PartialEq, Eq)]
pub struct BlockNow {
    pub lba: u64,
    pub touched: bool,
    pub seen: Content,
    pub seen_since: u64,
    pub medium: Content,
    pub medium_since: u64,
}

// Whether two writers are the same.
fn same_ticket(one: Option<u64>, other: Option<u64>) -> bool
    ensures value { result ≡ same_ticket one other }
{
    match (one, other) {
        (None, None) => true,
        (Some(a), Some(b)) => a == b,
        (None, Some(_)) | (Some(_), None) => false,
    }
}

/// A block that nobody touched.
pub(crate) fn fresh_block(lba: u64) -> BlockNow
    ensures value { result ≡ fresh_block lba }
{
    BlockNow {
        lba,
        touched: false,
        seen: unwritten(),
        seen_since: 0,
        medium: unwritten(),
        medium_since: 0,
    }
}

/// Where a block is.
pub(crate) fn block_place(blocks: &[BlockNow], lba: u64) -> Option<usize>
    ensures value { result ≡ block_place lba blocks.now }
    ensures bound { IfSome result (λ i. i < length blocks.now) }
{
    blocks.iter().position(|one| one.lba == lba)
}

// Whether a Block says `differs`.
fn says_differs(found: Found) -> bool
    ensures value { result ≡ says_differs found }
{
    match found {
        Found::Differs => true,
        Found::Read | Found::Equal | Found::Written => false,
    }
}

/// Whether a Block says `written`.
pub(crate) fn says_written(found: Found) -> bool
    ensures value { result ≡ says_written found }
{
    match found {
        Found::Written => true,
        Found::Read | Found::Equal | Found::Differs => false,
    }
}

/// Whether a unit that writes takes effect at a Block.
pub(crate) fn is_effect(line: &BlockLine) -> bool
    ensures value { result ≡ is_effect line.now }
{
    line.effect && !says_differs(line.found)
}

impl BlockNow {
    /// A step at this place touches it.
    pub(crate) fn touch(&mut self, from: u64, place: u64)
        ensures value { self.new ≡ as_touched from place self.old }
    {
        self.touched = self.touched || from <= place;
    }

    /// A unit takes effect at this place, and observers see this from there on.
    pub(crate) fn mark(&mut self, from: u64, place: u64, content: Content)
        ensures value { self.new ≡ as_marked place content (as_touched from place self.old) }
    {
        self.touched = self.touched || from <= place;
        self.seen = content;
        self.seen_since = place;
        self.medium_since = place;
    }

    /// A step at this place writes this into it.
    pub(crate) fn write(&mut self, from: u64, place: u64, content: Content)
        ensures value { self.new ≡ as_written place content (as_touched from place self.old) }
    {
        self.touched = self.touched || from <= place;
        self.medium = content;
        self.medium_since = place;
    }

    /// Whether there lies something else in it than what observers see.
    pub fn differs(&self) -> bool
        ensures value { result ≡ differs self.now }
    {
        !same_ticket(self.seen.ticket, self.medium.ticket)
    }

    /// Whether there lay something else in it than what observers see, from a place before this one on.
    pub(crate) fn differed(&self, place: u64) -> bool
        ensures value { result ≡ (differs self.now && nat_lt self.now.medium_since place) }
    {
        self.differs() && self.medium_since < place
    }

    /// What observers see of it, up to this place.
    pub fn seen_span(&self, ended: Option<u64>) -> Span
        ensures value { result ≡ seen_span ended self.now }
    {
        Span {
            lba: self.lba,
            kind: SpanKind::Seen,
            content: self.seen,
            begun: self.seen_since,
            ended,
        }
    }

    /// What lies in it, up to this place.
    pub fn medium_span(&self, ended: Option<u64>) -> Span
        ensures value { result ≡ medium_span ended self.now }
    {
        Span {
            lba: self.lba,
            kind: SpanKind::Medium,
            content: self.medium,
            begun: self.medium_since,
            ended,
        }
    }
}
