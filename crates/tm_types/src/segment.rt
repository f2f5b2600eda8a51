//! Segments, and lists of them.
ghost use Rattle.std.specs.Prelude.{◌≡◌, ◌≤◌, ◌<◌, ◌+◌, ◌^◌, ◌↔◌, [], ◌∷◌, ◌++◌, length, replicate, slice_get, sum_by, IsTrue, IfOk, IfErr, IfSome, not, position, OnOk, OnErr};
ghost use Rattle.std.specs.Option.{option_copied};
ghost use Rattle.tm_types.specs.Segment.{IsSegmentText, are_printable, is_printable, counted_bytes, segment_length};
ghost use Rattle.tm_types.specs.SegmentRefused.{RefusesText};

use std::alloc::{AllocError, Global};
use std::marker::Model;
use thiserror::Error;

/// The most bytes that the text of a segment has.
pub const SEGMENT_LIMIT: usize = 1996;

/// Why a text is no segment.
#[derive(Debug, Drop, Error)]
pub enum SegmentRefused {
    /// The text is longer than 1,996 bytes; its length.
    #[error("a text of {0} bytes is longer than 1996")]
    TooLong(usize),
    /// The place, counted from 0, of the first byte that is not printable.
    #[error("the byte at place {0} is not printable")]
    BadByte(usize),
    /// There was no memory for a copy of it.
    #[error("no memory")]
    Memory,
}

/// The text of a segment: at most 1,996 bytes, each of them printable, from 32 to 126.
#[derive(Debug, Drop)]
pub struct Segment {
    text: Vec<u8>,
}

impl Model for Segment {
    ghost use Rattle.std.specs.Prelude.{ℕ, List};
    ghost use Rattle.tm_types.specs.Segment.{IsSegmentText};

    ghost Value = { List ℕ };

    ghost view = { λ s. s.text.items };

    ghost invariant = { λ s. IsSegmentText s.text.items };
}

impl Segment {
    /// The segment with this text.
    ///
    /// It is refused as `TooLong` where the text is longer than 1,996 bytes, else as `BadByte`
    /// where a byte isn't printable; `Memory` comes only for a text that is neither.
    #[tactic(auto, using(crate::proofs::Printable::printable_from_position))]
    pub fn make(alloc: Global, text: &[u8]) -> Result<Segment, SegmentRefused>
        ensures made { IfOk result (λ segment. segment ≡ text.now) }
        ensures refused { IfErr result (RefusesText text.now) }
        ensures valid { OnOk result (IsSegmentText text.now) }
    {
        if text.len() > SEGMENT_LIMIT {
            return Err(SegmentRefused::TooLong(text.len()));
        }
        if let Some(place) = first_unprintable(text) {
            return Err(SegmentRefused::BadByte(place));
        }
        match Vec::from_slice(alloc, text) {
            Ok(text) => Ok(Segment { text }),
            Err(_) => Err(SegmentRefused::Memory),
        }
    }

    /// The segment without a text. It takes no memory.
    pub fn empty(alloc: Global) -> Segment
        ensures { result ≡ [] }
    {
        Segment {
            text: Vec::new(alloc),
        }
    }

    /// The text of the segment.
    pub fn text(&self) -> &[u8]
        ensures value { result.now ≡ self.now }
        ensures valid { IsSegmentText self.now }
    {
        &self.text
    }
}

impl Segment {
    /// LL, the length that a segment counts: 4 more than its text.
    pub fn counted_length(&self) -> u64
        ensures { result ≡ segment_length self.now }
    {
        4 + self.text().len() as u64
    }
}

impl Clone for Segment {
    ghost is_clone = { λ segment copy. copy ≡ segment };

    fn clone(&self) -> Result<Segment, AllocError>
        ensures { IfOk result (λ copy. copy ≡ self.now) }
    {
        Ok(Segment {
            text: Vec::from_slice(*self.text.allocator(), &self.text)?,
        })
    }
}

/// The segment of a text that is one.
pub fn segment_of(alloc: Global, text: &[u8]) -> Result<Segment, AllocError>
    requires { IsSegmentText text.now }
    ensures { IfOk result (λ segment. segment ≡ text.now) }
{
    Ok(Segment {
        text: Vec::from_slice(alloc, text)?,
    })
}

/// The place of the first byte that isn't printable, counted from 0.
pub fn first_unprintable(text: &[u8]) -> Option<usize>
    ensures value { result ≡ position (λ b. not (is_printable b)) text.now }
    ensures within { IfSome result (λ place. place < length text.now) }
{
    text.iter().position(|&b| !is_printable(b))
}

/// Whether the byte is printable, from 32 to 126.
pub fn is_printable(b: u8) -> bool
    ensures { result ≡ is_printable b }
{
    b >= 32 && b <= 126
}

/// Whether each byte is printable, from 32 to 126.
pub fn are_printable(bytes: &[u8]) -> bool
    ensures { result ≡ are_printable bytes.now }
{
    bytes.iter().all(|&b| is_printable(b))
}

/// The segments of a message or reply, in order.
///
/// Empty texts at their end are only counted, so however many they are they take no memory.
#[derive(Debug, Drop)]
pub struct Segments {
    items: Vec<Segment>,
    /// How many empty texts stand behind the items.
    more: usize,
    /// The text of each of those. It takes no memory.
    empty: Segment,
}

impl Model for Segments {
    ghost use Rattle.std.specs.Prelude.{◌≡◌, ℕ, ◌+◌, ◌^◌, ◌<◌, List, [], ◌++◌, length, replicate};

    ghost Value = { List (List ℕ) };

    ghost view = { λ s. s.items.items ++ replicate s.more [] };

    ghost invariant = { λ s. (length s.items.items + s.more < 2 ^ 64) × (s.empty ≡ []) };
}

impl Segments {
    /// No segments. This takes no memory.
    pub fn new(alloc: Global) -> Segments
        ensures { result ≡ [] }
    {
        Segments {
            items: Vec::new(alloc),
            more: 0,
            empty: Segment::empty(alloc),
        }
    }

    /// Adds a segment at the end. Where there is no memory, none is added; an empty one takes none.
    pub fn push(&mut self, segment: Segment) -> Result<(), AllocError>
        ensures ok { OnOk result (self.new ≡ self.old ++ segment ∷ []) }
        ensures err { OnErr result (self.new ≡ self.old) }
    {
        if segment.text().is_empty() {
            return self.push_empty(1);
        }
        make_real(&mut self.items, &mut self.more)?;
        self.items.push(segment)?;
        Ok(())
    }

    /// Adds so many empty segments at the end. This takes no memory: it is refused only where there
    /// would be 2^64 segments or more.
    pub fn push_empty(&mut self, count: usize) -> Result<(), AllocError>
        ensures ok { OnOk result (self.new ≡ self.old ++ replicate count []) }
        ensures err { OnErr result (self.new ≡ self.old) }
        ensures full { OnErr result (2 ^ 64 ≤ length self.old + count) }
    {
        match self.len().checked_add(count) {
            Some(_) => {
                self.more += count;
                Ok(())
            }
            None => Err(AllocError),
        }
    }

    /// How many segments these are.
    pub fn len(&self) -> usize
        ensures { result ≡ length self.now }
    {
        self.items.len() + self.more
    }

    /// Whether there are none.
    pub fn is_empty(&self) -> bool
        ensures { IsTrue result ↔ (self.now ≡ []) }
    {
        self.len() == 0
    }

    /// The segment at this index, counted from 0.
    pub fn get(&self, index: usize) -> Option<&Segment>
        ensures { option_copied result ≡ slice_get self.now index }
    {
        if index < self.items.len() {
            self.items.get(index)
        } else if index < self.len() {
            Some(&self.empty)
        } else {
            None
        }
    }

    /// The bytes that a message or a reply with these segments counts: 48 plus the LLs.
    pub fn counted_bytes(&self) -> u64
        requires { counted_bytes self.now < 2 ^ 64 }
        ensures { result ≡ counted_bytes self.now }
    {
        48 + counted_lengths(&self.items) + 4 * self.more as u64
    }
}

impl Clone for Segments {
    ghost is_clone = { λ segments copy. copy ≡ segments };

    fn clone(&self) -> Result<Segments, AllocError>
        ensures { IfOk result (λ copy. copy ≡ self.now) }
    {
        Ok(Segments {
            items: self.items.clone()?,
            more: self.more,
            empty: Segment::empty(*self.items.allocator()),
        })
    }
}

/// The sum of the LLs.
fn counted_lengths(items: &[Segment]) -> u64
    requires { sum_by segment_length items.now < 2 ^ 64 }
    ensures { result ≡ sum_by segment_length items.now }
{
    items
        .iter()
        .map(|segment| segment.counted_length())
        .sum::<u64>()
}

/// Makes the empty texts behind the items items of their own. The list of all stays the same, also
/// where there is no memory for each.
fn make_real(items: &mut Vec<Segment>, more: &mut usize) -> Result<(), AllocError>
    ensures same { items.new.items ++ replicate more.new [] ≡ items.old.items ++ replicate more.old [] }
    ensures count { length items.new.items + more.new ≡ length items.old.items + more.old }
    ensures none { OnOk result (more.new ≡ 0) }
{
    while *more > 0 {
        items.push(Segment::empty(*items.allocator()))?;
        *more -= 1;
    }
    Ok(())
}
