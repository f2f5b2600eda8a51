//! The record of the writes of a disk in memory. Of each write the bytes are kept without the zeros at its end, to within 16, and those of
//! all writes stand one behind the other: a write of a few bytes takes a few bytes, and asks for memory only where the record grows.
ghost use Rattle.std.specs.Prelude.{◌≡◌, ◌≤◌, ◌<◌, ◌+◌, IsTrue, IsFalse, length, take, replicate};
ghost use Rattle.tm_disk.specs.Record.{sector_of};

use crate::{SECTOR_BYTES, Sector};
use std::alloc::{AllocError, Global};
use std::marker::Model;

/// What came between a write and the one before it, as far as it changed what a crash may leave.
#[derive(Clone, Copy, Debug, Drop)]
pub enum Before {
    Nothing,
    Synced,
    Cut(u64),
}

/// A write that was made, or failed and may have been made: where it went, what came before it, and where its bytes stand.
#[derive(Clone, Copy, Drop)]
pub struct KeptWrite {
    at: u32,
    before: Before,
    start: usize,
    len: usize,
}

/// The writes in their order.
#[derive(Drop)]
pub struct Record {
    kept: Vec<KeptWrite>,
    bytes: Vec<u8>,
}

impl Model for Record {
    ghost use Rattle.std.specs.Prelude.{All, length, vec_capacity};
    ghost use Rattle.tm_disk.specs.Record.{Recorded, writes_of, StandsIn};

    ghost Value = { Recorded };

    ghost view = { λ r. record { items = writes_of r.bytes.items r.kept.items; room = vec_capacity r.kept; used = length r.bytes.items; byte_room = vec_capacity r.bytes } };

    ghost invariant = { λ r. All (StandsIn (length r.bytes.items)) r.kept.items };
}

// Whether a byte of them isn't zero.
fn has_any(bytes: &[u8]) -> bool
    ensures { IsFalse result → bytes.now ≡ replicate (length bytes.now) 0 }
{
    let mut any = 0;
    for byte in bytes {
        any |= *byte;
    }
    any != 0
}

// So many bytes of the first so many, or as many less as the step has, where these are zero.
fn shorter(bytes: &[u8], len: usize, step: usize) -> usize
    requires within { len ≤ length bytes.now }
    requires size { length bytes.now ≡ 4096 }
    requires zeros { sector_of (take len bytes.now) ≡ bytes.now }
    ensures within { result ≤ length bytes.now }
    ensures zeros { sector_of (take result bytes.now) ≡ bytes.now }
{
    if len < step || has_any(&bytes[len - step..len]) {
        return len;
    }
    len - step
}

// How many bytes of a sector are kept, so that those behind them are zero.
fn kept_len(sector: &Sector) -> usize
    ensures within { result ≤ 4096 }
    ensures zeros { sector_of (take result sector.now) ≡ sector.now }
{
    let bytes = sector.bytes();
    let mut len = SECTOR_BYTES;
    for step in [2048, 1024, 512, 256, 128, 64, 32, 16] {
        len = shorter(bytes, len, step);
    }
    len
}

impl Record {
    ghost use Rattle.std.specs.Prelude.{[], ◌∷◌, ◌++◌, ◌≡◌, ◌<◌, OnOk, OnErr, length, slice_index_or};
    ghost use Rattle.tm_disk.specs.Record.{Recorded, HasNoRoom, nothing_written};
    ghost use Rattle.tm_disk.specs.Written.{Written};

    /// No write. This takes no memory.
    pub fn new(alloc: Global) -> Record
        ensures { result.items ≡ [] }
    {
        Record {
            kept: Vec::new(alloc),
            bytes: Vec::new(alloc),
        }
    }

    /// How many writes it has.
    pub fn len(&self) -> usize
        ensures { result ≡ length self.now.items }
    {
        self.kept.len()
    }

    /// The sector to which the write at a place went.
    pub fn at(&self, place: usize) -> u32
        requires { place < length self.now.items }
        ensures { result ≡ (slice_index_or self.now.items place nothing_written).at }
    {
        self.kept[place].at
    }

    /// What the write at a place put there.
    pub fn content(&self, place: usize) -> Sector
        requires { place < length self.now.items }
        ensures { result ≡ (slice_index_or self.now.items place nothing_written).content }
    {
        let kept = self.kept[place];
        let mut sector = Sector::blank();
        sector.set(0, &self.bytes[kept.start..kept.start + kept.len]);
        sector
    }

    /// One write more. Without memory nothing changes.
    pub fn push(&mut self, at: u32, content: &Sector, before: Before) -> Result<(), AllocError>
        requires { length self.old.items < 262144 }
        ensures ok { OnOk result (self.new.items ≡ self.old.items ++ record { at = at; content = content.now; before = before } ∷ []) }
        ensures err { OnErr result (self.new.items ≡ self.old.items) }
        ensures growth { OnErr result (HasNoRoom self.old) }
    {
        self.kept.reserve(1)?;
        let len = kept_len(content);
        let start = self.bytes.len();
        self.bytes.extend_from_slice(&content.bytes()[..len])?;
        self.kept.push_reserved(KeptWrite {
            at,
            before,
            start,
            len,
        });
        Ok(())
    }
}
