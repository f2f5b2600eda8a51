//! Each write that was made to a disk in memory, and its sectors by the numbers of these writes. So the bytes of a sector are kept
//! once, whatever is shown and synced. A sync and a cut only note that they came, so that neither takes memory.
ghost use Rattle.std.specs.Prelude.{◌≡◌, ◌+◌, ◌<◌, ◌≤◌, length};
ghost use Rattle.tm_disk.specs.Moments.{IsMomentSound};
ghost use Rattle.tm_disk.specs.NumberedSectors.{AreNumbers, image_by, made_by};

use crate::Sector;
use crate::images::{choose, take_over};
use crate::record::{Before, Record};
use std::alloc::{AllocError, Global};

/// How many writes the record holds.
pub const WRITES: usize = 262_144;

#[derive(Drop)]
pub struct Contents {
    // The number of the write that each sector shows, counted from 1, and 0 where it was never written.
    pub shown: Vec<u32>,
    // The same of what was synced last.
    pub synced: Vec<u32>,
    pub writes: Record,
    // How many of the writes are synced or cut off.
    pub settled: usize,
    // What came since the last write.
    pub pending: Before,
    // As many numbers as there are sectors, for a cut to count with.
    pub counts: Vec<u32>,
    ghost counts_size: { length counts.items ≡ length synced.items },
    ghost numbers: { AreNumbers shown.items synced.items writes.items settled },
    ghost sound: { IsMomentSound (image_by writes.items shown.items) (image_by writes.items synced.items) writes.items settled pending },
}

// What the write of a number made.
fn made(writes: &Record, number: u32) -> Sector
    requires { number ≤ length writes.now.items }
    ensures { result ≡ made_by writes.now.items number }
{
    if number == 0 {
        return Sector::blank();
    }
    writes.content(number as usize - 1)
}

impl Contents {
    ghost use Rattle.std.specs.Prelude.{[], ◌∷◌, ◌++◌, IfOk, OnOk, OnErr, IsTrue, ◌↔◌};
    ghost use Rattle.tm_disk.specs.Record.{HasNoRoom};
    ghost use Rattle.tm_disk.specs.Disk.{sector_at};
    ghost use Rattle.tm_disk.specs.Moments.{zero_disk, shown_of, after_write, settled_by};
    ghost use Rattle.tm_disk.specs.Contents.{contents_now, past_of, ContentsGoOn, StaysAt, Settles};
    ghost use Rattle.tm_disk.specs.declared.record.Before.TheVariants.{Synced, Cut};

    pub fn new(alloc: Global, sectors: u32) -> Result<Contents, AllocError>
        ensures now { IfOk result (λ c. contents_now c ≡ zero_disk sectors) }
        ensures past { IfOk result (λ c. past_of c ≡ []) }
        ensures empty { IfOk result (λ c. length c.writes.items ≡ 0) }
    {
        let size = sectors as usize;
        Ok(Contents {
            shown: vec![in alloc; 0; size]?,
            synced: vec![in alloc; 0; size]?,
            writes: Record::new(alloc),
            settled: 0,
            pending: Before::Nothing,
            counts: vec![in alloc; 0; size]?,
        })
    }

    pub fn size(&self) -> u32
        ensures { result ≡ length (contents_now self.now).synced }
    {
        self.synced.len() as u32
    }

    pub fn get(&self, at: u32) -> Sector
        requires { at < length (contents_now self.now).synced }
        ensures { result ≡ sector_at (shown_of (contents_now self.now).synced (contents_now self.now).since) at }
    {
        made(&self.writes, self.shown[at as usize])
    }

    pub fn is_full(&self) -> bool
        ensures { IsTrue result ↔ (length self.now.writes.items ≡ 262144) }
    {
        self.writes.len() == WRITES
    }

    pub fn write(&mut self, at: u32, content: &Sector) -> Result<(), AllocError>
        requires in_range { at < length (contents_now self.old).synced }
        requires room { length self.old.writes.items < 262144 }
        ensures ok { OnOk result (ContentsGoOn self.old self.new (after_write (record { at = at; content = content.now; before = self.old.pending }) (contents_now self.old))) }
        ensures count { OnOk result (length self.new.writes.items ≡ length self.old.writes.items + 1) }
        ensures err { OnErr result (StaysAt self.old self.new) }
        ensures same_count { OnErr result (length self.new.writes.items ≡ length self.old.writes.items) }
        ensures growth { OnErr result (HasNoRoom self.old.writes) }
    {
        self.writes.push(at, content, self.pending)?;
        self.shown[at as usize] = self.writes.len() as u32;
        self.pending = Before::Nothing;
        Ok(())
    }

    pub fn sync(&mut self)
        ensures settles { Settles Synced self.old self.new }
        ensures same_count { length self.new.writes.items ≡ length self.old.writes.items }
    {
        if let Before::Nothing = self.pending {
            take_over(&mut self.synced, &self.shown, &self.writes, self.settled);
            self.settled = self.writes.len();
            self.pending = Before::Synced;
        }
    }

    pub fn cut(&mut self, pick: u64)
        ensures settles { Settles (Cut pick) self.old self.new }
        ensures same_count { length self.new.writes.items ≡ length self.old.writes.items }
    {
        if let Before::Nothing = self.pending {
            choose(
                &mut self.synced,
                &mut self.counts,
                &self.writes,
                self.settled,
                pick,
            );
            take_over(&mut self.shown, &self.synced, &self.writes, self.settled);
            self.settled = self.writes.len();
            self.pending = Before::Cut(pick);
        }
    }
}
