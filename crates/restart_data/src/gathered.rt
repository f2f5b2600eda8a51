//! What is read of a snapshot, sector by sector.
ghost use Rattle.std.specs.Prelude.{◌≡◌, [], Ok, Err, OnOk, MatchOption};
ghost use Rattle.restart_data.specs.Snapshot.{lower_sector_fault, part_of, part_in, bytes_and_then};
ghost use Rattle.restart_data.specs.GatheredBytes.{so_far};

use crate::snapshot_sector::unseal;
use std::alloc::Global;
use tm_disk::Sector;
use tm_types::{Bytes, Memory};

/// A rule that is broken, and where.
#[derive(Clone, Copy)]
pub(crate) struct Broken {
    pub rule: u8,
    pub sector: u32,
}

/// The bytes of the sectors so far, and the lowest rule that one of them breaks, if any does.
#[derive(Drop)]
pub(crate) struct Gathered {
    pub bytes: Bytes,
    pub broken: Option<Broken>,
}

// The lower of what was broken so far, if anything was, and of what is broken next.
fn lower(broken: Option<Broken>, next: Broken) -> Broken
    ensures { MatchOption broken (result ≡ next) (λ first. (result.rule, result.sector) ≡ lower_sector_fault (first.rule, first.sector) (next.rule, next.sector)) }
{
    match broken {
        Some(first) if first.rule <= next.rule => first,
        _ => next,
    }
}

impl Gathered {
    /// Before the first sector.
    pub(crate) fn new(alloc: Global) -> Gathered
        ensures { so_far result ≡ Ok [] }
    {
        Gathered {
            bytes: Bytes::new(alloc),
            broken: None,
        }
    }

    /// Goes on with the sector `at`, which is that at a place of the snapshot of a checkpoint, with so many behind it.
    pub(crate) fn add(
        &mut self,
        sector: &Sector,
        checkpoint: u64,
        place: u32,
        behind: u32,
        at: u32,
    ) -> Result<(), Memory>
        ensures { OnOk result (so_far self.new ≡ bytes_and_then (so_far self.old) (part_in at (part_of behind checkpoint place sector.now))) }
    {
        match unseal(sector, checkpoint, place as u64, behind) {
            Ok(payload) => self.bytes.append(payload),
            Err(rule) => {
                self.broken = Some(lower(self.broken, Broken { rule, sector: at }));
                Ok(())
            }
        }
    }
}
