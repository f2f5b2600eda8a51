//! How a machine with its log is opened.
ghost use Rattle.std.specs.Prelude.{◌≡◌, ◌≤◌, length, replicate, IfOk, IfErr};
ghost use Rattle.model_system.specs.Areas.{sectors_needed};
ghost use Rattle.checkpointing.specs.Counts.{RaisesCounts};
ghost use Rattle.tm_disk.specs.Disk.{Only, Within};
ghost use Rattle.model_machine.specs.Machine.{empty_state, start_of};
ghost use Rattle.journal.proofs.Openings.{no_units};
ghost use Rattle.logged_machine.specs.LoggedState.{LastsNow};
ghost use Rattle.logged_machine.specs.OpenedMachine.{OpensMachine};
ghost use Rattle.openings.specs.LifeBeginning.{HandsBack};

use crate::logged::LoggedMachine;
use crate::open;
use crate::refused::OpenRefused;
use image_loading::sectors_needed;
use model_machine::Lasting;
use openings::{How, OpenError};
use std::alloc::Global;
use system_types::System;
use tm_disk::Disk;
use tm_machine::Parts;
use tm_types::{Bytes, Memory};

impl<D: Disk> LoggedMachine<D> {
    /// Opens the machine of this system, whose definition has this text, with what the disk has, or cold. The size of the
    /// disk is looked at before anything wants memory.
    pub fn open(
        alloc: Global,
        disk: D,
        system: System,
        text: Bytes,
        how: How,
    ) -> Result<(LoggedMachine<D>, Lasting), OpenRefused<D>>
        requires text { length text ≤ 262144 }
        requires only { Only (D.state disk).shown (D.state disk) }
        ensures opened { IfOk result (λ opened. OpensMachine D.state how system text disk opened.0 opened.1) }
        ensures lasts { IfOk result (λ opened. LastsNow D.state opened.0) }
        // Where no counter is above a bound, none of what a crash leaves is more than one above it.
        ensures counts { IfOk result (λ opened. Within (RaisesCounts 1 system) (D.state disk) (D.state opened.0.disk)) }
        ensures counts_back { IfErr result (λ refused. Within (RaisesCounts 1 system) (D.state disk) (D.state refused.disk)) }
        ensures refused { IfErr result (λ refused. HandsBack D.state how system text disk refused.error refused.disk refused.system refused.text) }
    {
        let needed = sectors_needed(&system);
        let has = disk.sectors();
        if has < needed {
            return Err(OpenRefused {
                error: OpenError::TooSmall(needed, has),
                disk,
                system,
                text,
            });
        }
        match Parts::new(alloc, system) {
            Ok(parts) => open_parts(alloc, disk, parts, text, how),
            Err(system) => Err(OpenRefused {
                error: OpenError::Memory,
                disk,
                system,
                text,
            }),
        }
    }
}

/// The same with parts that are new.
fn open_parts<D: Disk>(
    alloc: Global,
    disk: D,
    parts: Parts,
    text: Bytes,
    how: How,
) -> Result<(LoggedMachine<D>, Lasting), OpenRefused<D>>
    requires text { length text ≤ 262144 }
    requires only { Only (D.state disk).shown (D.state disk) }
    requires fresh { parts.moment ≡ start_of parts.system (empty_state parts.system) }
    requires size { sectors_needed parts.system ≤ (D.state disk).size }
    ensures opened { IfOk result (λ opened. OpensMachine D.state how parts.system text disk opened.0 opened.1) }
    ensures lasts { IfOk result (λ opened. LastsNow D.state opened.0) }
    ensures counts { IfOk result (λ opened. Within (RaisesCounts 1 parts.system) (D.state disk) (D.state opened.0.disk)) }
    ensures counts_back { IfErr result (λ refused. Within (RaisesCounts 1 parts.system) (D.state disk) (D.state refused.disk)) }
    ensures refused { IfErr result (λ refused. HandsBack D.state how parts.system text disk refused.error refused.disk refused.system refused.text) }
{
    let Ok(units) = without_units(alloc, parts.system().regions().len()) else {
        return Err(OpenRefused {
            error: OpenError::Memory,
            disk,
            system: parts.into_system(),
            text,
        });
    };
    let mut disk = disk;
    let mut parts = parts;
    match open(alloc, &mut disk, &mut parts, text.as_slice(), how) {
        Ok((journal, next_unit, lasting)) => Ok((
            LoggedMachine {
                alloc,
                parts,
                journal,
                disk,
                text,
                units,
                next_unit,
                served: true,
                forced: lasting.steps,
            },
            lasting,
        )),
        Err(error) => Err(OpenRefused {
            error,
            disk,
            system: parts.into_system(),
            text,
        }),
    }
}

/// So many regions, none with a unit.
fn without_units(alloc: Global, count: usize) -> Result<Vec<u64>, Memory>
    ensures { IfOk result (λ units. units.items ≡ no_units count) }
{
    let mut units = Vec::with_capacity(alloc, count)?;
    for _place in 0..count {
        units.push(0)?;
    }
    Ok(units)
}
