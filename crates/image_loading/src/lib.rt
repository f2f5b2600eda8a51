//! Where the areas of a system's disk stand, and its databases, loaded from their sectors and from what their slots are
//! given.
//!
//! The restart sector, 64 sectors of the definition's text, two areas for snapshots, two for logs and the sectors of
//! each slot of each database follow each other. Their lengths come from the definition alone (specs/Areas of
//! `model_system`), and a checked system's limits keep each place small.
//!
//! Proved: a database is loaded with each record in its slot: from the bytes that are given for a slot, and else from
//! its sectors, each of which is read once. It is refused by the lowest rule that is broken, and of it by the lowest
//! sector; over all databases it is the lowest of any, so each is loaded also where one before it breaks a rule. Nothing
//! is written by that. Given slots are written, each with its bytes (`writing`); whenever a crash comes each such sector
//! is as before or has its part of them.
#![tactic(auto)]

mod building;
mod databases;
mod fault;
mod judging;
mod loading;
mod reading;
mod rows;
mod slots;
mod writing;

ghost use Rattle.std.specs.Prelude.{◌≡◌, ◌*◌, ◌≤◌, length, sum_by};
ghost use Rattle.model_system.specs.Areas as areas;

pub use databases::{Loaded, load_all};
pub use fault::LoadFault;
pub use judging::image_of;
pub use loading::load;
pub use slots::Slots;
use system_types::System;
use tm_types::Dbd;
pub use writing::write_slots;

// The most sectors that a slot of these databases has, 1 where there is none.
fn most_of(databases: &[Dbd]) -> u8
    ensures { result ≡ areas.most_sectors_from 1 databases.now }
{
    let mut most = 1;
    for dbd in databases {
        most = most.max(dbd.sectors);
    }
    most
}

/// The most sectors that a slot has, 1 where there is no database.
#[tactic(auto, using(crate::proofs::MostSectors::most_few, crate::proofs::MostSectors::most_some))]
pub fn most_sectors(system: &System) -> u8
    ensures value { result ≡ areas.most_sectors system.now }
    ensures some { 1 ≤ result }
    ensures small { result ≤ 8 }
{
    most_of(system.databases())
}

/// Whether each slot has one sector.
pub fn is_single(system: &System) -> bool
    ensures { result ≡ areas.is_single system.now }
{
    most_sectors(system) <= 1
}

/// How many sectors each snapshot area has.
pub fn snapshot_area(system: &System) -> u32
    ensures value { result ≡ areas.snapshot_area system.now }
    ensures small { result ≤ 6225 }
{
    let regions = system.regions().len() as u32;
    let most = u32::from(most_sectors(system));
    (system.qbytes() + 262_144 * most * regions + 131_072 + 4063) / 4064
}

/// The first sector of a snapshot area, 0 or 1.
pub fn snapshot_first(system: &System, area: u8) -> u32
    requires { area ≤ 1 }
    ensures value { result ≡ areas.snapshot_first system.now area }
    ensures small { result ≤ 6290 }
{
    65 + u32::from(area) * snapshot_area(system)
}

/// The first sector of a log area, 0 or 1, and with 2 the first behind both.
pub fn log_first(system: &System, area: u8) -> u32
    requires { area ≤ 2 }
    ensures value { result ≡ areas.log_first system.now area }
    ensures small { result ≤ 16611 }
{
    let logs = system.logs();
    65 + 2 * snapshot_area(system) + u32::from(area) * logs
}

/// The first sector of the first database's slots.
pub fn data_first(system: &System) -> u32
    ensures value { result ≡ areas.data_first system.now 0 }
    ensures small { result ≤ 16611 }
{
    log_first(system, 2)
}

// How many sectors the slots of these databases have in all.
fn all_sectors(databases: &[Dbd]) -> u32
    requires few { length databases.now ≤ 8 }
    ensures value { result ≡ sum_by (λ dbd. dbd.roots * dbd.sectors) databases.now }
    ensures small { result ≤ 133693440 }
{
    let mut sectors: u32 = 0;
    for dbd in databases {
        sectors += u32::from(dbd.roots) * u32::from(dbd.sectors);
    }
    sectors
}

/// How many sectors a disk of the system has at least.
pub fn sectors_needed(system: &System) -> u32
    ensures value { result ≡ areas.sectors_needed system.now }
    ensures small { result ≤ 65536 }
{
    data_first(system) + all_sectors(system.databases())
}
