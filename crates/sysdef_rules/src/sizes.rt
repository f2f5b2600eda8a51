//! The rules on the sectors of a disk and of its log areas.
ghost use Rattle.std.specs.Prelude.{◌≡◌, ◌+◌, ◌*◌, ◌≤◌, length};
ghost use Rattle.sysdef_rules.specs.DiskSizes as spec;

use crate::lookups::{MacroKind, count};
use system_types::{Macro, MacroLine};

/// The bytes of the queues and the sectors of a log area, as IMSCTRL has them, the first macro.
pub fn control_in(lines: &[MacroLine]) -> (u32, u32)
    ensures { result ≡ spec.control_in lines.now }
{
    match lines {
        [first, ..] => control_of(&first.content),
        [] => (0, 0),
    }
}

fn control_of(content: &Macro) -> (u32, u32)
    ensures { result ≡ spec.control_of content.now }
{
    match content {
        Macro::Control { qbytes, logs } => (*qbytes, *logs),
        _ => (0, 0),
    }
}

fn larger_slot(most: u8, content: &Macro) -> u8
    ensures { result ≡ spec.larger_slot most content.now }
{
    match content {
        Macro::Database { sectors, .. } => most.max(*sectors),
        _ => most,
    }
}

/// The most sectors that a slot of a database has, 1 where there is no database.
fn largest_slot(lines: &[MacroLine]) -> u8
    ensures { result ≡ spec.largest_slot 1 lines.now }
{
    let mut most = 1;
    for line in lines {
        most = larger_slot(most, &line.content);
    }
    most
}

fn slot_sectors(content: &Macro) -> u32
    ensures value { result ≡ spec.slot_sectors content.now }
    ensures most { result ≤ 16711425 }
{
    match content {
        Macro::Database { roots, sectors, .. } => u32::from(*roots) * u32::from(*sectors),
        _ => 0,
    }
}

/// The sectors of all slots of the databases.
fn data_sectors(lines: &[MacroLine]) -> u128
    ensures value { result ≡ spec.data_sectors lines.now }
    ensures most { result ≤ 16711425 * length lines.now }
{
    let mut sectors = 0;
    for line in lines {
        sectors += u128::from(slot_sectors(&line.content));
    }
    sectors
}

/// The sectors of a snapshot area.
fn area_sectors(qbytes: u32, most: u8, regions: usize) -> u128
    ensures value { result ≡ spec.area_sectors qbytes most regions }
    ensures most { result ≤ 4294967296 + 66846720 * regions }
{
    let units = 262_144 * u128::from(most) * regions as u128;
    (u128::from(qbytes) + units + 131_072 + 4063) / 4064
}

/// The sectors that a disk has to have.
fn disk_sectors(lines: &[MacroLine]) -> u128
    ensures { result ≡ spec.disk_sectors lines.now }
{
    let (qbytes, logs) = control_in(lines);
    let area = area_sectors(
        qbytes,
        largest_slot(lines),
        count(MacroKind::Regions, lines),
    );
    65 + 2 * area + 2 * u128::from(logs) + data_sectors(lines)
}

#[tactic(auto, unfolding(crate::specs::DiskSizes::breaks_size))]
pub(crate) fn breaks_size(all: &[MacroLine], content: &Macro, behind: &[MacroLine]) -> bool
    ensures { result ≡ spec.breaks_size all.now content.now behind.now }
{
    match content {
        Macro::Database { .. } => {
            count(MacroKind::Databases, behind) == 0 && 65_536 < disk_sectors(all)
        }
        _ => false,
    }
}

#[tactic(auto, unfolding(crate::specs::DiskSizes::breaks_logs))]
pub(crate) fn breaks_logs(all: &[MacroLine], content: &Macro) -> bool
    ensures { result ≡ spec.breaks_logs all.now content.now }
{
    match content {
        Macro::Control { logs, .. } => *logs < 64 * u32::from(largest_slot(all)),
        _ => false,
    }
}
