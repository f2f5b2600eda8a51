//! The first restart sector.
ghost use Rattle.std.specs.Prelude.{◌≡◌, ◌<◌, ◌≤◌};
ghost use Rattle.restart_data.specs.Restart.{IsRestart};
ghost use Rattle.restart_data.specs.Snapshot.{snapshot_sectors_of};
ghost use Rattle.openings.specs.FirstImage.{IsFirstRestart};

use restart_data::RestartSector;

/// The first restart sector, for a snapshot and a text of so many bytes.
pub fn first_restart(snapshot: usize, text: u32) -> RestartSector
    requires some { 0 < snapshot }
    requires few { snapshot ≤ 8192 }
    requires text { text ≤ 262144 }
    ensures begins { IsFirstRestart result }
    ensures valid { IsRestart result }
    ensures sectors { result.sectors ≡ snapshot_sectors_of snapshot }
    ensures text { result.text ≡ text }
{
    RestartSector {
        epoch: 1,
        snapshot: 0,
        log: 0,
        sectors: snapshot.div_ceil(4064) as u32,
        sequence: 1,
        checkpoint: 1,
        text,
    }
}
