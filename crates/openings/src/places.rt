//! Where the areas of a system stand.
ghost use Rattle.std.specs.Prelude.{◌≤◌};
ghost use Rattle.openings.specs.ColdWrites.{ArePlacesOf};

use crate::laying_cold::Places;
use image_loading::{log_first, sectors_needed, snapshot_area, snapshot_first};
use system_types::System;

/// Where a cold start lays what on a disk of this system.
pub(crate) fn places(system: &System) -> Places
    ensures value { ArePlacesOf system.now result }
    ensures some { 3 ≤ result.area }
{
    let blanks = log_first(system, 0);
    Places {
        snapshot: snapshot_first(system, 0),
        area: snapshot_area(system),
        blanks,
        count: sectors_needed(system) - blanks,
    }
}
