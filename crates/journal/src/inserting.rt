//! One open unit among others.
ghost use Rattle.std.specs.Prelude.{◌≡◌, ◌≤◌, length, map, OnOk, OnErr};
ghost use Rattle.journal.specs.NumberedUnits.{numbered_unit, insert_unit, place_among_units};

use checkpointing::OpenUnit;
use tm_types::Memory;

/// The first place whose unit has a higher number than this.
fn place_in(number: u64, units: &[OpenUnit<'_>]) -> usize
    ensures value { result ≡ place_among_units number (map numbered_unit units.now) }
    ensures within { result ≤ length units.now }
{
    for (place, unit) in units.iter().enumerate() {
        if number < unit.number {
            return place;
        }
    }
    units.len()
}

/// Adds a unit to others that stand by their numbers. Want of memory changes nothing.
#[tactic(auto, using(crate::proofs::Standing::inserted))]
pub fn insert<'a>(units: &mut Vec<OpenUnit<'a>>, unit: OpenUnit<'a>) -> Result<(), Memory>
    ensures ok { OnOk result (map numbered_unit units.new.items ≡ insert_unit (numbered_unit unit.entry) (map numbered_unit units.old.items)) }
    ensures err { OnErr result (units.new.items ≡ units.old.items) }
{
    let place = place_in(unit.number, units);
    units.insert(place, unit)?;
    Ok(())
}
