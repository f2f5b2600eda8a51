//! The numbers of the regions' units.
ghost use Rattle.std.specs.Prelude.{◌≡◌, ◌+◌, ◌-◌, ◌<◌, ◌^◌, drop, slice_set};
ghost use Rattle.journal.specs.UnitNumbers.{unit_of_region, with_unit, without_units, units_after, next_after};

use model_data::Victim;
use model_machine::Turned;

/// The number of a region's unit.
pub fn unit_of(units: &[u64], region: u32) -> u64
    ensures { result ≡ unit_of_region units.now region }
{
    match units.get(region.saturating_sub(1) as usize) {
        Some(unit) => *unit,
        None => 0,
    }
}

/// Notes what a region's turn is to the numbers of the units.
pub fn note_units(units: &mut Vec<u64>, next: &mut u64, region: u32, turned: &Turned)
    requires { next.old < 2 ^ 63 }
    ensures units { units.new.items ≡ units_after turned.now region next.old units.old.items }
    ensures next { next.new ≡ next_after turned.now next.old }
{
    match turned {
        Turned::Scheduled(_, _) => take_number(units, next, region),
        Turned::Next(_, _, _) => take_number(units, next, region),
        Turned::QC(_, _) => set_unit(units, region, 0),
        Turned::Done(_, _) => set_unit(units, region, 0),
        Turned::Abended(_, _, _) => set_unit(units, region, 0),
        Turned::Called(_, _, _) => {}
        Turned::Idle => {}
        Turned::Held(_, _) => {}
        Turned::Waits(_, _) => {}
        Turned::Backed(victims) => leave_all(units, victims.as_slice()),
    }
}

/// The region's unit has the next number.
fn take_number(units: &mut Vec<u64>, next: &mut u64, region: u32)
    requires { next.old < 2 ^ 63 }
    ensures units { units.new.items ≡ with_unit region next.old units.old.items }
    ensures next { next.new ≡ next.old + 1 }
{
    set_unit(units, region, *next);
    *next += 1;
}

/// The region's unit has this number.
fn set_unit(units: &mut Vec<u64>, region: u32, unit: u64)
    ensures { units.new.items ≡ with_unit region unit units.old.items }
{
    let place = region.saturating_sub(1) as usize;
    if place < units.len() {
        units[place] = unit;
    }
}

/// The units of victims have no number.
fn leave_all(units: &mut Vec<u64>, victims: &[Victim])
    ensures { units.new.items ≡ without_units victims.now units.old.items }
{
    for victim in victims {
        set_unit(units, victim.region, 0);
    }
}
