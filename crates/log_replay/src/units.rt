//! The units of a log.
ghost use Rattle.std.specs.Prelude.{◌≡◌, ◌-◌, max};
ghost use Rattle.model_image.specs.Counters.{greatest_unit, unit_of_record};

use log_records::Record;

/// The last unit of a snapshot's count and of these records.
pub fn last_unit(next_unit: u64, records: &[Record]) -> u64
    ensures { result ≡ max (next_unit - 1) (greatest_unit records.now) }
{
    let mut last = next_unit.saturating_sub(1);
    for r in records {
        last = last.max(unit_of(r));
    }
    last
}

/// The unit of a record; 0 is none.
fn unit_of(r: &Record) -> u64
    ensures { result ≡ unit_of_record r.now }
{
    match r {
        Record::Input { unit, .. } => *unit,
        Record::Reply { unit, .. } => *unit,
        Record::Discarded { unit, .. } => *unit,
        Record::Completed { unit, .. } => *unit,
        Record::SyncPoint { unit, .. } => *unit,
        Record::Change { unit, .. } => *unit,
        _ => 0,
    }
}
