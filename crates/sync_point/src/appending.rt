//! Records, appended to the log.
ghost use Rattle.std.specs.Prelude.{◌≡◌, ◌≤◌, length, OnOk, OnErr};
ghost use Rattle.log_writer.specs.ForcedLog.{room_of};
ghost use Rattle.sync_point.specs.Unit.{with_bytes_appended};

use crate::unit_records::{Abended, Finished};
use log_writer::LogWriter;
use tm_types::Memory;

/// Appends the records of a completion to the log, behind what was appended before. There must be room for them. Nothing is
/// written until the log is forced; want of memory changes nothing.
pub fn commit(log: &mut LogWriter, work: &Finished) -> Result<(), Memory>
    requires room { length work.now ≤ room_of log.old }
    ensures ok { OnOk result (log.new ≡ with_bytes_appended work.now log.old) }
    ensures err { OnErr result (log.new ≡ log.old) }
{
    log.append(work.bytes())
}

/// Appends the record of a discarded message to the log, behind what was appended before. There must be room for it. Nothing is
/// written until the log is forced; want of memory changes nothing.
pub fn abend(log: &mut LogWriter, work: &Abended) -> Result<(), Memory>
    requires room { length work.now ≤ room_of log.old }
    ensures ok { OnOk result (log.new ≡ with_bytes_appended work.now log.old) }
    ensures err { OnErr result (log.new ≡ log.old) }
{
    log.append(work.bytes())
}
