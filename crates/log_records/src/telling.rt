//! Records behind others, where they fit.
ghost use Rattle.std.specs.Prelude.{◌≡◌, ◌≤◌, ◌-◌, length, take, Err, OnOk, OnErr, IfErr};
ghost use Rattle.log_records.specs.declared.untold.Untold.TheVariants.{Memory as NoMemory};
ghost use Rattle.log_records.specs.ToldRecords.{AreRecordsTooLong};

use crate::untold::Untold;
use tm_types::Memory;

/// Ends what is told from `start` on: it stays where it was written whole and has at most `room` bytes, and goes else.
pub fn end_telling(
    told: &mut Vec<u8>,
    start: usize,
    room: usize,
    written: Result<(), Memory>,
) -> Result<(), Untold>
    requires { start ≤ length told.old.items }
    ensures told { OnOk result (told.new.items ≡ told.old.items) }
    ensures fits { OnOk result (length told.old.items - start ≤ room) }
    ensures gone { OnErr result (told.new.items ≡ take start told.old.items) }
    ensures full { IfErr result (AreRecordsTooLong (length told.old.items - start) room) }
    ensures unwritten { OnErr written (result ≡ Err NoMemory) }
{
    let ended = fits(told.len() - start, room, written);
    if ended.is_err() {
        told.truncate(start);
    }
    ended
}

// Whether bytes that were written whole are at most as many as `room`.
fn fits(bytes: usize, room: usize, written: Result<(), Memory>) -> Result<(), Untold>
    ensures fits { OnOk result (bytes ≤ room) }
    ensures full { IfErr result (AreRecordsTooLong bytes room) }
    ensures unwritten { OnErr written (result ≡ Err NoMemory) }
{
    written?;
    if bytes > room {
        return Err(Untold::Full);
    }
    Ok(())
}
