//! The codes of a snapshot.
ghost use Rattle.std.specs.Prelude.{map, OnOk};
ghost use Rattle.model_machine.specs.Machine.{setting_of};
ghost use Rattle.checkpointing.specs.SnapshotRecords.{code_record};
ghost use Rattle.checkpointing.specs.SpelledRecords.{AddsSpelled};

use log_records::append_code;
use model_system::CodeState;
use tm_types::Memory;

// Appends the records of the codes. After `Memory` a part of them may be appended.
pub(crate) fn append_codes(out: &mut Vec<u8>, codes: &[CodeState]) -> Result<(), Memory>
    ensures { OnOk result (AddsSpelled (map code_record (map setting_of codes.now)) out.old.items out.new.items) }
{
    for code in codes {
        append_code(out, &code.code, code.stopped, code.class, code.priority)?;
    }
    Ok(())
}
