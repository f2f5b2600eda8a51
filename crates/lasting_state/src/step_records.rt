//! The records of each step, told behind others where they fit the room.
ghost use Rattle.std.specs.Prelude.{◌≡◌, ◌≤◌, ◌++◌, ◌∷◌, [], length, take, IfErr, OnErr, OnOk};
ghost use Rattle.tm_types.specs.Commands as command_text;
ghost use Rattle.tm_types.specs.Name.{IsName};
ghost use Rattle.log_records.specs.declared.record.Record.TheVariants.{Input, Command, Acknowledged, Discarded, SyncPoint};
ghost use Rattle.log_records.specs.RecordSpelling.{IsCount, IsAbend};
ghost use Rattle.log_records.specs.ToldRecords.{AddsRecords, TellsInRoom, AreRecordsUntold};
ghost use Rattle.model_machine.specs.Machine.{LastingState};
ghost use Rattle.model_image.specs.StepRecords.{completion_records};
ghost use Rattle.lasting_state.specs.OutputRecords.{counted_completion};
ghost use Rattle.lasting_state.specs.RecordRanges.{HaveCounts, HasShortPad, number_in};

use crate::outputs::put_outputs;
use log_records::{
    Untold, append_acknowledged, append_command, append_completed, append_discarded, append_input,
    append_sync_point, end_telling,
};
use model_messages::{EndedMessage, PadChange};
use out_queues::Outputs;
use program_rows::Telling;
use std::alloc::Global;
use std::collections::VecDeque;
use tm_types::{AbendCode, LastingCommand, Memory, Name, Segments};

/// Tells a completion: the outputs of a message with this origin and id, that it is completed, and the sync point.
/// `Memory` is answered too where a number would have more than 64 bits.
pub fn tell_completion(
    terminals: &Outputs,
    next_id: u64,
    origin: &Name,
    id: u64,
    outputs: &VecDeque<EndedMessage>,
    pad: &PadChange,
    telling: &mut Telling,
) -> Result<(), Untold>
    requires counts { HaveCounts outputs.now.items }
    requires pad { HasShortPad pad.now }
    ensures told { OnOk result ((lasting : LastingState) → lasting.outputs ≡ terminals.now → lasting.next_id ≡ next_id → TellsInRoom (completion_records telling.old.unit origin.now id outputs.now.items lasting ++ SyncPoint telling.old.unit pad.now ∷ []) telling.old.room telling.old.told.items telling.new.told.items) }
    ensures untold { OnErr result (telling.new.told.items ≡ telling.old.told.items) }
    ensures place { telling.new ≡ record telling.old { told = telling.new.told } }
    ensures full { IfErr result (λ error. (lasting : LastingState) → lasting.outputs ≡ terminals.now → lasting.next_id ≡ next_id → AreRecordsUntold (completion_records telling.old.unit origin.now id outputs.now.items lasting ++ SyncPoint telling.old.unit pad.now ∷ []) telling.old.room error) }
{
    let start = telling.told.len();
    let written = put_completion(
        &mut telling.told,
        telling.unit,
        terminals,
        next_id,
        origin,
        id,
        outputs,
        pad,
    );
    end_telling(&mut telling.told, start, telling.room, written)
}

fn put_completion(
    out: &mut Vec<u8>,
    unit: u64,
    terminals: &Outputs,
    next_id: u64,
    origin: &Name,
    id: u64,
    outputs: &VecDeque<EndedMessage>,
    pad: &PadChange,
) -> Result<(), Memory>
    requires counts { HaveCounts outputs.now.items }
    requires pad { HasShortPad pad.now }
    ensures adds { OnOk result (AddsRecords (counted_completion unit origin.now id outputs.now.items pad.now terminals.now next_id) out.old.items out.new.items) }
    ensures kept { OnErr result (take (length out.old.items) out.new.items ≡ out.old.items) }
{
    put_outputs(out, unit, terminals, next_id, origin, outputs)?;
    append_completed(out, unit, id)?;
    append_sync_point(out, unit, pad)
}

/// Tells that a message is discarded after an abend; the reply of this number tells its origin so.
#[tactic(auto, using(log_records::proofs::Told::one_told))]
pub fn tell_discarded(
    id: u64,
    abend: AbendCode,
    number: u64,
    telling: &mut Telling,
) -> Result<(), Untold>
    requires { IsAbend abend.number }
    ensures told { OnOk result (TellsInRoom (Discarded telling.old.unit id abend number ∷ []) telling.old.room telling.old.told.items telling.new.told.items) }
    ensures untold { OnErr result (telling.new.told.items ≡ telling.old.told.items) }
    ensures place { telling.new ≡ record telling.old { told = telling.new.told } }
    ensures full { IfErr result (AreRecordsUntold (Discarded telling.old.unit id abend number ∷ []) telling.old.room) }
{
    let start = telling.told.len();
    let written = append_discarded(&mut telling.told, telling.unit, id, abend, number);
    end_telling(&mut telling.told, start, telling.room, written)
}

/// Tells a command that lasts.
#[tactic(auto, using(crate::proofs::RecordLimits::commands_short))]
pub fn tell_command(
    alloc: Global,
    command: &LastingCommand,
    telling: &mut Telling,
) -> Result<(), Untold>
    ensures told { OnOk result (TellsInRoom (Command (command_text.command_spelling command.now) ∷ []) telling.old.room telling.old.told.items telling.new.told.items) }
    ensures untold { OnErr result (telling.new.told.items ≡ telling.old.told.items) }
    ensures place { telling.new ≡ record telling.old { told = telling.new.told } }
    ensures full { IfErr result (AreRecordsUntold (Command (command_text.command_spelling command.now) ∷ []) telling.old.room) }
    ensures named { IsName (command_text.name_in command.now) }
{
    let _name = name_in(command).as_bytes();
    let _number = number_in(command);
    let mut text = Vec::with_capacity(alloc, 80)?;
    command.write(&mut text)?;
    tell_text(&text, telling)
}

#[tactic(auto, using(log_records::proofs::Told::one_told))]
fn tell_text(text: &[u8], telling: &mut Telling) -> Result<(), Untold>
    requires { length text.now ≤ 80 }
    ensures told { OnOk result (TellsInRoom (Command text.now ∷ []) telling.old.room telling.old.told.items telling.new.told.items) }
    ensures untold { OnErr result (telling.new.told.items ≡ telling.old.told.items) }
    ensures place { telling.new ≡ record telling.old { told = telling.new.told } }
    ensures full { IfErr result (AreRecordsUntold (Command text.now ∷ []) telling.old.room) }
{
    let start = telling.told.len();
    let written = append_command(&mut telling.told, text);
    end_telling(&mut telling.told, start, telling.room, written)
}

/// The code or terminal that a command names.
fn name_in(command: &LastingCommand) -> &Name
    ensures { result.now ≡ command_text.name_in command.now }
{
    match command {
        LastingCommand::StartTransaction(code) => code,
        LastingCommand::StopTransaction(code) => code,
        LastingCommand::StartTerminal(terminal) => terminal,
        LastingCommand::StopTerminal(terminal) => terminal,
        LastingCommand::DequeueFirst(terminal) => terminal,
        LastingCommand::DequeueAll(terminal) => terminal,
        LastingCommand::Exit(terminal) => terminal,
        LastingCommand::AssignClass(code, _) => code,
        LastingCommand::AssignPriority(code, _) => code,
    }
}

/// The class or the priority that a command assigns, and 0 where it assigns none.
fn number_in(command: &LastingCommand) -> u8
    ensures { result ≡ number_in command.now }
{
    match command {
        LastingCommand::AssignClass(_, class) => *class,
        LastingCommand::AssignPriority(_, priority) => *priority,
        _ => 0,
    }
}

/// Tells an input as it is kept.
#[tactic(auto, using(log_records::proofs::Told::one_told))]
pub fn tell_input(
    id: u64,
    terminal: &Name,
    code: &Name,
    number: u64,
    conversation: bool,
    segments: &Segments,
    telling: &mut Telling,
) -> Result<(), Untold>
    requires { IsCount segments.now }
    ensures told { OnOk result (TellsInRoom (Input 0 id terminal.now code.now number conversation segments.now ∷ []) telling.old.room telling.old.told.items telling.new.told.items) }
    ensures untold { OnErr result (telling.new.told.items ≡ telling.old.told.items) }
    ensures place { telling.new ≡ record telling.old { told = telling.new.told } }
    ensures full { IfErr result (AreRecordsUntold (Input 0 id terminal.now code.now number conversation segments.now ∷ []) telling.old.room) }
{
    let start = telling.told.len();
    let written = append_input(
        &mut telling.told,
        0,
        id,
        terminal,
        code,
        number,
        conversation,
        segments,
    );
    end_telling(&mut telling.told, start, telling.room, written)
}

/// Tells that a reply is acknowledged.
#[tactic(auto, using(log_records::proofs::Told::one_told))]
pub fn tell_acknowledged(terminal: &Name, number: u64, telling: &mut Telling) -> Result<(), Untold>
    ensures told { OnOk result (TellsInRoom (Acknowledged terminal.now number ∷ []) telling.old.room telling.old.told.items telling.new.told.items) }
    ensures untold { OnErr result (telling.new.told.items ≡ telling.old.told.items) }
    ensures place { telling.new ≡ record telling.old { told = telling.new.told } }
    ensures full { IfErr result (AreRecordsUntold (Acknowledged terminal.now number ∷ []) telling.old.room) }
{
    let start = telling.told.len();
    let written = append_acknowledged(&mut telling.told, terminal, number);
    end_telling(&mut telling.told, start, telling.room, written)
}
