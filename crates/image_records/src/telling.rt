//! The state that the records of a snapshot tell of.
ghost use Rattle.std.specs.Prelude.{◌≡◌, ◌++◌, ◌∷◌, [], true, false, filter, position, IfOk, OnOk};
ghost use Rattle.std.specs.Str.{bytes_eq};
ghost use Rattle.model_system.specs.Lists.{change_at};
ghost use Rattle.model_image.specs.Snapshot.{snapshot_state, with_record_told, with_records_told};
ghost use Rattle.image_records.specs.ChangeRecords.{AreNamesKept, tells_change, with_setting};

use crate::terminals::{add_reply, set_code, set_conversation, set_input, set_next};
use lasting_changes::empty_lasting;
use log_records::Record;
use model_machine::Lasting;
use model_messages::Conversation;
use std::alloc::Global;
use system_types::System;
use tm_types::{Memory, Message, Name, Segments};

/// What the records of a snapshot tell of: what lasts but for the rows, and the changes of open units.
#[derive(Debug, Drop)]
pub struct Told {
    pub lasting: Lasting,
    /// The records of changes, in their order.
    pub changes: Vec<Record>,
}

/// What these records, which are taken over, tell of behind the empty state. `Memory` is the only refusal.
pub fn tell_all(alloc: Global, system: &System, records: Vec<Record>) -> Result<Told, Memory>
    ensures lasting { IfOk result (λ told. told.lasting ≡ snapshot_state system.now records.items) }
    ensures changes { IfOk result (λ told. told.changes.items ≡ filter tells_change records.items) }
{
    let empty = empty_lasting(alloc, system)?;
    tell_behind(alloc, system, empty, records)
}

/// What these records tell of behind a state.
#[tactic(auto, using(crate::proofs::Taking::taking_steps))]
fn tell_behind(
    alloc: Global,
    system: &System,
    lasting: Lasting,
    records: Vec<Record>,
) -> Result<Told, Memory>
    requires { AreNamesKept system.now lasting }
    ensures lasting { IfOk result (λ told. told.lasting ≡ with_records_told records.items lasting) }
    ensures changes { IfOk result (λ told. told.changes.items ≡ filter tells_change records.items) }
{
    let mut lasting = lasting;
    let mut changes = Vec::new(alloc);
    for record in records {
        take_over(system, &mut lasting, &mut changes, record)?;
    }
    Ok(Told { lasting, changes })
}

#[tactic(auto, using(crate::proofs::Named::named_told))]
fn take_over(
    system: &System,
    lasting: &mut Lasting,
    changes: &mut Vec<Record>,
    r: Record,
) -> Result<(), Memory>
    requires { AreNamesKept system.now lasting.old }
    ensures lasting { OnOk result (lasting.new ≡ with_record_told r lasting.old) }
    ensures changes { OnOk result (changes.new.items ≡ changes.old.items ++ filter tells_change (r ∷ [])) }
    ensures named { OnOk result (AreNamesKept system.now lasting.new) }
{
    if is_change(&r) {
        changes.push(r)?;
        return Ok(());
    }
    tell(system, lasting, r)
}

fn is_change(r: &Record) -> bool
    ensures { result ≡ tells_change r.now }
{
    match r {
        Record::Change { .. } => true,
        _ => false,
    }
}

/// A record tells of the state.
fn tell(system: &System, lasting: &mut Lasting, r: Record) -> Result<(), Memory>
    requires { AreNamesKept system.now lasting.old }
    ensures { OnOk result (lasting.new ≡ with_record_told r lasting.old) }
{
    match r {
        Record::Checkpoint {
            next_id,
            lasting_steps,
            ..
        } => {
            lasting.next_id = next_id;
            lasting.steps = lasting_steps;
            Ok(())
        }
        Record::Terminal {
            terminal,
            last_input,
            next_output,
            stopped,
            conversation,
        } => {
            set_input(
                system,
                &mut lasting.terminals,
                &terminal,
                last_input,
                stopped,
            );
            set_next(system, &mut lasting.outputs, &terminal, next_output);
            set_conversation(system, &mut lasting.conversations, &terminal, conversation);
            Ok(())
        }
        Record::Code {
            code,
            stopped,
            class,
            priority,
        } => {
            tell_code(system, lasting, &code, stopped, class, priority);
            Ok(())
        }
        Record::Input {
            id,
            origin,
            code,
            conversation,
            segments,
            ..
        } => add_message(
            lasting,
            Message {
                id,
                origin,
                code,
                conversation,
                segments,
            },
        ),
        Record::Reply {
            terminal,
            number,
            segments,
            ..
        } => add_reply(system, &mut lasting.outputs, &terminal, number, segments),
        Record::Command { .. } => Ok(()),
        Record::Discarded { .. } => Ok(()),
        Record::Completed { .. } => Ok(()),
        Record::Acknowledged { .. } => Ok(()),
        Record::SyncPoint { .. } => Ok(()),
        Record::Change { .. } => Ok(()),
    }
}

fn tell_code(
    system: &System,
    lasting: &mut Lasting,
    name: &Name,
    stopped: bool,
    class: u8,
    priority: u8,
)
    requires { AreNamesKept system.now lasting.old }
    ensures { lasting.new ≡ record lasting.old { codes = change_at lasting.old.codes (position (λ code. bytes_eq code.code name.now) lasting.old.codes) (with_setting stopped class priority) } }
{
    set_code(system, &mut lasting.codes, name, stopped, class, priority);
}

fn add_message(lasting: &mut Lasting, message: Message) -> Result<(), Memory>
    ensures { OnOk result (lasting.new ≡ record lasting.old { messages = lasting.old.messages ++ message ∷ [] }) }
{
    lasting.messages.push(message)?;
    Ok(())
}
