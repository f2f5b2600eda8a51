//! Ids of messages by names: by the messages' codes, and those of conversations by their terminals.
ghost use Rattle.std.specs.Prelude.{◌≡◌, None, OnOk, OnErr};
ghost use Rattle.std.specs.Ordering.{nat_cmp};
ghost use Rattle.std.specs.Cmp.Lexicographic.{slice_cmp};
ghost use Rattle.std.specs.BTreeMap.{get};
ghost use Rattle.msg_queues.specs.Places.{IsIdBehind, with_id, with_flag, without_id, first_open, unheld_count, any_held_id};
ghost use Rattle.msg_queues.specs.Index.{of_name, when, ChangesName, KeepsNames};

use crate::id_queue::IdQueue;
use std::alloc::Global;
use std::collections::BTreeMap;
use tm_types::{Memory, Message, Name};

/// Adds a message, which no region has, behind all others of its code, and where it belongs to a conversation behind those of its
/// terminal's. After `Memory` all is as it was.
pub fn put(
    by_code: &mut BTreeMap<Name, IdQueue>,
    by_terminal: &mut BTreeMap<Name, IdQueue>,
    alloc: Global,
    message: &Message,
) -> Result<(), Memory>
    requires code { IsIdBehind message.now.id (of_name message.now.code by_code.old.entries) }
    requires terminal { IsIdBehind message.now.id (of_name message.now.origin by_terminal.old.entries) }
    ensures code { OnOk result (ChangesName message.now.code (with_id message.now.id) by_code.old.entries by_code.new.entries) }
    ensures terminal { OnOk result (ChangesName message.now.origin (when message.now.conversation (with_id message.now.id)) by_terminal.old.entries by_terminal.new.entries) }
    ensures code_err { OnErr result (KeepsNames by_code.old.entries by_code.new.entries) }
    ensures terminal_err { OnErr result (KeepsNames by_terminal.old.entries by_terminal.new.entries) }
{
    push(by_code, alloc, &message.code, message.id)?;
    match push_conversing(by_terminal, alloc, message) {
        Ok(()) => Ok(()),
        Err(_) => {
            remove(by_code, &message.code, message.id);
            Err(Memory)
        }
    }
}

/// Removes a message.
pub fn take(
    by_code: &mut BTreeMap<Name, IdQueue>,
    by_terminal: &mut BTreeMap<Name, IdQueue>,
    message: &Message,
)
    ensures code { ChangesName message.now.code (without_id message.now.id) by_code.old.entries by_code.new.entries }
    ensures terminal { ChangesName message.now.origin (when message.now.conversation (without_id message.now.id)) by_terminal.old.entries by_terminal.new.entries }
{
    remove(by_code, &message.code, message.id);
    remove_conversing(by_terminal, message);
}

fn push_conversing(
    by_terminal: &mut BTreeMap<Name, IdQueue>,
    alloc: Global,
    message: &Message,
) -> Result<(), Memory>
    requires { IsIdBehind message.now.id (of_name message.now.origin by_terminal.old.entries) }
    ensures ok { OnOk result (ChangesName message.now.origin (when message.now.conversation (with_id message.now.id)) by_terminal.old.entries by_terminal.new.entries) }
    ensures err { OnErr result (KeepsNames by_terminal.old.entries by_terminal.new.entries) }
{
    if !message.conversation {
        return Ok(());
    }
    push(by_terminal, alloc, &message.origin, message.id)
}

fn remove_conversing(by_terminal: &mut BTreeMap<Name, IdQueue>, message: &Message)
    ensures { ChangesName message.now.origin (when message.now.conversation (without_id message.now.id)) by_terminal.old.entries by_terminal.new.entries }
{
    if !message.conversation {
        return;
    }
    remove(by_terminal, &message.origin, message.id);
}

// Adds an id, which isn't held, behind all others of the name.
fn push(
    by_name: &mut BTreeMap<Name, IdQueue>,
    alloc: Global,
    name: &Name,
    id: u64,
) -> Result<(), Memory>
    requires { IsIdBehind id (of_name name.now by_name.old.entries) }
    ensures ok { OnOk result (ChangesName name.now (with_id id) by_name.old.entries by_name.new.entries) }
    ensures err { OnErr result (KeepsNames by_name.old.entries by_name.new.entries) }
{
    match by_name.get_mut(name) {
        Some(queue) => queue.push(id),
        None => add_name(by_name, alloc, *name, id),
    }
}

// Adds a name with one id.
fn add_name(
    by_name: &mut BTreeMap<Name, IdQueue>,
    alloc: Global,
    name: Name,
    id: u64,
) -> Result<(), Memory>
    requires { get (slice_cmp nat_cmp) by_name.old name ≡ None }
    ensures ok { OnOk result (ChangesName name (with_id id) by_name.old.entries by_name.new.entries) }
    ensures err { OnErr result (KeepsNames by_name.old.entries by_name.new.entries) }
{
    let mut queue = IdQueue::new(alloc);
    queue.push(id)?;
    match by_name.insert(name, queue) {
        Ok(_) => Ok(()),
        Err(_) => Err(Memory),
    }
}

/// Notes whether this id of the name is held.
pub fn set_held(by_name: &mut BTreeMap<Name, IdQueue>, name: &Name, id: u64, held: bool)
    ensures { ChangesName name.now (with_flag id held) by_name.old.entries by_name.new.entries }
{
    if let Some(queue) = by_name.get_mut(name) {
        queue.set_held(id, held);
    }
}

// Removes this id of the name.
fn remove(by_name: &mut BTreeMap<Name, IdQueue>, name: &Name, id: u64)
    ensures { ChangesName name.now (without_id id) by_name.old.entries by_name.new.entries }
{
    if let Some(queue) = by_name.get_mut(name) {
        queue.remove(id);
    }
}

/// The first id of the name that isn't held.
pub fn first_free(by_name: &BTreeMap<Name, IdQueue>, name: &Name) -> Option<u64>
    ensures { result ≡ first_open (of_name name.now by_name.now.entries) }
{
    match by_name.get(name) {
        Some(queue) => queue.first_free(),
        None => None,
    }
}

/// How many ids of the name aren't held.
pub fn free_count(by_name: &BTreeMap<Name, IdQueue>, name: &Name) -> usize
    ensures { result ≡ unheld_count (of_name name.now by_name.now.entries) }
{
    match by_name.get(name) {
        Some(queue) => queue.free(),
        None => 0,
    }
}

/// Whether an id of the name is held.
pub fn has_held(by_name: &BTreeMap<Name, IdQueue>, name: &Name) -> bool
    ensures { result ≡ any_held_id (of_name name.now by_name.now.entries) }
{
    match by_name.get(name) {
        Some(queue) => queue.has_held(),
        None => false,
    }
}
