//! What is printed for the answer to a command.
ghost use Rattle.std.specs.Prelude.{◌≡◌, ◌++◌, codes, decimal, IfOk, OnOk, OnErr};
ghost use Rattle.std.specs.List.{flat_map};
ghost use Rattle.model_machine.specs.AnswerText as text;

use itoa::Buffer;
use model_machine::{ActiveRegion, Answer, RegionWork};
use std::alloc::Global;
use tm_types::{Key, Memory, Name};

/// Appends what is printed for the answer to a command, without the end of its last line. Where it answers `Memory`,
/// nothing is appended.
pub fn answer_text(alloc: Global, answer: &Answer, out: &mut Vec<u8>) -> Result<(), Memory>
    ensures ok { OnOk result (out.new.items ≡ out.old.items ++ text.answer_text answer.now) }
    ensures err { OnErr result (out.new.items ≡ out.old.items) }
{
    let printed = printed(alloc, answer)?;
    out.extend_from_slice(&printed)
}

fn printed(alloc: Global, answer: &Answer) -> Result<Vec<u8>, Memory>
    ensures { IfOk result (λ printed. printed.items ≡ text.answer_text answer.now) }
{
    let mut out = Vec::new(alloc);
    add_answer(&mut out, answer)?;
    Ok(out)
}

fn add_answer(out: &mut Vec<u8>, answer: &Answer) -> Result<(), Memory>
    ensures { OnOk result (out.new.items ≡ out.old.items ++ text.answer_text answer.now) }
{
    match answer {
        Answer::Started(name) => add_named(out, b"STARTED ", name),
        Answer::Stopped(name) => add_named(out, b"STOPPED ", name),
        Answer::Transaction {
            code,
            class,
            priority,
            queued,
            stopped,
        } => add_transaction(out, code, *class, *priority, *queued, *stopped),
        Answer::Terminal {
            terminal,
            input,
            output,
            kept,
            stopped,
        } => add_terminal(out, terminal, *input, *output, *kept, *stopped),
        Answer::Active(regions) => add_regions(out, regions.as_slice()),
        Answer::Checkpoint(number) => add_numbered(out, b"CHECKPOINT ", *number),
        Answer::Frozen(number) => add_numbered(out, b"FROZEN ", *number),
        Answer::FreezeRefused { region, id } => add_refused_freeze(out, *region, *id),
        Answer::Dequeued(count) => add_numbered(out, b"DEQUEUED ", *count),
        Answer::Exited(terminal) => add_named(out, b"EXITED ", terminal),
        Answer::AssignedClass(code, class) => add_assigned(out, code, b" CLASS ", *class),
        Answer::AssignedPriority(code, priority) => {
            add_assigned(out, code, b" PRIORITY ", *priority)
        }
        Answer::ConversationBusy(id) => add_numbered(out, b"REFUSED CONVERSATION ", *id),
        Answer::NoConversation => add(out, b"REFUSED NONE"),
        Answer::Restarted => add(out, b"RESTARTED"),
        Answer::ColdStarted => add(out, b"COLD STARTED"),
        Answer::Up => add(out, b"UP"),
        Answer::UnknownName(name) => add_named(out, b"REFUSED NAME ", name),
        Answer::Bad(rule) => add_numbered(out, b"BAD COMMAND ", u64::from(*rule)),
    }
}

fn add(out: &mut Vec<u8>, bytes: &[u8]) -> Result<(), Memory>
    ensures { OnOk result (out.new.items ≡ out.old.items ++ bytes.now) }
{
    out.extend_from_slice(bytes)
}

fn add_number(out: &mut Vec<u8>, number: u64) -> Result<(), Memory>
    ensures { OnOk result (out.new.items ≡ out.old.items ++ decimal number) }
{
    let mut digits = Buffer::new();
    add(out, digits.format(number).as_bytes())
}

fn add_named(out: &mut Vec<u8>, words: &[u8], name: &Name) -> Result<(), Memory>
    ensures { OnOk result (out.new.items ≡ out.old.items ++ (words.now ++ name.now)) }
{
    add(out, words)?;
    add(out, name.as_bytes())
}

fn add_numbered(out: &mut Vec<u8>, words: &[u8], number: u64) -> Result<(), Memory>
    ensures { OnOk result (out.new.items ≡ out.old.items ++ (words.now ++ decimal number)) }
{
    add(out, words)?;
    add_number(out, number)
}

fn add_state(out: &mut Vec<u8>, stopped: bool) -> Result<(), Memory>
    ensures { OnOk result (out.new.items ≡ out.old.items ++ text.state_text stopped) }
{
    if stopped {
        add(out, b" STOPPED")
    } else {
        add(out, b" STARTED")
    }
}

fn add_transaction(
    out: &mut Vec<u8>,
    code: &Name,
    class: u8,
    priority: u8,
    queued: u64,
    stopped: bool,
) -> Result<(), Memory>
    ensures { OnOk result (out.new.items ≡ out.old.items ++ (codes "TRANSACTION " ++ code.now ++ codes " CLASS " ++ decimal class ++ codes " PRIORITY " ++ decimal priority ++ codes " QUEUED " ++ decimal queued ++ text.state_text stopped)) }
{
    add_code(out, code, class)?;
    add_numbered(out, b" PRIORITY ", u64::from(priority))?;
    add_numbered(out, b" QUEUED ", queued)?;
    add_state(out, stopped)
}

fn add_code(out: &mut Vec<u8>, code: &Name, class: u8) -> Result<(), Memory>
    ensures { OnOk result (out.new.items ≡ out.old.items ++ (codes "TRANSACTION " ++ code.now ++ codes " CLASS " ++ decimal class)) }
{
    add_named(out, b"TRANSACTION ", code)?;
    add_numbered(out, b" CLASS ", u64::from(class))
}

fn add_terminal(
    out: &mut Vec<u8>,
    terminal: &Name,
    input: u64,
    output: u64,
    kept: u64,
    stopped: bool,
) -> Result<(), Memory>
    ensures { OnOk result (out.new.items ≡ out.old.items ++ (codes "LTERM " ++ terminal.now ++ codes " IN " ++ decimal input ++ codes " OUT " ++ decimal output ++ codes " KEPT " ++ decimal kept ++ text.state_text stopped)) }
{
    add_named(out, b"LTERM ", terminal)?;
    add_numbered(out, b" IN ", input)?;
    add_numbered(out, b" OUT ", output)?;
    add_numbered(out, b" KEPT ", kept)?;
    add_state(out, stopped)
}

fn add_assigned(out: &mut Vec<u8>, code: &Name, words: &[u8], number: u8) -> Result<(), Memory>
    ensures { OnOk result (out.new.items ≡ out.old.items ++ (codes "ASSIGNED " ++ code.now ++ words.now ++ decimal number)) }
{
    add_named(out, b"ASSIGNED ", code)?;
    add_numbered(out, words, u64::from(number))
}

fn add_refused_freeze(out: &mut Vec<u8>, region: u32, id: u64) -> Result<(), Memory>
    ensures { OnOk result (out.new.items ≡ out.old.items ++ (codes "REFUSED FREEZE REGION " ++ decimal region ++ codes " MESSAGE " ++ decimal id)) }
{
    add_numbered(out, b"REFUSED FREEZE REGION ", u64::from(region))?;
    add_numbered(out, b" MESSAGE ", id)
}

/// The regions, on a line each.
fn add_regions(out: &mut Vec<u8>, regions: &[ActiveRegion]) -> Result<(), Memory>
    ensures { OnOk result (out.new.items ≡ out.old.items ++ text.regions_text regions.now) }
{
    let Some((first, others)) = regions.split_first() else {
        return Ok(());
    };
    add_region(out, first)?;
    add_further_regions(out, others)
}

fn add_further_regions(out: &mut Vec<u8>, regions: &[ActiveRegion]) -> Result<(), Memory>
    ensures { OnOk result (out.new.items ≡ out.old.items ++ flat_map text.next_region regions.now) }
{
    for region in regions {
        add_further_region(out, region)?;
    }
    Ok(())
}

fn add_further_region(out: &mut Vec<u8>, region: &ActiveRegion) -> Result<(), Memory>
    ensures { OnOk result (out.new.items ≡ out.old.items ++ text.next_region region.now) }
{
    add(out, b"\n")?;
    add_region(out, region)
}

fn add_region(out: &mut Vec<u8>, region: &ActiveRegion) -> Result<(), Memory>
    ensures { OnOk result (out.new.items ≡ out.old.items ++ text.region_text region.now) }
{
    add_numbered(out, b"REGION ", u64::from(region.region))?;
    add_work(out, &region.work)
}

fn add_work(out: &mut Vec<u8>, work: &RegionWork) -> Result<(), Memory>
    ensures { OnOk result (out.new.items ≡ out.old.items ++ text.work_text work.now) }
{
    match work {
        RegionWork::Idle => add(out, b" IDLE"),
        RegionWork::Working { code, id } => add_message(out, code, *id),
        RegionWork::Waiting {
            code,
            id,
            database,
            root,
            by,
        } => {
            add_message(out, code, *id)?;
            add_wait(out, database, root, *by)
        }
    }
}

fn add_message(out: &mut Vec<u8>, code: &Name, id: u64) -> Result<(), Memory>
    ensures { OnOk result (out.new.items ≡ out.old.items ++ text.message_text code.now id) }
{
    add_named(out, b" ", code)?;
    add_numbered(out, b" ", id)
}

fn add_wait(out: &mut Vec<u8>, database: &Name, root: &Option<Key>, by: u32) -> Result<(), Memory>
    ensures { OnOk result (out.new.items ≡ out.old.items ++ (codes " WAITS " ++ database.now ++ text.answer_root_text root.now ++ codes " BY " ++ decimal by)) }
{
    add_named(out, b" WAITS ", database)?;
    add_root(out, root)?;
    add_numbered(out, b" BY ", u64::from(by))
}

fn add_root(out: &mut Vec<u8>, root: &Option<Key>) -> Result<(), Memory>
    ensures { OnOk result (out.new.items ≡ out.old.items ++ text.answer_root_text root.now) }
{
    match root {
        Some(root) => {
            add(out, b"/")?;
            add(out, root.as_bytes())
        }
        None => Ok(()),
    }
}
