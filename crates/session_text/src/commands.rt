//! The texts that answer an operator's commands.
ghost use Rattle.std.specs.Prelude.{◌≡◌, IfOk};
ghost use Rattle.model_session.specs.Text as text;

use model_machine::{Answer, CommandRefused};
use oper_cmds::answer_text;
use std::alloc::Global;
use tm_types::Memory;

/// The text that answers an operator's command. A fault has none.
pub fn command_text(
    alloc: Global,
    answer: &Result<Answer, CommandRefused>,
) -> Result<Vec<u8>, Memory>
    ensures { IfOk result (λ printed. printed.items ≡ text.command_text answer.now) }
{
    match answer {
        Ok(answer) => command_line(alloc, answer),
        Err(CommandRefused::UnknownName(name)) => {
            command_line(alloc, &Answer::UnknownName(*name))
        }
        Err(CommandRefused::Busy(id)) => command_line(alloc, &Answer::ConversationBusy(*id)),
        Err(CommandRefused::NoConversation) => command_line(alloc, &Answer::NoConversation),
        Err(CommandRefused::Fault(_)) => Ok(Vec::new(alloc)),
    }
}

/// The text of an answer, with the end of its line.
fn command_line(alloc: Global, answer: &Answer) -> Result<Vec<u8>, Memory>
    ensures { IfOk result (λ printed. printed.items ≡ text.command_line answer.now) }
{
    let mut out = Vec::new(alloc);
    answer_text(alloc, answer, &mut out)?;
    out.extend_from_slice(b"\n")?;
    Ok(out)
}
