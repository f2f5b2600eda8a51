//! What commands are answered.
ghost use Rattle.std.specs.Prelude.{◌≡◌, ◌-◌, Ok, IfOk, length, take};
ghost use Rattle.conversation.specs.Refusals.{conversation_answer as conversation_answer};
ghost use Rattle.model_messages.specs.ConversationInput.{busy_id};
ghost use Rattle.model_messages.specs.Terminals.{conversation_at};
ghost use Rattle.model_system.specs.Codes.{code_at};
ghost use Rattle.model_machine.specs.CommandAnswers as spec;
ghost use Rattle.model_machine.specs.Machine.{output_at, terminal_at, waiting_now};

use crate::Parts;
use crate::active::active;
use conversation::Busy;
use model_machine::{Answer, Command, CommandRefused};
use model_messages::TerminalReplies;
use std::alloc::Global;
use tm_types::{Memory, Name};
use tran_pick::current_priority;

/// What a command is answered now. Only a display of the regions takes memory.
pub fn answer_to(
    alloc: Global,
    parts: &Parts,
    command: &Command,
) -> Result<Result<Answer, CommandRefused>, Memory>
    ensures { IfOk result (λ answer. answer ≡ spec.command_answer parts.now.system parts.now.moment command.now) }
{
    match command {
        Command::StartTransaction(code) => Ok(of_code(parts, code, Answer::Started(*code))),
        Command::StopTransaction(code) => Ok(of_code(parts, code, Answer::Stopped(*code))),
        Command::StartTerminal(name) => Ok(of_terminal(parts, name, Answer::Started(*name))),
        Command::StopTerminal(name) => Ok(of_terminal(parts, name, Answer::Stopped(*name))),
        Command::DisplayTransaction(code) => Ok(shown_code(parts, code)),
        Command::DisplayTerminal(terminal) => Ok(shown_terminal(parts, terminal)),
        Command::DisplayActive => active(alloc, parts),
        Command::DequeueFirst(terminal) => Ok(first_dequeued(parts, terminal)),
        Command::DequeueAll(terminal) => Ok(all_dequeued(parts, terminal)),
        Command::Exit(terminal) => Ok(exited(parts, terminal)),
        Command::AssignClass(code, class) => {
            Ok(of_code(parts, code, Answer::AssignedClass(*code, *class)))
        }
        Command::AssignPriority(code, priority) => Ok(of_code(
            parts,
            code,
            Answer::AssignedPriority(*code, *priority),
        )),
        Command::Checkpoint => Ok(Ok(Answer::Up)),
        Command::Freeze => Ok(Ok(Answer::Up)),
        Command::EmergencyRestart => Ok(Ok(Answer::Up)),
        Command::NormalRestart => Ok(Ok(Answer::Up)),
        Command::ColdStart => Ok(Ok(Answer::Up)),
    }
}

/// This answer, where there is a code of the name.
fn of_code(parts: &Parts, code: &Name, answer: Answer) -> Result<Answer, CommandRefused>
    ensures { result ≡ spec.of_code parts.now.system code.now (Ok answer) }
{
    if parts.system().code(code).is_none() {
        return Err(CommandRefused::UnknownName(*code));
    }
    Ok(answer)
}

/// This answer, where there is a terminal of the name.
fn of_terminal(parts: &Parts, name: &Name, answer: Answer) -> Result<Answer, CommandRefused>
    ensures { result ≡ spec.of_terminal parts.now.moment.lasting name.now (Ok answer) }
{
    if parts.terminal_state(name).is_none() {
        return Err(CommandRefused::UnknownName(*name));
    }
    Ok(answer)
}

fn shown_code(parts: &Parts, name: &Name) -> Result<Answer, CommandRefused>
    ensures { result ≡ spec.shown_code name.now (waiting_now parts.now.moment.lasting parts.now.moment.slots name.now) (code_at parts.now.system.codes name.now) (spec.state_now parts.now.system parts.now.moment name.now) }
{
    let queued = parts.waiting(name);
    let Some(code) = parts.system().code(name) else {
        return Err(CommandRefused::UnknownName(*name));
    };
    let Some(state) = parts.code_state(name) else {
        return Err(CommandRefused::UnknownName(*name));
    };
    Ok(Answer::Transaction {
        code: *name,
        class: state.class,
        priority: current_priority(code, state),
        queued,
        stopped: state.stopped,
    })
}

fn shown_terminal(parts: &Parts, name: &Name) -> Result<Answer, CommandRefused>
    ensures { result ≡ spec.shown_terminal name.now (terminal_at parts.now.moment.lasting.terminals name.now) (output_at parts.now.moment.lasting.outputs name.now) }
{
    let Some(terminal) = parts.terminal_state(name) else {
        return Err(CommandRefused::UnknownName(*name));
    };
    let Some(output) = parts.replies(name) else {
        return Err(CommandRefused::UnknownName(*name));
    };
    Ok(Answer::Terminal {
        terminal: *name,
        input: terminal.last,
        output: last_output(output),
        kept: kept(output),
        stopped: terminal.stopped,
    })
}

/// The last output number.
fn last_output(output: &TerminalReplies) -> u64
    ensures { result ≡ output.now.next - 1 }
{
    output.next.saturating_sub(1)
}

/// How many replies are kept.
fn kept(output: &TerminalReplies) -> u64
    ensures { result ≡ length output.now.replies }
{
    output.replies.items.len() as u64
}

fn first_dequeued(parts: &Parts, name: &Name) -> Result<Answer, CommandRefused>
    ensures { result ≡ spec.first_dequeued name.now (output_at parts.now.moment.lasting.outputs name.now) }
{
    match parts.replies(name) {
        Some(output) => Ok(Answer::Dequeued(first_kept(output))),
        None => Err(CommandRefused::UnknownName(*name)),
    }
}

/// 1 where a reply is kept, else 0.
#[tactic(auto, using(crate::proofs::Dequeued::first_counts))]
fn first_kept(output: &TerminalReplies) -> u64
    ensures { result ≡ length (take 1 output.now.replies) }
{
    kept(output).min(1)
}

fn all_dequeued(parts: &Parts, name: &Name) -> Result<Answer, CommandRefused>
    ensures { result ≡ spec.all_dequeued name.now (output_at parts.now.moment.lasting.outputs name.now) }
{
    match parts.replies(name) {
        Some(output) => Ok(Answer::Dequeued(kept(output))),
        None => Err(CommandRefused::UnknownName(*name)),
    }
}

fn exited(parts: &Parts, name: &Name) -> Result<Answer, CommandRefused>
    ensures { result ≡ spec.of_terminal parts.now.moment.lasting name.now (spec.exited name.now (conversation_at name.now parts.now.moment.lasting.conversations) (busy_id name.now parts.now.moment.lasting.messages)) }
{
    if parts.terminal_state(name).is_none() {
        return Err(CommandRefused::UnknownName(*name));
    }
    ended(parts, name)
}

#[tactic(auto, using(crate::proofs::ConversationEnd::ended_answers))]
fn ended(parts: &Parts, name: &Name) -> Result<Answer, CommandRefused>
    ensures { result ≡ spec.exited name.now (conversation_at name.now parts.now.moment.lasting.conversations) (busy_id name.now parts.now.moment.lasting.messages) }
{
    match parts.conversation(name) {
        Ok(Some(_)) => Ok(Answer::Exited(*name)),
        Ok(None) => Err(CommandRefused::NoConversation),
        Err(Busy { id }) => Err(CommandRefused::Busy(id)),
    }
}
