//! What a block asks for, asked of a control region that is up.
ghost use Rattle.std.specs.Prelude.{◌≡◌, ℕ, List, ◌<◌, ◌≤◌, ◌++◌, [], true, length, IfOk, OnOk};
ghost use Rattle.model_machine.specs.Machine.{IsRegion};
ghost use Rattle.model_machine.specs.MachineCalls.{show_answer};
ghost use Rattle.model_machine.specs.declared.entry.Entry.TheVariants.{Accept, Acked as AckedEntry, Commanded, Checked};
ghost use Rattle.openings.specs.Faults.{fault_in};
ghost use Rattle.model_machine.specs.History.{control_moment};
ghost use Rattle.model_system.specs.SystemFormats.{format_of};
ghost use Rattle.model_machine.specs.CommandAnswers.{IsCommandServed, command_answer};
ghost use Rattle.model_session.specs.Text as spec_text;
ghost use Rattle.model_session.specs.Text.{show_text, shown_text, bad_line_text, bad_command_text, stopped_text, up_text, power_text};
ghost use Rattle.model_session.specs.Lines.{CanAsk};
ghost use Rattle.model_session.specs.Lives.{ends_life};
ghost use Rattle.tm_control.specs.ControlCalls.{StaysSo};
ghost use Rattle.session_lives.specs.declared.called.Called.TheVariants.{Answered, Power};
ghost use Rattle.session_lives.specs.ControlCounts.{KeepsPace};
ghost use Rattle.session_lives.specs.AskedControl.{IsAsked, StaysBy, called_by, call_ended_by, pick_by};

use crate::called::Called;
use crate::forcing::{bind, is_done, is_removed, is_reply, is_taken};
use crate::turns::answer_quiet;
use mfs_edit::edit_out;
use model_machine::{Answer, CheckpointRefused, Command, CommandRefused, ControlCall};
use model_session::{Asked, InputStopped};
use session_text::{
    ANSWER_ROOM, PAGE_ROOM, Printed, TURN_ROOM, WORD_ROOM, ack_line, armed_line, bad_command_line,
    bad_line, checkpoint_line, command_text, held_line, input_line, none_line, page_lines,
    power_line, reply_lines, shown_word, stopped_line, turned_line, unknown_line, up_line,
};
use std::alloc::Global;
use system_types::System;
use tm_control::{AckRefused, Acked, Control, ControlFault, InputRefused, Shown, Taken};
use tm_disk::Disk;
use tm_types::{Memory, Name, Reply, Segments};

/// Asks for what a block asks for, and leaves the answer as the printed text.
pub fn ask<D: Disk>(
    alloc: Global,
    control: &mut Control<D>,
    picked: &mut u64,
    printed: &mut Printed,
    asked: Asked,
) -> Called
    requires up { control.old.up ≡ true }
    requires can { CanAsk (length control.old.control.system.regions) asked }
    requires empty { printed.old.text ≡ [] }
    ensures asked { IsAsked D.state asked control.old control.new printed.new.text result }
    ensures picks { picked.new ≡ pick_by asked result (D.state control.old.disk).can_arm picked.old }
    ensures pace { KeepsPace D.state control.old control.new }
    ensures stays { StaysBy D.state asked result control.old control.new }
{
    if printed.make_room(ANSWER_ROOM).is_err() {
        return Called::Memory;
    }
    match asked {
        Asked::Bad(rule) => told_bad_line(printed, rule),
        Asked::BadCommand(rule) => told_bad_command(printed, rule),
        Asked::Stopped(terminal, number, reason) => told_stopped(
            printed, &terminal, number, &reason,
        ),
        Asked::Call(call) => answer(alloc, control, printed, call),
        Asked::Quiet(most) => answer_quiet(control, printed, most),
        Asked::Power(pick) => told_power(printed, pick),
        Asked::PowerIn(writes, pick) => arm(control, picked, printed, writes, pick),
        Asked::Restart => told_up(printed),
        Asked::ColdStart => told_up(printed),
    }
}

fn told_bad_line(printed: &mut Printed, rule: u8) -> Called
    requires empty { printed.old.text ≡ [] }
    requires room { ANSWER_ROOM ≤ printed.old.room }
    ensures text { printed.new.text ≡ bad_line_text rule }
    ensures called { result ≡ Answered }
{
    bad_line(printed, rule);
    Called::Answered
}

fn told_bad_command(printed: &mut Printed, rule: u8) -> Called
    requires empty { printed.old.text ≡ [] }
    requires room { ANSWER_ROOM ≤ printed.old.room }
    ensures text { printed.new.text ≡ bad_command_text rule }
    ensures called { result ≡ Answered }
{
    bad_command_line(printed, rule);
    Called::Answered
}

fn told_stopped(
    printed: &mut Printed,
    terminal: &Name,
    number: u64,
    reason: &InputStopped,
) -> Called
    requires empty { printed.old.text ≡ [] }
    requires room { ANSWER_ROOM ≤ printed.old.room }
    ensures text { printed.new.text ≡ stopped_text terminal.now number reason.now }
    ensures called { result ≡ Answered }
{
    stopped_line(printed, terminal, number, reason);
    Called::Answered
}

fn told_up(printed: &mut Printed) -> Called
    requires empty { printed.old.text ≡ [] }
    requires room { ANSWER_ROOM ≤ printed.old.room }
    ensures text { printed.new.text ≡ up_text }
    ensures called { result ≡ Answered }
{
    up_line(printed);
    Called::Answered
}

fn told_power(printed: &mut Printed, pick: u64) -> Called
    requires empty { printed.old.text ≡ [] }
    requires room { ANSWER_ROOM ≤ printed.old.room }
    ensures text { printed.new.text ≡ power_text }
    ensures called { result ≡ Power pick }
{
    power_line(printed);
    Called::Power(pick)
}

/// Lets power fail at a write to come.
fn arm<D: Disk>(
    control: &mut Control<D>,
    picked: &mut u64,
    printed: &mut Printed,
    writes: u64,
    pick: u64,
) -> Called
    requires some { 0 < writes }
    requires up { control.old.up ≡ true }
    requires empty { printed.old.text ≡ [] }
    requires room { ANSWER_ROOM ≤ printed.old.room }
    ensures asked { IsAsked D.state (Asked.PowerIn writes pick) control.old control.new printed.new.text result }
    ensures picks { picked.new ≡ pick_by (Asked.PowerIn writes pick) result (D.state control.old.disk).can_arm picked.old }
    ensures pace { KeepsPace D.state control.old control.new }
    ensures stays { StaysBy D.state (Asked.PowerIn writes pick) result control.old control.new }
{
    let is_armed = control.arm(writes);
    if is_armed {
        *picked = pick;
    }
    armed_line(printed, is_armed, writes);
    Called::Answered
}

/// Asks the control region, and prints its answer.
fn answer<D: Disk>(
    alloc: Global,
    control: &mut Control<D>,
    printed: &mut Printed,
    call: ControlCall,
) -> Called
    requires up { control.old.up ≡ true }
    requires can { CanAsk (length control.old.control.system.regions) (Asked.Call call) }
    requires empty { printed.old.text ≡ [] }
    requires room { ANSWER_ROOM ≤ printed.old.room }
    ensures asked { IsAsked D.state (Asked.Call call) control.old control.new printed.new.text result }
    ensures pace { KeepsPace D.state control.old control.new }
    ensures stays { StaysSo D.state control.old control.new }
{
    match call {
        ControlCall::Input(terminal, number, segments) => {
            answer_input(alloc, control, printed, &terminal, number, segments)
        }
        ControlCall::Receive(terminal) => answer_receive(alloc, control, printed, &terminal),
        ControlCall::Acknowledge(terminal, number) => {
            answer_acknowledge(control, printed, &terminal, number)
        }
        ControlCall::Turn(region) => answer_turn(control, printed, region),
        ControlCall::Checkpoint(freeze) => answer_checkpoint(control, printed, freeze),
        ControlCall::Command(command) => answer_command(alloc, control, printed, &command),
        ControlCall::AskQuiet => unreachable!(),
    }
}

fn answer_input<D: Disk>(
    alloc: Global,
    control: &mut Control<D>,
    printed: &mut Printed,
    terminal: &Name,
    number: u64,
    segments: Segments,
) -> Called
    requires up { control.old.up ≡ true }
    requires segment { 0 < length segments }
    requires empty { printed.old.text ≡ [] }
    requires room { ANSWER_ROOM ≤ printed.old.room }
    ensures asked { IsAsked D.state (Asked.Call (ControlCall.Input terminal.now number segments)) control.old control.new printed.new.text result }
    ensures pace { KeepsPace D.state control.old control.new }
    ensures stays { StaysSo D.state control.old control.new }
{
    let mut word = Printed::new(alloc);
    if word.make_room(WORD_ROOM).is_err() {
        return Called::Memory;
    }
    word.push(shown_word(&segments));
    let _ = control.is_up();
    let answer = control.input(terminal, number, segments);
    input_line(printed, terminal, number, word.as_slice(), &answer);
    bind(control, is_taken(&answer), input_called(&answer))
}

/// How a call went that met this fault.
fn called(fault: ControlFault) -> Called
    ensures { result ≡ called_by (Some fault) }
{
    match fault {
        ControlFault::Disk => Called::Broke,
        ControlFault::Memory => Called::Memory,
        ControlFault::Spent(_) => Called::Spent,
    }
}

fn input_called(answer: &Result<Taken, InputRefused>) -> Called
    ensures { (terminal : List ℕ) → (number : ℕ) → (segments : List (List ℕ)) → result ≡ called_by (fault_in (Accept terminal number segments answer.now)) }
{
    match answer {
        Ok(_) => Called::Answered,
        Err(InputRefused::Fault(fault)) => called(*fault),
        Err(InputRefused::Terminal) => Called::Answered,
        Err(InputRefused::StoppedTerminal) => Called::Answered,
        Err(InputRefused::Expected(_)) => Called::Answered,
        Err(InputRefused::Conversation(_)) => Called::Answered,
        Err(InputRefused::Code) => Called::Answered,
        Err(InputRefused::StoppedCode(_)) => Called::Answered,
        Err(InputRefused::SegmentsOver(_, _)) => Called::Answered,
        Err(InputRefused::QueueFull(_, _)) => Called::Answered,
    }
}

fn answer_receive<D: Disk>(
    alloc: Global,
    control: &mut Control<D>,
    printed: &mut Printed,
    terminal: &Name,
) -> Called
    requires up { control.old.up ≡ true }
    requires empty { printed.old.text ≡ [] }
    requires room { ANSWER_ROOM ≤ printed.old.room }
    ensures asked { IsAsked D.state (Asked.Call (ControlCall.Receive terminal.now)) control.old control.new printed.new.text result }
    ensures pace { KeepsPace D.state control.old control.new }
    ensures stays { StaysSo D.state control.old control.new }
{
    if control.reserve(1).is_err() {
        return Called::Memory;
    }
    if print_showing(alloc, control, printed, terminal).is_err() {
        return Called::Memory;
    }
    let shown = control.receive(terminal);
    let binding = is_reply(&shown);
    bind(control, binding, Called::Answered)
}

/// Prints what the terminal is to be shown.
fn print_showing<D: Disk>(
    alloc: Global,
    control: &Control<D>,
    printed: &mut Printed,
    terminal: &Name,
) -> Result<(), Memory>
    requires up { control.now.up ≡ true }
    requires room { ANSWER_ROOM ≤ printed.old.room }
    ensures { OnOk result (printed.new.text ≡ printed.old.text ++ show_text control.now.control.system (control_moment control.now.control) terminal.now (show_answer (control_moment control.now.control) terminal.now)) }
{
    match control.showing(terminal) {
        Shown::Reply(reply) => print_reply(alloc, printed, control.system(), terminal, reply),
        Shown::Empty => {
            none_line(printed, terminal);
            Ok(())
        }
        Shown::Stopped => {
            held_line(printed, terminal);
            Ok(())
        }
        Shown::Unknown => {
            unknown_line(printed, terminal);
            Ok(())
        }
    }
}

/// Prints a reply: as the page that it makes where the terminal has a format, else as its segments.
fn print_reply(
    alloc: Global,
    printed: &mut Printed,
    system: &System,
    terminal: &Name,
    reply: &Reply,
) -> Result<(), Memory>
    ensures { OnOk result (printed.new.text ≡ printed.old.text ++ shown_text terminal.now (format_of system.now terminal.now) reply.now) }
{
    match system.format_of(terminal) {
        Some(format) => {
            let page = edit_out(alloc, format, &reply.segments)?;
            printed.make_room(PAGE_ROOM)?;
            page_lines(printed, terminal, reply.number, &page);
            Ok(())
        }
        None => reply_lines(printed, terminal, reply),
    }
}

fn answer_acknowledge<D: Disk>(
    control: &mut Control<D>,
    printed: &mut Printed,
    terminal: &Name,
    number: u64,
) -> Called
    requires up { control.old.up ≡ true }
    requires empty { printed.old.text ≡ [] }
    requires room { ANSWER_ROOM ≤ printed.old.room }
    ensures asked { IsAsked D.state (Asked.Call (ControlCall.Acknowledge terminal.now number)) control.old control.new printed.new.text result }
    ensures pace { KeepsPace D.state control.old control.new }
    ensures stays { StaysSo D.state control.old control.new }
{
    let _ = control.is_up();
    let answer = control.acknowledge(terminal, number);
    ack_line(printed, terminal, number, &answer);
    bind(control, is_removed(&answer), ack_called(&answer))
}

fn ack_called(answer: &Result<Acked, AckRefused>) -> Called
    ensures { (terminal : List ℕ) → (number : ℕ) → result ≡ called_by (fault_in (AckedEntry terminal number answer.now)) }
{
    match answer {
        Ok(_) => Called::Answered,
        Err(AckRefused::Fault(fault)) => called(*fault),
        Err(AckRefused::Unknown) => Called::Answered,
        Err(AckRefused::Ahead(_)) => Called::Answered,
    }
}

fn answer_turn<D: Disk>(control: &mut Control<D>, printed: &mut Printed, region: u32) -> Called
    requires up { control.old.up ≡ true }
    requires region { IsRegion control.old.control.system region }
    requires empty { printed.old.text ≡ [] }
    ensures asked { IsAsked D.state (Asked.Call (ControlCall.Turn region)) control.old control.new printed.new.text result }
    ensures pace { KeepsPace D.state control.old control.new }
    ensures stays { StaysSo D.state control.old control.new }
{
    if printed.make_room(TURN_ROOM).is_err() {
        return Called::Memory;
    }
    let _ = control.is_up();
    let answer = control.turn(region);
    match &answer {
        Ok(turned) => {
            turned_line(printed, control.system().databases(), region, turned);
            Called::Answered
        }
        Err(fault) => called(*fault),
    }
}

/// Does an operator's command. The text of its answer is made before, so that no entry is left without it.
fn answer_command<D: Disk>(
    alloc: Global,
    control: &mut Control<D>,
    printed: &mut Printed,
    command: &Command,
) -> Called
    requires up { control.old.up ≡ true }
    requires served { IsCommandServed command.now }
    requires empty { printed.old.text ≡ [] }
    ensures asked { IsAsked D.state (Asked.Call (ControlCall.Command command.now)) control.old control.new printed.new.text result }
    ensures pace { KeepsPace D.state control.old control.new }
    ensures stays { StaysSo D.state control.old control.new }
{
    let Ok(text) = text_ahead(alloc, control, command) else {
        return Called::Memory;
    };
    if printed.make_room(text.len()).is_err() {
        return Called::Memory;
    }
    printed.push(&text);
    let _ = control.is_up();
    let answer = control.command(command);
    bind(control, is_done(command, &answer), command_called(&answer))
}

/// What will be printed for a command.
fn text_ahead<D: Disk>(
    alloc: Global,
    control: &Control<D>,
    command: &Command,
) -> Result<Vec<u8>, Memory>
    requires up { control.now.up ≡ true }
    ensures { IfOk result (λ text. text.items ≡ spec_text.command_text (command_answer control.now.control.system (control_moment control.now.control) command.now)) }
{
    let answer = control.answer_to(command)?;
    command_text(alloc, &answer)
}

fn command_called(answer: &Result<Answer, CommandRefused>) -> Called
    ensures { (command : Command) → result ≡ called_by (fault_in (Commanded command answer.now)) }
{
    match answer {
        Ok(_) => Called::Answered,
        Err(CommandRefused::Fault(fault)) => called(*fault),
        Err(CommandRefused::UnknownName(_)) => Called::Answered,
        Err(CommandRefused::Busy(_)) => Called::Answered,
        Err(CommandRefused::NoConversation) => Called::Answered,
    }
}

/// Takes a checkpoint, of a system that is to be frozen or not.
fn answer_checkpoint<D: Disk>(
    control: &mut Control<D>,
    printed: &mut Printed,
    freeze: bool,
) -> Called
    requires up { control.old.up ≡ true }
    requires empty { printed.old.text ≡ [] }
    requires room { ANSWER_ROOM ≤ printed.old.room }
    ensures asked { IsAsked D.state (Asked.Call (ControlCall.Checkpoint freeze)) control.old control.new printed.new.text result }
    ensures pace { KeepsPace D.state control.old control.new }
    ensures stays { StaysSo D.state control.old control.new }
{
    let _ = control.is_up();
    let answer = control.checkpoint(freeze);
    checkpoint_line(printed, freeze, &answer);
    checkpoint_called(freeze, &answer)
}

fn checkpoint_called(freeze: bool, answer: &Result<u64, CheckpointRefused>) -> Called
    ensures { result ≡ call_ended_by (ends_life (Checked freeze answer.now)) (fault_in (Checked freeze answer.now)) }
{
    match answer {
        Ok(_) => {
            if freeze {
                Called::Frozen
            } else {
                Called::Answered
            }
        }
        Err(CheckpointRefused::Fault(fault)) => called(*fault),
        Err(CheckpointRefused::BusyRegion(_, _)) => Called::Answered,
    }
}
