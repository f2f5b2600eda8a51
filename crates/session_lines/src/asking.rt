//! What a block asks for.
ghost use Rattle.std.specs.Prelude.{◌≡◌, ℕ, ◌+◌, ◌<◌, ◌≤◌, ◌++◌, ◌∷◌, [], true, false, Some, None, Err, List, Result, IsTrue, IfOk, IfSome, IfErr, OnOk, OnErr, length, map, replicate};
ghost use Rattle.std.specs.List.{list_all};
ghost use Rattle.model_system.specs.FormatRule.{KeepsRule};
ghost use Rattle.model_system.specs.SystemFormats.{format_of};
ghost use Rattle.tm_types.specs.Segment.{are_printable};
ghost use Rattle.model_session.specs.Lines as spec;
ghost use Rattle.model_session.specs.Blocks.{block_alone, takes_further};
ghost use Rattle.model_session.specs.BoundedBlocks.{AsksAlike, whole, with_lines};
ghost use Rattle.mfs_edit.specs.InputAnswers.{AnswersInput};
ghost use Rattle.session_lines.specs.BlockReading.{HasFew, IsFullStop, IsPrintable, IsStop, IsFormWithin, MayWant, WantsInput};

use crate::block::{Block, is_screen};
use crate::commands::{command_asked, is_command};
use crate::forms::form_of;
use crate::rules::{NOT_PRINTABLE, WRONG_OPERANDS};
use crate::words::has_operand;
use mfs_edit::{EditRefused, edit_in};
use model_machine::ControlCall;
use model_session::{Asked, Form, InputStopped, Others};
use model_system::{DeviceField, Format};
use std::alloc::Global;
use system_types::System;
use text_rows::also;
use tm_edge::Line;
use tm_types::{Memory, Name, Segment, SegmentRefused, Segments, are_printable, operands};

/// What a block asks for of a system.
///
/// The one error is want of memory. It comes only for an input or a screen that is well formed, since
/// texts are copied. What a block keeps of many `+` lines is enough: it asks for what all of them ask
/// for, but that the texts of an input behind the 17th are empty.
pub fn read_block(alloc: Global, system: &System, block: &Block) -> Result<Asked, Memory>
    ensures asked { IfOk result (λ asked. asked ≡ spec.asked_of system.now block.now) }
    ensures can { IfOk result (spec.CanAsk (length system.now.regions)) }
    ensures memory { OnErr result (MayWant (length system.now.regions) block.now) }
    ensures enough { (line : List ℕ) (lines : List (List ℕ)) → IsTrue (takes_further line) → block.now ≡ with_lines (block_alone line) lines → IfOk result (λ asked. AsksAlike asked (spec.asked_of system.now (whole line lines))) }
{
    asked_block(alloc, system, block)
}

#[tactic(auto, unfolding(model_session::specs::Lines::asked_of))]
fn asked_block(alloc: Global, system: &System, block: &Block) -> Result<Asked, Memory>
    ensures asked { IfOk result (λ asked. asked ≡ spec.asked_of system.now block.now) }
    ensures can { IfOk result (spec.CanAsk (length system.now.regions)) }
    ensures memory { OnErr result (MayWant (length system.now.regions) block.now) }
    ensures few { spec.is_command block.now.line ≡ false → HasFew system.now (spec.block_form (length system.now.regions) block.now) }
{
    if is_command(block.line()) {
        return Ok(command_asked(block.line()));
    }
    lines_asked(alloc, system, block)
}

/// What a block asks for that is no command.
fn lines_asked(alloc: Global, system: &System, block: &Block) -> Result<Asked, Memory>
    ensures asked { IfOk result (λ asked. asked ≡ spec.asked_by system.now block.now (spec.block_form (length system.now.regions) block.now)) }
    ensures can { IfOk result (spec.CanAsk (length system.now.regions)) }
    ensures memory { OnErr result (WantsInput (spec.block_form (length system.now.regions) block.now)) }
    ensures few { HasFew system.now (spec.block_form (length system.now.regions) block.now) }
{
    let regions = system.regions().len() as u32;
    let form = match block_form(regions, block) {
        Ok(form) => form,
        Err(rule) => return Ok(Asked::Bad(rule)),
    };
    match form {
        Form::Input(terminal, number) => input_asked(alloc, system, terminal, number, block),
        Form::Screen(terminal, number) => screen_asked(alloc, system, terminal, number, block),
        Form::Receive(terminal) => Ok(Asked::Call(ControlCall::Receive(terminal))),
        Form::Acknowledge(terminal, number) => {
            Ok(Asked::Call(ControlCall::Acknowledge(terminal, number)))
        }
        Form::Turn(region) => Ok(Asked::Call(ControlCall::Turn(region))),
        Form::Quiet(most) => Ok(Asked::Quiet(most)),
        Form::Power(pick) => Ok(Asked::Power(pick)),
        Form::PowerIn(writes, pick) => Ok(Asked::PowerIn(writes, pick)),
    }
}

/// The form of the block's line, or the lowest rule that one of its lines breaks.
#[tactic(auto, unfolding(model_session::specs::Lines::block_form))]
fn block_form(regions: u32, block: &Block) -> Result<Form, u8>
    ensures value { result ≡ spec.block_form regions block.now }
    ensures printable { OnOk result (IsPrintable block.now) }
    ensures within { IfOk result (IsFormWithin regions) }
{
    let lines = also(further_forms(block), printable_block(block));
    also(form_of(regions, block.line()), lines)
}

/// The lowest rule that one of the `+` lines breaks: field lines behind SCREEN, else texts.
#[tactic(auto, unfolding(model_session::specs::Lines::further_forms))]
fn further_forms(block: &Block) -> Result<(), u8>
    ensures { result ≡ spec.further_forms block.now }
{
    if is_screen(block.line()) {
        block.others().fields
    } else {
        text_forms(block)
    }
}

/// Rule 2 where a `+` line has no blank.
fn text_forms(block: &Block) -> Result<(), u8>
    ensures { result ≡ spec.text_forms block.now }
{
    if have_operands(block.further()) && block.others().complete {
        Ok(())
    } else {
        Err(WRONG_OPERANDS)
    }
}

fn have_operands(lines: &[Line]) -> bool
    ensures { result ≡ list_all spec.has_operand lines.now }
{
    lines.iter().all(|line| is_complete(line))
}

fn is_complete(line: &Line) -> bool
    ensures { result ≡ spec.has_operand line.now }
{
    has_operand(line.bytes())
}

/// Rule 6 where a byte of the block isn't printable.
#[tactic(auto, unfolding(model_session::specs::Lines::printable_block))]
fn printable_block(block: &Block) -> Result<(), u8>
    ensures value { result ≡ spec.printable_block block.now }
    ensures printable { OnOk result (IsPrintable block.now) }
{
    if are_printable(block.line()) && are_texts(block.further()) && block.others().printable {
        Ok(())
    } else {
        Err(NOT_PRINTABLE)
    }
}

fn are_texts(lines: &[Line]) -> bool
    ensures { result ≡ list_all are_printable lines.now }
{
    lines.iter().all(|line| is_text(line))
}

fn is_text(line: &Line) -> bool
    ensures { result ≡ are_printable line.now }
{
    are_printable(line.bytes())
}

/// An input that is refused for this, or for its terminal where that is none.
#[tactic(auto, using(system_types::proofs::Indexed::place_is_there))]
fn stopped(system: &System, terminal: Name, number: u64, reason: InputStopped) -> Asked
    ensures { result ≡ spec.stopped system.now terminal number reason }
{
    if system.terminal_place(&terminal).is_some() {
        Asked::Stopped(terminal, number, reason)
    } else {
        Asked::Stopped(terminal, number, InputStopped::Terminal)
    }
}

/// Why no input was made.
#[derive(Debug, Drop)]
enum Stop {
    /// A segment has so many bytes, which are too many.
    TooLong(u64),
    Memory,
}

/// The input of a block that breaks no rule.
fn input_asked(
    alloc: Global,
    system: &System,
    terminal: Name,
    number: u64,
    block: &Block,
) -> Result<Asked, Memory>
    requires { IsPrintable block.now }
    ensures asked { IfOk result (λ asked. asked ≡ spec.unless_long system.now terminal number (spec.input_texts block.now) (spec.input_long block.now)) }
    ensures can { IfOk result (λ asked. (regions : ℕ) → spec.CanAsk regions asked) }
{
    match segments_of(alloc, block) {
        Ok(segments) => Ok(Asked::Call(ControlCall::Input(terminal, number, segments))),
        Err(Stop::TooLong(long)) => {
            let reason = InputStopped::TooLong(long);
            Ok(stopped(system, terminal, number, reason))
        }
        Err(Stop::Memory) => Err(Memory),
    }
}

/// The input that the values of a screen make by the format of its terminal.
fn screen_asked(
    alloc: Global,
    system: &System,
    terminal: Name,
    number: u64,
    block: &Block,
) -> Result<Asked, Memory>
    ensures asked { IfOk result (λ asked. asked ≡ spec.screen_asked system.now terminal number block.now.values (format_of system.now terminal)) }
    ensures can { IfOk result (λ asked. (regions : ℕ) → spec.CanAsk regions asked) }
    ensures few { IfSome (format_of system.now terminal) (λ format. length format.fields ≤ 1920) }
{
    let Some(format) = system.format_of(&terminal) else {
        return Ok(stopped(system, terminal, number, InputStopped::Format));
    };
    // These are few, and so the values that the block keeps are enough.
    let _fields = fields_of(format);
    let values = block.values(alloc)?;
    match edit_in(alloc, format, &values) {
        Ok(segments) => Ok(Asked::Call(ControlCall::Input(terminal, number, segments))),
        Err(refused) => refused_asked(system, terminal, number, &refused),
    }
}

/// The fields of a format that keeps its rule: no more than a screen has places.
#[tactic(auto, using(model_session::proofs::Places::few_fields))]
fn fields_of(format: &Format) -> &[DeviceField]
    requires { KeepsRule format.now }
    ensures fields { result.now ≡ format.now.fields }
    ensures few { length format.now.fields ≤ 1920 }
{
    format.fields()
}

/// The input of a screen whose values are refused.
fn refused_asked(
    system: &System,
    terminal: Name,
    number: u64,
    refused: &EditRefused,
) -> Result<Asked, Memory>
    ensures asked { (entered : Result (List (List ℕ)) (List ℕ)) → AnswersInput (Err refused.now) entered → IfOk result (λ asked. asked ≡ spec.entered_asked system.now terminal number entered) }
    ensures can { IfOk result (λ asked. (regions : ℕ) → spec.CanAsk regions asked) }
{
    match refused {
        EditRefused::UnknownField(name) => {
            let reason = InputStopped::Field(*name);
            Ok(stopped(system, terminal, number, reason))
        }
        EditRefused::Memory => Err(Memory),
    }
}

/// The segments of an input. Those that aren't kept are empty, and take no memory.
fn segments_of(alloc: Global, block: &Block) -> Result<Segments, Stop>
    requires { IsPrintable block.now }
    ensures made { IfOk result (λ segments. segments ≡ spec.input_texts block.now) }
    ensures short { OnOk result (spec.input_long block.now ≡ None) }
    ensures stopped { IfErr result (IsStop (spec.input_long block.now)) }
{
    let segments = kept_segments(alloc, block)?;
    with_others(segments, block.others())
}

/// The segments with as many empty ones behind them as there are other lines.
fn with_others(segments: Segments, others: &Others) -> Result<Segments, Stop>
    ensures made { IfOk result (λ all. all ≡ segments ++ replicate others.now.count []) }
    ensures short { OnOk result (others.now.long ≡ None) }
    ensures stopped { IfErr result (IsFullStop others.now.long (length segments + others.now.count)) }
{
    if let Some(long) = others.long {
        return Err(Stop::TooLong(long));
    }
    let mut all = segments;
    match all.push_empty(others.count) {
        Ok(()) => Ok(all),
        Err(_) => Err(Stop::Memory),
    }
}

/// The segments that are kept.
fn kept_segments(alloc: Global, block: &Block) -> Result<Segments, Stop>
    requires { IsPrintable block.now }
    ensures made { IfOk result (λ segments. segments ≡ spec.kept_texts block.now) }
    ensures short { OnOk result (spec.first_long (spec.kept_texts block.now) ≡ None) }
    ensures stopped { IfErr result (IsStop (spec.first_long (spec.kept_texts block.now))) }
{
    let mut segments = Segments::new(alloc);
    add_segment(alloc, &mut segments, input_text(block.line()))?;
    for line in block.further() {
        add_segment(alloc, &mut segments, operands(line.bytes()))?;
    }
    Ok(segments)
}

/// The text of an input line, its third operand.
#[tactic(auto, using(crate::proofs::Printable::printable_operands))]
fn input_text(line: &[u8]) -> &[u8]
    ensures value { result.now ≡ spec.input_text line.now }
    ensures printable { IsTrue (are_printable line.now) → IsTrue (are_printable result.now) }
{
    operands(operands(operands(line)))
}

/// Adds a segment with this text.
#[tactic(auto, using(crate::proofs::Places::unprintable))]
fn add_segment(alloc: Global, segments: &mut Segments, text: &[u8]) -> Result<(), Stop>
    requires { IsTrue (are_printable text.now) }
    ensures ok { OnOk result (segments.new ≡ segments.old ++ text.now ∷ []) }
    ensures short { OnOk result (length text.now ≤ 1996) }
    ensures stopped { IfErr result (IsStop (spec.first_long (text.now ∷ []))) }
{
    let segment = match Segment::make(alloc, text) {
        Ok(segment) => segment,
        Err(SegmentRefused::Memory) => return Err(Stop::Memory),
        Err(SegmentRefused::TooLong(long)) => return Err(Stop::TooLong(long as u64)),
        Err(SegmentRefused::BadByte(_)) => unreachable!(),
    };
    match segments.push(segment) {
        Ok(()) => Ok(()),
        Err(_) => Err(Stop::Memory),
    }
}
