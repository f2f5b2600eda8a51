//! The rules that macros keep among each other, in their order.
ghost use Rattle.std.specs.Prelude.{◌≡◌, [], IfOk};
ghost use Rattle.std.specs.Option.{option_or};
ghost use Rattle.sysdef_rules.specs.Segments.{own_line};
ghost use Rattle.sysdef_rules.specs.Cross as spec;
ghost use Rattle.sysdef_rules.specs.CheckAnswer.{AnswersCheck};

use crate::CrossRefused;
use crate::calls::{CallRule, broken_by_call};
use crate::counts::broken_by_count;
use crate::named::NamedMacros;
use crate::segments::{SegmentRule, broken_by_segment};
use crate::sizes::{breaks_logs, breaks_size};
use std::alloc::{AllocError, Global};
use system_types::{Macro, MacroLine};

/// A rule that the macros of a definition keep among each other.
#[derive(Clone, Copy, Debug)]
pub enum CrossRule {
    /// A database stands in two DBD macros.
    DatabaseTwice,
    /// The segments of a database break their rule.
    OfSegments(SegmentRule),
    /// A PSB stands in two APPLCTN macros.
    PsbTwice,
    /// A PCB has a database that isn't there.
    DatabaseUnknown,
    /// A PCB is for output to a destination that is neither a terminal nor a code, or is a code with a
    /// scratch pad.
    DestinationUnknown,
    /// A code stands twice, or is the name of a terminal too.
    CodeTwice,
    /// A terminal stands twice.
    TerminalTwice,
    /// An APPLCTN has no PROGRAM.
    ProgramMissing,
    /// A PROGRAM has no APPLCTN, or stands twice.
    ProgramAstray,
    /// The calls of a PROGRAM break their rule.
    OfCalls(CallRule),
    /// A format stands twice, or breaks the rule among its lines, or a terminal's format isn't there.
    OfFormats,
    /// There are too many macros of a kind, or no terminal or no region.
    WrongCount,
    /// A scratch pad has a length of 1 to 15 or above 1,000.
    WrongPad,
    /// The disk would have more than 65,536 sectors.
    DiskTooLarge,
    /// A log area has less than 64 sectors for each that a record has.
    LogsTooShort,
}

#[tactic(auto, unfolding(crate::specs::Cross::breaks_database))]
fn breaks_database(before: &NamedMacros<'_>, content: &Macro) -> bool
    ensures { result ≡ spec.breaks_database before.now content.now }
{
    match content {
        Macro::Database { name, .. } => before.has_database(name),
        _ => false,
    }
}

#[tactic(auto, unfolding(crate::specs::Cross::breaks_psb))]
fn breaks_psb(before: &NamedMacros<'_>, content: &Macro) -> bool
    ensures { result ≡ spec.breaks_psb before.now content.now }
{
    match content {
        Macro::Application { psb } => before.has_application(psb),
        _ => false,
    }
}

#[tactic(auto, unfolding(crate::specs::Cross::breaks_pcb))]
fn breaks_pcb(all: &NamedMacros<'_>, content: &Macro) -> bool
    ensures { result ≡ spec.breaks_pcb all.now content.now }
{
    match content {
        Macro::DatabasePcb { database, .. } => !all.has_database(database),
        _ => false,
    }
}

#[tactic(auto, unfolding(crate::specs::Cross::breaks_destination))]
fn breaks_destination(all: &NamedMacros<'_>, content: &Macro) -> bool
    ensures { result ≡ spec.breaks_destination all.now content.now }
{
    match content {
        Macro::DestinationPcb { destination } => {
            !(all.has_terminal(destination) || all.has_code(destination))
                || all.has_conversational(destination)
        }
        _ => false,
    }
}

#[tactic(auto, unfolding(crate::specs::Cross::breaks_code))]
fn breaks_code(all: &NamedMacros<'_>, before: &NamedMacros<'_>, content: &Macro) -> bool
    ensures { result ≡ spec.breaks_code all.now before.now content.now }
{
    match content {
        Macro::Transaction(transaction) => {
            before.has_code(&transaction.code) || all.has_terminal(&transaction.code)
        }
        _ => false,
    }
}

#[tactic(auto, unfolding(crate::specs::Cross::breaks_terminal))]
fn breaks_terminal(before: &NamedMacros<'_>, content: &Macro) -> bool
    ensures { result ≡ spec.breaks_terminal before.now content.now }
{
    match content {
        Macro::Terminal { name, .. } => before.has_terminal(name),
        _ => false,
    }
}

#[tactic(auto, unfolding(crate::specs::Cross::breaks_application))]
fn breaks_application(all: &NamedMacros<'_>, content: &Macro) -> bool
    ensures { result ≡ spec.breaks_application all.now content.now }
{
    match content {
        Macro::Application { psb } => !all.has_program(psb),
        _ => false,
    }
}

#[tactic(auto, unfolding(crate::specs::Cross::breaks_program))]
fn breaks_program(all: &NamedMacros<'_>, before: &NamedMacros<'_>, content: &Macro) -> bool
    ensures { result ≡ spec.breaks_program all.now before.now content.now }
{
    match content {
        Macro::Program { name, .. } => !all.has_application(name) || before.has_program(name),
        _ => false,
    }
}

#[tactic(auto, unfolding(crate::specs::Cross::breaks_format))]
fn breaks_format(all: &NamedMacros<'_>, before: &NamedMacros<'_>, content: &Macro) -> bool
    ensures { result ≡ spec.breaks_format all.now before.now content.now }
{
    match content {
        Macro::Terminal {
            format: Some(format),
            ..
        } => !all.has_format(format),
        Macro::Format { name, .. } => before.has_format(name),
        _ => false,
    }
}

#[tactic(auto, unfolding(crate::specs::Cross::breaks_pad))]
fn breaks_pad(content: &Macro) -> bool
    ensures { result ≡ spec.breaks_pad content.now }
{
    match content {
        Macro::Transaction(transaction) => {
            transaction.scratch_pad != 0
                && !(16 <= transaction.scratch_pad && transaction.scratch_pad <= 1000)
        }
        _ => false,
    }
}

fn broken_within(line: &MacroLine) -> Option<u32>
    ensures { result ≡ spec.broken_within line.now line.now.content }
{
    match &line.content {
        Macro::Format { format, .. } => mfs_text::broken_line(format, line.number),
        _ => None,
    }
}

fn broken_by_format(
    all: &NamedMacros<'_>,
    before: &NamedMacros<'_>,
    line: &MacroLine,
) -> Option<u32>
    ensures { result ≡ option_or (own_line line.now (spec.breaks_format all.now before.now line.now.content)) (spec.broken_within line.now line.now.content) }
{
    if breaks_format(all, before, &line.content) {
        return Some(line.number);
    }
    broken_within(line)
}

fn own_line(line: &MacroLine, broken: bool) -> Option<u32>
    ensures { result ≡ own_line line.now broken }
{
    if broken { Some(line.number) } else { None }
}

/// The lowest line of the macro, and of those that belong to it, that breaks the rule.
#[tactic(auto, unfolding(crate::specs::Cross::broken_macro_line))]
fn broken_line(
    rule: CrossRule,
    all: &NamedMacros<'_>,
    before: &NamedMacros<'_>,
    line: &MacroLine,
    behind: &[MacroLine],
) -> Option<u32>
    ensures { result ≡ spec.broken_macro_line rule all.now before.now line.now behind.now }
{
    match rule {
        CrossRule::DatabaseTwice => own_line(line, breaks_database(before, &line.content)),
        CrossRule::OfSegments(rule) => broken_by_segment(rule, line, behind),
        CrossRule::PsbTwice => own_line(line, breaks_psb(before, &line.content)),
        CrossRule::DatabaseUnknown => own_line(line, breaks_pcb(all, &line.content)),
        CrossRule::DestinationUnknown => own_line(line, breaks_destination(all, &line.content)),
        CrossRule::CodeTwice => own_line(line, breaks_code(all, before, &line.content)),
        CrossRule::TerminalTwice => own_line(line, breaks_terminal(before, &line.content)),
        CrossRule::ProgramMissing => own_line(line, breaks_application(all, &line.content)),
        CrossRule::ProgramAstray => own_line(line, breaks_program(all, before, &line.content)),
        CrossRule::OfCalls(rule) => broken_by_call(rule, all.lines(), &line.content),
        CrossRule::OfFormats => broken_by_format(all, before, line),
        CrossRule::WrongCount => broken_by_count(all.lines(), before.lines(), line, behind),
        CrossRule::WrongPad => own_line(line, breaks_pad(&line.content)),
        CrossRule::DiskTooLarge => own_line(line, breaks_size(all.lines(), &line.content, behind)),
        CrossRule::LogsTooShort => own_line(line, breaks_logs(all.lines(), &line.content)),
    }
}

fn number_of(rule: CrossRule) -> u8
    ensures { result ≡ spec.rule_number rule }
{
    match rule {
        CrossRule::DatabaseTwice => 1,
        CrossRule::OfSegments(SegmentRule::Twice) => 2,
        CrossRule::OfSegments(SegmentRule::ParentAstray) => 3,
        CrossRule::OfSegments(SegmentRule::KeyTooLong) => 4,
        CrossRule::OfSegments(SegmentRule::LevelTooHigh) => 5,
        CrossRule::PsbTwice => 6,
        CrossRule::DatabaseUnknown => 7,
        CrossRule::DestinationUnknown => 8,
        CrossRule::CodeTwice => 9,
        CrossRule::TerminalTwice => 10,
        CrossRule::ProgramMissing => 11,
        CrossRule::ProgramAstray => 12,
        CrossRule::OfCalls(CallRule::PcbMissing) => 13,
        CrossRule::OfCalls(CallRule::SsaAstray) => 14,
        CrossRule::OfCalls(CallRule::NoInsertPath) => 15,
        CrossRule::OfFormats => 16,
        CrossRule::WrongCount => 17,
        CrossRule::WrongPad => 18,
        CrossRule::DiskTooLarge => 20,
        CrossRule::LogsTooShort => 21,
    }
}

/// The lowest line that breaks the rule.
fn first_line(
    alloc: Global,
    rule: CrossRule,
    all: &NamedMacros<'_>,
    lines: &[MacroLine],
) -> Result<Option<u32>, AllocError>
    requires { lines.now ≡ all.now }
    ensures { IfOk result (λ line. line ≡ spec.first_line rule all.now [] all.now) }
{
    let mut before = NamedMacros::before(alloc, lines);
    for (index, line) in lines.iter().enumerate() {
        if let Some(number) = broken_line(rule, all, &before, line, &lines[index + 1..]) {
            return Ok(Some(number));
        }
        before = before.with(&lines[..index + 1], line)?;
    }
    Ok(None)
}

/// The lowest line that breaks the rule, with the rule's number.
#[tactic(auto, unfolding(crate::specs::Cross::keeps))]
fn keeps(alloc: Global, rule: CrossRule, all: &NamedMacros<'_>) -> Result<(), CrossRefused>
    ensures { AnswersCheck result (spec.keeps rule all.now) }
{
    match first_line(alloc, rule, all, all.lines()) {
        Ok(Some(line)) => Err(CrossRefused::BadCross(line, number_of(rule))),
        Ok(None) => Ok(()),
        Err(_) => Err(CrossRefused::Memory),
    }
}

/// The lowest line that breaks the first rule of the list that is broken, with the rule's number.
fn keep_all(alloc: Global, rules: &[CrossRule], all: &NamedMacros<'_>) -> Result<(), CrossRefused>
    ensures { AnswersCheck result (spec.keeps_all rules.now all.now) }
{
    for &rule in rules {
        keeps(alloc, rule, all)?;
    }
    Ok(())
}

/// The lowest line that breaks the lowest rule that is broken, and this rule's number.
#[tactic(auto, unfolding(crate::specs::Cross::cross_rules))]
pub fn cross_rules(alloc: Global, lines: &[MacroLine]) -> Result<(), CrossRefused>
    ensures { AnswersCheck result (spec.cross_rules lines.now) }
{
    let rules = [
        CrossRule::DatabaseTwice,
        CrossRule::OfSegments(SegmentRule::Twice),
        CrossRule::OfSegments(SegmentRule::ParentAstray),
        CrossRule::OfSegments(SegmentRule::KeyTooLong),
        CrossRule::OfSegments(SegmentRule::LevelTooHigh),
        CrossRule::PsbTwice,
        CrossRule::DatabaseUnknown,
        CrossRule::DestinationUnknown,
        CrossRule::CodeTwice,
        CrossRule::TerminalTwice,
        CrossRule::ProgramMissing,
        CrossRule::ProgramAstray,
        CrossRule::OfCalls(CallRule::PcbMissing),
        CrossRule::OfCalls(CallRule::SsaAstray),
        CrossRule::OfCalls(CallRule::NoInsertPath),
        CrossRule::OfFormats,
        CrossRule::WrongCount,
        CrossRule::WrongPad,
        CrossRule::DiskTooLarge,
        CrossRule::LogsTooShort,
    ];
    match NamedMacros::of(alloc, lines) {
        Ok(all) => keep_all(alloc, &rules, &all),
        Err(_) => Err(CrossRefused::Memory),
    }
}
