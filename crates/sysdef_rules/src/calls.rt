//! The rules on the calls of a program.
ghost use Rattle.std.specs.Prelude.{◌≡◌, None};
ghost use Rattle.std.specs.Option.{option_copied};
ghost use Rattle.sysdef_rules.specs.Lookups.{macro_line_numbered};
ghost use Rattle.system_types.specs.Calls.{is_database_function, is_output_function, segment_name};
ghost use Rattle.sysdef_rules.specs.Calls as spec;

use crate::lookups::{has_segment, numbered, parent_named, pcbs_of, segments_of};
use model_system::{ScriptLine, ScriptSsa, Statement};
use system_types::{Macro, MacroLine};
use tm_types::{Function, Name};

/// A rule that the calls of a program keep.
#[derive(Clone, Copy, Debug)]
pub enum CallRule {
    /// A PCB isn't there, or hasn't the function.
    PcbMissing,
    /// A segment search argument names no segment of the PCB's database, or none below the one before;
    /// or stands on a PCB without a database.
    SsaAstray,
    /// The arguments of an ISRT aren't one a level from the root, by `=` but the last, which is a name.
    NoInsertPath,
}

fn is_database_function(function: Function) -> bool
    ensures { result ≡ is_database_function function }
{
    !matches!(
        function,
        Function::PURG | Function::CHNG | Function::ROLB | Function::ROLL
    )
}

fn is_output_function(function: Function) -> bool
    ensures { result ≡ is_output_function function }
{
    matches!(function, Function::ISRT | Function::PURG | Function::CHNG)
}

fn serves(pcb: Option<&MacroLine>, function: Function) -> bool
    ensures { result ≡ spec.pcb_serves (option_copied pcb.entry) function }
{
    match pcb {
        Some(line) => pcb_has(&line.content, function),
        None => false,
    }
}

fn pcb_has(content: &Macro, function: Function) -> bool
    ensures { result ≡ spec.pcb_has content.now function }
{
    match content {
        Macro::DatabasePcb { .. } => is_database_function(function),
        Macro::DestinationPcb { .. } | Macro::ModifiablePcb => is_output_function(function),
        _ => false,
    }
}

fn misses_pcb(pcbs: &[MacroLine], number: u8, function: Function) -> bool
    ensures { result ≡ spec.misses_pcb pcbs.now number function }
{
    if number == 0 {
        return false;
    }
    !serves(numbered(pcbs, number), function)
}

fn segments_in<'a>(all: &'a [MacroLine], content: &Macro) -> Option<&'a [MacroLine]>
    ensures { option_copied result ≡ spec.segments_in all.now content.now }
{
    match content {
        Macro::DatabasePcb { database, .. } => Some(segments_of(database, all)),
        _ => None,
    }
}

/// The segments of the database that the PCB of this number is on.
fn segments_at<'a>(all: &'a [MacroLine], pcbs: &[MacroLine], number: u8) -> Option<&'a [MacroLine]>
    ensures { option_copied result ≡ spec.segments_of_pcb all.now (macro_line_numbered pcbs.now number) }
{
    match numbered(pcbs, number) {
        Some(line) => segments_in(all, &line.content),
        None => None,
    }
}

fn segment_name(ssa: &ScriptSsa) -> &Name
    ensures { result.now ≡ segment_name ssa.now }
{
    match ssa {
        ScriptSsa::Any(name) | ScriptSsa::Equal(name, _) | ScriptSsa::AtLeast(name, _) => name,
    }
}

/// Whether the one segment is a descendant of the other.
#[tactic(auto, using(crate::proofs::Ancestors::above_steps), unfolding(crate::specs::Calls::is_descendant))]
fn is_descendant(segments: &[MacroLine], name: &Name, above: &Name) -> bool
    ensures { result ≡ spec.is_descendant segments.now name.now above.now }
{
    let mut parent = parent_named(segments, name);
    for _ in 0..segments.len() {
        match parent {
            None => return false,
            Some(name) if &name == above => return true,
            Some(name) => parent = parent_named(segments, &name),
        }
    }
    false
}

fn is_below(segments: &[MacroLine], name: &Name, above: Option<&Name>) -> bool
    ensures { result ≡ spec.is_below_segment segments.now name.now (option_copied above.entry) }
{
    match above {
        Some(above) => is_descendant(segments, name, above),
        None => true,
    }
}

/// Whether the arguments name segments, each a descendant of the one before.
fn go_down(segments: &[MacroLine], ssas: &[ScriptSsa]) -> bool
    ensures { result ≡ spec.go_down segments.now None ssas.now }
{
    let mut above = None;
    for ssa in ssas {
        let name = segment_name(ssa);
        if !has_segment(name, segments) || !is_below(segments, name, above) {
            return false;
        }
        above = Some(name);
    }
    true
}

fn strays(segments: Option<&[MacroLine]>, ssas: &[ScriptSsa]) -> bool
    ensures { result ≡ spec.strays (option_copied segments.entry) ssas.now }
{
    match segments {
        Some(segments) => !go_down(segments, ssas),
        None => !ssas.is_empty(),
    }
}

fn is_parent(above: Option<&Name>, parent: Option<Name>) -> bool
    ensures { result ≡ spec.is_parent (option_copied above.entry) parent }
{
    match (above, parent) {
        (Some(above), Some(parent)) => &parent == above,
        (None, None) => true,
        _ => false,
    }
}

fn has_insert_form(ssa: &ScriptSsa, behind: &[ScriptSsa]) -> bool
    ensures { result ≡ spec.has_insert_form ssa.now behind.now }
{
    match (ssa, behind) {
        (ScriptSsa::Any(_), []) => true,
        (ScriptSsa::Equal(_, _), [_, ..]) => true,
        _ => false,
    }
}

fn fill_levels(segments: &[MacroLine], ssas: &[ScriptSsa]) -> bool
    ensures { result ≡ spec.fill_levels segments.now None ssas.now }
{
    let mut above = None;
    for (index, ssa) in ssas.iter().enumerate() {
        let name = segment_name(ssa);
        if !is_parent(above, parent_named(segments, name))
            || !has_insert_form(ssa, &ssas[index + 1..])
        {
            return false;
        }
        above = Some(name);
    }
    true
}

fn is_insert_path(segments: &[MacroLine], ssas: &[ScriptSsa]) -> bool
    ensures { result ≡ spec.is_insert_path segments.now ssas.now }
{
    match ssas {
        [] => false,
        [_, ..] => fill_levels(segments, ssas),
    }
}

fn misses_path(segments: Option<&[MacroLine]>, function: Function, ssas: &[ScriptSsa]) -> bool
    ensures { result ≡ spec.misses_path (option_copied segments.entry) function ssas.now }
{
    match (segments, function) {
        (Some(segments), Function::ISRT) => !is_insert_path(segments, ssas),
        _ => false,
    }
}

fn breaks_call(rule: CallRule, all: &[MacroLine], pcbs: &[MacroLine], statement: &Statement) -> bool
    ensures { result ≡ spec.breaks_call rule all.now pcbs.now statement.now }
{
    let Statement::Call(function, pcb, _, ssas) = statement else {
        return false;
    };
    match rule {
        CallRule::PcbMissing => misses_pcb(pcbs, *pcb, *function),
        CallRule::SsaAstray => strays(segments_at(all, pcbs, *pcb), ssas.as_slice()),
        CallRule::NoInsertPath => {
            misses_path(segments_at(all, pcbs, *pcb), *function, ssas.as_slice())
        }
    }
}

/// The line of the first call of a script that breaks the rule.
pub(crate) fn broken_call(
    rule: CallRule,
    all: &[MacroLine],
    pcbs: &[MacroLine],
    lines: &[ScriptLine],
) -> Option<u32>
    ensures { result ≡ spec.broken_call rule all.now pcbs.now lines.now }
{
    for line in lines {
        if breaks_call(rule, all, pcbs, &line.statement) {
            return Some(line.number);
        }
    }
    None
}

/// The lowest line of a call that breaks the rule.
pub(crate) fn broken_by_call(rule: CallRule, all: &[MacroLine], content: &Macro) -> Option<u32>
    ensures { result ≡ spec.broken_by_call rule all.now content.now }
{
    match content {
        Macro::Program { name, program } => {
            broken_call(rule, all, pcbs_of(name, all), program.lines())
        }
        _ => None,
    }
}
