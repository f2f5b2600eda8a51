//! The system that macros define.
ghost use Rattle.std.specs.Prelude.{◌≡◌, ◌<◌, ◌++◌, [], Ok, None, IfOk, OnOk, length, map};
ghost use Rattle.system_types.specs.Definitions.{IsDefinition};
ghost use Rattle.system_types.specs.Parts.{system_of_parts};
ghost use Rattle.sysdef_rules.specs.Cross.{cross_rules};
ghost use Rattle.sysdef_check.specs.Systems as spec;

use crate::databases::{databases_in, pcbs_in};
use model_system::{Classes, Code, Pcbs, Screen, SystemFormat, SystemProgram};
use std::alloc::{AllocError, Global};
use sysdef_rules::{control_in, pcbs_of};
use system_types::{Macro, MacroLine, System, SystemParts};
use tm_types::{Dbd, Name};

/// The system that the macros define, which break no rule among each other.
pub(crate) fn system_of(alloc: Global, lines: Vec<MacroLine>) -> Result<System, AllocError>
    requires definition { IsDefinition lines.items }
    requires kept { cross_rules lines.items ≡ Ok tt }
    ensures { IfOk result (λ system. system ≡ spec.system_of lines.items) }
{
    System::new(alloc, parts_in(alloc, lines)?)
}

fn parts_in(alloc: Global, lines: Vec<MacroLine>) -> Result<SystemParts, AllocError>
    requires definition { IsDefinition lines.items }
    requires kept { cross_rules lines.items ≡ Ok tt }
    ensures { IfOk result (λ parts. system_of_parts parts ≡ spec.system_of lines.items) }
{
    let (qbytes, logs) = control_in(&lines);
    let databases = databases_in(alloc, &lines)?;
    let codes = codes_in(alloc, &lines)?;
    let terminals = terminals_in(alloc, &lines)?;
    let screens = screens_in(alloc, &lines)?;
    let regions = regions_in(alloc, &lines)?;
    let pcbs = pcb_lists(alloc, &databases, &lines)?;
    let (programs, formats) = blocks_in(alloc, lines, pcbs)?;
    Ok(SystemParts {
        qbytes,
        logs,
        databases,
        programs,
        codes,
        terminals,
        screens,
        formats,
        regions,
    })
}

fn codes_in(alloc: Global, lines: &[MacroLine]) -> Result<Vec<Code>, AllocError>
    ensures { IfOk result (λ codes. codes.items ≡ spec.codes_in None lines.now) }
{
    let mut codes = Vec::new(alloc);
    let mut psb: Option<Name> = None;
    for line in lines {
        if let Some(code) = code_in(&psb, &line.content) {
            codes.push(code)?;
        }
        psb = psb_after(&psb, &line.content);
    }
    Ok(codes)
}

fn code_in(psb: &Option<Name>, content: &Macro) -> Option<Code>
    ensures { result ≡ spec.code_in psb.now content.now }
{
    match (psb, content) {
        (Some(psb), Macro::Transaction(transaction)) => Some(Code {
            psb: *psb,
            transaction: *transaction,
        }),
        _ => None,
    }
}

fn psb_after(psb: &Option<Name>, content: &Macro) -> Option<Name>
    ensures { result ≡ spec.psb_after psb.now content.now }
{
    match content {
        Macro::Application { psb } => Some(*psb),
        _ => *psb,
    }
}

fn terminals_in(alloc: Global, lines: &[MacroLine]) -> Result<Vec<Name>, AllocError>
    ensures { IfOk result (λ names. names.items ≡ spec.terminals_in lines.now) }
{
    let mut terminals = Vec::new(alloc);
    for line in lines {
        if let Macro::Terminal { name, .. } = &line.content {
            terminals.push(*name)?;
        }
    }
    Ok(terminals)
}

fn screens_in(alloc: Global, lines: &[MacroLine]) -> Result<Vec<Screen>, AllocError>
    ensures { IfOk result (λ screens. screens.items ≡ spec.screens_in lines.now) }
{
    let mut screens = Vec::new(alloc);
    for line in lines {
        if let Some(screen) = screen_in(&line.content) {
            screens.push(screen)?;
        }
    }
    Ok(screens)
}

fn screen_in(content: &Macro) -> Option<Screen>
    ensures { result ≡ spec.screen_in content.now }
{
    match content {
        Macro::Terminal {
            name,
            format: Some(format),
        } => Some(Screen {
            terminal: *name,
            format: *format,
        }),
        _ => None,
    }
}

fn regions_in(alloc: Global, lines: &[MacroLine]) -> Result<Vec<Classes>, AllocError>
    ensures { IfOk result (λ regions. regions.items ≡ spec.regions_in lines.now) }
{
    let mut regions = Vec::new(alloc);
    for line in lines {
        if let Macro::Region { classes } = &line.content {
            regions.push(classes.copied())?;
        }
    }
    Ok(regions)
}

/// The PCBs for each line, none where it is no PROGRAM.
fn pcb_lists(alloc: Global, databases: &[Dbd], lines: &[MacroLine]) -> Result<Vec<Pcbs>, AllocError>
    requires { length databases.now < 256 }
    ensures { IfOk result (λ lists. lists.items ≡ map (λ line. spec.pcbs_for databases.now lines.now line.content) lines.now) }
{
    let mut lists = Vec::new(alloc);
    for line in lines {
        lists.push(pcbs_for(alloc, databases, lines, &line.content)?)?;
    }
    Ok(lists)
}

fn pcbs_for(
    alloc: Global,
    databases: &[Dbd],
    lines: &[MacroLine],
    content: &Macro,
) -> Result<Pcbs, AllocError>
    requires { length databases.now < 256 }
    ensures { IfOk result (λ pcbs. pcbs ≡ spec.pcbs_for databases.now lines.now content.now) }
{
    match content {
        Macro::Program { name, .. } => pcbs_in(alloc, databases, pcbs_of(name, lines)),
        _ => Ok(Pcbs::new(alloc)),
    }
}

/// The programs, with the PCBs that stand in the list for their lines, and the formats.
fn blocks_in(
    alloc: Global,
    lines: Vec<MacroLine>,
    lists: Vec<Pcbs>,
) -> Result<(Vec<SystemProgram>, Vec<SystemFormat>), AllocError>
    requires { length lists.items ≡ length lines.items }
    ensures programs { IfOk result (λ blocks. blocks.0.items ≡ spec.programs_with lines.items lists.items) }
    ensures formats { IfOk result (λ blocks. blocks.1.items ≡ spec.formats_in lines.items) }
{
    let mut programs = Vec::new(alloc);
    let mut formats = Vec::new(alloc);
    let mut lists = lists.into_iter();
    for line in lines {
        let Some(pcbs) = lists.next() else {
            unreachable!();
        };
        add_block(&mut programs, &mut formats, pcbs, line.content)?;
    }
    Ok((programs, formats))
}

/// Adds the program or the format that a macro is.
fn add_block(
    programs: &mut Vec<SystemProgram>,
    formats: &mut Vec<SystemFormat>,
    pcbs: Pcbs,
    content: Macro,
) -> Result<(), AllocError>
    ensures programs { OnOk result (programs.new.items ≡ programs.old.items ++ spec.value_and_then (spec.program_in pcbs content) []) }
    ensures formats { OnOk result (formats.new.items ≡ formats.old.items ++ spec.value_and_then (spec.format_in content) []) }
{
    match content {
        Macro::Program { name, program } => {
            programs.push(SystemProgram {
                psb: name,
                pcbs,
                program,
            })?;
            Ok(())
        }
        Macro::Format { name, format } => {
            formats.push(SystemFormat { name, format })?;
            Ok(())
        }
        _ => Ok(()),
    }
}
