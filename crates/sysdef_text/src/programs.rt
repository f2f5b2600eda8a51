//! The lines of a program within a definition.
ghost use Rattle.std.specs.Prelude.{◌≡◌, ◌+◌, ◌<◌, ◌≤◌, ◌^◌, length};
ghost use Rattle.text_rows.specs.Refusals.{AnswersLines};
ghost use Rattle.sysdef_text.specs.Programs as spec;

use crate::places::within;
use crate::rules::END_MISSING;
use script_text::rules::ENDPROG_MISSING;
use script_text::{Program, is_last, read_program};
use std::alloc::Global;
use text_rows::rules::NOT_PRINTABLE;
use text_rows::{LineRefused, also, is_passed_over, printable_line};
use tm_edge::Line;

/// The program that stands in the lines, the first of which has this number.
#[tactic(auto, unfolding(crate::specs::Programs::program_block))]
pub(crate) fn program_block(
    alloc: Global,
    over: bool,
    number: u32,
    lines: &[Line],
) -> Result<Program, LineRefused>
    requires { number + length lines.now < 2 ^ 32 }
    ensures { AnswersLines result (spec.program_block over number lines.now) }
{
    let bytes = program_bytes(over, number, lines);
    match (read_program(alloc, lines, number), bytes) {
        (Ok(program), Ok(())) => Ok(program),
        (Ok(_), Err((line, rule))) => Err(LineRefused::BadLine(line, rule)),
        (Err(LineRefused::BadLine(line, rule)), Ok(())) => {
            Err(LineRefused::BadLine(line, lifted_rule(rule)))
        }
        (Err(LineRefused::BadLine(line, rule)), Err(other)) => {
            let (line, rule) = lower((line, lifted_rule(rule)), other);
            Err(LineRefused::BadLine(line, rule))
        }
        (Err(LineRefused::Memory), _) => Err(LineRefused::Memory),
    }
}

/// A rule of scripts, as it is numbered in a definition.
fn lifted_rule(rule: u8) -> u8
    requires { rule ≤ 11 }
    ensures { result ≡ spec.lifted_rule rule }
{
    match rule {
        NOT_PRINTABLE => NOT_PRINTABLE,
        ENDPROG_MISSING => END_MISSING,
        _ => 20 + rule,
    }
}

pub(crate) fn lower(fault: (u32, u8), other: (u32, u8)) -> (u32, u8)
    ensures { result ≡ spec.lower fault other }
{
    if fault.0 < other.0 {
        fault
    } else if other.0 < fault.0 {
        other
    } else {
        (fault.0, fault.1.min(other.1))
    }
}

#[tactic(auto, unfolding(crate::specs::Programs::line_bytes))]
fn line_bytes(over: bool, line: &[u8], behind: &[Line]) -> Result<(), u8>
    ensures { result ≡ spec.line_bytes over line.now behind.now }
{
    if is_passed_over(line) {
        within(over, behind)
    } else {
        also(printable_line(line), within(over, behind))
    }
}

/// The first line up to ENDPROG that has a byte that isn't printable, or that passes the limit.
fn program_bytes(over: bool, number: u32, lines: &[Line]) -> Result<(), (u32, u8)>
    requires { number + length lines.now < 2 ^ 32 }
    ensures { result ≡ spec.program_bytes over number lines.now }
{
    for (index, line) in lines.iter().enumerate() {
        if let Err(rule) = line_bytes(over, line.bytes(), &lines[index + 1..]) {
            return Err((number + index as u32, rule));
        }
        if is_last(line.bytes()) {
            return Ok(());
        }
    }
    Ok(())
}
