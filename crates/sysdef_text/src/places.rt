//! Where a macro may stand.
ghost use Rattle.std.specs.Prelude.{◌≡◌};
ghost use Rattle.sysdef_text.specs.MacroPlaces as spec;

use crate::Mode;
use crate::rules::{CONTROL_NOT_FIRST, OUT_OF_PLACE, TEXT_TOO_LONG};
use sysdef_rows::{Kind, format_name, known, program_name, row};
use system_types::Macro;
use text_rows::{also, is_word, printable_line, split_macro};
use tm_edge::Line;
use tm_types::Name;

pub(crate) fn mode_after(kind: Kind) -> Mode
    ensures { result ≡ spec.mode_after kind }
{
    match kind {
        Kind::Database | Kind::Segment => Mode::BehindDatabase,
        Kind::Application | Kind::Pcb => Mode::BehindApplication,
        Kind::Transaction => Mode::BehindTransaction,
        _ => Mode::Elsewhere,
    }
}

/// Rule 10 where a macro doesn't stand behind those that it belongs to.
fn family_place(mode: Mode, kind: Kind) -> Result<(), u8>
    ensures { result ≡ spec.family_place mode kind }
{
    match (mode, kind) {
        (Mode::BehindDatabase, Kind::Segment) => Ok(()),
        (Mode::BehindApplication, Kind::Pcb) => Ok(()),
        (Mode::BehindApplication | Mode::BehindTransaction, Kind::Transaction) => Ok(()),
        (_, Kind::Segment) => Err(OUT_OF_PLACE),
        (_, Kind::Pcb) => Err(OUT_OF_PLACE),
        (_, Kind::Transaction) => Err(OUT_OF_PLACE),
        _ => Ok(()),
    }
}

fn control_place(mode: Mode, kind: Kind) -> Result<(), u8>
    ensures { result ≡ spec.control_place mode kind }
{
    match (mode, kind) {
        (Mode::Start, Kind::Control) => Ok(()),
        (Mode::Start, _) | (_, Kind::Control) => Err(CONTROL_NOT_FIRST),
        _ => Ok(()),
    }
}

fn program_place(mode: Mode) -> Result<(), u8>
    ensures { result ≡ spec.program_line_place mode }
{
    match mode {
        Mode::Start => Err(CONTROL_NOT_FIRST),
        _ => Ok(()),
    }
}

/// Rule 12 where the text is too long and no line is behind.
pub(crate) fn within(over: bool, behind: &[Line]) -> Result<(), u8>
    ensures { result ≡ spec.within_definition over behind.now }
{
    match (over, behind) {
        (true, []) => Err(TEXT_TOO_LONG),
        _ => Ok(()),
    }
}

/// The macro that a line spells, or the lowest rule that it breaks.
#[tactic(auto, unfolding(crate::specs::MacroPlaces::macro_line))]
pub(crate) fn macro_line(
    kind: Kind,
    mode: Mode,
    over: bool,
    line: &[u8],
    behind: &[Line],
) -> Result<Macro, u8>
    ensures { result ≡ spec.macro_line kind mode over line.now behind.now }
{
    let (_, operands) = split_macro(line);
    let values = also(row(kind, &operands), known(kind, &operands));
    let place = also(family_place(mode, kind), control_place(mode, kind));
    also(
        also(values, printable_line(line)),
        also(place, within(over, behind)),
    )
}

/// The name of a PROGRAM, or the lowest rule that its line breaks.
#[tactic(auto, unfolding(crate::specs::MacroPlaces::program_line))]
pub(crate) fn program_line(mode: Mode, over: bool, line: &[u8], behind: &[Line]) -> Result<Name, u8>
    ensures { result ≡ spec.program_line mode over line.now behind.now }
{
    also(
        also(program_name(line), printable_line(line)),
        also(program_place(mode), within(over, behind)),
    )
}

pub(crate) fn is_program(line: &[u8]) -> bool
    ensures { result ≡ spec.is_program_word line.now }
{
    let (name, _) = split_macro(line);
    is_word(name, b"PROGRAM")
}

/// The name of an FMT, or the lowest rule that its line breaks.
#[tactic(auto, unfolding(crate::specs::MacroPlaces::format_head))]
pub(crate) fn format_line(mode: Mode, over: bool, line: &[u8], behind: &[Line]) -> Result<Name, u8>
    ensures { result ≡ spec.format_head mode over line.now behind.now }
{
    let (_, operands) = split_macro(line);
    also(
        also(format_name(&operands), printable_line(line)),
        also(program_place(mode), within(over, behind)),
    )
}

pub(crate) fn is_format(line: &[u8]) -> bool
    ensures { result ≡ spec.is_format_word line.now }
{
    let (name, _) = split_macro(line);
    is_word(name, b"FMT")
}
