//! The rules on how many macros there are.
ghost use Rattle.std.specs.Prelude.{◌≡◌};
ghost use Rattle.std.specs.Option.{option_copied};
ghost use Rattle.sysdef_rules.specs.Counts as spec;

use crate::lookups::{MacroKind, count, front};
use system_types::{Macro, MacroLine};

#[tactic(auto, unfolding(crate::specs::Counts::breaks_count))]
fn breaks_count(all: &[MacroLine], before: &[MacroLine], content: &Macro) -> bool
    ensures { result ≡ spec.breaks_count all.now before.now content.now }
{
    match content {
        Macro::Database { .. } => 8 <= count(MacroKind::Databases, before),
        Macro::Transaction(_) => 256 <= count(MacroKind::Codes, before),
        Macro::Terminal { .. } => 64 <= count(MacroKind::Terminals, before),
        Macro::Region { .. } => 8 <= count(MacroKind::Regions, before),
        Macro::Format { .. } => 32 <= count(MacroKind::Formats, before),
        Macro::Program { .. } => 64 <= count(MacroKind::Programs, before),
        Macro::End => count(MacroKind::Terminals, all) == 0 || count(MacroKind::Regions, all) == 0,
        _ => false,
    }
}

fn number_at(line: Option<&MacroLine>) -> Option<u32>
    ensures { result ≡ spec.macro_number_at (option_copied line.entry) }
{
    match line {
        Some(line) => Some(line.number),
        None => None,
    }
}

fn past_limit(content: &Macro, behind: &[MacroLine]) -> Option<u32>
    ensures { result ≡ spec.past_limit content.now behind.now }
{
    match content {
        Macro::Database { .. } => number_at(front(MacroKind::Segments, behind).get(16)),
        Macro::Application { .. } => number_at(front(MacroKind::Pcbs, behind).get(8)),
        _ => None,
    }
}

/// The lowest line of a macro and those that belong to it that is past a limit.
pub(crate) fn broken_by_count(
    all: &[MacroLine],
    before: &[MacroLine],
    line: &MacroLine,
    behind: &[MacroLine],
) -> Option<u32>
    ensures { result ≡ spec.broken_by_count all.now before.now line.now behind.now }
{
    if breaks_count(all, before, &line.content) {
        return Some(line.number);
    }
    past_limit(&line.content, behind)
}
