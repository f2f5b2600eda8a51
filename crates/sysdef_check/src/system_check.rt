//! A definition is checked.
ghost use Rattle.std.specs.Prelude.{◌≡◌};
ghost use Rattle.sysdef_check.specs.Systems.{checked};
ghost use Rattle.sysdef_rules.specs.CheckAnswer.{AnswersCheck};

use crate::build::system_of;
use std::alloc::Global;
use sysdef_rules::{CrossRefused, cross_rules};
use system_types::{Definition, System};

/// The system that the definition defines.
///
/// The answer is the system exactly where the macros break no rule among each other, else the
/// lowest rule that is broken with the lowest line that breaks it, or want of memory.
#[tactic(auto, unfolding(crate::specs::Systems::checked))]
pub fn check(alloc: Global, definition: Definition) -> Result<System, CrossRefused>
    ensures { AnswersCheck result (checked definition) }
{
    match cross_rules(alloc, definition.items()) {
        Err(CrossRefused::BadCross(line, rule)) => Err(CrossRefused::BadCross(line, rule)),
        Err(CrossRefused::Memory) => Err(CrossRefused::Memory),
        Ok(()) => match system_of(alloc, definition.into_items()) {
            Ok(system) => Ok(system),
            Err(_) => Err(CrossRefused::Memory),
        },
    }
}
