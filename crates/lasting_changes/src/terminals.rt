//! The terminals, with the numbers of their last inputs.
ghost use Rattle.std.specs.Prelude.{◌≡◌, ◌<◌, Some, length};
ghost use Rattle.model_system.specs.Lists.{change_at};
ghost use Rattle.model_machine.specs.LastingSteps.{with_last_number};

use model_machine::TerminalState;

/// Makes this number the last input's of the terminal at this place.
pub fn note_input(terminals: &mut Vec<TerminalState>, place: usize, number: u64)
    requires { place < length terminals.old.items }
    ensures { terminals.new.items ≡ change_at terminals.old.items (Some place) (with_last_number number) }
{
    set_last(&mut terminals[place], number);
}

fn set_last(terminal: &mut TerminalState, number: u64)
    ensures { terminal.new ≡ with_last_number number terminal.old }
{
    terminal.last = number;
}
