//! Turns of the regions, one after another.
ghost use Rattle.std.specs.Prelude.{◌≡◌, ◌≤◌, true, []};
ghost use Rattle.model_session.specs.declared.asked.Asked.TheVariants.{Quiet};
ghost use Rattle.tm_control.specs.ControlCalls.{StaysSo};
ghost use Rattle.session_lives.specs.ControlCounts.{KeepsPace};
ghost use Rattle.session_lives.specs.AskedControl.{IsAsked};
ghost use Rattle.session_lives.specs.RegionTurns.{HasTurned};

use crate::called::Called;
use session_text::{ANSWER_ROOM, Printed, quiet_line};
use tm_control::{Control, ControlFault};
use tm_disk::Disk;

/// How turns ended.
#[derive(Clone, Copy, Debug)]
pub enum Turning {
    /// So many were done, and nothing is left to do, or something is.
    Ended(u32, bool),
    /// The disk failed in one.
    Broke,
    /// There was no memory for one.
    Memory,
    /// A counter was spent.
    Spent,
}

/// Lets the regions turn while something is left to do, so many times at most, and prints their one
/// line. After want of memory the turns that were done stand.
pub(crate) fn answer_quiet<D: Disk>(
    control: &mut Control<D>,
    printed: &mut Printed,
    most: u32,
) -> Called
    requires up { control.old.up ≡ true }
    requires empty { printed.old.text ≡ [] }
    requires room { ANSWER_ROOM ≤ printed.old.room }
    ensures asked { IsAsked D.state (Quiet most) control.old control.new printed.new.text result }
    ensures pace { KeepsPace D.state control.old control.new }
    ensures stays { StaysSo D.state control.old control.new }
{
    match turn_while_left(control, most) {
        Turning::Ended(turns, quiet) => {
            quiet_line(printed, quiet, turns);
            Called::Answered
        }
        Turning::Broke => Called::Broke,
        Turning::Memory => Called::Memory,
        Turning::Spent => Called::Spent,
    }
}

/// Lets the regions turn, 1, 2, .. and round again, while something is left to do. Answers how many
/// turns that took, and whether nothing is left now.
fn turn_while_left<D: Disk>(control: &mut Control<D>, most: u32) -> Turning
    requires up { control.old.up ≡ true }
    ensures turned { HasTurned D.state most result control.old control.new }
    ensures pace { KeepsPace D.state control.old control.new }
    ensures stays { StaysSo D.state control.old control.new }
{
    for turns in 0..most {
        if control.quiet() {
            return Turning::Ended(turns, true);
        }
        let regions = control.system().regions().len();
        let region = (turns as usize % regions) as u32 + 1;
        let _ = control.is_up();
        match control.turn(region) {
            Ok(_) => {}
            Err(ControlFault::Disk) => return Turning::Broke,
            Err(ControlFault::Memory) => return Turning::Memory,
            Err(ControlFault::Spent(_)) => return Turning::Spent,
        }
    }
    Turning::Ended(most, control.quiet())
}
