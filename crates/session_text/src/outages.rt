//! The lines of stops and restarts.
ghost use Rattle.std.specs.Prelude.{◌≡◌, ◌≤◌, ◌++◌, Ok};
ghost use Rattle.model_session.specs.Text as text;

use crate::lines::ANSWER_ROOM;
use crate::printed::Printed;
use model_machine::CheckpointRefused;
use model_session::ImageRefused;

/// Adds the line for a command that breaks a rule of commands.
pub fn bad_command_line(out: &mut Printed, rule: u8)
    requires { ANSWER_ROOM ≤ out.old.room }
    ensures { out.new.text ≡ out.old.text ++ text.bad_command_text rule }
{
    out.push(b"BAD COMMAND ");
    out.push_number(u64::from(rule));
    out.push(b"\n");
}

/// Adds the line that answers a checkpoint, behind which the system is down or not. A fault has no line.
pub fn checkpoint_line(out: &mut Printed, freeze: bool, answer: &Result<u64, CheckpointRefused>)
    requires { ANSWER_ROOM ≤ out.old.room }
    ensures { out.new.text ≡ out.old.text ++ text.checkpoint_text freeze answer.now }
{
    match answer {
        Ok(number) => taken_line(out, freeze, *number),
        Err(CheckpointRefused::BusyRegion(region, id)) => {
            out.push(b"REFUSED FREEZE REGION ");
            out.push_number(u64::from(*region));
            out.push(b" MESSAGE ");
            out.push_number(*id);
            out.push(b"\n");
        }
        Err(CheckpointRefused::Fault(_)) => {}
    }
}

fn taken_line(out: &mut Printed, freeze: bool, number: u64)
    requires { ANSWER_ROOM ≤ out.old.room }
    ensures { out.new.text ≡ out.old.text ++ text.checkpoint_text freeze (Ok number) }
{
    if freeze {
        out.push(b"FROZEN ");
    } else {
        out.push(b"CHECKPOINT ");
    }
    out.push_number(number);
    out.push(b"\n");
}

/// Adds the line for power that failed.
pub fn power_line(out: &mut Printed)
    requires { ANSWER_ROOM ≤ out.old.room }
    ensures { out.new.text ≡ out.old.text ++ text.power_text }
{
    out.push(b"POWER\n");
}

/// Adds the line for whatever isn't served while the system is down.
pub fn down_line(out: &mut Printed)
    requires { ANSWER_ROOM ≤ out.old.room }
    ensures { out.new.text ≡ out.old.text ++ text.down_text }
{
    out.push(b"DOWN\n");
}

/// Adds the line for a disk that was to be armed.
pub fn armed_line(out: &mut Printed, is_armed: bool, writes: u64)
    requires { ANSWER_ROOM ≤ out.old.room }
    ensures { out.new.text ≡ out.old.text ++ text.armed_text is_armed writes }
{
    if is_armed {
        out.push(b"ARMED ");
        out.push_number(writes);
        out.push(b"\n");
    } else {
        out.push(b"NOT ARMED\n");
    }
}

/// Adds the line for a restart while the system is up.
pub fn up_line(out: &mut Printed)
    requires { ANSWER_ROOM ≤ out.old.room }
    ensures { out.new.text ≡ out.old.text ++ text.up_text }
{
    out.push(b"UP\n");
}

/// Adds the line for a life that opened, with an empty machine or not.
pub fn opened_line(out: &mut Printed, is_cold: bool)
    requires { ANSWER_ROOM ≤ out.old.room }
    ensures { out.new.text ≡ out.old.text ++ text.opened_text is_cold }
{
    if is_cold {
        out.push(b"COLD STARTED\n");
    } else {
        out.push(b"RESTARTED\n");
    }
}

/// Adds the line for a disk that can't be opened.
pub fn image_line(out: &mut Printed, refused: &ImageRefused)
    requires { ANSWER_ROOM ≤ out.old.room }
    ensures { out.new.text ≡ out.old.text ++ text.image_text refused.now }
{
    match refused {
        ImageRefused::Rule(rule, sector) => {
            out.push(b"IMAGE ");
            out.push_number(u64::from(*rule));
            out.push(b" ");
            out.push_number(u64::from(*sector));
            out.push(b"\n");
        }
        ImageRefused::Text(place) => {
            out.push(b"IMAGE TEXT ");
            out.push_number(u64::from(*place));
            out.push(b"\n");
        }
        ImageRefused::Size(needed, has) => {
            out.push(b"IMAGE SIZE ");
            out.push_number(u64::from(*needed));
            out.push(b" ");
            out.push_number(u64::from(*has));
            out.push(b"\n");
        }
    }
}
