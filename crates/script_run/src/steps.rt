//! From statement to statement, up to the next call or end.
ghost use Rattle.std.specs.Prelude.{◌≡◌, ◌+◌, drop, IfOk, OnOk, OnErr, IfSome};
ghost use Rattle.model_system.specs.Programs.{is_label};
ghost use Rattle.model_system.specs.Script as spec;
ghost use Rattle.script_run.specs.RunningScript.{HasTexts, GivesRoom, ScriptSteps};

use crate::script::Script;
use crate::statements::execute;
use model_system::abends::TOO_MANY_STATEMENTS;
use model_system::{Need, Program, Statement};
use std::alloc::Global;
use tm_types::{AbendCode, Memory};

#[tactic(auto, using(crate::proofs::GoingOn::going_on_steps))]
/// Lets the script go on to its next call or end.
///
/// After want of memory it is at some place before that.
pub fn go_on(
    alloc: Global,
    limit: u32,
    program: &Program,
    script: &mut Script,
) -> Result<Need, Memory>
    ensures need { IfOk result (λ need. need ≡ spec.need_at program.now limit script.old.here) }
    ensures here { OnOk result (script.new.here ≡ spec.script_settled program.now limit script.old.here) }
    ensures texts { IfOk result HasTexts }
    ensures room { IfOk result (λ need. GivesRoom need script.new.here) }
    ensures stood { script.new.stood ≡ script.old.stood }
{
    loop {
        match step(alloc, limit, program, script) {
            Ok(Some(need)) => return Ok(need),
            Ok(None) => {}
            Err(error) => return Err(error),
        }
    }
}

/// Executes one statement: the script goes on, or the answer is what it needs where it arrived.
fn step(
    alloc: Global,
    limit: u32,
    program: &Program,
    script: &mut Script,
) -> Result<Option<Need>, Memory>
    ensures ok { IfOk result (ScriptSteps program.now limit script.old script.new) }
    ensures stood { script.new.stood ≡ script.old.stood }
{
    script.arrive(first_statement(program, script.place()));
    let Some(line) = program.line(script.place()) else {
        return Ok(Some(Need::Ended));
    };
    if limit <= script.executed() {
        return Ok(Some(Need::Abend(AbendCode {
            number: TOO_MANY_STATEMENTS,
        })));
    }
    execute(alloc, script, &line.statement)
}

/// The place of the first line from this one on that is no label.
fn first_statement(program: &Program, place: usize) -> usize
    ensures { result ≡ place + spec.labels_first (drop place program.now) }
{
    let lines = program.lines();
    let mut here = place;
    while here < lines.len() {
        if !is_label(&lines[here].statement) {
            return here;
        }
        here += 1;
    }
    here
}

fn is_label(statement: &Statement) -> bool
    ensures { result ≡ is_label statement.now }
{
    matches!(statement, Statement::Label(_))
}
