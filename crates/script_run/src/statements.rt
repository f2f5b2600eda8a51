//! What each statement does.
ghost use Rattle.std.specs.Prelude.{◌≡◌, ◌≤◌, [], IsTrue, IfOk, OnErr, IfSome, map};
ghost use Rattle.std.specs.List.{list_all};
ghost use Rattle.std.specs.Option.{option_map_or};
ghost use Rattle.tm_types.specs.Segment.{IsSegmentText};
ghost use Rattle.model_system.specs.Programs.{is_plain, is_statement};
ghost use Rattle.model_system.specs.declared.statement.Statement.TheVariants as line;
ghost use Rattle.model_system.specs.Script as spec;
ghost use Rattle.script_run.specs.RunningScript.{AreKeyTexts, IsKeyText, DoesStatement, HasRoomForStatement};

use crate::arithmetic::{difference, sum};
use crate::script::Script;
use crate::texts::{cut, holds, padded, word};
use model_system::abends::WRONG_ARITHMETIC;
use model_system::{
    CallText, Comparison, Need, ScriptSsa, ScriptSsas, Statement, Target, Text, Texts, Variable,
};
use std::alloc::Global;
use tm_types::{AbendCode, Bytes, Function, KeyTest, Memory, Ssa, Ssas};

/// Executes a statement: the script goes on, or the answer is what it needs and nothing changed.
/// Want of memory changes nothing.
pub fn execute(
    alloc: Global,
    script: &mut Script,
    statement: &Statement,
) -> Result<Option<Need>, Memory>
    requires room { HasRoomForStatement script.old.here }
    requires allowed { IsTrue (is_statement statement.now) }
    ensures ok { IfOk result (DoesStatement (spec.executed_by statement.now script.old.here) script.old script.new) }
    ensures err { OnErr result (script.new ≡ script.old) }
{
    match statement {
        Statement::Label(_) => Ok(Some(Need::Ended)),
        Statement::Set(x, texts) => set(alloc, script, x, texts),
        Statement::Word(x, y, number) => take_word(alloc, script, x, y, *number),
        Statement::Cut(x, y, start, count) => take_cut(alloc, script, x, y, *start, *count),
        Statement::Pad(x, width) => pad(alloc, script, x, *width),
        Statement::Add(x, y) => add(alloc, script, x, y),
        Statement::Less(x, y) => subtract(alloc, script, x, y),
        Statement::If(left, comparison, right, target) => {
            branch(script, left, *comparison, right, target)
        }
        Statement::Goto(target) => go_to(script, target),
        Statement::Call(function, pcb, area, ssas) => {
            call(alloc, script, *function, *pcb, area, ssas)
        }
        Statement::Abend(code) => Ok(Some(Need::Abend(*code))),
        Statement::End => Ok(Some(Need::Ended)),
    }
}

fn set(
    alloc: Global,
    script: &mut Script,
    x: &Variable,
    texts: &Texts,
) -> Result<Option<Need>, Memory>
    requires room { HasRoomForStatement script.old.here }
    requires plain { IsTrue (list_all is_plain texts.now) }
    ensures ok { IfOk result (DoesStatement (spec.executed_by (line.Set x.now texts.now) script.old.here) script.old script.new) }
    ensures err { OnErr result (script.new ≡ script.old) }
{
    let text = script.joined(alloc, texts.as_slice())?;
    script.assign(x, text);
    Ok(None)
}

fn take_word(
    alloc: Global,
    script: &mut Script,
    x: &Variable,
    y: &Variable,
    number: u8,
) -> Result<Option<Need>, Memory>
    requires room { HasRoomForStatement script.old.here }
    requires number { 1 ≤ number }
    ensures ok { IfOk result (DoesStatement (spec.executed_by (line.Word x.now y.now number) script.old.here) script.old script.new) }
    ensures err { OnErr result (script.new ≡ script.old) }
{
    let text = Bytes::copied(alloc, word(script.variable(y), number))?;
    script.assign(x, text);
    Ok(None)
}

fn take_cut(
    alloc: Global,
    script: &mut Script,
    x: &Variable,
    y: &Variable,
    start: u16,
    count: u16,
) -> Result<Option<Need>, Memory>
    requires room { HasRoomForStatement script.old.here }
    requires start { 1 ≤ start }
    ensures ok { IfOk result (DoesStatement (spec.executed_by (line.Cut x.now y.now start count) script.old.here) script.old script.new) }
    ensures err { OnErr result (script.new ≡ script.old) }
{
    let text = Bytes::copied(alloc, cut(script.variable(y), start, count))?;
    script.assign(x, text);
    Ok(None)
}

fn pad(alloc: Global, script: &mut Script, x: &Variable, width: u8) -> Result<Option<Need>, Memory>
    requires { HasRoomForStatement script.old.here }
    ensures ok { IfOk result (DoesStatement (spec.executed_by (line.Pad x.now width) script.old.here) script.old script.new) }
    ensures err { OnErr result (script.new ≡ script.old) }
{
    let text = padded(alloc, script.variable(x), width)?;
    script.assign(x, text);
    Ok(None)
}

fn add(
    alloc: Global,
    script: &mut Script,
    x: &Variable,
    y: &Variable,
) -> Result<Option<Need>, Memory>
    requires { HasRoomForStatement script.old.here }
    ensures ok { IfOk result (DoesStatement (spec.executed_by (line.Add x.now y.now) script.old.here) script.old script.new) }
    ensures err { OnErr result (script.new ≡ script.old) }
{
    let text = sum(alloc, script.variable(x), script.variable(y))?;
    Ok(count(script, x, text))
}

fn subtract(
    alloc: Global,
    script: &mut Script,
    x: &Variable,
    y: &Variable,
) -> Result<Option<Need>, Memory>
    requires { HasRoomForStatement script.old.here }
    ensures ok { IfOk result (DoesStatement (spec.executed_by (line.Less x.now y.now) script.old.here) script.old script.new) }
    ensures err { OnErr result (script.new ≡ script.old) }
{
    let text = difference(alloc, script.variable(x), script.variable(y))?;
    Ok(count(script, x, text))
}

/// Executes a sum or a difference that came to this text; without one it ends the script abnormally.
fn count(script: &mut Script, x: &Variable, text: Option<Bytes>) -> Option<Need>
    requires room { HasRoomForStatement script.old.here }
    requires text { IfSome text (λ digits. IsSegmentText digits) }
    ensures { DoesStatement (spec.computed script.old.here x.now text) script.old script.new result }
{
    match text {
        Some(digits) => {
            script.assign(x, digits);
            None
        }
        None => Some(Need::Abend(AbendCode {
            number: WRONG_ARITHMETIC,
        })),
    }
}

fn branch(
    script: &mut Script,
    left: &Text,
    comparison: Comparison,
    right: &Text,
    target: &Target,
) -> Result<Option<Need>, Memory>
    requires room { HasRoomForStatement script.old.here }
    requires left { IsTrue (is_plain left.now) }
    requires right { IsTrue (is_plain right.now) }
    ensures ok { IfOk result (DoesStatement (spec.executed_by (line.If left.now comparison right.now target.now) script.old.here) script.old script.new) }
    ensures err { OnErr result (script.new ≡ script.old) }
{
    let place = if holds(comparison, script.text(left), script.text(right)) {
        target.place as usize
    } else {
        script.place() + 1
    };
    script.go_to(place);
    Ok(None)
}

fn go_to(script: &mut Script, target: &Target) -> Result<Option<Need>, Memory>
    requires { HasRoomForStatement script.old.here }
    ensures ok { IfOk result (DoesStatement (spec.executed_by (line.Goto target.now) script.old.here) script.old script.new) }
    ensures err { OnErr result (script.new ≡ script.old) }
{
    script.go_to(target.place as usize);
    Ok(None)
}

fn call(
    alloc: Global,
    script: &Script,
    function: Function,
    pcb: u8,
    area: &Option<Variable>,
    ssas: &ScriptSsas,
) -> Result<Option<Need>, Memory>
    ensures { IfOk result (DoesStatement (spec.executed_by (line.Call function pcb area.now ssas.now) script.now.here) script.now script.now) }
{
    let area = area_text(alloc, script, area)?;
    let ssas = call_ssas(alloc, script, ssas.as_slice())?;
    Ok(Some(Need::Call(CallText {
        function,
        pcb,
        area,
        ssas,
    })))
}

/// The text of a call's area, empty where it has none.
fn area_text(alloc: Global, script: &Script, area: &Option<Variable>) -> Result<Bytes, Memory>
    ensures value { IfOk result (λ text. text ≡ option_map_or (spec.variable_text script.now.here) area.now []) }
    ensures text { IfOk result (λ text. IsSegmentText text) }
{
    match area {
        Some(x) => Bytes::copied(alloc, script.variable(x)),
        None => Ok(Bytes::new(alloc)),
    }
}

/// The arguments with the texts of their variables.
fn call_ssas(alloc: Global, script: &Script, ssas: &[ScriptSsa]) -> Result<Ssas, Memory>
    ensures value { IfOk result (λ made. made ≡ map (spec.call_ssa script.now.here) ssas.now) }
    ensures texts { IfOk result (λ made. AreKeyTexts made) }
{
    let mut made = Ssas::new(alloc);
    for ssa in ssas {
        made.push(call_ssa(alloc, script, ssa)?)?;
    }
    Ok(made)
}

fn call_ssa(alloc: Global, script: &Script, ssa: &ScriptSsa) -> Result<Ssa, Memory>
    ensures value { IfOk result (λ made. made ≡ spec.call_ssa script.now.here ssa.now) }
    ensures text { IfOk result (λ made. IsKeyText made.test) }
{
    let (segment, test) = match ssa {
        ScriptSsa::Any(name) => (*name, KeyTest::Any),
        ScriptSsa::Equal(name, x) => (
            *name,
            KeyTest::Equal(Bytes::copied(alloc, script.variable(x))?),
        ),
        ScriptSsa::AtLeast(name, x) => (
            *name,
            KeyTest::AtLeast(Bytes::copied(alloc, script.variable(x))?),
        ),
    };
    Ok(Ssa { segment, test })
}
