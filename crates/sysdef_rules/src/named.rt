//! Macros with indexes of their names.
ghost use Rattle.std.specs.Prelude.{◌≡◌, ◌==◌, ◌&&◌, not, [], ◌∷◌, ◌++◌, ℕ, List, Some, None, IfOk, OnOk, cond, is_some};
ghost use Rattle.std.specs.Option.{option_or};
ghost use Rattle.std.specs.Str.{bytes_eq};
ghost use Rattle.system_types.specs.Indexes.{place_in};
ghost use Rattle.sysdef_rules.specs.Lookups as spec;

use model_system::Transaction;
use std::alloc::{AllocError, Global};
use std::collections::BTreeMap;
use std::marker::Model;
use system_types::{Macro, MacroLine, add_name};
use tm_types::Name;

/// Macros with indexes of their names; seen as the list of their lines.
#[derive(Drop)]
pub(crate) struct NamedMacros<'a> {
    lines: &'a [MacroLine],
    databases: BTreeMap<Name, usize>,
    applications: BTreeMap<Name, usize>,
    codes: BTreeMap<Name, usize>,
    /// The codes with a scratch pad.
    conversational: BTreeMap<Name, usize>,
    terminals: BTreeMap<Name, usize>,
    formats: BTreeMap<Name, usize>,
    programs: BTreeMap<Name, usize>,
}

impl<'a> Model for NamedMacros<'a> {
    ghost use Rattle.std.specs.Prelude.{List};
    ghost use Rattle.system_types.specs.declared.definition.MacroLine.{MacroLine};
    ghost use Rattle.sysdef_rules.specs.Indexes.{AreIndexes};

    ghost Value = { List MacroLine };

    ghost view = { λ n. n.lines.now };

    ghost invariant = { λ n. AreIndexes n.lines.now n.databases n.applications n.codes n.conversational n.terminals n.formats n.programs };
}

impl<'a> NamedMacros<'a> {
    /// No macros, which stand before those of a list.
    pub(crate) fn before(alloc: Global, lines: &'a [MacroLine]) -> NamedMacros<'a>
        ensures { result ≡ [] }
    {
        NamedMacros {
            lines: &lines[..0],
            databases: BTreeMap::new(alloc),
            applications: BTreeMap::new(alloc),
            codes: BTreeMap::new(alloc),
            conversational: BTreeMap::new(alloc),
            terminals: BTreeMap::new(alloc),
            formats: BTreeMap::new(alloc),
            programs: BTreeMap::new(alloc),
        }
    }

    /// These macros and the line behind them, which are the lines that are given.
    pub(crate) fn with(
        self,
        lines: &'a [MacroLine],
        line: &MacroLine,
    ) -> Result<NamedMacros<'a>, AllocError>
        requires { lines.now ≡ self ++ line.now ∷ [] }
        ensures { IfOk result (λ named. named ≡ lines.now) }
    {
        let NamedMacros {
            lines: before,
            mut databases,
            mut applications,
            mut codes,
            mut conversational,
            mut terminals,
            mut formats,
            mut programs,
        } = self;
        let place = before.len();
        note_database(&mut databases, &line.content, place)?;
        note_application(&mut applications, &line.content, place)?;
        note_code(&mut codes, &line.content, place)?;
        note_conversational(&mut conversational, &line.content, place)?;
        note_terminal(&mut terminals, &line.content, place)?;
        note_format(&mut formats, &line.content, place)?;
        note_program(&mut programs, &line.content, place)?;
        Ok(NamedMacros {
            lines,
            databases,
            applications,
            codes,
            conversational,
            terminals,
            formats,
            programs,
        })
    }

    /// The lines of a list.
    pub(crate) fn of(alloc: Global, lines: &'a [MacroLine]) -> Result<NamedMacros<'a>, AllocError>
        ensures { IfOk result (λ named. named ≡ lines.now) }
    {
        let mut named = NamedMacros::before(alloc, lines);
        for (index, line) in lines.iter().enumerate() {
            named = named.with(&lines[..index + 1], line)?;
        }
        Ok(named)
    }

    /// The lines.
    pub(crate) fn lines(&self) -> &[MacroLine]
        ensures { result.now ≡ self.now }
    {
        self.lines
    }

    pub(crate) fn has_database(&self, name: &Name) -> bool
        ensures { result ≡ spec.has (spec.is_database name.now) self.now }
    {
        has_name(&self.databases, name)
    }

    pub(crate) fn has_application(&self, name: &Name) -> bool
        ensures { result ≡ spec.has (spec.is_application_named name.now) self.now }
    {
        has_name(&self.applications, name)
    }

    pub(crate) fn has_code(&self, name: &Name) -> bool
        ensures { result ≡ spec.has (spec.is_code_named name.now) self.now }
    {
        has_name(&self.codes, name)
    }

    pub(crate) fn has_conversational(&self, name: &Name) -> bool
        ensures { result ≡ spec.has (spec.is_conversational name.now) self.now }
    {
        has_name(&self.conversational, name)
    }

    pub(crate) fn has_terminal(&self, name: &Name) -> bool
        ensures { result ≡ spec.has (spec.is_terminal_named name.now) self.now }
    {
        has_name(&self.terminals, name)
    }

    pub(crate) fn has_format(&self, name: &Name) -> bool
        ensures { result ≡ spec.has (spec.is_format_named name.now) self.now }
    {
        has_name(&self.formats, name)
    }

    pub(crate) fn has_program(&self, name: &Name) -> bool
        ensures { result ≡ spec.has (spec.is_program_named name.now) self.now }
    {
        has_name(&self.programs, name)
    }
}

fn has_name(index: &BTreeMap<Name, usize>, name: &Name) -> bool
    ensures { result ≡ is_some (place_in index.now name.now) }
{
    index.contains_key(name)
}

#[tactic(auto, using(system_types::proofs::Indexed::first_none))]
fn note_database(
    index: &mut BTreeMap<Name, usize>,
    content: &Macro,
    place: usize,
) -> Result<(), AllocError>
    ensures { OnOk result ((name : List ℕ) → place_in index.new name ≡ option_or (place_in index.old name) (cond (spec.is_database name content.now) (Some place) None)) }
{
    match content {
        Macro::Database { name, .. } => add_name(index, name, place),
        _ => Ok(()),
    }
}

#[tactic(auto, using(system_types::proofs::Indexed::first_none))]
fn note_application(
    index: &mut BTreeMap<Name, usize>,
    content: &Macro,
    place: usize,
) -> Result<(), AllocError>
    ensures { OnOk result ((name : List ℕ) → place_in index.new name ≡ option_or (place_in index.old name) (cond (spec.is_application_named name content.now) (Some place) None)) }
{
    match content {
        Macro::Application { psb: name } => add_name(index, name, place),
        _ => Ok(()),
    }
}

#[tactic(auto, using(system_types::proofs::Indexed::first_none))]
fn note_code(
    index: &mut BTreeMap<Name, usize>,
    content: &Macro,
    place: usize,
) -> Result<(), AllocError>
    ensures { OnOk result ((name : List ℕ) → place_in index.new name ≡ option_or (place_in index.old name) (cond (spec.is_code_named name content.now) (Some place) None)) }
{
    match content {
        Macro::Transaction(transaction) => add_name(index, &transaction.code, place),
        _ => Ok(()),
    }
}

#[tactic(auto, using(system_types::proofs::Indexed::first_none))]
fn note_conversational(
    index: &mut BTreeMap<Name, usize>,
    content: &Macro,
    place: usize,
) -> Result<(), AllocError>
    ensures { OnOk result ((name : List ℕ) → place_in index.new name ≡ option_or (place_in index.old name) (cond (spec.is_conversational name content.now) (Some place) None)) }
{
    match content {
        Macro::Transaction(transaction) => note_padded(index, transaction, place),
        _ => Ok(()),
    }
}

#[tactic(auto, using(system_types::proofs::Indexed::first_none))]
fn note_padded(
    index: &mut BTreeMap<Name, usize>,
    transaction: &Transaction,
    place: usize,
) -> Result<(), AllocError>
    ensures { OnOk result ((name : List ℕ) → place_in index.new name ≡ option_or (place_in index.old name) (cond (not (transaction.now.scratch_pad == 0) && bytes_eq transaction.now.code name) (Some place) None)) }
{
    if transaction.scratch_pad == 0 {
        return Ok(());
    }
    add_name(index, &transaction.code, place)
}

#[tactic(auto, using(system_types::proofs::Indexed::first_none))]
fn note_terminal(
    index: &mut BTreeMap<Name, usize>,
    content: &Macro,
    place: usize,
) -> Result<(), AllocError>
    ensures { OnOk result ((name : List ℕ) → place_in index.new name ≡ option_or (place_in index.old name) (cond (spec.is_terminal_named name content.now) (Some place) None)) }
{
    match content {
        Macro::Terminal { name, .. } => add_name(index, name, place),
        _ => Ok(()),
    }
}

#[tactic(auto, using(system_types::proofs::Indexed::first_none))]
fn note_format(
    index: &mut BTreeMap<Name, usize>,
    content: &Macro,
    place: usize,
) -> Result<(), AllocError>
    ensures { OnOk result ((name : List ℕ) → place_in index.new name ≡ option_or (place_in index.old name) (cond (spec.is_format_named name content.now) (Some place) None)) }
{
    match content {
        Macro::Format { name, .. } => add_name(index, name, place),
        _ => Ok(()),
    }
}

#[tactic(auto, using(system_types::proofs::Indexed::first_none))]
fn note_program(
    index: &mut BTreeMap<Name, usize>,
    content: &Macro,
    place: usize,
) -> Result<(), AllocError>
    ensures { OnOk result ((name : List ℕ) → place_in index.new name ≡ option_or (place_in index.old name) (cond (spec.is_program_named name content.now) (Some place) None)) }
{
    match content {
        Macro::Program { name, .. } => add_name(index, name, place),
        _ => Ok(()),
    }
}
