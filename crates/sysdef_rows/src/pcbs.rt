//! The three forms of a PCB.
ghost use Rattle.std.specs.Prelude.{◌≡◌, Err, codes};
ghost use Rattle.text_rows.specs.Names as names;
ghost use Rattle.text_rows.specs.Operands.{known_among, needed, or_as};
ghost use Rattle.sysdef_rows.specs.Values as values;
ghost use Rattle.sysdef_rows.specs.Pcbs as spec;

use crate::values::{modify_of, options_of};
use system_types::Macro;
use text_rows::rules::{OPERAND_MISSING, WRONG_WORD};
use text_rows::{Operands, also, both, is_word, name_of};
use tm_types::Name;

/// What a PCB is for.
#[derive(Clone, Copy, Debug)]
pub enum PcbForm {
    /// TYPE=DB.
    OnDatabase,
    /// TYPE=TP with LTERM.
    ToDestination,
    /// TYPE=TP without LTERM.
    Modifiable,
}

fn output_form(named: bool) -> PcbForm
    ensures { result ≡ spec.output_form named }
{
    if named {
        PcbForm::ToDestination
    } else {
        PcbForm::Modifiable
    }
}

#[tactic(auto, unfolding(crate::specs::Pcbs::form_in))]
fn form_in(named: bool, word: &[u8]) -> Result<PcbForm, u8>
    ensures { result ≡ spec.form_in named word.now }
{
    if is_word(word, b"DB") {
        Ok(PcbForm::OnDatabase)
    } else if is_word(word, b"TP") {
        Ok(output_form(named))
    } else {
        Err(WRONG_WORD)
    }
}

/// The form of a PCB, or the lowest rule that its TYPE breaks.
#[tactic(auto, unfolding(text_rows::specs::Operands::needed, crate::specs::Pcbs::pcb_form))]
pub(crate) fn form_of(operands: &Operands<'_>) -> Result<PcbForm, u8>
    ensures { result ≡ spec.pcb_form operands.now }
{
    match operands.only_value(b"TYPE")? {
        Some(text) => form_in(operands.stands(b"LTERM"), text),
        None => Err(OPERAND_MISSING),
    }
}

/// Rule 2 where an operand isn't one of the form.
pub(crate) fn known_in_form(form: Result<PcbForm, u8>, operands: &Operands<'_>) -> Result<(), u8>
    ensures { result ≡ known_among (spec.form_keys form) operands.now }
{
    match form {
        Ok(PcbForm::OnDatabase) => operands.known_among(&[b"TYPE", b"DBDNAME", b"PROCOPT"]),
        Ok(PcbForm::ToDestination) => operands.known_among(&[b"TYPE", b"LTERM"]),
        Ok(PcbForm::Modifiable) => operands.known_among(&[b"TYPE", b"MODIFY"]),
        Err(_) => operands.known_among(&[b"TYPE", b"DBDNAME", b"PROCOPT", b"LTERM", b"MODIFY"]),
    }
}

#[tactic(auto, unfolding(text_rows::specs::Operands::needed))]
fn options(operands: &Operands<'_>) -> Result<u8, u8>
    ensures { result ≡ needed (codes "PROCOPT") values.options_of operands.now }
{
    match operands.only_value(b"PROCOPT")? {
        Some(text) => options_of(text),
        None => Err(OPERAND_MISSING),
    }
}

#[tactic(auto, unfolding(text_rows::specs::Operands::needed))]
fn modify(operands: &Operands<'_>) -> Result<(), u8>
    ensures { result ≡ needed (codes "MODIFY") values.modify_of operands.now }
{
    match operands.only_value(b"MODIFY")? {
        Some(text) => modify_of(text),
        None => Err(OPERAND_MISSING),
    }
}

fn judged<A: Drop>(value: Result<A, u8>) -> Result<(), u8>
    ensures { result ≡ spec.judged_operand value }
{
    value?;
    Ok(())
}

/// The name under a key, where it stands there.
#[tactic(auto, unfolding(text_rows::specs::Operands::or_as))]
fn standing_name(key: &[u8], operands: &Operands<'_>) -> Result<(), u8>
    ensures { result ≡ or_as key.now (λ text. spec.judged_operand (names.name_of text)) tt operands.now }
{
    match operands.only_value(key)? {
        Some(text) => judged(name_of(text)),
        None => Ok(()),
    }
}

#[tactic(auto, unfolding(text_rows::specs::Operands::or_as))]
fn standing_options(operands: &Operands<'_>) -> Result<(), u8>
    ensures { result ≡ or_as (codes "PROCOPT") (λ text. spec.judged_operand (values.options_of text)) tt operands.now }
{
    match operands.only_value(b"PROCOPT")? {
        Some(text) => judged(options_of(text)),
        None => Ok(()),
    }
}

#[tactic(auto, unfolding(text_rows::specs::Operands::or_as))]
fn standing_modify(operands: &Operands<'_>) -> Result<(), u8>
    ensures { result ≡ or_as (codes "MODIFY") values.modify_of tt operands.now }
{
    match operands.only_value(b"MODIFY")? {
        Some(text) => modify_of(text),
        None => Ok(()),
    }
}

#[tactic(auto, unfolding(crate::specs::Pcbs::standing_database))]
fn standing_database(operands: &Operands<'_>) -> Result<(), u8>
    ensures { result ≡ spec.standing_database operands.now }
{
    also(
        standing_name(b"DBDNAME", operands),
        standing_options(operands),
    )
}

#[tactic(auto, unfolding(crate::specs::Pcbs::standing_output))]
fn standing_output(operands: &Operands<'_>) -> Result<(), u8>
    ensures { result ≡ spec.standing_output operands.now }
{
    also(standing_name(b"LTERM", operands), standing_modify(operands))
}

#[tactic(auto, unfolding(crate::specs::Pcbs::database_part))]
fn database_part(operands: &Operands<'_>) -> Result<(Name, u8), u8>
    ensures { result ≡ spec.database_part operands.now }
{
    both(operands.needed_name(b"DBDNAME"), options(operands))
}

fn database_pcb(operands: &Operands<'_>) -> Result<Macro, u8>
    ensures { result ≡ spec.database_pcb (spec.database_part operands.now) }
{
    let (database, options) = database_part(operands)?;
    Ok(Macro::DatabasePcb { database, options })
}

fn destination_pcb(operands: &Operands<'_>) -> Result<Macro, u8>
    ensures { result ≡ spec.destination_pcb (needed (codes "LTERM") names.name_of operands.now) }
{
    let destination = operands.needed_name(b"LTERM")?;
    Ok(Macro::DestinationPcb { destination })
}

fn modifiable_pcb(operands: &Operands<'_>) -> Result<Macro, u8>
    ensures { result ≡ spec.modifiable_pcb (needed (codes "MODIFY") values.modify_of operands.now) }
{
    modify(operands)?;
    Ok(Macro::ModifiablePcb)
}

/// A PCB of no form, whose other operands are judged where they stand.
fn no_pcb(rule: u8, operands: &Operands<'_>) -> Result<Macro, u8>
    ensures { result ≡ spec.pcb_of (Err rule) operands.now }
{
    also(
        also(Err(rule), standing_database(operands)),
        standing_output(operands),
    )
}

/// The PCB that has these operands.
#[tactic(auto, unfolding(crate::specs::Pcbs::pcb_row))]
pub(crate) fn pcb_row(operands: &Operands<'_>) -> Result<Macro, u8>
    ensures { result ≡ spec.pcb_row operands.now }
{
    match form_of(operands) {
        Ok(PcbForm::OnDatabase) => database_pcb(operands),
        Ok(PcbForm::ToDestination) => destination_pcb(operands),
        Ok(PcbForm::Modifiable) => modifiable_pcb(operands),
        Err(rule) => no_pcb(rule, operands),
    }
}
