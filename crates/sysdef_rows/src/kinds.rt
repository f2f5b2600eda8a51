//! The macros and their keys.
ghost use Rattle.std.specs.Prelude.{◌≡◌};
ghost use Rattle.text_rows.specs.Operands.{known_among};
ghost use Rattle.sysdef_rows.specs.Kinds as spec;

use crate::pcbs::{form_of, known_in_form};
use text_rows::rules::UNKNOWN_MACRO;
use text_rows::{Operands, is_word};

/// The macros that have operands with keys.
#[derive(Clone, Copy, Debug)]
pub enum Kind {
    /// IMSCTRL.
    Control,
    /// DBD.
    Database,
    /// SEGM.
    Segment,
    /// APPLCTN.
    Application,
    /// PCB.
    Pcb,
    /// TRANSACT.
    Transaction,
    /// NAME.
    Terminal,
    /// REGION.
    Region,
    /// END.
    End,
}

/// The kind that a name stands for: rule 1 where it stands for none.
#[tactic(auto, unfolding(crate::specs::Kinds::kind_of))]
pub fn kind_of(name: &[u8]) -> Result<Kind, u8>
    ensures { result ≡ spec.kind_of name.now }
{
    if is_word(name, b"IMSCTRL") {
        Ok(Kind::Control)
    } else if is_word(name, b"DBD") {
        Ok(Kind::Database)
    } else if is_word(name, b"SEGM") {
        Ok(Kind::Segment)
    } else if is_word(name, b"APPLCTN") {
        Ok(Kind::Application)
    } else if is_word(name, b"PCB") {
        Ok(Kind::Pcb)
    } else if is_word(name, b"TRANSACT") {
        Ok(Kind::Transaction)
    } else if is_word(name, b"NAME") {
        Ok(Kind::Terminal)
    } else if is_word(name, b"REGION") {
        Ok(Kind::Region)
    } else if is_word(name, b"END") {
        Ok(Kind::End)
    } else {
        Err(UNKNOWN_MACRO)
    }
}

/// Rule 2 where an operand isn't one of the macro's, or of the PCB's form.
#[tactic(auto, unfolding(crate::specs::Kinds::macro_keys_known))]
pub fn known(kind: Kind, operands: &Operands<'_>) -> Result<(), u8>
    ensures { result ≡ spec.macro_keys_known kind operands.now }
{
    match kind {
        Kind::Control => operands.known_among(&[b"QBYTES", b"LOGS"]),
        Kind::Database => operands.known_among(&[b"NAME", b"ROOTS", b"SECTORS"]),
        Kind::Segment => operands.known_among(&[b"NAME", b"PARENT", b"KEY", b"BYTES"]),
        Kind::Application => operands.known_among(&[b"PSB"]),
        Kind::Pcb => known_in_form(form_of(operands), operands),
        Kind::Transaction => known_of_transaction(operands),
        Kind::Terminal => operands.known_among(&[b"LTERM", b"FORMAT"]),
        Kind::Region => operands.known_among(&[b"CLASS"]),
        Kind::End => operands.known_among(&[]),
    }
}

fn known_of_transaction(operands: &Operands<'_>) -> Result<(), u8>
    ensures { result ≡ known_among spec.transaction_keys operands.now }
{
    operands.known_among(&[
        b"CODE", b"MSGTYPE", b"PRTY", b"PROCLIM", b"SPA", b"SEGNO", b"SEGSIZE", b"SERIAL",
    ])
}
