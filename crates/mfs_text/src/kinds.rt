//! The macros of a format, and their keys.
ghost use Rattle.std.specs.Prelude.{◌≡◌};
ghost use Rattle.std.specs.List.{list_any};
ghost use Rattle.std.specs.Str.{bytes_eq};
ghost use Rattle.mfs_text.specs.Kinds as spec;

use crate::rules::OUT_OF_PLACE;
use text_rows::rules::UNKNOWN_MACRO;
use text_rows::{Operands, is_word};

/// The macros of a format.
#[derive(Clone, Copy, Debug)]
pub enum Kind {
    /// DFLD.
    Field,
    /// MSG.
    Message,
    /// SEG.
    Segment,
    /// MFLD.
    MessageField,
    /// FMTEND.
    End,
}

/// The kind that a name stands for: rule 1 where it is no macro's, rule 10 where it is that of a macro
/// that stands in no format.
#[tactic(auto, unfolding(crate::specs::Kinds::format_kind_of))]
pub(crate) fn kind_of(name: &[u8]) -> Result<Kind, u8>
    ensures { result ≡ spec.format_kind_of name.now }
{
    if is_word(name, b"DFLD") {
        Ok(Kind::Field)
    } else if is_word(name, b"MSG") {
        Ok(Kind::Message)
    } else if is_word(name, b"SEG") {
        Ok(Kind::Segment)
    } else if is_word(name, b"MFLD") {
        Ok(Kind::MessageField)
    } else if is_word(name, b"FMTEND") {
        Ok(Kind::End)
    } else if is_other_macro(name) {
        Err(OUT_OF_PLACE)
    } else {
        Err(UNKNOWN_MACRO)
    }
}

fn is_other_macro(name: &[u8]) -> bool
    ensures { result ≡ list_any (bytes_eq name.now) spec.other_macros }
{
    is_word(name, b"IMSCTRL")
        || is_word(name, b"DBD")
        || is_word(name, b"SEGM")
        || is_word(name, b"APPLCTN")
        || is_word(name, b"PCB")
        || is_word(name, b"TRANSACT")
        || is_word(name, b"NAME")
        || is_word(name, b"REGION")
        || is_word(name, b"FMT")
        || is_word(name, b"PROGRAM")
        || is_word(name, b"END")
}

/// Whether an MFLD with these operands is a literal.
#[tactic(auto, unfolding(crate::specs::Kinds::has_literal))]
pub(crate) fn is_literal(operands: &Operands<'_>) -> bool
    ensures { result ≡ spec.has_literal operands.now }
{
    operands.stands(b"LIT") && !operands.stands(b"SRC")
}

/// Rule 2 where an operand isn't one of the macro's, or of the MFLD's form.
#[tactic(auto, unfolding(crate::specs::Kinds::format_keys_known))]
pub(crate) fn known(kind: Kind, operands: &Operands<'_>) -> Result<(), u8>
    ensures { result ≡ spec.format_keys_known kind operands.now }
{
    match (kind, is_literal(operands)) {
        (Kind::Field, _) => operands.known_among(&[b"NAME", b"POS", b"LTH"]),
        (Kind::Message, _) => operands.known_among(&[b"TYPE"]),
        (Kind::MessageField, true) => operands.known_among(&[b"LIT"]),
        (Kind::MessageField, false) => operands.known_among(&[b"SRC", b"LTH", b"JUST", b"FILL"]),
        (Kind::Segment | Kind::End, _) => operands.known_among(&[]),
    }
}
