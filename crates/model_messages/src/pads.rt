//! What a scratch pad begins with, and which text may be given back as one.
ghost use Rattle.std.specs.Prelude.{◌≡◌, ◌≤◌, IfOk, length, take};
ghost use Rattle.std.specs.Str.{bytes_eq};
ghost use Rattle.model_messages.specs.Pads.{code_field, ends_conversation, fitted_pad, is_pad};

use std::alloc::Global;
use tm_types::{Bytes, Memory, Name};

/// How many bytes of a pad are the code.
pub const CODE_BYTES: usize = 8;

/// Whether a program may give this text back as the pad of a conversation of the code: it has 8 bytes or more,
/// and the code or blanks in front.
pub fn is_pad(code: &Name, text: &[u8]) -> bool
    ensures { result ≡ is_pad code.now text.now }
{
    if text.len() < CODE_BYTES {
        return false;
    }
    if ends(text) {
        return true;
    }
    has_code(text, code)
}

/// Whether the text has blanks in the place of the code, which ends the conversation.
pub fn ends(text: &[u8]) -> bool
    requires { 8 ≤ length text.now }
    ensures { result ≡ ends_conversation text.now }
{
    &text[..CODE_BYTES] == b"        ".as_slice()
}

/// Whether the text begins with the code, padded with blanks to 8 bytes.
#[tactic(auto, using(crate::proofs::Padded::front_is))]
pub fn has_code(text: &[u8], code: &Name) -> bool
    ensures { result ≡ bytes_eq (take 8 text.now) (code_field code.now) }
{
    let field = code_field(code);
    let front = &text[..text.len().min(CODE_BYTES)];
    front == field.as_slice()
}

/// The bytes of the code with blanks behind.
#[tactic(auto, using(crate::proofs::Padded::field_is))]
pub fn code_field(code: &Name) -> [u8; CODE_BYTES]
    ensures { result ≡ code_field code.now }
{
    let bytes = code.as_bytes();
    let mut field = [b' '; CODE_BYTES];
    field[..bytes.len()].copy_from_slice(bytes);
    field
}

/// The text with blanks behind up to this length, or cut to it.
#[tactic(auto, using(crate::proofs::Padded::fits))]
pub fn fitted(alloc: Global, length: usize, text: &[u8]) -> Result<Bytes, Memory>
    ensures { IfOk result (λ whole. whole ≡ fitted_pad length text.now) }
{
    let size = text.len().min(length);
    let mut whole = Vec::with_capacity(alloc, length)?;
    whole.extend_from_slice(&text[..size])?;
    whole.resize(length, b' ')?;
    Ok(Bytes::from_vec(whole))
}
