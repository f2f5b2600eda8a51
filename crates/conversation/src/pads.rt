//! Scratch pads.
ghost use Rattle.std.specs.Prelude.{◌≡◌, None, IfOk, IfErr, OnOk};
ghost use Rattle.model_messages.specs.Pads.{begun, with_pad};
ghost use Rattle.conversation.specs.Refusals.{RefusesPad, update_fault, updated};

use model_messages::{CODE_BYTES, Conversation, code_field, ends, fitted, is_pad};
use std::alloc::Global;
use thiserror::Error;
use tm_types::{Bytes, Memory, Name};

/// Why a text doesn't become the pad of a conversation.
#[derive(Clone, Copy, Debug, Error)]
pub enum PadRefused {
    /// 1: the text is shorter than 8 bytes; 2: it begins neither with the conversation's code nor with blanks in its
    /// place.
    #[error("no scratch pad of the conversation ({0})")]
    BadSpa(u8),
    #[error("no memory")]
    Memory,
}

/// A conversation of the code as it begins, with a work area of so many blanks.
pub fn begun(alloc: Global, code: &Name, work: u16) -> Result<Conversation, Memory>
    ensures { IfOk result (λ conversation. conversation ≡ begun code.now work) }
{
    let field = code_field(code);
    let mut pad = Bytes::copied(alloc, field.as_slice())?;
    let blanks = vec![in alloc; b' '; work as usize]?;
    pad.append(&blanks)?;
    Ok(Conversation { code: *code, pad })
}

/// The conversation with this text as its pad; none where the text has blanks in the place of the code.
pub fn updated(
    alloc: Global,
    conversation: &Conversation,
    text: &[u8],
) -> Result<Option<Conversation>, PadRefused>
    ensures ok { IfOk result (λ left. left ≡ updated text.now conversation.now) }
    ensures good { OnOk result (update_fault conversation.now.code text.now ≡ None) }
    ensures refused { IfErr result (RefusesPad (update_fault conversation.now.code text.now)) }
{
    if let Some(fault) = update_fault(&conversation.code, text) {
        return Err(PadRefused::BadSpa(fault));
    }
    if ends(text) {
        return Ok(None);
    }
    match with_pad(alloc, conversation, text) {
        Ok(padded) => Ok(Some(padded)),
        Err(_) => Err(PadRefused::Memory),
    }
}

fn with_pad(alloc: Global, conversation: &Conversation, text: &[u8]) -> Result<Conversation, Memory>
    ensures { IfOk result (λ padded. padded ≡ with_pad text.now conversation.now) }
{
    let pad = fitted(alloc, conversation.pad.len(), text)?;
    Ok(Conversation {
        code: conversation.code,
        pad,
    })
}

/// What is wrong with the text as one that is given back as the pad of a conversation of the code.
fn update_fault(code: &Name, text: &[u8]) -> Option<u8>
    ensures { result ≡ update_fault code.now text.now }
{
    if text.len() < CODE_BYTES {
        return Some(1);
    }
    if is_pad(code, text) { None } else { Some(2) }
}
