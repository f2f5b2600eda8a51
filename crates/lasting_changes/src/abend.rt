//! What the origin of a discarded message is sent.
ghost use Rattle.std.specs.Prelude.{◌≡◌, ◌∷◌, [], IfOk, OnOk};
ghost use Rattle.tm_types.specs.Name.{IsName};
ghost use Rattle.model_machine.specs.LastingSteps.{dfs555i_text};

use std::alloc::Global;
use tm_types::{AbendCode, Bytes, Memory, Name, Segments, four_digits, segment_of};

/// The text of an abend as the one segment of a reply.
#[tactic(auto, using(crate::proofs::Abended::text_is))]
pub fn abend_segments(alloc: Global, code: &Name, abend: AbendCode) -> Result<Segments, Memory>
    ensures { IfOk result (λ segments. segments ≡ dfs555i_text code.now abend ∷ []) }
{
    let text = abend_text(alloc, code, abend)?;
    let mut segments = Segments::new(alloc);
    segments.push(segment_of(alloc, text.as_slice())?)?;
    Ok(segments)
}

fn abend_text(alloc: Global, code: &Name, abend: AbendCode) -> Result<Bytes, Memory>
    ensures value { IfOk result (λ text. text ≡ dfs555i_text code.now abend) }
    ensures named { OnOk result (IsName code.now) }
{
    let mut text = Bytes::copied(alloc, b"DFS555I TRAN ")?;
    text.append(code.as_bytes())?;
    text.append(b" ABEND U")?;
    text.append(&four_digits(abend.number))?;
    Ok(text)
}
