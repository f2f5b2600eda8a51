//! Scratch pads, as a program is given them and gives them back.
ghost use Rattle.std.specs.Prelude.{◌≡◌, ◌≤◌, IfOk, IfSome, Some, length};
ghost use Rattle.std.specs.Option.{option_copied};
ghost use Rattle.model_messages.specs.Pads.{pad_change_by};
ghost use Rattle.io_pcb.specs.Pads.{IsPadText, lent_pad};

use crate::LentPad;
use model_messages::ends;
use std::alloc::Global;
use tm_types::{Memory, Segment, segment_of};

/// A copy of the pad, if there is one.
pub fn copied(alloc: Global, pad: Option<&[u8]>) -> Result<Option<Segment>, Memory>
    requires { IfSome (option_copied pad) IsPadText }
    ensures { IfOk result (λ copy. copy ≡ option_copied pad.entry) }
{
    match pad {
        Some(pad) => Ok(Some(segment_of(alloc, pad)?)),
        None => Ok(None),
    }
}

/// What becomes of the pad where this text was given back.
pub fn change_by(text: &[u8]) -> LentPad<'_>
    requires { 8 ≤ length text.now }
    ensures { lent_pad result ≡ pad_change_by (Some text.now) }
{
    if ends(text) {
        return LentPad::Ends;
    }
    LentPad::New(text)
}
