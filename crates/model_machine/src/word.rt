//! The word of an input that names its code.
ghost use Rattle.std.specs.Prelude.{◌≡◌};
ghost use Rattle.model_machine.specs.LastingSteps.{code_word};

use tm_types::{Segments, first_word};

/// The first word of an input, which names its code.
pub fn code_word(segments: &Segments) -> &[u8]
    ensures { result.now ≡ code_word segments.now }
{
    match segments.get(0) {
        Some(segment) => first_word(segment.text()),
        None => &[],
    }
}
