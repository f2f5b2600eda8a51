//! Inputs as they are kept.
ghost use Rattle.std.specs.Prelude.{◌≡◌, ◌-◌, true, Some, IfOk};
ghost use Rattle.tm_types.specs.Segment.{IsSegmentText};
ghost use Rattle.tm_types.specs.Words.{operands};
ghost use Rattle.model_messages.specs.Pads.{begun};
ghost use Rattle.model_machine.specs.LastingSteps.{without_word};
ghost use Rattle.lasting_state.specs.KeptInputs.{kept_as, kept_at};

use conversation::begun;
use model_messages::Conversation;
use std::alloc::Global;
use std::marker::Model;
use tm_types::{Memory, Message, Name, Segment, Segments, operands, segment_of};

/// An input as it is to be kept.
#[derive(Debug, Drop)]
pub struct KeptInput {
    /// The code that it goes to.
    pub code: Name,
    /// Whether it belongs to a conversation.
    pub conversation: bool,
    /// Its segments, without the code where it begins a conversation.
    pub segments: Segments,
    /// The conversation that begins with it, if one does.
    pub begins: Option<Conversation>,
}

impl Model for KeptInput {
    ghost use Rattle.model_machine.specs.LastingSteps.{KeptInput};

    ghost Value = { KeptInput };

    ghost view = { λ k. record { code = k.code; conversation = k.conversation; segments = k.segments; begins = k.begins } };
}

/// An input that begins a conversation of this code, whose pad has this length with the LL and ZZZZ before
/// it: the code is cut off, and the pad is blank behind the code. `Memory` is the only refusal.
pub fn kept_first(
    alloc: Global,
    code: &Name,
    pad: u16,
    segments: &Segments,
) -> Result<KeptInput, Memory>
    ensures { IfOk result (λ kept. kept ≡ kept_as code.now true (without_word segments.now) (Some (begun code.now (pad - 14)))) }
{
    let segments = without_word(alloc, segments)?;
    let begins = begun(alloc, code, pad.saturating_sub(14))?;
    Ok(KeptInput {
        code: *code,
        conversation: true,
        segments,
        begins: Some(begins),
    })
}

/// The segments without the first one's first word, and without the blank that ends it.
#[tactic(auto, using(crate::proofs::Cut::joined_next, crate::proofs::Cut::joined_end))]
fn without_word(alloc: Global, segments: &Segments) -> Result<Segments, Memory>
    ensures { IfOk result (λ kept. kept ≡ without_word segments.now) }
{
    let mut kept = Segments::new(alloc);
    for place in 0..segments.len() {
        let Some(segment) = segments.get(place) else {
            unreachable!()
        };
        kept.push(kept_at(alloc, kept.len(), segment)?)?;
    }
    Ok(kept)
}

/// The segment at this place of an input as it is kept.
fn kept_at(alloc: Global, place: usize, segment: &Segment) -> Result<Segment, Memory>
    ensures { IfOk result (λ kept. kept ≡ kept_at place segment.now) }
{
    if place == 0 {
        segment_of(alloc, left_of(segment))
    } else {
        Ok(segment.clone()?)
    }
}

/// What stands behind the first blank of a segment.
#[tactic(auto, using(crate::proofs::Cut::operands_text))]
fn left_of(segment: &Segment) -> &[u8]
    ensures value { result.now ≡ operands segment.now }
    ensures text { IsSegmentText result.now }
{
    operands(segment.text())
}
