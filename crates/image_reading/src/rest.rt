//! The rest of a log.
ghost use Rattle.std.specs.Prelude.{◌≡◌, ◌∷◌, nat_le, Decides};
ghost use Rattle.model_image.specs.CutRecords.{IsRecordCutOff};
ghost use Rattle.image_reading.specs.RecordParts.{leasts, mosts, left_before, next_part, advanced, have_room, is_front};
ghost use Rattle.image_reading.specs.RecordLayouts.{messages, answers, tables, change, idle_terminal, conversing_terminal, is_front_in, is_front_of_any};

use crate::parts::{Part, least, most, step};

/// Whether what is left of a log's bytes behind its last record is a front of a record, without its end.
#[tactic(auto, using(crate::proofs::CutOff::cut_where, crate::proofs::CutOff::where_cut, crate::proofs::CutOff::short_cut))]
pub fn is_cut_off(rest: &[u8]) -> bool
    ensures { Decides result (IsRecordCutOff rest.now) }
{
    match rest {
        [high, low, tail @ ..] => is_cut_behind(*high, *low, tail),
        _ => true,
    }
}

/// The same behind the two bytes of its length.
fn is_cut_behind(high: u8, low: u8, tail: &[u8]) -> bool
    ensures { Decides result (IsRecordCutOff (high ∷ low ∷ tail.now)) }
{
    let size = 256 * high as usize + low as usize;
    if size <= 2 + tail.len() {
        return false;
    }
    is_front_of_any(size - (2 + tail.len()), tail)
}

fn is_front_of_any(missing: usize, bytes: &[u8]) -> bool
    ensures { result ≡ is_front_of_any missing bytes.now }
{
    let change = [
        Part::Exactly(80),
        Part::Any(7),
        Part::Any(0),
        Part::Any(1),
        Part::Text(32000),
        Part::Text(32000),
    ];
    is_message(missing, bytes)
        || is_answer(missing, bytes)
        || is_table(missing, bytes)
        || is_front(missing, &change, bytes)
}

fn is_message(missing: usize, bytes: &[u8]) -> bool
    ensures { result ≡ is_front_in missing bytes.now messages }
{
    let input = [
        Part::Exactly(1),
        Part::Any(7),
        Part::Any(7),
        Part::Name,
        Part::Name,
        Part::Any(7),
        Part::Flag,
        Part::Segments,
    ];
    let command = [Part::Exactly(2), Part::Text(80)];
    let reply = [
        Part::Exactly(3),
        Part::Any(7),
        Part::Name,
        Part::Any(7),
        Part::Segments,
    ];
    let discarded = [
        Part::Exactly(7),
        Part::Any(7),
        Part::Any(7),
        Part::Abend,
        Part::Any(7),
    ];
    is_front(missing, &input, bytes)
        || is_front(missing, &command, bytes)
        || is_front(missing, &reply, bytes)
        || is_front(missing, &discarded, bytes)
}

fn is_answer(missing: usize, bytes: &[u8]) -> bool
    ensures { result ≡ is_front_in missing bytes.now answers }
{
    let completed = [
        Part::Exactly(54),
        Part::Exactly(0),
        Part::Any(7),
        Part::Any(7),
    ];
    let acknowledged = [
        Part::Exactly(54),
        Part::Exactly(1),
        Part::Name,
        Part::Any(7),
    ];
    let stays = [
        Part::Exactly(55),
        Part::Any(7),
        Part::Exactly(0),
        Part::Text(0),
    ];
    let new = [
        Part::Exactly(55),
        Part::Any(7),
        Part::Exactly(1),
        Part::Text(65535),
    ];
    let ends = [
        Part::Exactly(55),
        Part::Any(7),
        Part::Exactly(2),
        Part::Text(0),
    ];
    is_front(missing, &completed, bytes)
        || is_front(missing, &acknowledged, bytes)
        || is_front(missing, &stays, bytes)
        || is_front(missing, &new, bytes)
        || is_front(missing, &ends, bytes)
}

fn is_table(missing: usize, bytes: &[u8]) -> bool
    ensures { result ≡ is_front_in missing bytes.now tables }
{
    let checkpoint = [
        Part::Exactly(64),
        Part::Exactly(0),
        Part::Any(7),
        Part::Any(7),
        Part::Any(7),
        Part::Any(7),
    ];
    let code = [
        Part::Exactly(64),
        Part::Exactly(2),
        Part::Name,
        Part::Flag,
        Part::Any(0),
        Part::Any(0),
    ];
    is_front(missing, &checkpoint, bytes)
        || is_idle_terminal(missing, bytes)
        || is_conversing_terminal(missing, bytes)
        || is_front(missing, &code, bytes)
}

fn is_idle_terminal(missing: usize, bytes: &[u8]) -> bool
    ensures { result ≡ is_front missing idle_terminal bytes.now }
{
    let layout = [
        Part::Exactly(64),
        Part::Exactly(1),
        Part::Name,
        Part::Any(7),
        Part::Any(7),
        Part::Flag,
        Part::Exactly(0),
        Part::Text(0),
    ];
    is_front(missing, &layout, bytes)
}

fn is_conversing_terminal(missing: usize, bytes: &[u8]) -> bool
    ensures { result ≡ is_front missing conversing_terminal bytes.now }
{
    let layout = [
        Part::Exactly(64),
        Part::Exactly(1),
        Part::Name,
        Part::Any(7),
        Part::Any(7),
        Part::Flag,
        Part::Exactly(1),
        Part::Name,
        Part::Text(65535),
    ];
    is_front(missing, &layout, bytes)
}

/// Whether bytes are a front of such a layout, and so many are missing.
fn is_front(missing: usize, layout: &[Part], bytes: &[u8]) -> bool
    ensures { result ≡ is_front missing layout.now bytes.now }
{
    let mut current = None;
    let mut place = 0;
    for byte in bytes {
        match advance(current, layout, place, *byte) {
            None => return false,
            Some((left, behind)) => {
                current = left;
                place = behind;
            }
        }
    }
    have_room(missing, current, &layout[place..])
}

/// What is left of the part that this byte stands in, and the place behind it.
fn advance(
    current: Option<Part>,
    layout: &[Part],
    place: usize,
    byte: u8,
) -> Option<(Option<Part>, usize)>
    ensures { result ≡ advanced current layout.now place byte }
{
    match next_part(current, layout, place) {
        None => None,
        Some((part, behind)) => match step(part, byte) {
            None => None,
            Some(left) => Some((left, behind)),
        },
    }
}

/// The part that the next byte stands in, and the place behind it.
fn next_part(current: Option<Part>, layout: &[Part], place: usize) -> Option<(Part, usize)>
    ensures { result ≡ next_part current layout.now place }
{
    if let Some(part) = current {
        return Some((part, place));
    }
    if place < layout.len() {
        Some((layout[place], place + 1))
    } else {
        None
    }
}

/// Whether these parts have a text of so many bytes.
fn have_room(size: usize, current: Option<Part>, others: &[Part]) -> bool
    ensures { result ≡ have_room size (left_before current others.now) }
{
    match current {
        None => are_few(size, others) && are_many(size, others),
        Some(part) => {
            least(part) <= size
                && are_few(size - least(part), others)
                && are_many(size.saturating_sub(most(part)), others)
        }
    }
}

/// No more bytes than these have at least.
fn are_few(size: usize, parts: &[Part]) -> bool
    ensures { result ≡ nat_le (leasts parts.now) size }
{
    let mut left = size;
    for part in parts {
        let few = least(*part);
        if left < few {
            return false;
        }
        left -= few;
    }
    true
}

/// So many bytes, or more, at most.
fn are_many(size: usize, parts: &[Part]) -> bool
    ensures { result ≡ nat_le size (mosts parts.now) }
{
    let mut left = size;
    for part in parts {
        left = left.saturating_sub(most(*part));
    }
    left == 0
}
