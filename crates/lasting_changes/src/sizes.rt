//! How many bytes messages and replies count.
ghost use Rattle.std.specs.Prelude.{◌≡◌, ◌≤◌, ◌<◌, ◌^◌, IfNone, IfSome};
ghost use Rattle.tm_types.specs.Segment.{counted_bytes};

use tm_types::Segments;

/// No count of bytes passes this one. What would is answered as want of memory: there is no machine that could hold so
/// much.
const BYTE_LIMIT: u64 = 1 << 60;

/// The bytes that a message or a reply of these segments counts, or None where they pass the limit of all counts of bytes.
#[tactic(auto, using(crate::proofs::Counting::segment_first))]
pub fn bytes_of(segments: &Segments) -> Option<u64>
    ensures within { IfSome result (λ bytes. (bytes ≡ counted_bytes segments.now) × (bytes ≤ 2 ^ 60)) }
    ensures beyond { IfNone result (2 ^ 60 < counted_bytes segments.now) }
{
    let mut bytes: u64 = 48;
    for place in 0..segments.len() {
        let Some(segment) = segments.get(place) else {
            unreachable!()
        };
        bytes = bytes.checked_add(segment.counted_length())?;
    }
    if bytes > BYTE_LIMIT {
        return None;
    }
    Some(bytes)
}
