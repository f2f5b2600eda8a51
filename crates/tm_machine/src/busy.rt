//! The region that a freeze waits for.
ghost use Rattle.std.specs.Prelude.{◌≡◌};
ghost use Rattle.model_machine.specs.CommandAnswers.{first_busy};

use crate::Parts;

/// The lowest region that works on a message, with the message's id; None exactly where none does.
pub fn busy_region(parts: &Parts) -> Option<(u32, u64)>
    ensures { result ≡ first_busy 1 parts.now.moment.slots }
{
    for place in 0..parts.region_count() {
        if let Some(work) = parts.work(place + 1) {
            return Some((place + 1, work.1));
        }
    }
    None
}
