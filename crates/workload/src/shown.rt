//! The reply that was shown last.
ghost use Rattle.std.specs.Prelude.{◌≡◌};
ghost use Rattle.std.specs.Option.{option_map};
ghost use Rattle.workload.specs.ShownReply as spec;

use text_rows::split_at;
use tm_types::{first_word, operands};

/// The text of the reply that is shown last on these printed lines, if one is.
#[tactic(auto, using(crate::proofs::Printed::line_steps))]
pub fn last_shown(printed: &[u8]) -> Option<&[u8]>
    ensures { option_map (λ text. text.now) result ≡ spec.last_reply printed.now }
{
    let mut last = None;
    let mut rest = printed;
    while let Some((line, behind)) = split_at(b'\n', rest) {
        last = later(last, shown_on(line));
        rest = behind;
    }
    last
}

/// The text of the reply that a line shows, if it shows one.
fn shown_on(line: &[u8]) -> Option<&[u8]>
    ensures { option_map (λ text. text.now) result ≡ spec.shown_on line.now }
{
    if first_word(line) == b"OUT".as_slice() {
        Some(operands(operands(operands(line))))
    } else {
        None
    }
}

/// The later one, where there is one.
fn later<'a>(first: Option<&'a [u8]>, second: Option<&'a [u8]>) -> Option<&'a [u8]>
    ensures { option_map (λ text. text.now) result ≡ spec.later (option_map (λ text. text.now) first.entry) (option_map (λ text. text.now) second.entry) }
{
    match second {
        Some(_) => second,
        None => first,
    }
}
