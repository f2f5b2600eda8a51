//! Words, which one blank parts.
ghost use Rattle.std.specs.Prelude.{◌≡◌, ◌==◌, position};
ghost use Rattle.std.specs.List.{position_or_len};
ghost use Rattle.tm_types.specs.Words as spec;

/// What stands before the first blank of a text, or all of it where there is none.
pub fn first_word(text: &[u8]) -> &[u8]
    ensures { result.now ≡ spec.first_word text.now }
{
    &text[..word_length(text)]
}

/// What stands behind the first blank of a text, or nothing where there is none.
pub fn operands(text: &[u8]) -> &[u8]
    ensures { result.now ≡ spec.operands text.now }
{
    let length = word_length(text);
    if length < text.len() {
        &text[length + 1..]
    } else {
        &[]
    }
}

/// How many bytes stand before the first blank.
#[tactic(auto, using(crate::proofs::Places::first_places))]
fn word_length(text: &[u8]) -> usize
    ensures { result ≡ position_or_len (λ b. b == 32) text.now }
{
    match first_blank(text) {
        Some(place) => place,
        None => text.len(),
    }
}

fn first_blank(text: &[u8]) -> Option<usize>
    ensures { result ≡ position (λ b. b == 32) text.now }
{
    text.iter().position(|&b| b == b' ')
}
