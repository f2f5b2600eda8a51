//! The terminals and the codes of a system as destinations.
ghost use Rattle.std.specs.Prelude.{◌≡◌, ◌+◌, ◌==◌, length, slice_get};
ghost use Rattle.std.specs.List.{suffix_len};
ghost use Rattle.std.specs.Option.{option_and_then};
ghost use Rattle.model_messages.specs.MessageCalls.{destination_named, switched_to, without_blanks};

use model_system::Code;
use system_types::System;
use tm_types::Name;

/// The text without the blanks at its end.
#[tactic(auto, using(tm_types::proofs::Parted::trimmed_at))]
pub fn without_blanks(text: &[u8]) -> &[u8]
    ensures { result.now ≡ without_blanks text.now }
{
    &text[..text_end(text)]
}

fn text_end(text: &[u8]) -> usize
    ensures { result + suffix_len (λ byte. byte == 32) text.now ≡ length text.now }
{
    let mut end = text.len();
    while end > 0 && text[end - 1] == b' ' {
        end -= 1;
    }
    end
}

/// The terminal of this name, or else the code, if it has no scratch pad.
#[tactic(auto, using(system_types::proofs::Indexed::found_at))]
pub fn destination_named(system: &System, name: &[u8]) -> Option<Name>
    ensures { result ≡ destination_named system.now name.now }
{
    match terminal_at(system.terminals(), system.terminal_named(name)) {
        Some(terminal) => Some(terminal),
        None => switched_at(system.codes(), system.code_named(name)),
    }
}

fn terminal_at(terminals: &[Name], place: Option<usize>) -> Option<Name>
    ensures { result ≡ option_and_then (slice_get terminals.now) place }
{
    terminals.get(place?).copied()
}

fn switched_at(codes: &[Code], place: Option<usize>) -> Option<Name>
    ensures { result ≡ option_and_then switched_to (option_and_then (slice_get codes.now) place) }
{
    switched_to(codes.get(place?)?)
}

fn switched_to(code: &Code) -> Option<Name>
    ensures { result ≡ switched_to code.now }
{
    if code.transaction.scratch_pad != 0 {
        return None;
    }
    Some(code.transaction.code)
}
