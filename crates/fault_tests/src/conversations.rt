//! `conversation`: a scratch pad that is given back.
ghost use Rattle.std.specs.Prelude.{◌≡◌, is_some};
ghost use Rattle.model_messages.specs.Terminals.{conversation_at};

use conversation::{Conversations, PadRefused};
use std::alloc::Global;
use std::test::Fail;
use tm_types::Name;

/// Whether this is the terminal's pad.
fn has_pad(table: &Conversations, terminal: &Name, text: &[u8]) -> bool {
    match table.pad(terminal) {
        Some(pad) => pad == text,
        None => false,
    }
}

/// A table in which the terminal has begun a conversation of the code, with 6 blanks, and another terminal has none.
#[tactic(auto, using(crate::proofs::FirstTerminal::first_terminal, crate::proofs::FirstTerminal::first_without))]
fn begun(alloc: Global, terminal: &Name, other: &Name, code: &Name) -> Result<Conversations, Fail> {
    let mut table = Conversations::none(alloc, &[*terminal, *other])?;
    table.begin(terminal, code, 6)?;
    Ok(table)
}

/// Whether the terminal has a conversation.
fn converses(table: &Conversations, terminal: &Name) -> bool
    ensures { result ≡ is_some (conversation_at terminal.now table.now) }
{
    table.conversation(terminal).is_some()
}

/// The rule by which a text is refused as the terminal's pad; 0 where it is taken, and 8 where the terminal has no
/// conversation.
#[tactic(auto, using(crate::proofs::FirstTerminal::conversing_terminal))]
fn updated(table: &mut Conversations, terminal: &Name, text: &[u8]) -> u8 {
    if !converses(table, terminal) {
        return 8;
    }
    match table.update(terminal, text) {
        Ok(()) => 0,
        Err(PadRefused::BadSpa(rule)) => rule,
        Err(PadRefused::Memory) => 9,
    }
}

#[test]
fn pads_that_are_given_back(rt: HostRuntime) -> Result<(), Fail> {
    let alloc = rt.alloc();
    let first = Name::read(b"T1").ok_or("no name")?;
    let second = Name::read(b"T2").ok_or("no name")?;
    let code = Name::read(b"CONV").ok_or("no name")?;
    let mut table = begun(alloc, &first, &second, &code)?;
    let texts: [(&[u8], u8, &[u8]); 4] = [
        (b"CONV    AB", 0, b"CONV    AB    "),
        (b"CONV   ", 1, b"CONV    AB    "),
        (b"CONVS   CD", 2, b"CONV    AB    "),
        (b"CONV    ABCDEFGH", 0, b"CONV    ABCDEF"),
    ];
    for (text, rule, pad) in texts {
        assert_eq!(rt; updated(&mut table, &first, text), rule);
        assert!(rt; has_pad(&table, &first, pad));
    }
    // Blanks in the place of the code end the conversation.
    assert_eq!(rt; updated(&mut table, &first, b"        AB"), 0);
    assert!(rt; table.pad(&first).is_none());
    Ok(())
}
