//! The word that a line begins with.
ghost use Rattle.std.specs.Prelude.{◌≡◌};
ghost use Rattle.script_text.specs.Statements as spec;

use text_rows::is_word;

/// The words with which lines begin.
#[derive(Clone, Copy, Debug)]
pub enum LineWord {
    Label,
    Set,
    Word,
    Cut,
    Pad,
    Add,
    Less,
    If,
    Goto,
    Call,
    Abend,
    End,
}

/// The word that a line begins with, where it is one of the language.
#[tactic(auto, unfolding(crate::specs::Statements::line_word))]
pub(crate) fn line_word(word: &[u8]) -> Option<LineWord>
    ensures { result ≡ spec.line_word word.now }
{
    if is_word(word, b"LABEL") {
        Some(LineWord::Label)
    } else if is_word(word, b"SET") {
        Some(LineWord::Set)
    } else if is_word(word, b"WORD") {
        Some(LineWord::Word)
    } else if is_word(word, b"CUT") {
        Some(LineWord::Cut)
    } else if is_word(word, b"PAD") {
        Some(LineWord::Pad)
    } else if is_word(word, b"ADD") {
        Some(LineWord::Add)
    } else if is_word(word, b"LESS") {
        Some(LineWord::Less)
    } else if is_word(word, b"IF") {
        Some(LineWord::If)
    } else if is_word(word, b"GOTO") {
        Some(LineWord::Goto)
    } else if is_word(word, b"CALL") {
        Some(LineWord::Call)
    } else if is_word(word, b"ABEND") {
        Some(LineWord::Abend)
    } else if is_word(word, b"END") {
        Some(LineWord::End)
    } else {
        None
    }
}
