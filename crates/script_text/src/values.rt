//! The operands of statements.
ghost use Rattle.std.specs.Prelude.{◌≡◌, ◌≤◌, ◌<◌, ◌∷◌, [], IfOk, IsTrue, is_some};
ghost use Rattle.std.specs.List.{list_all};
ghost use Rattle.std.specs.Option.{option_copied};
ghost use Rattle.tm_types.specs.Segment.{is_printable};
ghost use Rattle.model_system.specs.Programs.{is_plain};
ghost use Rattle.script_text.specs.GoodStatement.{places_in, are_all_printable};
ghost use Rattle.script_text.specs.Values as spec;
ghost use Rattle.script_text.specs.WordLists as lists;
ghost use Rattle.text_rows.specs.Lines as row;
ghost use Rattle.text_rows.specs.Names as names;

use crate::rules::{
    NO_LABEL, OPEN_LITERAL, UNKNOWN_FUNCTION, UNKNOWN_WORD, WRONG_NUMBER, WRONG_OPERAND,
};
use model_system::{Comparison, ScriptSsa, ScriptSsas, Target, Text, Texts, Variable};
use std::alloc::Global;
use std::collections::BTreeMap;
use text_rows::{Pieces, is_word, name_of, number_between, split_at};
use tm_types::{Bytes, Function, Memory, Name};

/// The variable that the word is: rule 3 where it is none.
#[tactic(auto, unfolding(crate::specs::Values::variable_of))]
pub(crate) fn variable_of(word: &[u8]) -> Result<Variable, u8>
    ensures { result ≡ spec.variable_of word.now }
{
    match word {
        [letter] if letter.is_ascii_uppercase() => Ok(Variable::at(*letter - b'A')),
        _ => Err(WRONG_OPERAND),
    }
}

/// The text that the word names: rule 3 where it names none, rule 4 where its literal isn't closed.
#[tactic(auto, unfolding(crate::specs::Values::read_text_of))]
pub(crate) fn text_of(alloc: Global, word: &[u8]) -> Result<Result<Text, u8>, Memory>
    ensures value { IfOk result (λ read. read ≡ spec.read_text_of word.now) }
    ensures plain { IfOk result (λ read. IfOk read (λ text. IsTrue (list_all is_printable word.now) → IsTrue (is_plain text))) }
{
    match word {
        [b'"', rest @ ..] => literal(alloc, rest),
        [] => Ok(Err(WRONG_OPERAND)),
        _ => Ok(named_text(word)),
    }
}

fn literal(alloc: Global, rest: &[u8]) -> Result<Result<Text, u8>, Memory>
    ensures value { IfOk result (λ read. read ≡ spec.quote_closed (row.split_at 34 rest.now)) }
    ensures plain { IfOk result (λ read. IfOk read (λ text. IsTrue (list_all is_printable rest.now) → IsTrue (is_plain text))) }
{
    match split_at(b'"', rest) {
        Some((inside, [])) => Ok(Ok(Text::Literal(Bytes::copied(alloc, inside)?))),
        Some(_) => Ok(Err(WRONG_OPERAND)),
        None => Ok(Err(OPEN_LITERAL)),
    }
}

fn named_text(word: &[u8]) -> Result<Text, u8>
    ensures value { result ≡ spec.named_text word.now }
    ensures plain { IfOk result (λ text. IsTrue (is_plain text)) }
{
    if is_word(word, b"STATUS") {
        return Ok(Text::Status);
    }
    Ok(Text::Variable(variable_of(word)?))
}

/// A number from 1 or 0 to its limit that a byte holds: rule 7 where the word is none.
#[tactic(auto, unfolding(crate::specs::Values::operand_number))]
pub(crate) fn byte_of(low: u8, high: u8, word: &[u8]) -> Result<u8, u8>
    ensures value { result ≡ spec.operand_number low high word.now }
    ensures within { IfOk result (λ number. (low ≤ number) × (number ≤ high)) }
{
    match number_between(u32::from(low), u32::from(high), word) {
        Ok(number) => Ok(number as u8),
        Err(_) => Err(WRONG_NUMBER),
    }
}

/// A number from 1 to its limit that two bytes hold: rule 7 where the word is none.
#[tactic(auto, unfolding(crate::specs::Values::operand_number))]
pub(crate) fn short_of(low: u16, high: u16, word: &[u8]) -> Result<u16, u8>
    ensures value { result ≡ spec.operand_number low high word.now }
    ensures within { IfOk result (λ number. (low ≤ number) × (number ≤ high)) }
{
    match number_between(u32::from(low), u32::from(high), word) {
        Ok(number) => Ok(number as u16),
        Err(_) => Err(WRONG_NUMBER),
    }
}

/// Rule 1 where the word compares nothing.
#[tactic(auto, unfolding(crate::specs::Values::comparison_of))]
pub(crate) fn comparison_of(word: &[u8]) -> Result<Comparison, u8>
    ensures { result ≡ spec.comparison_of word.now }
{
    if is_word(word, b"=") {
        Ok(Comparison::Equal)
    } else if is_word(word, b"<>") {
        Ok(Comparison::NotEqual)
    } else if is_word(word, b"<") {
        Ok(Comparison::LessThan)
    } else {
        Err(UNKNOWN_WORD)
    }
}

/// Rule 1 where the word isn't GOTO.
#[tactic(auto, unfolding(crate::specs::Values::goto_word))]
pub(crate) fn goto_word(word: &[u8]) -> Result<(), u8>
    ensures { result ≡ spec.goto_word word.now }
{
    if is_word(word, b"GOTO") {
        Ok(())
    } else {
        Err(UNKNOWN_WORD)
    }
}

/// The place of a label, where it stands.
pub(crate) fn place_of(labels: &BTreeMap<Name, u32>, name: &Name) -> Option<u32>
    ensures { result ≡ places_in labels.now name.now }
{
    match labels.get(name) {
        Some(place) => Some(*place),
        None => None,
    }
}

/// The label that the word is, with its place: rule 5 where it is none.
#[tactic(auto, unfolding(crate::specs::Values::read_target))]
pub(crate) fn target_of(labels: &BTreeMap<Name, u32>, word: &[u8]) -> Result<Target, u8>
    ensures value { result ≡ spec.read_target (places_in labels.now) word.now }
    ensures placed { IfOk result (λ target. places_in labels.now target.label ≡ Some target.place) }
{
    let Ok(label) = name_of(word) else {
        return Err(NO_LABEL);
    };
    match place_of(labels, &label) {
        Some(place) => Ok(Target { label, place }),
        None => Err(NO_LABEL),
    }
}

/// The segment search argument that the word is: rule 3 where it is none.
#[tactic(auto, unfolding(crate::specs::Values::ssa_of))]
pub(crate) fn ssa_of(word: &[u8]) -> Result<ScriptSsa, u8>
    ensures { result ≡ spec.ssa_of word.now }
{
    match split_at(b'>', word) {
        Some((name, rest)) => behind_greater(name, rest),
        None => with_equal(word),
    }
}

fn behind_greater(name: &[u8], rest: &[u8]) -> Result<ScriptSsa, u8>
    ensures { result ≡ spec.behind_greater name.now rest.now }
{
    let [b'=', x @ ..] = rest else {
        return Err(WRONG_OPERAND);
    };
    match (name_of(name), variable_of(x)) {
        (Ok(name), Ok(x)) => Ok(ScriptSsa::AtLeast(name, x)),
        _ => Err(WRONG_OPERAND),
    }
}

fn with_equal(word: &[u8]) -> Result<ScriptSsa, u8>
    ensures { result ≡ spec.with_equal word.now (row.split_at 61 word.now) }
{
    match split_at(b'=', word) {
        Some((name, x)) => equal_key(name, x),
        None => any_key(word),
    }
}

fn equal_key(name: &[u8], x: &[u8]) -> Result<ScriptSsa, u8>
    ensures { result ≡ spec.equal_key (names.name_of name.now) (spec.variable_of x.now) }
{
    match (name_of(name), variable_of(x)) {
        (Ok(name), Ok(x)) => Ok(ScriptSsa::Equal(name, x)),
        _ => Err(WRONG_OPERAND),
    }
}

fn any_key(word: &[u8]) -> Result<ScriptSsa, u8>
    ensures { result ≡ spec.any_key (names.name_of word.now) }
{
    match name_of(word) {
        Ok(name) => Ok(ScriptSsa::Any(name)),
        Err(_) => Err(WRONG_OPERAND),
    }
}

/// The function of a call: rule 10 where the word is none.
#[tactic(auto, unfolding(crate::specs::Values::function_of))]
pub(crate) fn function_of(word: &[u8]) -> Result<Function, u8>
    ensures { result ≡ spec.function_of word.now }
{
    if is_word(word, b"GU") {
        Ok(Function::GU)
    } else if is_word(word, b"GN") {
        Ok(Function::GN)
    } else if is_word(word, b"GNP") {
        Ok(Function::GNP)
    } else if is_word(word, b"GHU") {
        Ok(Function::GHU)
    } else if is_word(word, b"GHN") {
        Ok(Function::GHN)
    } else if is_word(word, b"GHNP") {
        Ok(Function::GHNP)
    } else if is_word(word, b"ISRT") {
        Ok(Function::ISRT)
    } else if is_word(word, b"REPL") {
        Ok(Function::REPL)
    } else if is_word(word, b"DLET") {
        Ok(Function::DLET)
    } else if is_word(word, b"PURG") {
        Ok(Function::PURG)
    } else if is_word(word, b"CHNG") {
        Ok(Function::CHNG)
    } else if is_word(word, b"ROLB") {
        Ok(Function::ROLB)
    } else if is_word(word, b"ROLL") {
        Ok(Function::ROLL)
    } else {
        Err(UNKNOWN_FUNCTION)
    }
}

/// The texts that the first word and those behind it name, or the lowest rule that one of them breaks.
#[tactic(auto, using(crate::proofs::Lists::text_steps, crate::proofs::Printable::plain_more, crate::proofs::Printable::plain_given))]
pub(crate) fn texts_of(
    alloc: Global,
    first: &[u8],
    words: Pieces<'_>,
) -> Result<Result<Texts, u8>, Memory>
    ensures value { IfOk result (λ read. read ≡ spec.read_texts (first.now ∷ words.entry)) }
    ensures plain { IfOk result (λ read. IfOk read (λ texts. IsTrue (are_all_printable (first.now ∷ words.entry)) → IsTrue (list_all is_plain texts))) }
{
    let mut texts = and_text(Ok(Texts::new(alloc)), text_of(alloc, first)?)?;
    for word in words {
        texts = and_text(texts, text_of(alloc, word)?)?;
    }
    Ok(texts)
}

/// One text more, or the lowest rule that is broken.
fn and_text(texts: Result<Texts, u8>, text: Result<Text, u8>) -> Result<Result<Texts, u8>, Memory>
    ensures { IfOk result (λ read. read ≡ lists.and_last texts text) }
{
    match (texts, text) {
        (Ok(mut texts), Ok(text)) => {
            texts.push(text)?;
            Ok(Ok(texts))
        }
        (Err(rule), Err(other)) => Ok(Err(rule.min(other))),
        (Err(rule), Ok(_)) | (Ok(_), Err(rule)) => Ok(Err(rule)),
    }
}

/// The segment search arguments that the words are, or the lowest rule that one of them breaks.
#[tactic(auto, using(crate::proofs::Lists::ssa_steps))]
pub(crate) fn ssas_of(alloc: Global, words: Pieces<'_>) -> Result<Result<ScriptSsas, u8>, Memory>
    ensures { IfOk result (λ read. read ≡ spec.ssas_of words.entry) }
{
    let mut ssas = Ok(ScriptSsas::new(alloc));
    for word in words {
        ssas = and_ssa(ssas, ssa_of(word))?;
    }
    Ok(ssas)
}

/// One argument more, or the lowest rule that is broken.
fn and_ssa(
    ssas: Result<ScriptSsas, u8>,
    ssa: Result<ScriptSsa, u8>,
) -> Result<Result<ScriptSsas, u8>, Memory>
    ensures { IfOk result (λ read. read ≡ lists.and_last ssas ssa) }
{
    match (ssas, ssa) {
        (Ok(mut ssas), Ok(ssa)) => {
            ssas.push(ssa)?;
            Ok(Ok(ssas))
        }
        (Err(rule), Err(other)) => Ok(Err(rule.min(other))),
        (Err(rule), Ok(_)) | (Ok(_), Err(rule)) => Ok(Err(rule)),
    }
}
