//! The statements, each by its word.
ghost use Rattle.std.specs.Prelude.{◌≡◌, ◌≤◌, nat_le, ◌∷◌, [], ℕ, true, false, Ok, Some, None, IfOk, IfSome, IsTrue, is_some, is_none};
ghost use Rattle.model_system.specs.Programs.{is_call, is_statement, is_function_of, is_message_function, ssas_allowed, takes_area, takes_ssas};
ghost use Rattle.script_text.specs.GoodStatement.{places_in, are_all_printable, is_unlabelled, IsGood};
ghost use Rattle.script_text.specs.Statements as spec;
ghost use Rattle.script_text.specs.Values as values;
ghost use Rattle.text_rows.specs.LowestRule as lowest;
ghost use Rattle.text_rows.specs.Names as names;
ghost use Rattle.script_text.specs.declared.line_word.LineWord.TheVariants as words_of_lines;

use crate::line_word::{LineWord, line_word};
use crate::rules::{LABEL_TWICE, NO_LABEL, UNKNOWN_FUNCTION, UNKNOWN_WORD, WRONG_COUNT};
use crate::values::{
    byte_of, comparison_of, function_of, goto_word, place_of, short_of, ssas_of, target_of,
    text_of, texts_of, variable_of,
};
use model_system::{Comparison, ScriptSsas, Statement, Target, Text, Variable};
use std::alloc::Global;
use std::collections::BTreeMap;
use text_rows::rules::OUT_OF_RANGE;
use text_rows::{Pieces, also, both, name_of, number_between};
use tm_types::{AbendCode, Function, Memory, Name};

/// What the words read as, or the lowest rule that they break. The line stands at this place among
/// the lines of the program, and the labels at theirs.
#[tactic(auto, unfolding(crate::specs::Statements::statement_of))]
pub(crate) fn statement_of(
    alloc: Global,
    labels: &BTreeMap<Name, u32>,
    here: u32,
    mut words: Pieces<'_>,
) -> Result<Result<Statement, u8>, Memory>
    ensures value { IfOk result (λ read. read ≡ spec.statement_of (places_in labels.now) here words.entry) }
    ensures good { IfOk result (λ read. IfOk read (IsGood (places_in labels.now) here words.entry (spec.has_label_word words.entry) (spec.label_in words.entry))) }
{
    let Some(word) = words.next() else {
        return Ok(Err(UNKNOWN_WORD));
    };
    match line_word(word) {
        Some(word) => by_word(alloc, word, labels, here, words),
        None => Ok(Err(UNKNOWN_WORD)),
    }
}

#[tactic(auto, using(crate::proofs::GoodStatements::free_read))]
fn by_word(
    alloc: Global,
    word: LineWord,
    labels: &BTreeMap<Name, u32>,
    here: u32,
    words: Pieces<'_>,
) -> Result<Result<Statement, u8>, Memory>
    ensures value { IfOk result (λ read. read ≡ spec.by_word word (places_in labels.now) here words.entry) }
    ensures good { IfOk result (λ read. IfOk read (IsGood (places_in labels.now) here words.entry (spec.is_label_word (Some word)) (spec.label_by (Some word) words.entry))) }
{
    match word {
        LineWord::Label => Ok(label_of(labels, here, words)),
        LineWord::Set => set_of(alloc, words),
        LineWord::Word => Ok(word_of(words)),
        LineWord::Cut => Ok(cut_of(words)),
        LineWord::Pad => Ok(pad_of(words)),
        LineWord::Add => Ok(add_of(words)),
        LineWord::Less => Ok(less_of(words)),
        LineWord::If => if_of(alloc, labels, words),
        LineWord::Goto => Ok(goto_of(labels, words)),
        LineWord::Call => call_of(alloc, words),
        LineWord::Abend => Ok(abend_of(words)),
        LineWord::End => Ok(end_of(words)),
    }
}

/// Whether the words set a label, or would; they are no statement then.
pub(crate) fn has_label_word(mut words: Pieces<'_>) -> bool
    ensures { result ≡ spec.has_label_word words.entry }
{
    match words.next() {
        Some(word) => matches!(line_word(word), Some(LineWord::Label)),
        None => false,
    }
}

/// The label that the words set.
pub(crate) fn label_in(mut words: Pieces<'_>) -> Option<Name>
    ensures { result ≡ spec.label_in words.entry }
{
    let word = words.next()?;
    match (line_word(word), words.next(), words.next()) {
        (Some(LineWord::Label), Some(name), None) => if_name(name),
        _ => None,
    }
}

fn if_name(word: &[u8]) -> Option<Name>
    ensures { result ≡ spec.if_name (names.name_of word.now) }
{
    match name_of(word) {
        Ok(name) => Some(name),
        Err(_) => None,
    }
}

#[tactic(auto, unfolding(crate::specs::Statements::label_of))]
fn label_of(labels: &BTreeMap<Name, u32>, here: u32, mut words: Pieces<'_>) -> Result<Statement, u8>
    ensures value { result ≡ spec.label_of (places_in labels.now) here words.entry }
    ensures good { IfOk result (IsGood (places_in labels.now) here words.entry true (spec.label_by (Some words_of_lines.Label) words.entry)) }
{
    match (words.next(), words.next()) {
        (Some(word), None) => label_at(labels, here, word),
        _ => Err(WRONG_COUNT),
    }
}

fn label_at(labels: &BTreeMap<Name, u32>, here: u32, word: &[u8]) -> Result<Statement, u8>
    ensures value { result ≡ spec.label_at (places_in labels.now) here (names.name_of word.now) }
    ensures good { IfOk result (IsGood (places_in labels.now) here (word.now ∷ []) true (spec.if_name (names.name_of word.now))) }
{
    let Ok(label) = name_of(word) else {
        return Err(NO_LABEL);
    };
    if stands_at(place_of(labels, &label), here) {
        Ok(Statement::Label(label))
    } else {
        Err(LABEL_TWICE)
    }
}

fn stands_at(place: Option<u32>, here: u32) -> bool
    ensures value { result ≡ spec.stands_at place here }
    ensures place { IsTrue result → place ≡ Some here }
{
    match place {
        Some(place) => place == here,
        None => false,
    }
}

#[tactic(auto, unfolding(crate::specs::Statements::set_of))]
fn set_of(alloc: Global, mut words: Pieces<'_>) -> Result<Result<Statement, u8>, Memory>
    ensures value { IfOk result (λ read. read ≡ spec.set_of words.entry) }
    ensures free { IfOk result (λ read. IfOk read (λ statement. IsTrue (is_unlabelled statement))) }
    ensures allowed { IfOk result (λ read. IfOk read (λ statement. IsTrue (are_all_printable words.entry) → IsTrue (is_statement statement))) }
{
    let (Some(x), Some(first)) = (words.next(), words.next()) else {
        return Ok(Err(WRONG_COUNT));
    };
    match both(variable_of(x), texts_of(alloc, first, words)?) {
        Ok((x, texts)) => Ok(Ok(Statement::Set(x, texts))),
        Err(rule) => Ok(Err(rule)),
    }
}

#[tactic(auto, unfolding(crate::specs::Statements::word_of))]
fn word_of(mut words: Pieces<'_>) -> Result<Statement, u8>
    ensures value { result ≡ spec.word_of words.entry }
    ensures free { IfOk result (λ statement. IsTrue (is_unlabelled statement)) }
    ensures allowed { IfOk result (λ statement. IsTrue (is_statement statement)) }
{
    match (words.next(), words.next(), words.next(), words.next()) {
        (Some(x), Some(y), Some(number), None) => {
            let (x, (y, number)) = both(
                variable_of(x),
                both(variable_of(y), byte_of(1, 100, number)),
            )?;
            Ok(Statement::Word(x, y, number))
        }
        _ => Err(WRONG_COUNT),
    }
}

#[tactic(auto, unfolding(crate::specs::Statements::read_cut))]
fn cut_of(mut words: Pieces<'_>) -> Result<Statement, u8>
    ensures value { result ≡ spec.read_cut words.entry }
    ensures free { IfOk result (λ statement. IsTrue (is_unlabelled statement)) }
    ensures allowed { IfOk result (λ statement. IsTrue (is_statement statement)) }
{
    match (
        words.next(),
        words.next(),
        words.next(),
        words.next(),
        words.next(),
    ) {
        (Some(x), Some(y), Some(start), Some(count), None) => {
            let variables = both(variable_of(x), variable_of(y));
            let numbers = both(short_of(1, 1996, start), short_of(1, 1996, count));
            let ((x, y), (start, count)) = both(variables, numbers)?;
            Ok(Statement::Cut(x, y, start, count))
        }
        _ => Err(WRONG_COUNT),
    }
}

#[tactic(auto, unfolding(crate::specs::Statements::read_pad))]
fn pad_of(mut words: Pieces<'_>) -> Result<Statement, u8>
    ensures value { result ≡ spec.read_pad words.entry }
    ensures free { IfOk result (λ statement. IsTrue (is_unlabelled statement)) }
    ensures allowed { IfOk result (λ statement. IsTrue (is_statement statement)) }
{
    match (words.next(), words.next(), words.next()) {
        (Some(x), Some(width), None) => {
            let (x, width) = both(variable_of(x), byte_of(1, 18, width))?;
            Ok(Statement::Pad(x, width))
        }
        _ => Err(WRONG_COUNT),
    }
}

#[tactic(auto, unfolding(crate::specs::Statements::pair_of))]
fn pair_of(mut words: Pieces<'_>) -> Result<(Variable, Variable), u8>
    ensures { result ≡ spec.pair_of words.entry }
{
    match (words.next(), words.next(), words.next()) {
        (Some(x), Some(y), None) => both(variable_of(x), variable_of(y)),
        _ => Err(WRONG_COUNT),
    }
}

fn add_of(words: Pieces<'_>) -> Result<Statement, u8>
    ensures value { result ≡ spec.add_made (spec.pair_of words.entry) }
    ensures free { IfOk result (λ statement. IsTrue (is_unlabelled statement)) }
    ensures allowed { IfOk result (λ statement. IsTrue (is_statement statement)) }
{
    let (x, y) = pair_of(words)?;
    Ok(Statement::Add(x, y))
}

fn less_of(words: Pieces<'_>) -> Result<Statement, u8>
    ensures value { result ≡ spec.less_made (spec.pair_of words.entry) }
    ensures free { IfOk result (λ statement. IsTrue (is_unlabelled statement)) }
    ensures allowed { IfOk result (λ statement. IsTrue (is_statement statement)) }
{
    let (x, y) = pair_of(words)?;
    Ok(Statement::Less(x, y))
}

#[tactic(auto, unfolding(crate::specs::Statements::goto_of))]
fn goto_of(labels: &BTreeMap<Name, u32>, mut words: Pieces<'_>) -> Result<Statement, u8>
    ensures value { result ≡ spec.goto_of (places_in labels.now) words.entry }
    ensures good { (here : ℕ) → IfOk result (IsGood (places_in labels.now) here words.entry false None) }
{
    match (words.next(), words.next()) {
        (Some(label), None) => {
            let target = target_of(labels, label)?;
            Ok(Statement::Goto(target))
        }
        _ => Err(WRONG_COUNT),
    }
}

#[tactic(auto, unfolding(crate::specs::Statements::if_of))]
fn if_of(
    alloc: Global,
    labels: &BTreeMap<Name, u32>,
    mut words: Pieces<'_>,
) -> Result<Result<Statement, u8>, Memory>
    ensures value { IfOk result (λ read. read ≡ spec.if_of (places_in labels.now) words.entry) }
    ensures good { (here : ℕ) → IfOk result (λ read. IfOk read (IsGood (places_in labels.now) here words.entry false None)) }
{
    match (
        words.next(),
        words.next(),
        words.next(),
        words.next(),
        words.next(),
        words.next(),
    ) {
        (Some(left), Some(comparison), Some(right), Some(goto), Some(label), None) => {
            if_with(alloc, labels, left, comparison, right, goto, label)
        }
        (Some(_), Some(comparison), Some(_), Some(goto), _, _) => {
            let compared = also(Err(WRONG_COUNT), comparison_of(comparison));
            Ok(also(compared, goto_word(goto)))
        }
        (Some(_), Some(comparison), _, _, _, _) => {
            Ok(also(Err(WRONG_COUNT), comparison_of(comparison)))
        }
        _ => Ok(Err(WRONG_COUNT)),
    }
}

fn if_with(
    alloc: Global,
    labels: &BTreeMap<Name, u32>,
    left: &[u8],
    comparison: &[u8],
    right: &[u8],
    goto: &[u8],
    label: &[u8],
) -> Result<Result<Statement, u8>, Memory>
    ensures value { IfOk result (λ read. read ≡ lowest.also (spec.if_made (lowest.both (lowest.both (values.read_text_of left.now) (values.comparison_of comparison.now)) (lowest.both (values.read_text_of right.now) (values.read_target (places_in labels.now) label.now)))) (values.goto_word goto.now)) }
    ensures good { (here : ℕ) → IfOk result (λ read. IfOk read (IsGood (places_in labels.now) here (left.now ∷ comparison.now ∷ right.now ∷ goto.now ∷ label.now ∷ []) false None)) }
{
    let front = both(text_of(alloc, left)?, comparison_of(comparison));
    let behind = both(text_of(alloc, right)?, target_of(labels, label));
    Ok(if_made(also(both(front, behind), goto_word(goto))))
}

fn if_made(parts: Result<((Text, Comparison), (Text, Target)), u8>) -> Result<Statement, u8>
    ensures { result ≡ spec.if_made parts }
{
    let ((left, comparison), (right, target)) = parts?;
    Ok(Statement::If(left, comparison, right, target))
}

fn on_pcb(function: Function, pcb: Result<u8, u8>) -> Result<u8, u8>
    ensures value { result ≡ spec.on_pcb function pcb }
    ensures allowed { IfOk result (λ number. IsTrue (is_function_of number function)) }
    ensures kept { IfOk result (λ number. pcb ≡ Ok number) }
{
    match pcb {
        Ok(number) if !is_function_of(number, function) => Err(UNKNOWN_FUNCTION),
        _ => pcb,
    }
}

fn is_function_of(pcb: u8, function: Function) -> bool
    ensures { result ≡ is_function_of pcb function }
{
    if pcb == 0 {
        is_message_function(function)
    } else {
        !matches!(function, Function::ROLB | Function::ROLL)
    }
}

fn is_message_function(function: Function) -> bool
    ensures { result ≡ is_message_function function }
{
    matches!(
        function,
        Function::GU
            | Function::GN
            | Function::ISRT
            | Function::PURG
            | Function::ROLB
            | Function::ROLL
    )
}

fn takes_area(function: Function) -> bool
    ensures { result ≡ takes_area function }
{
    !matches!(function, Function::PURG | Function::DLET | Function::ROLL)
}

fn takes_ssas(function: Function) -> bool
    ensures { result ≡ takes_ssas function }
{
    !matches!(
        function,
        Function::REPL
            | Function::DLET
            | Function::PURG
            | Function::CHNG
            | Function::ROLB
            | Function::ROLL
    )
}

/// Whether the word is a number above 0, be it one that no PCB has.
#[tactic(auto, using(crate::proofs::PcbNumbers::above_tests))]
fn is_above_0(word: &[u8]) -> bool
    ensures { result ≡ spec.is_above_0 word.now }
{
    match number_between(0, 0, word) {
        Ok(_) => false,
        Err(rule) => rule == OUT_OF_RANGE,
    }
}

/// The area and the arguments of a call.
fn area_of(
    alloc: Global,
    function: Function,
    above: bool,
    mut words: Pieces<'_>,
) -> Result<Result<(Option<Variable>, ScriptSsas), u8>, Memory>
    ensures value { IfOk result (λ read. read ≡ spec.area_of function above words.entry) }
{
    if !takes_area(function) {
        return match words.next() {
            None => Ok(Ok((None, ScriptSsas::new(alloc)))),
            Some(_) => Ok(Err(WRONG_COUNT)),
        };
    }
    let Some(x) = words.next() else {
        return Ok(Err(WRONG_COUNT));
    };
    if takes_ssas(function) && above {
        Ok(with_area(variable_of(x), ssas_of(alloc, words)?))
    } else {
        match words.next() {
            None => Ok(with_area(variable_of(x), Ok(ScriptSsas::new(alloc)))),
            Some(_) => Ok(Err(WRONG_COUNT)),
        }
    }
}

fn with_area(
    x: Result<Variable, u8>,
    ssas: Result<ScriptSsas, u8>,
) -> Result<(Option<Variable>, ScriptSsas), u8>
    ensures { result ≡ spec.with_area (lowest.both x ssas) }
{
    let (x, ssas) = both(x, ssas)?;
    Ok((Some(x), ssas))
}

#[tactic(auto, using(crate::proofs::GoodStatements::call_allowed))]
fn call_with(
    alloc: Global,
    function: Function,
    pcb: Result<u8, u8>,
    above: bool,
    words: Pieces<'_>,
) -> Result<Result<Statement, u8>, Memory>
    requires within { IfOk pcb (λ number. number ≤ 8) }
    requires above { IfOk pcb (λ number. above ≡ nat_le 1 number) }
    ensures value { IfOk result (λ read. read ≡ spec.call_with (Ok function) pcb above words.entry) }
    ensures free { IfOk result (λ read. IfOk read (λ statement. IsTrue (is_unlabelled statement))) }
    ensures allowed { IfOk result (λ read. IfOk read (λ statement. IsTrue (is_statement statement))) }
{
    let operands = area_of(alloc, function, above, words)?;
    match both(on_pcb(function, pcb), operands) {
        Ok((pcb, (area, ssas))) => Ok(Ok(Statement::Call(function, pcb, area, ssas))),
        Err(rule) => Ok(Err(rule)),
    }
}

#[tactic(auto, using(crate::proofs::PcbNumbers::above_is), unfolding(crate::specs::Statements::read_call))]
fn call_of(alloc: Global, mut words: Pieces<'_>) -> Result<Result<Statement, u8>, Memory>
    ensures value { IfOk result (λ read. read ≡ spec.read_call words.entry) }
    ensures free { IfOk result (λ read. IfOk read (λ statement. IsTrue (is_unlabelled statement))) }
    ensures allowed { IfOk result (λ read. IfOk read (λ statement. IsTrue (is_statement statement))) }
{
    let (Some(word), Some(number)) = (words.next(), words.next()) else {
        return Ok(Err(WRONG_COUNT));
    };
    let pcb = byte_of(0, 8, number);
    match function_of(word) {
        Ok(function) => call_with(alloc, function, pcb, is_above_0(number), words),
        Err(rule) => Ok(also(Err(rule), pcb)),
    }
}

#[tactic(auto, unfolding(crate::specs::Statements::read_abend))]
fn abend_of(mut words: Pieces<'_>) -> Result<Statement, u8>
    ensures value { result ≡ spec.read_abend words.entry }
    ensures free { IfOk result (λ statement. IsTrue (is_unlabelled statement)) }
    ensures allowed { IfOk result (λ statement. IsTrue (is_statement statement)) }
{
    match (words.next(), words.next()) {
        (Some(number), None) => {
            let number = short_of(1, 4095, number)?;
            Ok(Statement::Abend(AbendCode { number }))
        }
        _ => Err(WRONG_COUNT),
    }
}

/// Rule 2 where something stands behind a word that has no operands.
#[tactic(auto, unfolding(crate::specs::Statements::nothing_behind))]
pub(crate) fn nothing_behind(mut words: Pieces<'_>) -> Result<(), u8>
    ensures { result ≡ spec.nothing_behind words.entry }
{
    match words.next() {
        None => Ok(()),
        Some(_) => Err(WRONG_COUNT),
    }
}

fn end_of(words: Pieces<'_>) -> Result<Statement, u8>
    ensures value { result ≡ spec.line_ended (spec.nothing_behind words.entry) }
    ensures free { IfOk result (λ statement. IsTrue (is_unlabelled statement)) }
    ensures allowed { IfOk result (λ statement. IsTrue (is_statement statement)) }
{
    nothing_behind(words)?;
    Ok(Statement::End)
}
