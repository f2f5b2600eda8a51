//! The values of operands.
ghost use Rattle.std.specs.Prelude.{◌≡◌, ◌<◌, ◌≤◌, ◌+◌, ◌||◌, length, Ok, Err, IfOk};
ghost use Rattle.text_rows.specs.LowestRule.{both};
ghost use Rattle.text_rows.specs.Numbers.{number_between};
ghost use Rattle.sysdef_rows.specs.Values as spec;

use model_system::{Classes, SegmentKind};
use text_rows::rules::{OUT_OF_RANGE, WRONG_LIST, WRONG_WORD};
use text_rows::{
    Pieces, also, both, byte_between, is_word, list_of, name_of, number_between, three_of, two_of,
};
use tm_types::Name;
use tm_types::processing::{DELETE, GET, INSERT, REPLACE};

/// A number that two bytes hold.
pub(crate) fn short_between(low: u16, high: u16, text: &[u8]) -> Result<u16, u8>
    ensures { result ≡ number_between low high text.now }
{
    Ok(number_between(u32::from(low), u32::from(high), text)? as u16)
}

#[tactic(auto, unfolding(crate::specs::Values::segment_kind_of))]
fn segment_kind_of(word: &[u8]) -> Result<SegmentKind, u8>
    ensures { result ≡ spec.segment_kind_of word.now }
{
    if is_word(word, b"MULTSEG") {
        Ok(SegmentKind::Multiple)
    } else if is_word(word, b"SNGLSEG") {
        Ok(SegmentKind::Single)
    } else {
        Err(WRONG_WORD)
    }
}

#[tactic(auto, unfolding(crate::specs::Values::response_of))]
fn response_of(word: &[u8]) -> Result<(), u8>
    ensures { result ≡ spec.response_of word.now }
{
    if is_word(word, b"NONRESPONSE") {
        Ok(())
    } else {
        Err(WRONG_WORD)
    }
}

/// SPA: a number; above 65,535 it counts as 65,535.
pub(crate) fn pad_of(text: &[u8]) -> Result<u16, u8>
    ensures { result ≡ spec.pad_length_of text.now }
{
    match number_between(0, 65535, text) {
        Ok(number) => Ok(number as u16),
        Err(rule) => capped(rule),
    }
}

/// A number out of range counts as 65,535.
fn capped(rule: u8) -> Result<u16, u8>
    ensures { result ≡ spec.capped_pad (Err rule) }
{
    if rule == OUT_OF_RANGE {
        Ok(65535)
    } else {
        Err(rule)
    }
}

/// SERIAL: YES or NO.
#[tactic(auto, unfolding(crate::specs::Values::serial_of))]
pub(crate) fn serial_of(word: &[u8]) -> Result<bool, u8>
    ensures { result ≡ spec.serial_of word.now }
{
    if is_word(word, b"NO") {
        Ok(false)
    } else if is_word(word, b"YES") {
        Ok(true)
    } else {
        Err(WRONG_WORD)
    }
}

/// PARENT: a name, or None for the single digit 0.
#[tactic(auto, unfolding(crate::specs::Values::parent_of))]
pub(crate) fn parent_of(text: &[u8]) -> Result<Option<Name>, u8>
    ensures { result ≡ spec.parent_of text.now }
{
    if is_word(text, b"0") {
        return Ok(None);
    }
    Ok(Some(name_of(text)?))
}

/// MODIFY: only YES is there.
#[tactic(auto, unfolding(crate::specs::Values::modify_of))]
pub(crate) fn modify_of(word: &[u8]) -> Result<(), u8>
    ensures { result ≡ spec.modify_of word.now }
{
    if is_word(word, b"YES") {
        Ok(())
    } else {
        Err(WRONG_WORD)
    }
}

fn has_letter(letter: u8, word: &[u8]) -> bool
    ensures { result ≡ spec.has_letter letter word.now }
{
    word.iter().any(|&byte| byte == letter)
}

fn is_option_letter(byte: u8) -> bool
    ensures { result ≡ spec.is_option_letter byte }
{
    byte == b'G' || byte == b'I' || byte == b'R' || byte == b'D'
}

fn are_option_letters(word: &[u8]) -> bool
    ensures { result ≡ spec.are_option_letters word.now }
{
    for (index, &byte) in word.iter().enumerate() {
        if !is_option_letter(byte) || has_letter(byte, &word[index + 1..]) {
            return false;
        }
    }
    true
}

fn option_if(allowed: bool, option: u8) -> u8
    ensures value { result ≡ spec.option_if allowed option }
    ensures within { result ≤ option }
{
    if allowed { option } else { 0 }
}

fn may_get(word: &[u8]) -> bool
    ensures { result ≡ (spec.has_letter 71 word.now || spec.has_letter 82 word.now || spec.has_letter 68 word.now) }
{
    has_letter(b'G', word) || has_letter(b'R', word) || has_letter(b'D', word)
}

#[tactic(auto, unfolding(crate::specs::Values::option_sum))]
fn option_sum(word: &[u8]) -> u8
    ensures { result ≡ spec.option_sum word.now }
{
    let get = option_if(may_get(word), GET);
    let insert = option_if(has_letter(b'I', word), INSERT);
    let replace = option_if(has_letter(b'R', word), REPLACE);
    let delete = option_if(has_letter(b'D', word), DELETE);
    get + insert + replace + delete
}

/// PROCOPT: A, or one or more different letters of G, I, R and D.
#[tactic(auto, unfolding(crate::specs::Values::options_of))]
pub(crate) fn options_of(word: &[u8]) -> Result<u8, u8>
    ensures { result ≡ spec.options_of word.now }
{
    if is_word(word, b"A") {
        return Ok(GET + INSERT + REPLACE + DELETE);
    }
    letter_options(word)
}

fn letter_options(word: &[u8]) -> Result<u8, u8>
    ensures { result ≡ spec.letter_options word.now }
{
    match word {
        [] => Err(WRONG_WORD),
        [_, ..] if are_option_letters(word) => Ok(option_sum(word)),
        [_, ..] => Err(WRONG_WORD),
    }
}

/// MSGTYPE: the kind of its messages, and the class.
#[tactic(auto, unfolding(crate::specs::Values::message_type_of))]
pub(crate) fn message_type_of(text: &[u8]) -> Result<(SegmentKind, u8), u8>
    ensures { result ≡ spec.message_type_of text.now }
{
    let (kind, response, class) = three_of(text)?;
    also(
        both(segment_kind_of(kind), byte_between(1, 255, class)),
        response_of(response),
    )
}

/// PRTY: the normal priority, the limit priority and the limit count.
#[tactic(auto, unfolding(crate::specs::Values::priorities_of))]
pub(crate) fn priorities_of(text: &[u8]) -> Result<(u8, (u8, u16)), u8>
    ensures { result ≡ spec.priorities_of text.now }
{
    let (normal, limit, count) = three_of(text)?;
    both(
        byte_between(0, 14, normal),
        both(byte_between(0, 14, limit), short_between(1, 65535, count)),
    )
}

/// PROCLIM: the count of messages, and the count of statements.
#[tactic(auto, unfolding(crate::specs::Values::limits_of))]
pub(crate) fn limits_of(text: &[u8]) -> Result<(u16, u16), u8>
    ensures { result ≡ spec.limits_of text.now }
{
    let (count, statements) = two_of(text)?;
    both(
        short_between(1, 65535, count),
        short_between(1, 65535, statements),
    )
}

/// CLASS: one to four classes of 1 to 255.
#[tactic(auto, unfolding(crate::specs::Values::classes_of))]
pub(crate) fn classes_of(text: &[u8]) -> Result<Classes, u8>
    ensures { result ≡ spec.classes_of text.now }
{
    classes_in(list_of(text)?)
}

#[tactic(auto, using(crate::proofs::ClassSteps::one_more, crate::proofs::ClassSteps::joined_nothing), unfolding(crate::specs::Values::classes_of))]
fn classes_in(elements: Pieces<'_>) -> Result<Classes, u8>
    ensures { result ≡ spec.classes_in (Ok elements.entry) }
{
    let mut classes = Ok(Classes::new());
    let mut count: u8 = 0;
    for element in elements {
        if count == 4 {
            return Err(WRONG_LIST);
        }
        classes = with_last(classes, count, byte_between(1, 255, element));
        count += 1;
    }
    if count == 0 {
        return Err(WRONG_LIST);
    }
    classes
}

/// So many classes with one more at the end, or the lowest rule.
fn with_last(classes: Result<Classes, u8>, count: u8, class: Result<u8, u8>) -> Result<Classes, u8>
    requires few { count < 4 }
    requires counted { IfOk classes (λ before. length before ≡ count) }
    ensures value { result ≡ spec.with_last_class (both classes class) }
    ensures counted { IfOk result (λ after. length after ≡ count + 1) }
{
    let (mut classes, class) = both(classes, class)?;
    classes.push(class);
    Ok(classes)
}
