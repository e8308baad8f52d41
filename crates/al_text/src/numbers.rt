//! The numbers that a text lists.

ghost use Rattle.std.specs.Prelude.{◌≡◌, ◌≤◌, ◌<◌, ◌+◌, [], ◌++◌, List, Err, length, IfErr, OnOk};
ghost use Rattle.al_source.specs.Answers.{Fails, Gives};
ghost use Rattle.al_text.specs.Faults.{told};
ghost use Rattle.al_text.specs.Digits.{signed, signed_value_of};
ghost use Rattle.al_text.specs.Numbers as spec;
ghost use Rattle.al_text.specs.Numbers.{Word, word_of, numbers_onto};

use crate::digits::{is_digits, value_of};
use crate::faults::{InputCause, InputFault, by_cause};
use al_source::limits::{INPUT_BYTES, INPUT_NUMBERS};
use sqlite_items::Items;
use std::alloc::Global;

fn is_blank(b: u8) -> bool
    ensures { result ≡ spec.is_blank b }
{
    b == b' ' || (9 <= b && b <= 13)
}

fn line_after(line: u32, b: u8) -> u32
    requires { line ≤ INPUT_BYTES }
    ensures value { result ≡ spec.line_after line b }
    ensures within { result ≤ line + 1 }
{
    if b == b'\n' { line + 1 } else { line }
}

/// A number of 64 bits by its sign and its size, if it is one.
fn signed(is_negative: bool, size: u64) -> Option<i64>
    ensures { result ≡ signed is_negative size }
{
    if is_negative {
        0i64.checked_sub_unsigned(size)
    } else {
        i64::try_from(size).ok()
    }
}

/// The number that a word writes.
fn number_of(word: &[u8], line: u32) -> Result<i64, InputCause>
    ensures { result ≡ spec.number_of (record { line = line; bytes = word.now }) }
{
    let is_negative = word.starts_with(b"-");
    let digits = if is_negative { &word[1..] } else { word };
    if !is_digits(digits) {
        return Err(InputCause::NotNumber(line));
    }
    value_of(digits)
        .and_then(|size| signed(is_negative, size))
        .ok_or(InputCause::OutOfRange(line))
}

/// Adds the number of a word, if the word has bytes.
fn push_word(numbers: &mut Items<i64>, word: &[u8], line: u32) -> Result<(), InputFault>
    ensures ok { OnOk result
        ((ws : List Word) → numbers_onto numbers.new ws ≡ numbers_onto numbers.old (word_of line word.now ++ ws)) }
    ensures err { IfErr result (λ fault.
        (ws : List Word) → Fails (numbers_onto numbers.old (word_of line word.now ++ ws)) (told fault)) }
{
    if word.is_empty() {
        return Ok(());
    }
    if INPUT_NUMBERS <= numbers.len() {
        return Err(InputFault::TooMany);
    }
    match number_of(word, line) {
        Ok(number) => {
            numbers.push(number)?;
            Ok(())
        }
        Err(cause) => Err(by_cause(cause)),
    }
}

fn read(alloc: Global, text: &[u8]) -> Result<Items<i64>, InputFault>
    requires { length text.now ≤ INPUT_BYTES }
    ensures { Gives told (numbers_onto [] (spec.words_of text.now)) result }
{
    let mut numbers = Items::new(alloc);
    let mut line = 1;
    let mut start = 0;
    for (at, b) in text.iter().enumerate() {
        if is_blank(*b) {
            match push_word(&mut numbers, &text[start..at], line) {
                Ok(()) => start = at + 1,
                Err(fault) => return Err(fault),
            }
            line = line_after(line, *b);
        }
    }
    match push_word(&mut numbers, &text[start..], line) {
        Ok(()) => Ok(numbers),
        Err(fault) => Err(fault),
    }
}

/// The numbers that a text lists, or its first fault. Words stand between blanks, and each is an optional `-` and
/// one or more digits; there may be 1,048,576 of them.
pub fn read_numbers(alloc: Global, text: &[u8]) -> Result<Items<i64>, InputFault>
    ensures exact { Gives told (spec.numbers_of text.now) result }
    // A text that is too long is refused before it is read.
    ensures too_long { INPUT_BYTES < length text.now → result ≡ Err InputFault.TooLong }
{
    if INPUT_BYTES < text.len() {
        Err(InputFault::TooLong)
    } else {
        read(alloc, text)
    }
}
