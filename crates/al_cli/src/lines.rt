ghost use Rattle.std.specs.Prelude.{◌≡◌, map, string_bytes, IfOk};
ghost use Rattle.al_cli.specs.Lines as spec;
ghost use Rattle.al_words.specs.declared.command.WordFault.TheVariants.{BadValue};
ghost use Rattle.al_words.specs.Words as words_spec;

use al_answers::line;
use al_words::WordFault;
use sqlite_items::Items;
use std::alloc::{AllocError, Global};

/// The line of refused words.
pub fn word_line(alloc: Global, words: &[String], fault: WordFault) -> Result<Items<u8>, AllocError>
    ensures { IfOk result (λ l. l ≡ spec.word_line (map string_bytes words.now) fault) }
{
    match fault {
        WordFault::NoCommand => line(alloc, b"no command", b"", b""),
        WordFault::BadCommand(at) => {
            let word = word_at(words, u64::from(at));
            line(alloc, b"unknown command: ", word.as_bytes(), b"")
        }
        WordFault::Unknown(at) => line(
            alloc,
            b"unknown option: ",
            word_at(words, at).as_bytes(),
            b"",
        ),
        WordFault::Repeated(at) => line(
            alloc,
            b"repeated option: ",
            word_at(words, at).as_bytes(),
            b"",
        ),
        WordFault::NoValue(at) => line(alloc, b"no value for ", word_at(words, at).as_bytes(), b""),
        WordFault::BadValue(at) => bad_value(alloc, words, at),
        WordFault::Names => line(alloc, b"wrong number of names", b"", b""),
        WordFault::BadNumber(at) => {
            let word = word_at(words, u64::from(at));
            line(alloc, b"bad number: ", word.as_bytes(), b"")
        }
    }
}

/// An option, and the word after it.
fn bad_value(alloc: Global, words: &[String], at: u64) -> Result<Items<u8>, AllocError>
    ensures { IfOk result (λ l. l ≡ spec.word_line (map string_bytes words.now) (BadValue at)) }
{
    let value = match at.checked_add(1) {
        Some(next) => word_at(words, next),
        None => "",
    };
    let mut after = Vec::from_slice(alloc, b": ")?;
    after.extend_from_slice(value.as_bytes())?;
    line(
        alloc,
        b"bad value for ",
        word_at(words, at).as_bytes(),
        after.as_slice(),
    )
}

/// The word at a place, or no bytes where there is none.
pub fn word_at(words: &[String], at: u64) -> &str
    ensures { result.now ≡ words_spec.word_at (map string_bytes words.now) at }
{
    match words.get(at as usize) {
        Some(word) => word.as_str(),
        None => "",
    }
}
