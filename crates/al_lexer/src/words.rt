//! The reserved word or the mark at the front of a text.

ghost use Rattle.std.specs.Prelude.{◌≡◌, ◌≤◌, find, length, nat_eq, IfSome};
ghost use Rattle.std.specs.List.{starts_with};
ghost use Rattle.std.specs.Str.{bytes_eq};
ghost use Rattle.al_grammar.specs.Words as spec;
ghost use Rattle.al_lexer.specs.Tables.{with_len};

use al_grammar::{KEYS, MARKS, key_text, mark_text};
use al_source::{Key, Mark};

fn find_key(mut table: &[Key], word: &[u8]) -> Option<Key>
    ensures { result ≡ find (λ key. bytes_eq (spec.key_text key) word.now) table.entry.now }
{
    while let [key, rest @ ..] = table {
        if key_text(*key) == word {
            return Some(*key);
        }
        table = rest;
    }
    None
}

/// The reserved word that a name is.
#[tactic(auto, unfolding(al_grammar::specs::Words::key_of))]
pub fn key_of(word: &[u8]) -> Option<Key>
    ensures { result ≡ spec.key_of word.now }
{
    find_key(&KEYS, word)
}

fn find_mark(mut table: &[Mark], z: &[u8]) -> Option<(Mark, usize)>
    ensures value { result ≡ with_len (find (λ mark. starts_with nat_eq z.now (spec.mark_text mark)) table.entry.now) }
    ensures within { IfSome result (λ m. m.1 ≤ length z.now) }
{
    while let [mark, rest @ ..] = table {
        let text = mark_text(*mark);
        if z.starts_with(text) {
            return Some((*mark, text.len()));
        }
        table = rest;
    }
    None
}

/// The longest mark that the text begins with, and its length.
pub fn mark_at(z: &[u8]) -> Option<(Mark, usize)>
    ensures value { result ≡ with_len (spec.mark_at z.now) }
    ensures within { IfSome result (λ m. (1 ≤ m.1) × (m.1 ≤ length z.now)) }
{
    find_mark(&MARKS, z)
}
