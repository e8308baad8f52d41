ghost use Rattle.std.specs.Prelude.{◌≡◌, slice_get, slice_set};
ghost use Rattle.std.specs.Option.{option_copied};
ghost use Rattle.al_core.specs.Memory as spec;

use al_core::Val;
use sqlite_items::{Items, at};

/// Puts a value in place of a word that is there.
pub fn set_at(words: &mut Items<Val>, w: u32, v: Val)
    ensures { words.new ≡ slice_set words.old w v }
{
    if (w as usize) < words.len() {
        words.set(w as usize, v);
    }
}

pub fn get_at(words: &Items<Val>, w: u32) -> Option<Val>
    ensures { result ≡ slice_get words.now w }
{
    at(words.as_slice(), w as usize).copied()
}

/// A word of an object, where there is one.
pub fn word_in(words: Option<&Items<Val>>, w: u32) -> Option<Val>
    ensures { result ≡ spec.word_in (option_copied words.entry) w }
{
    match words {
        Some(words) => get_at(words, w),
        None => None,
    }
}
