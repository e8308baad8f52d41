ghost use Rattle.std.specs.Prelude.{◌≡◌};
ghost use Rattle.std.specs.Option.{option_copied};
ghost use Rattle.al_heap.specs.Stores as spec;

use al_values::PackedValue;

/// The words of a page of an object: 64 words from 64 times the number on, or as many of them as there are, if there is
/// one.
pub fn page_of(words: &[PackedValue], number: u32) -> Option<&[PackedValue]>
    ensures { option_copied result ≡ spec.page_of words.now number }
{
    let first = number as usize * 64;
    if first < words.len() {
        Some(&words[first..words.len().min(first + 64)])
    } else {
        None
    }
}
