ghost use Rattle.std.specs.Prelude.{◌≡◌};
ghost use Rattle.al_words.specs.Words as spec;

use al_text::numeral;

/// The number that a word is, where it is one from `least` to `most`.
pub fn number_in(least: u32, most: u32, word: &[u8]) -> Option<u32>
    ensures { result ≡ spec.number_in least most word.now }
{
    let n = numeral(word)?;
    if u64::from(least) <= n && n <= u64::from(most) {
        Some(n as u32)
    } else {
        None
    }
}
