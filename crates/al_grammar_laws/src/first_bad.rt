//! The first token that is bad.

ghost use Rattle.std.specs.Prelude.{◌≡◌, ◌<◌, ◌≤◌, ℕ, ◌++◌, ◌∷◌, length, Option, Some, Err};
ghost use Rattle.al_source.specs.declared.tokens.Token.{Token};
ghost use Rattle.al_grammar.specs.Phrases.{Tokens};
ghost use Rattle.al_grammar.specs.Beginnings.{Begins, IsFirstBad};
ghost use Rattle.al_grammar.specs.ProgramParser.{all_items};
ghost use Rattle.al_grammar_laws.specs.Places.{place_of};

/// Tokens have one first bad place at most, and none where they are a program.
pub fn one_first_bad_token()
    ensures { (ts : Tokens) (a b : Option ℕ) → IsFirstBad ts a → IsFirstBad ts b → a ≡ b }
{}

/// Where tokens are no program, there is one at least, and the bad place is one of them or past the last.
pub fn bad_places_are_within()
    ensures { (ts : Tokens) (place : ℕ) → IsFirstBad ts (Some place) → (0 < length ts) × (place ≤ length ts) }
{}

/// The parser reads a program, or stops at the first bad token, or past the last where more tokens are missing.
pub fn stops_at_first_bad_token()
    ensures { (ts : Tokens) → IsFirstBad ts (place_of ts (all_items ts)) }
{}

/// What the parser leaves where it stops is an end of the tokens, and what is before it begins a program. Nothing but
/// the tokens ends a reading, and none behind the one at which it stops is looked at.
pub fn reads_no_further()
    ensures stops { (ts rest : Tokens) → all_items ts ≡ Err rest → (w : Tokens) × (ts ≡ w ++ rest) × Begins w }
    ensures behind { (w : Tokens) (t : Token) (rest other : Tokens)
        → all_items (w ++ t ∷ rest) ≡ Err (t ∷ rest) → all_items (w ++ t ∷ other) ≡ Err (t ∷ other) }
{}
