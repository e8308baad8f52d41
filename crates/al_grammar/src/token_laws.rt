//! Laws of the spelling of tokens, for every source.

ghost use Rattle.std.specs.Prelude.{◌≡◌, ◌≤◌, ◌⊎◌, List, None, Some, length, nat_eq, true};
ghost use Rattle.al_source.specs.declared.faults.LexFault.{LexFault};
ghost use Rattle.al_source.specs.declared.tokens.Token.{Token};
ghost use Rattle.al_source.specs.declared.tokens.Key.{Key};
ghost use Rattle.al_source.specs.declared.tokens.Mark.{Mark};
ghost use Rattle.std.specs.List.{starts_with};
ghost use Rattle.al_grammar.specs.Words.{key_of, key_text, mark_at, mark_text};
ghost use Rattle.al_grammar.specs.Characters.{Bytes};
ghost use Rattle.al_grammar.specs.Slices.{EachIsItsSlice, EachOnItsLine, InOrder};
ghost use Rattle.al_grammar.specs.Spelling.{Spells, first_lexical_fault};

/// A source spells tokens, or it has a first fault.
pub fn spells_or_faults()
    ensures { (source : Bytes)
        → ((tokens : List Token) × Spells source tokens)
        ⊎ ((fault : LexFault) × (first_lexical_fault source ≡ Some fault)) }
{}

/// A source that spells tokens has no fault.
pub fn no_fault_where_spelled()
    ensures { (source : Bytes) (tokens : List Token) → Spells source tokens → first_lexical_fault source ≡ None }
{}

/// A source spells one list of tokens at most.
pub fn one_spelling()
    ensures { (source : Bytes) (tokens others : List Token)
        → Spells source tokens → Spells source others → tokens ≡ others }
{}

/// The tokens that a source spells are slices of it, each with its line, in order and within it.
pub fn tokens_are_slices()
    ensures slices { (source : Bytes) (tokens : List Token) → Spells source tokens → EachIsItsSlice source tokens }
    ensures lines { (source : Bytes) (tokens : List Token) → Spells source tokens → EachOnItsLine source tokens }
    ensures order { (source : Bytes) (tokens : List Token) → Spells source tokens → InOrder 0 (length source) tokens }
{}

/// A reserved word is known by its bytes, and by no others.
pub fn reserved_words()
    ensures known { (key : Key) → key_of (key_text key) ≡ Some key }
    ensures only { (word : Bytes) (key : Key) → key_of word ≡ Some key → word ≡ key_text key }
{}

/// The mark at the front of a text is the longest with which the text begins.
pub fn longest_mark()
    ensures begins { (z : Bytes) (mark : Mark) → mark_at z ≡ Some mark → starts_with nat_eq z (mark_text mark) ≡ true }
    ensures longest { (z : Bytes) (mark other : Mark) → mark_at z ≡ Some mark
        → starts_with nat_eq z (mark_text other) ≡ true → length (mark_text other) ≤ length (mark_text mark) }
    ensures none { (z : Bytes) (other : Mark) → mark_at z ≡ None → starts_with nat_eq z (mark_text other) ≡ true → ⊥ }
{}
