//! Cuts a source into its tokens.
#![tactic(auto)]

ghost use Rattle.std.specs.Prelude.{◌≡◌, ◌<◌, ◌≤◌, List, length, IfOk, IfErr, Ok, Err};
ghost use Rattle.al_source.specs.declared.faults.LexFault.{LexFault};
ghost use Rattle.al_source.specs.declared.tokens.Token.{Token};
ghost use Rattle.al_source.specs.declared.limits.TheConstants.{SOURCE_BYTES};
ghost use Rattle.al_source.specs.Answers.{Gives};
ghost use Rattle.al_source.specs.Faults.{lexical};
ghost use Rattle.al_grammar.specs.Slices.{EachIsItsSlice, EachOnItsLine, InOrder};
ghost use Rattle.al_grammar.specs.Spelling.{Spells, first_lexical_fault};
ghost use Rattle.al_grammar.specs.Reading.{reading};
ghost use Rattle.al_lexer.specs.Answers.{Explains};

mod lexemes;
mod lexer;
mod numbers;
mod scan;
mod texts;
mod words;

use al_source::limits::SOURCE_BYTES;
use al_source::{LexFault, Token};
use lexer::Lexer;
use sqlite_items::Items;
use std::alloc::Global;

#[tactic(auto, unfolding(al_grammar::specs::Reading::reading))]
fn read(alloc: Global, source: &[u8]) -> Result<Items<Token>, LexFault>
    requires { length source.now ≤ SOURCE_BYTES }
    ensures { Gives lexical (reading source.now) result }
{
    Lexer::new(source).read(alloc)
}

/// The tokens of a source, in order, or why it has none. A fault that has a line is the first of the source.
pub fn lex(alloc: Global, source: &[u8]) -> Result<Items<Token>, LexFault>
    // The tokens are those that the source spells.
    ensures spelled { IfOk result (λ tokens. Spells source.now tokens) }
    // Each token is its slice of the source.
    ensures slices { IfOk result (EachIsItsSlice source.now) }
    // Each token has the line of its first byte, lines being counted from 1.
    ensures lines { IfOk result (EachOnItsLine source.now) }
    // Spans are in order, and none passes the end.
    ensures order { IfOk result (InOrder 0 (length source.now)) }
    // What a source of lawful length spells is the answer, unless memory runs out.
    ensures found { (tokens : List Token)
        → length source.now ≤ SOURCE_BYTES → Spells source.now tokens → Gives lexical (Ok tokens) result }
    // Each fault has its cause in the source.
    ensures cause { IfErr result (Explains source.now) }
    // The first fault of a source of lawful length is the answer, unless memory runs out.
    ensures first { (fault : LexFault)
        → length source.now ≤ SOURCE_BYTES → first_lexical_fault source.now ≡ Some fault
        → Gives lexical (Err fault) result }
    // A source that is too long is refused before it is read.
    ensures too_long { SOURCE_BYTES < length source.now → result ≡ Err LexFault.TooLong }
{
    if SOURCE_BYTES < source.len() {
        Err(LexFault::TooLong)
    } else {
        read(alloc, source)
    }
}
