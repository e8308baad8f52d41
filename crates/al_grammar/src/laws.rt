//! What holds of the grammar itself.

ghost use Rattle.std.specs.Prelude.{◌≡◌};
ghost use Rattle.al_source.specs.declared.source_tree.Program.{Program};
ghost use Rattle.al_grammar.specs.Phrases.{Tokens};
ghost use Rattle.al_grammar.specs.Programs.{Derives};

/// Tokens derive at most one program.
pub fn one_program()
    ensures { (ts : Tokens) (p q : Program) → Derives ts p → Derives ts q → p ≡ q }
{}
