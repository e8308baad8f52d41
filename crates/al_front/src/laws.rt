//! What holds of every source that the grammar refuses.

ghost use Rattle.std.specs.Prelude.{◌≡◌, Some, Err, IsSomeAnd};
ghost use Rattle.al_grammar.specs.Characters.{Bytes};
ghost use Rattle.al_rules.specs.Refusals.{accepted};
ghost use Rattle.al_rules.specs.declared.faults.Refusal.TheVariants.{Grammar};
ghost use Rattle.al_front.specs.Places.{IsBadIn, bad_tokens};
ghost use Rattle.al_front.specs.declared.fault.BadTokens.{BadTokens};

/// A source that is not too long and spells tokens of which one is the first bad one is refused by the grammar, and
/// has these bad tokens alone. Every source that the grammar refuses has some.
pub fn bad_tokens_are_told()
    ensures one { (source : Bytes) (bad : BadTokens) → IsBadIn source bad → bad_tokens source ≡ Some bad }
    ensures refused { (source : Bytes) (bad : BadTokens) → IsBadIn source bad → accepted source ≡ Err Grammar }
    ensures told { (source : Bytes) → accepted source ≡ Err Grammar → IsSomeAnd (bad_tokens source) (IsBadIn source) }
{}
