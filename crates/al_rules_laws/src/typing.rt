ghost use Rattle.al_rules_laws.specs.TypingLaws.{FaultlessIsWellTyped, WellTypedIsFaultless};

/// A program has neither a layout fault nor a type fault exactly where the rules of typing derive it. So the order of
/// faults decides only which one is told.
pub fn typing_agrees()
    ensures sound { FaultlessIsWellTyped }
    ensures complete { WellTypedIsFaultless }
{}
