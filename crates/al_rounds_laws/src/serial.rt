ghost use Rattle.al_rounds_laws.specs.Serial.{UnnamedIsFresh, RoundIsSerial, LockstepIsSerial, LockstepIsPlain, SerialIsPlain};

/// Under a policy that looks at reads, whatever the size of a line, a loop without reductions comes to what its chunks
/// come to one after another in commit order: the same memory, bytes and ending, traps and budgets included. It may
/// allocate and free. It is enough that no object has a name that the chunks may give.
pub fn rounds_are_serial()
    ensures round { RoundIsSerial }
    ensures all { LockstepIsSerial }
    ensures names { UnnamedIsFresh }
{}

/// Where it commits in order as well, it comes to what the plain loop does.
pub fn rounds_in_order_are_plain()
    ensures { LockstepIsPlain }
{}

/// All chunks one after another are the plain loop, steps included.
pub fn serial_is_plain()
    ensures { SerialIsPlain }
{}
