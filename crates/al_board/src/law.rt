//! What holds of a board between any two steps.
ghost use Rattle.al_board.specs.Laws.{KeptIsRuled, RuledIsKept, EventsAreLegal, EventsLeadThere};
ghost use Rattle.al_board.specs.Laws.{VerdictsInOrder, OneVerdictEach, AnyOrder, RoundsAreJudged};

use crate::piece::Piece;

/// The rule of a board's table is the rule in plain words.
pub fn rule_says<T: Piece>()
    ensures says { KeptIsRuled T.fits T.laid T.stands T.lanes }
    ensures is_said { RuledIsKept T.fits T.laid T.stands T.lanes }
{}

/// The events of a journal are a legal history, and lead to what the journal amounts to.
pub fn journals_tell_histories<T: Piece>()
    ensures legal { EventsAreLegal T.fits }
    ensures same { EventsLeadThere T.fits }
{}

/// The verdicts of any legal history are those of its judged pieces in the order of their lanes, one for each judged
/// lane, for any judge; so two histories with the same judged pieces have the same verdicts, whatever the order of
/// their events.
pub fn verdicts_in_order<T: Piece, W>()
    ensures law { VerdictsInOrder W T.fits }
    ensures each { OneVerdictEach W T.fits }
    ensures any_order { AnyOrder W T.fits }
{}

/// So the pieces that a closed board gives, where all were judged, have the verdicts of the history that put them.
pub fn closed_boards_are_judged<T: Piece, W>()
    ensures { RoundsAreJudged W T.fits }
{}
