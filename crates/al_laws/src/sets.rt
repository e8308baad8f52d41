ghost use Rattle.al_laws.specs.Meeting.{WordsMeetByLines, LinesOfOneWord};

/// Sets that meet by words meet by lines, and by lines of one word only those do.
pub fn words_meet_by_lines()
    ensures lines { WordsMeetByLines }
    ensures one_word { LinesOfOneWord }
{}
