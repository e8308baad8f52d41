//! Reports compared whole.

use al_core::{Event, Report};

fn is_same_event(a: &Event, b: &Event) -> bool {
    match (a, b) {
        (
            Event::Enter {
                number,
                execution,
                line,
                trips,
                chunks,
            },
            Event::Enter {
                number: n,
                execution: e,
                line: l,
                trips: t,
                chunks: c,
            },
        ) => number == n && execution == e && line == l && trips == t && chunks == c,
        (Event::Round(r), Event::Round(s)) => r.as_slice() == s.as_slice(),
        _ => false,
    }
}

fn are_same_events(a: &[Event], b: &[Event]) -> bool {
    a.len() == b.len() && a.iter().zip(b).all(|(x, y)| is_same_event(x, y))
}

fn are_same_counts(a: &Report, b: &Report) -> bool {
    a.loops == b.loops
        && a.rounds == b.rounds
        && a.attempts == b.attempts
        && a.aborted == b.aborted
        && a.span == b.span
}

/// Whether two reports are the same.
pub fn is_same(a: &Report, b: &Report) -> bool {
    a.ending == b.ending
        && a.output.as_slice() == b.output.as_slice()
        && are_same_counts(a, b)
        && are_same_events(a.events.as_slice(), b.events.as_slice())
}
