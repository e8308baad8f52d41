//! What a store and the plain interpreter's memory hold at some places.

use al_core::{Addr, Val};
use al_heap::Store;
use al_plain::Memory;

/// What a store holds: a value, or at the head of an object how many words it has.
pub fn value<S: Store>(store: &S, at: Addr) -> Option<Val> {
    match at {
        Addr::Word(obj, w) => Some(store.word(obj, w)?.unpack()),
        Addr::Head(obj) => Some(Val::Int(i64::from(store.length(obj)?))),
        Addr::Local(k) => Some(store.local(k)?.unpack()),
    }
}

/// The same of the plain interpreter's memory.
pub fn plain_value(memory: &Memory, at: Addr) -> Option<Val> {
    match at {
        Addr::Word(_, _) | Addr::Local(_) => memory.value_at(at),
        Addr::Head(obj) => Some(Val::Int(i64::try_from(memory.words(obj)?.len()).ok()?)),
    }
}

/// Whether a store holds what a memory holds at these places.
pub fn holds_the_same<S: Store>(store: &S, memory: &Memory, places: &[Addr]) -> bool {
    places
        .iter()
        .all(|at| value(store, *at) == plain_value(memory, *at))
}
