//! Sets of random addresses, beside ordered sets.
use crate::numbers::Numbers;
use al_core::{Addr, Obj};
use al_sets::AddrSet;
use std::alloc::{AllocError, Global};
use std::collections::BTreeSet;

fn address(x: u64) -> Addr {
    let number = (x / 16 % 3) as u32;
    let word = (x / 64 % 1100) as u32;
    match x % 8 {
        0 => Addr::Local(number),
        1 => Addr::Head(Obj::Global(number)),
        2 | 3 => Addr::Word(Obj::Global(number), word),
        4 => Addr::Word(Obj::Serial(number), word),
        5 => Addr::Head(Obj::Iter(number, 1, 2)),
        _ => Addr::Word(Obj::Iter(1, x / 16 % 3, number), word),
    }
}

/// Inserts so many addresses into a set and into one of std's sets.
fn fill(
    set: &mut AddrSet,
    plain: &mut BTreeSet<Addr>,
    numbers: &mut Numbers,
    count: u64,
) -> Result<(), AllocError> {
    for _ in 0..count {
        let at = address(numbers.next());
        set.insert(at)?;
        plain.insert(at)?;
    }
    Ok(())
}

fn in_one_line(a: &Addr, b: &Addr, words: u32) -> bool {
    if words == 0 {
        return false;
    }
    match (*a, *b) {
        (Addr::Word(o, v), Addr::Word(p, w)) => o == p && v / words == w / words,
        (x, y) => x == y,
    }
}

fn have_common_line(a: &BTreeSet<Addr>, b: &BTreeSet<Addr>, words: u32) -> bool {
    for x in a {
        for y in b {
            if in_one_line(x, y, words) {
                return true;
            }
        }
    }
    false
}

/// Whether two sets meet, by words and by lines, as the plain ones do.
fn meet_alike(a: &AddrSet, b: &AddrSet, first: &BTreeSet<Addr>, second: &BTreeSet<Addr>) -> bool {
    for words in [1, 2, 4, 8, 16] {
        if a.meets_lines(b, words) != have_common_line(first, second, words) {
            return false;
        }
    }
    a.meets(b) == have_common_line(first, second, 1)
}

/// Whether a set has just the addresses of one of these.
fn has_those_of(
    set: &AddrSet,
    first: &BTreeSet<Addr>,
    second: &BTreeSet<Addr>,
    numbers: &mut Numbers,
) -> bool {
    for at in first.iter().chain(second.iter()) {
        if !set.has(at) {
            return false;
        }
    }
    for _ in 0..20 {
        let at = address(numbers.next());
        if set.has(&at) != (first.contains(&at) || second.contains(&at)) {
            return false;
        }
    }
    true
}

/// Whether two sets of a few random addresses, and their union, are as plain sets are.
pub fn agree(alloc: Global, numbers: &mut Numbers) -> Result<bool, AllocError> {
    let (mut a, mut first) = (AddrSet::new(alloc), BTreeSet::new(alloc));
    fill(&mut a, &mut first, numbers, 5)?;
    let (mut b, mut second) = (AddrSet::new(alloc), BTreeSet::new(alloc));
    fill(&mut b, &mut second, numbers, 5)?;
    let meet = meet_alike(&a, &b, &first, &second);
    a.reserve(b.size())?;
    a.union(&b);
    Ok(meet && has_those_of(&a, &first, &second, numbers))
}
