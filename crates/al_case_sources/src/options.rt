//! Rows of options, as data files have them.
use al_core::{CommitOrder, Policy};
use std::alloc::{AllocError, Global};

/// How loops run: the policy and the order, lanes, the chunk factor, words of a line, and threads.
#[derive(Clone, Copy)]
pub struct Row {
    pub policy: Policy,
    pub order: CommitOrder,
    pub lanes: u32,
    pub chunk: u32,
    pub line: u32,
    pub threads: u32,
}

fn policy(word: &str) -> Policy {
    match word {
        "FULL" => Policy::Full,
        "RAW" => Policy::Raw,
        "WAW" => Policy::Waw,
        _ => Policy::None,
    }
}

fn order(word: &str) -> CommitOrder {
    match word {
        "InOrder" => CommitOrder::InOrder,
        _ => CommitOrder::OutOfOrder,
    }
}

/// The number of a word, or 1.
fn number(word: Option<&str>) -> u32 {
    word.unwrap_or("").parse::<u32>().unwrap_or(1)
}

/// The row of a line: its policy, its order, lanes, the chunk factor, words of a line, and threads.
pub fn row_of(line: &str) -> Row {
    let mut words = line.split(' ');
    Row {
        policy: policy(words.next().unwrap_or("")),
        order: order(words.next().unwrap_or("")),
        lanes: number(words.next()),
        chunk: number(words.next()),
        line: number(words.next()),
        threads: number(words.next()),
    }
}

/// The rows of a text, a line each.
pub fn rows_of(alloc: Global, text: &str) -> Result<Vec<Row>, AllocError> {
    let mut rows = Vec::new(alloc);
    for line in text.lines() {
        rows.push(row_of(line))?;
    }
    Ok(rows)
}
