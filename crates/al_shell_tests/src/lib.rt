//! Tests of texts, command lines, answers, generated jobs and searches.
#![tactic(auto)]

#[cfg(test)]
mod answers;
#[cfg(test)]
mod command_lines;
#[cfg(test)]
mod generated;
#[cfg(test)]
mod reports;
#[cfg(test)]
mod searches;
#[cfg(test)]
mod texts;
