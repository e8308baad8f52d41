//! The words after the first, one after another.
ghost use Rattle.std.specs.Prelude.{◌≡◌, ◌<◌, ◌≤◌, ◌+◌, ◌*◌, ◌^◌, IfOk};
ghost use Rattle.al_words.specs.Words as spec;
ghost use Rattle.al_words.specs.Places.{Fits};

use crate::command::WordFault;
use crate::option::{Given, Knob};
use crate::verb::Verb;

/// An option that waits for its value, and its place.
#[derive(Clone, Copy, Debug, PartialEq, Eq)]
pub struct Waiting {
    pub knob: Knob,
    pub at: u64,
}

/// What the words so far have said.
#[derive(Clone, Copy, Debug, PartialEq, Eq)]
pub struct Walk {
    pub verb: Verb,
    /// The places of the names, as far as there is room.
    pub names: [u32; 17],
    pub count: u64,
    pub given: Given,
    pub waiting: Option<Waiting>,
}

impl Walk {
    pub fn begin(verb: Verb) -> Walk
        ensures walk { result ≡ spec.begin verb }
        ensures fits { Fits 1 result }
    {
        Walk {
            verb,
            names: [0; 17],
            count: 0,
            given: Given::nothing(),
            waiting: None,
        }
    }

    /// Takes the word at a place.
    pub fn take(&mut self, at: u64, word: &str) -> Result<(), WordFault>
        requires fits { Fits at self.now }
        requires further { at + 1 < 2 ^ 64 }
        ensures taken { spec.Takes (spec.step self.old at word.now) result self.new }
        ensures fits { IfOk result (λ _. Fits (at + 1) self.new) }
    {
        match self.waiting {
            Some(waiting) => self.value(waiting, word),
            None if word.as_bytes().starts_with(b"-") => self.option(at, word),
            None => Ok(self.name(at)),
        }
    }

    /// Takes the value of an option.
    fn value(&mut self, waiting: Waiting, word: &str) -> Result<(), WordFault>
        ensures { spec.Takes (spec.valued self.old waiting (spec.value_of waiting.knob word.now)) result self.new }
    {
        let Some(n) = waiting.knob.value(word) else {
            return Err(WordFault::BadValue(waiting.at));
        };
        self.given.set(waiting.knob, n);
        self.waiting = None;
        Ok(())
    }

    /// Takes an option.
    fn option(&mut self, at: u64, word: &str) -> Result<(), WordFault>
        ensures { spec.Takes (spec.optioned self.old at (spec.knob_for self.old.verb word.now)) result self.new }
    {
        let Some(knob) = self.knob(word) else {
            return Err(WordFault::Unknown(at));
        };
        if self.given.get(knob).is_some() {
            return Err(WordFault::Repeated(at));
        }
        self.waiting = Some(Waiting { knob, at });
        Ok(())
    }

    /// The option of this command that a word names.
    fn knob(&self, word: &str) -> Option<Knob>
        ensures { result ≡ spec.knob_for self.now.verb word.now }
    {
        let knob = Knob::of(word)?;
        if self.verb.has_option(knob) {
            Some(knob)
        } else {
            None
        }
    }

    /// Takes a name.
    fn name(&mut self, at: u64)
        requires { Fits at self.now }
        ensures { self.new ≡ spec.named self.old at }
    {
        if self.count < 17 {
            self.names[self.count as usize] = at as u32;
        }
        self.count += 1;
    }
}
