//! What is said of a run.

ghost use Rattle.std.specs.Prelude.{◌≡◌, ◌++◌, decimal, length, IfOk, OnOk};
ghost use Rattle.al_report.specs.Traces as spec;

use crate::builder::Text;
use crate::lines::of_line;
use al_core::{Bytes, Ending, Event, Judged, Report, Trap, Verdict};
use std::alloc::{AllocError, Global};

fn trap_name(trap: Trap) -> &'static [u8]
    ensures { result.now ≡ spec.trap_name trap }
{
    match trap {
        Trap::Null => b"null pointer",
        Trap::Missing => b"missing object",
        Trap::Bounds => b"out of bounds",
        Trap::Kind => b"word of the other kind",
        Trap::Divide => b"divide by zero",
        Trap::Input => b"no such input",
        Trap::Trips => b"too many trips",
        Trap::Steps => b"step budget spent",
        Trap::Alloc => b"too many words allocated",
        Trap::Depth => b"calls nested too deep",
        Trap::BadFree => b"not an allocated object",
        Trap::Freed => b"freed already",
    }
}

fn verdict_name(verdict: Verdict) -> &'static [u8]
    ensures { result.now ≡ spec.verdict_name verdict }
{
    match verdict {
        Verdict::Commit => b"commit",
        Verdict::CommitTrap => b"trap",
        Verdict::Fail => b"fail",
        Verdict::After => b"after",
    }
}

impl Text {
    #[tactic(auto, unfolding(crate::specs::Traces::labelled))]
    pub(crate) fn push_labelled(&mut self, label: &[u8], n: u128) -> Result<(), AllocError>
        ensures { OnOk result (self.new ≡ self.old ++ spec.labelled label.now n) }
    {
        self.push(label)?;
        self.push_number(n)
    }

    fn push_judged(&mut self, judged: Judged) -> Result<(), AllocError>
        ensures { OnOk result (self.new ≡ self.old ++ spec.judged_text judged) }
    {
        self.push_number(u128::from(judged.chunk))?;
        self.push(b" ")?;
        self.push(verdict_name(judged.verdict))
    }

    fn push_joined(&mut self, chunks: &[Judged]) -> Result<(), AllocError>
        ensures { OnOk result (self.new ≡ self.old ++ spec.joined chunks.now) }
    {
        let Some((first, others)) = chunks.split_first() else {
            return Ok(());
        };
        self.push_judged(*first)?;
        for judged in others {
            self.push(b", ")?;
            self.push_judged(*judged)?;
        }
        Ok(())
    }

    fn push_round(&mut self, round: u64, chunks: &[Judged]) -> Result<(), AllocError>
        ensures { OnOk result (self.new ≡ self.old ++ spec.round_line round chunks.now) }
    {
        self.push_labelled(b"round ", u128::from(round))?;
        self.push(b": ")?;
        self.push_joined(chunks)?;
        self.push(b"\n")
    }

    fn push_loop(
        &mut self,
        number: u32,
        execution: u32,
        line: u32,
        trips: u64,
        chunks: u64,
    ) -> Result<(), AllocError>
        ensures { OnOk result (self.new ≡ self.old ++ spec.loop_line number execution line trips chunks) }
    {
        self.push_labelled(b"loop ", u128::from(number))?;
        self.push_labelled(b" execution ", u128::from(execution))?;
        self.push_labelled(b" line ", u128::from(line))?;
        self.push_labelled(b" trips ", u128::from(trips))?;
        self.push_labelled(b" chunks ", u128::from(chunks))?;
        self.push(b"\n")
    }

    fn push_events(&mut self, events: &[Event]) -> Result<(), AllocError>
        ensures { OnOk result (self.new ≡ self.old ++ spec.event_lines 0 events.now) }
    {
        let mut round = 0;
        for event in events {
            match event {
                Event::Enter {
                    number,
                    execution,
                    line,
                    trips,
                    chunks,
                } => {
                    self.push_loop(*number, *execution, *line, *trips, *chunks)?;
                    round = 0;
                }
                Event::Round(chunks) => {
                    self.push_round(round, chunks.as_slice())?;
                    round += 1;
                }
            }
        }
        Ok(())
    }

    fn push_ending(&mut self, ending: Ending) -> Result<(), AllocError>
        ensures { OnOk result (self.new ≡ self.old ++ spec.ending_line ending) }
    {
        match ending {
            Ending::Done => self.push(b"end done\n"),
            Ending::Trap(trap, line) => {
                self.push_labelled(b"end trap ", u128::from(line))?;
                self.push(b" ")?;
                self.push(trap_name(trap))?;
                self.push(b"\n")
            }
        }
    }

    fn push_totals(&mut self, report: &Report) -> Result<(), AllocError>
        ensures { OnOk result (self.new ≡ self.old ++ spec.totals_text report.now) }
    {
        self.push_labelled(b"loops ", u128::from(report.loops))?;
        self.push_labelled(b" rounds ", u128::from(report.rounds))?;
        self.push_labelled(b" attempts ", u128::from(report.attempts))?;
        self.push_labelled(b" aborted ", u128::from(report.aborted))?;
        self.push_labelled(b" span ", report.span)?;
        self.push(b"\n")
    }
}

/// The line about a trap at a line of a source.
pub fn trap_text(alloc: Global, name: &str, trap: Trap, line: u32) -> Result<Bytes, AllocError>
    ensures { IfOk result (λ text. text ≡ spec.trap_text name.now trap line) }
{
    let mut text = Text::new(alloc);
    text.push(b"trap: ")?;
    text.push(trap_name(trap))?;
    of_line(alloc, name, line, text.finish().as_slice())
}

/// The executions of a run with the verdicts of their rounds, its ending, and its totals, a line each.
pub fn trace_text(alloc: Global, report: &Report) -> Result<Bytes, AllocError>
    ensures { IfOk result (λ text. text ≡ spec.trace_text report.now) }
{
    let mut text = Text::new(alloc);
    text.push_events(report.events.as_slice())?;
    text.push_ending(report.ending)?;
    text.push_totals(report)?;
    Ok(text.finish())
}

/// The line of a run's totals.
pub fn totals_text(alloc: Global, report: &Report) -> Result<Bytes, AllocError>
    ensures { IfOk result (λ text. text ≡ spec.totals_text report.now) }
{
    let mut text = Text::new(alloc);
    text.push_totals(report)?;
    Ok(text.finish())
}
