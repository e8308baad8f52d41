ghost use Rattle.std.specs.Prelude.{◌≡◌, IfErr};
ghost use Rattle.al_rules.specs.Refusals as spec;
ghost use Rattle.al_source.specs.Answers.{Gives};
ghost use Rattle.al_front.specs.Answers.{refused, TellsPlace, TellsPlaceIn};

use crate::fault::{BadTokens, FrontFault, by_cause};
use al_core::{LoopInfo, Typed};
use al_layout::layout;
use al_lexer::lex;
use al_loops::notes;
use al_parser::{Parsed, parse_or_first_bad};
use al_rules::{Refusal, lexical_cause};
use al_source::limits::SOURCE_NODES;
use al_source::{Program, Token};
use al_types::check;
use sqlite_items::Items;
use std::alloc::Global;

/// A typed tree, and the entries of its annotated loops, by their numbers.
pub type Noted = (Typed, Items<LoopInfo>);

/// The typed tree of a source and the entries of its annotated loops, by their numbers, or the first cause for which
/// the source is refused, and where that is the grammar, the first bad token.
pub fn resolve(alloc: Global, source: &[u8]) -> Result<Noted, FrontFault>
    ensures answer { Gives refused (spec.accepted source.now) result }
    ensures place { IfErr result (TellsPlace source.now) }
{
    let tokens = tokens_of(alloc, source)?;
    let program = program_of(alloc, tokens)?;
    let typed = tree_of(alloc, &program)?;
    annotated_well(alloc, typed)
}

fn tokens_of(alloc: Global, source: &[u8]) -> Result<Items<Token>, FrontFault>
    ensures { Gives refused (spec.tokens_of source.now) result }
{
    match lex(alloc, source) {
        Ok(tokens) => Ok(tokens),
        Err(fault) => {
            let cause = lexical_cause(fault);
            Err(by_cause(cause.map(|cause| Refusal::Lexical(cause))))
        }
    }
}

/// The program that the tokens derive. Where they derive none they are handed back, with the place.
fn program_of(alloc: Global, tokens: Items<Token>) -> Result<Program, FrontFault>
    ensures answer { Gives refused (spec.program_of tokens) result }
    ensures place { IfErr result (TellsPlaceIn tokens) }
{
    match parse_or_first_bad(alloc, tokens.as_slice())? {
        Parsed::Program(program) => Ok(program),
        Parsed::FirstBad(place) => Err(FrontFault::NoProgram(BadTokens { tokens, place })),
    }
}

fn tree_of(alloc: Global, program: &Program) -> Result<Typed, FrontFault>
    ensures { Gives refused (spec.tree_of program.now) result }
{
    let sizes = match layout(alloc, program) {
        Ok(sizes) => sizes,
        Err(fault) => {
            let cause = fault.cause();
            return Err(by_cause(cause.map(|cause| Refusal::Layout(cause))));
        }
    };
    match check(alloc, program, &sizes) {
        Ok(typed) => Ok(typed),
        Err(fault) => Err(by_cause(fault.cause().map(|cause| Refusal::Types(cause)))),
    }
}

/// The tree and the entries of its loops, where these are annotated well and it is not too large.
fn annotated_well(alloc: Global, typed: Typed) -> Result<Noted, FrontFault>
    ensures { Gives refused (spec.annotated_well typed) result }
{
    match notes(alloc, &typed) {
        Ok(_) if typed.nodes > SOURCE_NODES => Err(FrontFault::Refused(Refusal::TooManyNodes)),
        Ok(infos) => Ok((typed, infos)),
        Err(fault) => Err(by_cause(fault.cause().map(|cause| Refusal::Notes(cause)))),
    }
}
