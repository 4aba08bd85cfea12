//! The reading of a whole file, token by token.

ghost use Rattle.std.specs.Prelude.{◌≡◌, ◌≤◌, IfOk, IfErr, IsUtf8, MatchResult, Ok, length, slice_range};
ghost use Rattle.jsx_lex.specs.TokenLists.{AreTokens};
ghost use Rattle.jsx_lex.specs.TokenWords.{IsWord};
ghost use Rattle.jsx_lex.specs.TokenMeanings.{word_at};
ghost use Rattle.jsx_syntax.specs.Steps as spec;
ghost use Rattle.jsx_syntax.specs.Steps.{Gives};
ghost use Rattle.jsx_syntax.specs.Advances.{StopsHere, outside_components, components_of};
ghost use Rattle.jsx_syntax.specs.Parsing.{IsSpelled, HasCause};
ghost use Rattle.jsx_syntax.specs.declared.file.File.{File};
ghost use Rattle.jsx_syntax.specs.declared.fault.SyntaxFault.TheVariants.{OutOfMemory};

use crate::component::{step_outside, step_within};
use crate::element::step_in_element;
use crate::fault::{Stop, SyntaxFault, Wanted};
use crate::file::{Component, File};
use crate::map::step_in_map;
use crate::operand::step_inside;
use crate::stack::Stack;
use crate::state::{Outside, Position, State};
use jsx_lex::{Token, Word, token_words, word_of};
use sqlite_items::Items;
use std::alloc::Global;

/// Where a file begins.
fn first_state(alloc: Global) -> State
    ensures { result ≡ spec.first_state }
{
    State {
        position: Position::Outside(Outside::File(Items::new(alloc))),
        stack: Stack::new(alloc),
    }
}

/// What a state becomes at a word.
fn step(alloc: Global, state: State, word: Word) -> Result<State, Stop>
    ensures { Gives (spec.step state word) result }
{
    let State { position, stack } = state;
    match position {
        Position::Outside(place) => step_outside(alloc, place, stack, word),
        Position::Within(place) => step_within(alloc, place, stack, word),
        Position::Inside(place) => step_inside(alloc, place, stack, word),
        Position::InMap(place) => step_in_map(alloc, place, stack, word),
        Position::InElement(place) => step_in_element(alloc, place, stack, word),
    }
}

fn fault_at(stop: Stop, at: usize) -> SyntaxFault
    ensures { result ≡ spec.fault_at stop at }
{
    match stop {
        Stop::Refused(wanted) => SyntaxFault::Bad { at, wanted },
        Stop::OutOfMemory => SyntaxFault::OutOfMemory,
    }
}

/// What a state becomes at a token.
fn advance(alloc: Global, text: &[u8], token: Token, state: State) -> Result<State, SyntaxFault>
    requires ordered { token.from ≤ token.to }
    requires within { token.to ≤ length text.now }
    requires form { IsWord token.kind (slice_range text.now token.from token.to) }
    requires utf8 { IsUtf8 (slice_range text.now token.from token.to) }
    ensures moved { IfOk result (λ next. spec.step state (word_at text.now token) ≡ Ok next) }
    ensures stopped { IfErr result (StopsHere text.now token state) }
{
    let word = word_of(alloc, text, token)?;
    match step(alloc, state, word) {
        Ok(next) => Ok(next),
        Err(stop) => Err(fault_at(stop, token.from)),
    }
}

fn outside_components(place: Outside) -> Option<Items<Component>>
    ensures { result ≡ outside_components place }
{
    match place {
        Outside::File(components) => Some(components),
        Outside::Name(_) => None,
        Outside::Open(_) => None,
        Outside::Properties(_) => None,
        Outside::FirstProperty(_) => None,
        Outside::NextProperty(_) => None,
        Outside::PropertyEnd(_) => None,
        Outside::Close(_) => None,
        Outside::Body(_) => None,
        Outside::BodyEnd(_) => None,
    }
}

/// The components of a state in which a file may end.
fn components_of(position: Position) -> Option<Items<Component>>
    ensures { result ≡ components_of position }
{
    match position {
        Position::Outside(place) => outside_components(place),
        Position::Within(_) => None,
        Position::Inside(_) => None,
        Position::InMap(_) => None,
        Position::InElement(_) => None,
    }
}

/// The file that the tokens of a text spell, which is UTF-8; they are those that `lex` gives for it.
///
/// Takes one pass. Tokens that spell no file are refused at the first that no file has after those before it, or at
/// the text's length.
pub fn parse(alloc: Global, tokens: &[Token], text: &[u8]) -> Result<File, SyntaxFault>
    requires utf8 { IsUtf8 text.now }
    requires lexed { AreTokens text.now tokens.now }
    ensures found { IfOk result (IsSpelled text.now tokens.now) }

    // A file that the tokens spell is refused only for want of memory.
    ensures only { (file : File) → IsSpelled text.now tokens.now file →
        MatchResult result (λ f. f ≡ file) (λ e. e ≡ OutOfMemory) }
    ensures refused { IfErr result (HasCause text.now tokens.now) }
{
    token_words();
    let mut state = first_state(alloc);
    for token in tokens {
        state = advance(alloc, text, *token, state)?;
    }
    match components_of(state.position) {
        Some(components) => Ok(File { components }),
        None => Err(SyntaxFault::Bad {
            at: text.len(),
            wanted: Wanted::Token,
        }),
    }
}
