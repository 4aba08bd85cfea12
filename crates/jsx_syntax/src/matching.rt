//! Tests of words, and why one is refused.

ghost use Rattle.std.specs.Prelude.{◌≡◌, ◌+◌, ◌<◌, true};
ghost use Rattle.std.specs.List.{list_any};
ghost use Rattle.std.specs.Str.{bytes_eq};
ghost use Rattle.jsx_syntax.specs.WordTests as spec;
ghost use Rattle.jsx_syntax.specs.Words as words;
ghost use Rattle.jsx_syntax.specs.Steps as steps;
ghost use Rattle.jsx_syntax.specs.Steps.{Gives};

use crate::fault::{Stop, Wanted};
use crate::name::Name;
use crate::state::State;
use jsx_lex::{Punctuator, Word};

/// The most `(`, `[`, `{`, elements, `!` and `?` that may be open.
const NESTING_LIMIT: usize = 200;

/// Whether one more may be open where so many are.
#[tactic(auto, unfolding(crate::specs::Words::nesting_limit))]
pub(crate) fn has_room(depth: usize) -> bool
    ensures decided { result ≡ spec.has_room depth }
    ensures small { result ≡ true → depth < 200 }
{
    depth < NESTING_LIMIT
}

/// The same where one more is open.
#[tactic(auto, unfolding(crate::specs::Words::nesting_limit))]
pub(crate) fn has_room_within(depth: usize) -> bool
    ensures decided { result ≡ spec.has_room (depth + 1) }
    ensures small { result ≡ true → depth < 199 }
{
    depth < NESTING_LIMIT - 1
}

/// The same where two more are open.
#[tactic(auto, unfolding(crate::specs::Words::nesting_limit))]
pub(crate) fn has_room_twice_within(depth: usize) -> bool
    ensures { result ≡ spec.has_room (depth + 1 + 1) }
{
    depth < NESTING_LIMIT - 2
}

/// The same where so many more are open.
#[tactic(auto, unfolding(crate::specs::Words::nesting_limit))]
pub(crate) fn has_room_after(depth: usize, more: usize) -> bool
    ensures decided { result ≡ spec.has_room (depth + more) }
    ensures small { result ≡ true → depth + more < 200 }
{
    if more >= NESTING_LIMIT {
        return false;
    }
    depth < NESTING_LIMIT - more
}

/// The same where so many more are open, and one.
#[tactic(auto, unfolding(crate::specs::Words::nesting_limit))]
pub(crate) fn has_room_within_after(depth: usize, more: usize) -> bool
    ensures { result ≡ spec.has_room (depth + more + 1) }
{
    if more >= NESTING_LIMIT - 1 {
        return false;
    }
    depth < NESTING_LIMIT - 1 - more
}

fn number_of(sign: Punctuator) -> u8
    ensures { result ≡ spec.punctuator_number sign }
{
    match sign {
        Punctuator::StrictEqual => 0,
        Punctuator::StrictNotEqual => 1,
        Punctuator::Arrow => 2,
        Punctuator::AndAnd => 3,
        Punctuator::OrOr => 4,
        Punctuator::OpenBrace => 5,
        Punctuator::CloseBrace => 6,
        Punctuator::OpenParen => 7,
        Punctuator::CloseParen => 8,
        Punctuator::OpenBracket => 9,
        Punctuator::CloseBracket => 10,
        Punctuator::Comma => 11,
        Punctuator::Semicolon => 12,
        Punctuator::Colon => 13,
        Punctuator::Dot => 14,
        Punctuator::Question => 15,
        Punctuator::Not => 16,
        Punctuator::Assign => 17,
        Punctuator::Plus => 18,
        Punctuator::Less => 19,
        Punctuator::Greater => 20,
        Punctuator::SlashGreater => 21,
        Punctuator::LessSlash => 22,
    }
}

pub(crate) fn is_sign(word: &Word, sign: Punctuator) -> bool
    ensures { result ≡ spec.is_sign sign word.now }
{
    match word {
        Word::Sign(other) => number_of(sign) == number_of(*other),
        Word::Name { .. } => false,
        Word::Number(_) => false,
        Word::Text(_) => false,
        Word::JsxText(_) => false,
    }
}

/// Whether the word is a name of this text.
pub(crate) fn is_word(word: &Word, text: &[u8]) -> bool
    ensures { result ≡ spec.is_word text.now word.now }
{
    match word {
        Word::Name { text: other, .. } => other.as_bytes() == text,
        Word::Sign(_) => false,
        Word::Number(_) => false,
        Word::Text(_) => false,
        Word::JsxText(_) => false,
    }
}

fn is_opening(sign: Punctuator) -> bool
    ensures { result ≡ spec.is_opening sign }
{
    match sign {
        Punctuator::OpenParen => true,
        Punctuator::OpenBracket => true,
        Punctuator::OpenBrace => true,
        Punctuator::Less => true,
        Punctuator::Not => true,
        Punctuator::Question => true,
        Punctuator::StrictEqual => false,
        Punctuator::StrictNotEqual => false,
        Punctuator::Arrow => false,
        Punctuator::AndAnd => false,
        Punctuator::OrOr => false,
        Punctuator::CloseBrace => false,
        Punctuator::CloseParen => false,
        Punctuator::CloseBracket => false,
        Punctuator::Comma => false,
        Punctuator::Semicolon => false,
        Punctuator::Colon => false,
        Punctuator::Dot => false,
        Punctuator::Assign => false,
        Punctuator::Plus => false,
        Punctuator::Greater => false,
        Punctuator::SlashGreater => false,
        Punctuator::LessSlash => false,
    }
}

fn opens(word: &Word) -> bool
    ensures { result ≡ spec.opens word.now }
{
    match word {
        Word::Sign(sign) => is_opening(*sign),
        Word::Name { .. } => false,
        Word::Number(_) => false,
        Word::Text(_) => false,
        Word::JsxText(_) => false,
    }
}

/// Why a word is refused that could stand at no nesting, by whether one more may be open.
pub(crate) fn refusal(room: bool, word: &Word) -> Wanted
    ensures { result ≡ spec.refusal_by room word.now }
{
    if opens(word) && !room {
        Wanted::Shallower
    } else {
        Wanted::Token
    }
}

static RESERVED: [&str; 10] = [
    "function",
    "const",
    "return",
    "if",
    "throw",
    "use",
    "true",
    "false",
    "null",
    "undefined",
];

/// Whether the text is a word of the language.
#[tactic(auto, unfolding(crate::specs::Words::reserved_words))]
pub(crate) fn is_reserved(text: &[u8]) -> bool
    ensures { result ≡ words.is_reserved text.now }
{
    is_one_of(&RESERVED, text)
}

fn is_one_of(words: &[&str], text: &[u8]) -> bool
    ensures { result ≡ list_any (λ word. bytes_eq text.now word.now) words.now }
{
    words.iter().any(|word| text == word.as_bytes())
}

/// A name of code.
pub(crate) fn code_name(room: bool, word: Word) -> Result<Name, Stop>
    ensures { Gives (spec.code_name_by room word) result }
{
    match word {
        Word::Name { text, at } => {
            if is_reserved(text.as_bytes()) {
                Err(Stop::Refused(Wanted::Token))
            } else {
                Ok(Name { text, at })
            }
        }
        Word::Sign(sign) => Err(Stop::Refused(refusal(room, &Word::Sign(sign)))),
        Word::Number(_) => Err(Stop::Refused(Wanted::Token)),
        Word::Text(_) => Err(Stop::Refused(Wanted::Token)),
        Word::JsxText(_) => Err(Stop::Refused(Wanted::Token)),
    }
}

/// A name of a tag or after a dot, where a word of the language is one too.
pub(crate) fn any_name(room: bool, word: Word) -> Result<Name, Stop>
    ensures { Gives (spec.any_name_by room word) result }
{
    match word {
        Word::Name { text, at } => Ok(Name { text, at }),
        Word::Sign(sign) => Err(Stop::Refused(refusal(room, &Word::Sign(sign)))),
        Word::Number(_) => Err(Stop::Refused(Wanted::Token)),
        Word::Text(_) => Err(Stop::Refused(Wanted::Token)),
        Word::JsxText(_) => Err(Stop::Refused(Wanted::Token)),
    }
}

/// Goes on to a state if the sign stands there, where nothing else may.
pub(crate) fn expect(room: bool, sign: Punctuator, word: &Word, next: State) -> Result<State, Stop>
    ensures { Gives (steps.expect_by room sign word.now next) result }
{
    if is_sign(word, sign) {
        Ok(next)
    } else {
        Err(Stop::Refused(refusal(room, word)))
    }
}

/// Goes on to a state if this word of the language stands there, where nothing else may.
pub(crate) fn expect_word(text: &[u8], word: &Word, next: State) -> Result<State, Stop>
    ensures { Gives (steps.expect_word text.now word.now next) result }
{
    if is_word(word, text) {
        Ok(next)
    } else {
        Err(Stop::Refused(Wanted::Token))
    }
}

/// The same of an owned word.
pub(crate) fn expect_sign(
    room: bool,
    sign: Punctuator,
    word: Word,
    next: State,
) -> Result<State, Stop>
    ensures { Gives (steps.expect_by room sign word next) result }
{
    expect(room, sign, &word, next)
}

/// The same of an owned word.
pub(crate) fn expect_name(text: &[u8], word: Word, next: State) -> Result<State, Stop>
    ensures { Gives (steps.expect_word text.now word next) result }
{
    expect_word(text, &word, next)
}
