ghost use Rattle.std.specs.Prelude.{◌≡◌, IfOk};
ghost use Rattle.clap.specs.Words.{kind_of};
ghost use Rattle.fizz_words.specs.Commands.{IsInline};
ghost use Rattle.fizz_words.specs.Meaning.{IsAnswer, IsKept, IsMeant};
ghost use Rattle.fizz_words.specs.declared.words.WordsFault.TheVariants.{OutOfMemory as Memory};

use crate::command::Command;
use crate::found::command_in;
use crate::grammar::grammar;
use clap::Error;
use clap::error::ErrorKind;
use fizz_text::{OutOfMemory, Text};
use std::alloc::{AllocError, Global};

/// How long a prefix may be, in bytes.
const MOST_PREFIX: usize = 64;

/// Why words are no command.
#[derive(Debug, Drop)]
pub enum WordsFault {
    /// They are wrong. The text says what is wrong, and is for the standard error.
    Usage { text: Text },
    /// They ask for help or for the version, which the text is. It is for the standard output, with status 0.
    Told { text: Text },
    /// They are a command whose prefix is too long: how many bytes it has, more than 64.
    PrefixTooLong { length: usize },
    OutOfMemory,
}

impl From<OutOfMemory> for WordsFault {
    ghost from_gives = { λ _ e. e ≡ Memory };

    fn from(_e: OutOfMemory) -> WordsFault {
        WordsFault::OutOfMemory
    }
}

impl From<AllocError> for WordsFault {
    ghost from_gives = { λ _ e. e ≡ Memory };

    fn from(_e: AllocError) -> WordsFault {
        WordsFault::OutOfMemory
    }
}

/// The command that the words after the program's name mean. `Usage` and `Told` are clap's answers; its words are
/// read as `--help` and each command's `--help` tell them.
pub fn read_words(alloc: Global, words: &[Text]) -> Result<Command, WordsFault>
    ensures meant { IsMeant words.now result }
    ensures inline { IfOk result IsInline }
{
    let grammar = grammar(alloc)?;
    match grammar.try_get_matches_from(words) {
        Ok(matches) => with_short_prefix(command_in(alloc, &matches)?),
        Err(error) => Err(answer_to(alloc, &error)),
    }
}

fn with_short_prefix(command: Command) -> Result<Command, WordsFault>
    ensures { IsKept command result }
{
    let length = command.prefix_length();
    if MOST_PREFIX < length {
        return Err(WordsFault::PrefixTooLong { length });
    }
    Ok(command)
}

fn answer_to(alloc: Global, error: &Error) -> WordsFault
    ensures { IsAnswer (kind_of error.now) result }
{
    let kind = error.kind();
    if matches!(kind, ErrorKind::OutOfMemory) {
        return WordsFault::OutOfMemory;
    }
    match printed(alloc, error) {
        Ok(text) => match kind {
            ErrorKind::DisplayHelp | ErrorKind::DisplayVersion => WordsFault::Told { text },
            _ => WordsFault::Usage { text },
        },
        Err(_) => WordsFault::OutOfMemory,
    }
}

fn printed(alloc: Global, error: &Error) -> Result<Text, OutOfMemory> {
    let text = format!(in alloc; "{error}")?;
    match Text::from_bytes(text.into_bytes()) {
        Ok(text) => Ok(text),
        Err(_) => Err(OutOfMemory),
    }
}
