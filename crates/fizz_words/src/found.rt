ghost use Rattle.std.specs.Prelude.{◌≡◌, IfOk, IfErr, Some, codes, option_and_then};
ghost use Rattle.clap.specs.Words.{first_of, found_of, rows_of, subcommand_rows_of};
ghost use Rattle.fizz_words.specs.Meaning.{command_in, gen_in, number_of, options_in, render_in};
ghost use Rattle.fizz_words.specs.Meaning.{show_in, tree_in};

use crate::command::{Command, Options};
use clap::ArgMatches;
use fizz_text::{OutOfMemory, Text};
use std::alloc::Global;

/// The command that the matches mean.
pub fn command_in(alloc: Global, matches: &ArgMatches<'_>) -> Result<Command, OutOfMemory>
    ensures { IfOk result (λ command.
        option_and_then command_in (subcommand_rows_of matches.now) ≡ Some command) }
{
    match matches.subcommand() {
        Some((name, found)) => named(alloc, name, found),
        None => Err(OutOfMemory),
    }
}

fn named(alloc: Global, name: &str, found: &ArgMatches<'_>) -> Result<Command, OutOfMemory>
    ensures { IfOk result (λ command.
        command_in (name.now, rows_of (found_of found.now)) ≡ Some command) }
{
    match name {
        "render" => render_in(alloc, found),
        "show" => show_in(alloc, found),
        "tree" => tree_in(alloc, found),
        "gen" => gen_in(found),
        _ => Err(OutOfMemory),
    }
}

fn render_in(alloc: Global, found: &ArgMatches<'_>) -> Result<Command, OutOfMemory>
    ensures { IfOk result (λ command. render_in (rows_of (found_of found.now)) ≡ Some command) }
{
    let app = text_of(alloc, found, "APP")?;
    let script = text_of(alloc, found, "SCRIPT")?;
    let options = options_in(alloc, found)?;
    let workers = number_of(found, "workers")?;
    Ok(Command::Render {
        app,
        script,
        options,
        workers,
    })
}

fn options_in(alloc: Global, found: &ArgMatches<'_>) -> Result<Options, OutOfMemory>
    ensures { IfOk result (λ options. options_in (rows_of (found_of found.now)) ≡ Some options) }
{
    let prefix = text_of(alloc, found, "prefix")?;
    let progressive = number_of(found, "progressive")?;
    let chunk = number_of(found, "chunk")?;
    Ok(Options {
        prefix,
        progressive,
        chunk,
    })
}

fn show_in(alloc: Global, found: &ArgMatches<'_>) -> Result<Command, OutOfMemory>
    ensures { IfOk result (λ command. show_in (rows_of (found_of found.now)) ≡ Some command) }
{
    let file = text_of(alloc, found, "FILE")?;
    let prefix = text_of(alloc, found, "prefix")?;
    Ok(Command::Show { file, prefix })
}

fn tree_in(alloc: Global, found: &ArgMatches<'_>) -> Result<Command, OutOfMemory>
    ensures { IfOk result (λ command. tree_in (rows_of (found_of found.now)) ≡ Some command) }
{
    let app = text_of(alloc, found, "APP")?;
    let script = text_of(alloc, found, "SCRIPT")?;
    let prefix = text_of(alloc, found, "prefix")?;
    Ok(Command::Tree {
        app,
        script,
        prefix,
    })
}

fn gen_in(found: &ArgMatches<'_>) -> Result<Command, OutOfMemory>
    ensures { IfOk result (λ command. gen_in (rows_of (found_of found.now)) ≡ Some command) }
{
    let seed = large_number_of(found, "SEED")?;
    let size = number_of(found, "SIZE")?;
    let workers = number_of(found, "workers")?;
    Ok(Command::Gen {
        seed,
        size,
        workers,
    })
}

/// The text of a name or an option. Each that is asked for has one, so nothing else is answered than where memory
/// runs out; `laws_of_words` says so.
fn text_of(alloc: Global, found: &ArgMatches<'_>, id: &str) -> Result<Text, OutOfMemory>
    ensures { IfOk result (λ t. first_of id.now (rows_of (found_of found.now)) ≡ Some t) }
{
    match found.get_str(id) {
        Some(text) => copy_of(alloc, text),
        None => Err(OutOfMemory),
    }
}

fn copy_of(alloc: Global, text: &str) -> Result<Text, OutOfMemory>
    ensures { IfOk result (λ t. t ≡ text.now) }
{
    let bytes = Vec::from_slice(alloc, text.as_bytes())?;
    match Text::from_bytes(bytes) {
        Ok(text) => Ok(text),
        Err(_) => Err(OutOfMemory),
    }
}

/// The number of a name or an option, of which the same is so.
fn number_of(found: &ArgMatches<'_>, id: &str) -> Result<u32, OutOfMemory>
    ensures { IfOk result (λ n. number_of id.now (rows_of (found_of found.now)) ≡ Some n) }
{
    match found.get_one::<u32>(id) {
        Some(number) => Ok(number),
        None => Err(OutOfMemory),
    }
}

fn large_number_of(found: &ArgMatches<'_>, id: &str) -> Result<u64, OutOfMemory>
    ensures { IfOk result (λ n. number_of id.now (rows_of (found_of found.now)) ≡ Some n) }
{
    match found.get_one::<u64>(id) {
        Some(number) => Ok(number),
        None => Err(OutOfMemory),
    }
}
