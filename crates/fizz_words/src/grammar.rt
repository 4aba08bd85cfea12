ghost use Rattle.std.specs.Prelude.{◌≡◌, IfOk, [], Some, None, false, codes};
ghost use Rattle.clap.specs.Words.{app_of, rule_of};
ghost use Rattle.clap.specs.declared.builder.command.Command.TheViews.{out-Command as fields_of};
ghost use Rattle.fizz_words.specs.Grammar.{fizz, fizz_alone, name_rule, seed_rule, size_rule, workers_rule};
ghost use Rattle.fizz_words.specs.Grammar.{chunk_rule, progressive_rule, prefix_rule, with_options};
ghost use Rattle.fizz_words.specs.Grammar.{render_shape, show_shape, tree_shape, gen_shape};

use clap::{Arg, Command, value_parser};
use std::alloc::{AllocError, Global};

/// How many threads a call may have beside its own.
const MOST_WORKERS: i64 = 0;

const VERSION: &str = "0.1.0";

/// The command line of fizz: its four commands, of which one is wanted.
pub fn grammar<'a>(alloc: Global) -> Result<Command<'a>, AllocError>
    ensures { IfOk result (λ c. app_of c ≡ fizz) }
{
    alone(alloc)?
        .subcommand(render(alloc)?)?
        .subcommand(show(alloc)?)?
        .subcommand(tree(alloc)?)?
        .subcommand(generate(alloc)?)
}

fn alone<'a>(alloc: Global) -> Result<Command<'a>, AllocError>
    ensures { IfOk result (λ c. app_of c ≡ fizz_alone) }
{
    Command::new(alloc, "fizz")
        .about("Renders pages of components as streams of HTML")
        .version(VERSION)
        .no_binary_name(true)
        .disable_help_subcommand(true)
        .propagate_version(true)
        .subcommand_required(true)
        .bin_name("fizz")
}

fn render<'a>(alloc: Global) -> Result<Command<'a>, AllocError>
    ensures { IfOk result (λ c. (app_of c ≡ record { top = render_shape; subs = [] })
        × ((fields_of c).has_globals ≡ false)) }
{
    let command = Command::new(alloc, "render")
        .about("Renders a page to standard output, as its script settles it")
        .after_help("Example: fizz render page.jsx script.json > page.html")
        .display_name("fizz")?
        .arg(name(alloc, "APP", "The component file, as page.jsx"))?
        .arg(name(
            alloc,
            "SCRIPT",
            "The script of what settles when, as script.json",
        ))?;
    with_options(alloc, command)
}

fn with_options<'a>(alloc: Global, command: Command<'a>) -> Result<Command<'a>, AllocError>
    ensures { IfOk result (λ c. (app_of c ≡ with_options (app_of command.entry))
        × ((fields_of c).has_globals ≡ (fields_of command.entry).has_globals)) }
{
    command
        .arg(workers(alloc))?
        .arg(chunk(alloc))?
        .arg(progressive(alloc))?
        .arg(prefix(alloc))
}

fn show<'a>(alloc: Global) -> Result<Command<'a>, AllocError>
    ensures { IfOk result (λ c. (app_of c ≡ record { top = show_shape; subs = [] })
        × ((fields_of c).has_globals ≡ false)) }
{
    Command::new(alloc, "show")
        .about("Runs a rendered page, and prints the document that it settles to")
        .after_help("Example: fizz show page.html")
        .display_name("fizz")?
        .arg(name(alloc, "FILE", "The page, as render wrote it"))?
        .arg(prefix(alloc))
}

fn tree<'a>(alloc: Global) -> Result<Command<'a>, AllocError>
    ensures { IfOk result (λ c. (app_of c ≡ record { top = tree_shape; subs = [] })
        × ((fields_of c).has_globals ≡ false)) }
{
    Command::new(alloc, "tree")
        .about("Prints the document that a page shows in the end, without rendering it")
        .after_help("Example: fizz tree page.jsx script.json")
        .display_name("fizz")?
        .arg(name(alloc, "APP", "The component file, as page.jsx"))?
        .arg(name(
            alloc,
            "SCRIPT",
            "The script of what settles when, as script.json",
        ))?
        .arg(prefix(alloc))
}

fn generate<'a>(alloc: Global) -> Result<Command<'a>, AllocError>
    ensures { IfOk result (λ c. (app_of c ≡ record { top = gen_shape; subs = [] })
        × ((fields_of c).has_globals ≡ false)) }
{
    Command::new(alloc, "gen")
        .about("Renders a generated program, and prints one line on it")
        .after_help("Example: fizz gen 7 1000")
        .display_name("fizz")?
        .arg(seed(alloc))?
        .arg(size(alloc))?
        .arg(workers(alloc))
}

fn name<'a>(alloc: Global, id: &'a str, help: &'a str) -> Arg<'a>
    ensures { (rule_of result ≡ name_rule id.entry.now) × (result.global ≡ false) }
{
    Arg::new(alloc, id).required(true).help(help)
}

fn seed<'a>(alloc: Global) -> Arg<'a>
    ensures { (rule_of result ≡ seed_rule) × (result.global ≡ false) }
{
    Arg::new(alloc, "SEED")
        .required(true)
        .value_parser(value_parser!(u64).range(0..=9_223_372_036_854_775_807))
        .help("What the program is made of: 0 to 9223372036854775807")
}

fn size<'a>(alloc: Global) -> Arg<'a>
    ensures { (rule_of result ≡ size_rule) × (result.global ≡ false) }
{
    Arg::new(alloc, "SIZE")
        .required(true)
        .value_parser(value_parser!(u32).range(1..=50_000))
        .help("How large the program is: 1 to 50000")
}

fn workers<'a>(alloc: Global) -> Arg<'a>
    ensures { (rule_of result ≡ workers_rule) × (result.global ≡ false) }
{
    Arg::new(alloc, "workers")
        .long("workers")
        .value_name("N")
        .value_parser(value_parser!(u32).range(0..=MOST_WORKERS))
        .default_value("0")
        .help("How many threads render beside the calling one")
}

fn chunk<'a>(alloc: Global) -> Arg<'a>
    ensures { (rule_of result ≡ chunk_rule) × (result.global ≡ false) }
{
    Arg::new(alloc, "chunk")
        .long("chunk")
        .value_name("N")
        .value_parser(value_parser!(u32).range(1..=1_048_576))
        .default_value("2048")
        .help("How many bytes go to the output at once: 1 to 1048576")
}

fn progressive<'a>(alloc: Global) -> Arg<'a>
    ensures { (rule_of result ≡ progressive_rule) × (result.global ≡ false) }
{
    Arg::new(alloc, "progressive")
        .long("progressive")
        .value_name("N")
        .value_parser(value_parser!(u32))
        .default_value("12800")
        .help("A boundary of more bytes than these is sent by itself: 0 to 4294967295")
}

fn prefix<'a>(alloc: Global) -> Arg<'a>
    ensures { (rule_of result ≡ prefix_rule) × (result.global ≡ false) }
{
    Arg::new(alloc, "prefix")
        .long("prefix")
        .value_name("TEXT")
        .default_value("")
        .hide_default_value(true)
        .help("What stands before the ids of the renderer's own: at most 64 bytes")
}
