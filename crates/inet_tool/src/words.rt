//! The words of the command line, as `clap` reads them.
//!
//! `clap` takes each number as `u32` has it from text, so `+7` and `007` are 7: a number is what
//! `clap` reads.
ghost use Rattle.std.specs.Prelude.{◌≡◌, ◌≤◌, ◌⊎◌, ℕ, map, string_bytes, IfOk, false};
ghost use Rattle.clap.specs.Words.{app_of, rule_of};
ghost use Rattle.clap.specs.declared.builder.command.Command.TheViews.{out-Command as fields_of};
ghost use Rattle.clap.specs.Matches.{subcommand_name_of};
ghost use Rattle.inet_tool.specs.Words.{Asks, IsRefused, NamesPlain, inet_app, make_app, number_rule, option_rule, race_app, scripts_app, top_app};

use clap::builder::ValueParser;
use clap::error::ErrorKind;
use clap::{Arg, ArgAction, ArgMatches, Command, value_parser};
use std::alloc::{AllocError, Global};

/// What the words ask for.
#[derive(Clone, Copy, Debug, PartialEq, Eq)]
pub enum Ask {
    /// To run the script that the source gives.
    Run,
    /// To make so many commands from the seed, and to run them.
    Make { seed: u32, count: u32 },
    /// To race the script that the source gives, with so many lookers, and so many passes a lookup at most.
    Race { lookers: u32, passes: u32 },
    /// To audit the record of a race that the source gives.
    Audit,
}

/// Why the words ask for nothing.
#[derive(Clone, Copy, Debug, PartialEq, Eq)]
pub enum AskEnd {
    /// They are outside the forms.
    Usage,
    /// No memory was left to read them.
    Memory,
}

/// The most commands that may be asked for.
const MOST_COMMANDS: i64 = 100_000;

/// The most lookers that may be asked for.
const MOST_LOOKERS: i64 = 16;

/// The most passes that a lookup may be allowed.
const MOST_PASSES: i64 = 64;

/// What the words ask for, the program's name first.
///
/// An error of `clap`'s own is `Usage`, a call for help among them.
pub fn ask_of(alloc: Global, words: &[String]) -> Result<Ask, AskEnd>
    // What is answered is what the words ask for.
    ensures asks { IfOk result (Asks (map string_bytes words.now)) }
    ensures in_range { (seed count : ℕ) → result ≡ Ok (Ask.Make seed count) → count ≤ 100000 }
    ensures race_in_range { (lookers passes : ℕ) → result ≡ Ok (Ask.Race lookers passes)
        → (1 ≤ lookers) × (lookers ≤ 16) × (1 ≤ passes) × (passes ≤ 64) }
    ensures usage { result ≡ Err AskEnd.Usage → IsRefused (map string_bytes words.now) }
    // Words that ask for something get it, and others are refused, where there is memory.
    ensures found { (ask : Ask) → Asks (map string_bytes words.now) ask
        → (result ≡ Ok ask) ⊎ (result ≡ Err AskEnd.Memory) }
    ensures refused { IsRefused (map string_bytes words.now)
        → (result ≡ Err AskEnd.Usage) ⊎ (result ≡ Err AskEnd.Memory) }
{
    let Ok(command) = command(alloc) else {
        return Err(AskEnd::Memory);
    };
    let matches = match command.try_get_matches_from(words) {
        Ok(matches) => matches,
        Err(error) => return Err(end_of(error.kind())),
    };
    if let Some(numbers) = matches.subcommand_matches("race") {
        let lookers = numbers.get_one::<u32>("lookers").unwrap();
        let passes = numbers.get_one::<u32>("passes").unwrap();
        return Ok(Ask::Race { lookers, passes });
    }
    let Some(numbers) = matches.subcommand_matches("make") else {
        return Ok(without_numbers(&matches));
    };
    let seed = numbers.get_one::<u32>("SEED").unwrap();
    let count = numbers.get_one::<u32>("COUNT").unwrap();
    Ok(Ask::Make { seed, count })
}

/// What a subcommand without numbers asks for.
fn without_numbers(matches: &ArgMatches<'_>) -> Ask
    ensures { NamesPlain (subcommand_name_of matches.now) result }
{
    match matches.subcommand_matches("audit") {
        Some(_) => Ask::Audit,
        None => Ask::Run,
    }
}

/// How an error of `clap` ends the reading.
fn end_of(kind: ErrorKind) -> AskEnd
    ensures memory { kind ≡ ErrorKind.OutOfMemory → result ≡ AskEnd.Memory }
    ensures usage { result ≡ AskEnd.Memory → kind ≡ ErrorKind.OutOfMemory }
{
    match kind {
        ErrorKind::OutOfMemory => AskEnd::Memory,
        _ => AskEnd::Usage,
    }
}

/// The command: `run`, `make SEED COUNT`, `race` with its two options, or `audit`, and no help.
fn command<'a>(alloc: Global) -> Result<Command<'a>, AllocError>
    ensures { IfOk result (λ command. app_of command ≡ inet_app) }
{
    let audit = Command::new(alloc, "audit");
    scripts_command(alloc)?.subcommand(audit)
}

/// The command with its subcommands for scripts alone.
fn scripts_command<'a>(alloc: Global) -> Result<Command<'a>, AllocError>
    ensures app { IfOk result (λ command. app_of command ≡ scripts_app) }
    ensures local { IfOk result (λ command. (fields_of command).has_globals ≡ false) }
{
    let run = Command::new(alloc, "run");
    let two = top(alloc)
        .subcommand(run)?
        .subcommand(make_command(alloc)?)?;
    two.subcommand(race_command(alloc)?)
}

/// The command without its subcommands.
fn top<'a>(alloc: Global) -> Command<'a>
    ensures app { app_of result ≡ top_app }
    ensures local { (fields_of result).has_globals ≡ false }
{
    Command::new(alloc, "inet")
        .subcommand_required(true)
        .disable_help_flag(true)
        .disable_help_subcommand(true)
}

/// The subcommand `make`, with its two numbers.
fn make_command<'a>(alloc: Global) -> Result<Command<'a>, AllocError>
    ensures app { IfOk result (λ command. app_of command ≡ make_app) }
    ensures local { IfOk result (λ command. (fields_of command).has_globals ≡ false) }
{
    let seed = number(alloc, "SEED", value_parser!(u32));
    let count = number(alloc, "COUNT", value_parser!(u32).range(..=MOST_COMMANDS));
    Command::new(alloc, "make").arg(seed)?.arg(count)
}

/// The subcommand `race`, with its two options.
fn race_command<'a>(alloc: Global) -> Result<Command<'a>, AllocError>
    ensures app { IfOk result (λ command. app_of command ≡ race_app) }
    ensures local { IfOk result (λ command. (fields_of command).has_globals ≡ false) }
{
    let lookers = option(alloc, "lookers", value_parser!(u32).range(1..=MOST_LOOKERS));
    let passes = option(alloc, "passes", value_parser!(u32).range(1..=MOST_PASSES));
    Command::new(alloc, "race").arg(lookers)?.arg(passes)
}

/// A required option that is one number.
fn option<'a>(alloc: Global, id: &'a str, parser: ValueParser<'a>) -> Arg<'a>
    ensures rule { rule_of result ≡ option_rule id.entry.now parser.entry }
    ensures local { result.global ≡ false }
{
    number(alloc, id, parser).long(id)
}

/// A required positional that is one number.
fn number<'a>(alloc: Global, id: &'a str, parser: ValueParser<'a>) -> Arg<'a>
    ensures rule { rule_of result ≡ number_rule id.entry.now parser.entry }
    ensures local { result.global ≡ false }
{
    Arg::new(alloc, id)
        .required(true)
        .action(ArgAction::Set)
        .value_parser(parser)
}
