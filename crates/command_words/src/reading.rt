// Reading the words.
ghost use Rattle.std.specs.Prelude.{◌≡◌, ◌↔◌, IfOk, IfSome, IfNone, IsTrue, List, ℕ, codes, false};
ghost use Rattle.clap.specs.Words.{app_of, found_of, rows_of, rule_of, subcommand_rows_of};
ghost use Rattle.clap.specs.Simple.{new_app, with_subcommand};
ghost use Rattle.clap.specs.declared.builder.command.Command.TheViews.{out-Command as fields_of};
ghost use Rattle.command_words.specs.Words.{IsNumber, Says, SaysNone};
ghost use Rattle.command_words.specs.Program.{command_with_options, load_command, load_number, number_option, program, without_commands, workers, IsReadBy, ReadsBudget, ReadsGiven, ReadsLoad, ReadsNumber, ReadsOptions, ReadsWithBudget, ReadsWithOptions};
ghost use Rattle.command_words.specs.Read.{texts, has_escape};
ghost use Rattle.command_words.specs.declared.reading.Command.{Command as Said};
ghost use Rattle.command_words.specs.declared.reading.Command.TheVariants.{Assert, Crew, Distinct, Facts, Run};

use clap::builder::ValueParser;
use clap::error::ErrorKind;
use clap::{Arg, ArgMatches, value_parser};
use std::alloc::{AllocError, Global};

/// What the words tell the program to do.
#[derive(Clone, Copy, Debug, PartialEq, Eq)]
pub enum Command {
    /// Run a script, by 1 to 16 workers, where sessions begin with a budget of at most 100,000 units a step.
    Run { workers: u32, budget: u32 },
    /// Check a proof text.
    Check,
    /// Run a script as `Run` does, where lists are told by classes of scenarios that are renamings of one another.
    Distinct { workers: u32, budget: u32 },
    /// Decide the assertions of a script's models, each with a budget of at most 100,000 units.
    Assert { budget: u32 },
    /// Find facts that can't all hold, in a script's models, with a budget of at most 100,000 units a search.
    Facts { budget: u32 },
    /// Run the script of a number from 1 to 16, which the program makes, by 1 to 16 workers, and count what is shown.
    Load { number: u32, workers: u32 },
    /// List what a script's keys ask for by 1 to 16 workers that share one search, each with a budget of at most 100,000 units a round.
    Crew { workers: u32, budget: u32 },
}

/// What the options of a command say; where one isn't given, its default.
#[derive(Clone, Copy)]
struct Options {
    workers: u32,
    budget: u32,
}

/// How many workers run a script where no number is given.
pub const DEFAULT_WORKERS: u32 = 4;

/// The budget with which a session begins where none is given.
pub const DEFAULT_BUDGET: u32 = 20_000;

// An option `--name` with a number.
fn number_option<'a>(alloc: Global, name: &'a str, numbers: ValueParser<'a>) -> Arg<'a>
    ensures rule { rule_of result ≡ number_option name.entry.now numbers.entry }
    ensures local { result.global ≡ false }
{
    Arg::new(alloc, name).long(name).value_parser(numbers)
}

// The option of the workers.
fn workers_option<'a>(alloc: Global) -> Arg<'a>
    ensures rule { rule_of result ≡ workers }
    ensures local { result.global ≡ false }
{
    number_option(alloc, "workers", value_parser!(u32).range(1..=16))
}

// A command of this name that knows both options.
fn command_with_options<'a>(alloc: Global, name: &'a str) -> Result<clap::Command<'a>, AllocError>
    ensures { IfOk result (λ c. (app_of c ≡ command_with_options name.entry.now) × ((fields_of c).has_globals ≡ false)) }
{
    let budget = value_parser!(u32).range(0..=100_000);
    let command = clap::Command::new(alloc, name)
        .arg(workers_option(alloc))?
        .arg(number_option(alloc, "budget", budget))?;
    Ok(command)
}

// The number of a script that is made, which goes by its place among the words.
fn load_number<'a>(alloc: Global) -> Arg<'a>
    ensures rule { rule_of result ≡ load_number }
    ensures local { result.global ≡ false }
{
    Arg::new(alloc, "number")
        .value_parser(value_parser!(u32).range(1..=16))
        .required(true)
}

// The command `load`, which knows a number and the option of the workers.
fn load_command<'a>(alloc: Global) -> Result<clap::Command<'a>, AllocError>
    ensures { IfOk result (λ c. (app_of c ≡ load_command) × ((fields_of c).has_globals ≡ false)) }
{
    let command = clap::Command::new(alloc, "load")
        .arg(load_number(alloc))?
        .arg(workers_option(alloc))?;
    Ok(command)
}

// The program without its commands. Every word is its own, and none asks for help.
fn without_commands<'a>(alloc: Global) -> clap::Command<'a>
    ensures { app_of result ≡ without_commands }
{
    clap::Command::new(alloc, "explore")
        .no_binary_name(true)
        .disable_help_flag(true)
        .disable_help_subcommand(true)
        .subcommand_required(true)
}

// The program with a command more, which knows no option.
fn with_plain_command<'a>(
    alloc: Global,
    program: clap::Command<'a>,
    name: &'a str,
) -> Result<clap::Command<'a>, AllocError>
    ensures { IfOk result (λ c. app_of c ≡ with_subcommand (app_of program.entry) (new_app name.entry.now).top) }
{
    let command = clap::Command::new(alloc, name);
    program.subcommand(command)
}

// The program with a command more, which knows both options.
fn with_command<'a>(
    alloc: Global,
    program: clap::Command<'a>,
    name: &'a str,
) -> Result<clap::Command<'a>, AllocError>
    ensures { IfOk result (λ c. app_of c ≡ with_subcommand (app_of program.entry) (command_with_options name.entry.now).top) }
{
    let command = command_with_options(alloc, name)?;
    program.subcommand(command)
}

// The program with the command `load` more.
fn with_load<'a>(alloc: Global, program: clap::Command<'a>) -> Result<clap::Command<'a>, AllocError>
    ensures { IfOk result (λ c. app_of c ≡ with_subcommand (app_of program.entry) load_command.top) }
{
    let command = load_command(alloc)?;
    program.subcommand(command)
}

// The program and its commands.
fn program<'a>(alloc: Global) -> Result<clap::Command<'a>, AllocError>
    ensures { IfOk result (λ c. app_of c ≡ program) }
{
    let program = without_commands(alloc);
    let program = with_command(alloc, program, "run")?;
    let program = with_plain_command(alloc, program, "check")?;
    let program = with_command(alloc, program, "distinct")?;
    let program = with_command(alloc, program, "assert")?;
    let program = with_command(alloc, program, "facts")?;
    let program = with_load(alloc, program)?;
    let program = with_command(alloc, program, "crew")?;
    Ok(program)
}

// One to nine digits.
fn is_number(text: &str) -> bool
    ensures { IsTrue result ↔ IsNumber text.now }
{
    let digits = text.as_bytes();
    !digits.is_empty() && digits.len() <= 9 && digits.iter().all(|b| b.is_ascii_digit())
}

// The number that is given under this name. `clap` would also take a sign, and ten digits.
fn number_given(matches: &ArgMatches<'_>, name: &str) -> Option<u32>
    ensures { ReadsGiven name.now (rows_of (found_of matches.now)) result }
{
    let text = matches.get_str(name)?;
    if is_number(text) {
        matches.get_one::<u32>(name)
    } else {
        None
    }
}

// The number of an option, or its default.
fn number_in(options: &ArgMatches<'_>, name: &str, default: u32) -> Option<u32>
    ensures { ReadsNumber default name.now (rows_of (found_of options.now)) result }
{
    match options.get_str(name) {
        Some(_) => number_given(options, name),
        None => Some(default),
    }
}

// How many workers there are.
fn workers_in(matches: &ArgMatches<'_>) -> Option<u32>
    ensures { ReadsNumber 4 (codes "workers") (rows_of (found_of matches.now)) result }
{
    number_in(matches, "workers", DEFAULT_WORKERS)
}

// The options of a command that has both.
fn options_in(matches: &ArgMatches<'_>) -> Option<Options>
    ensures { ReadsOptions (rows_of (found_of matches.now)) result }
{
    let workers = workers_in(matches)?;
    let budget = number_in(matches, "budget", DEFAULT_BUDGET)?;
    Some(Options { workers, budget })
}

// The budget of a command that has no workers.
fn budget_in(matches: &ArgMatches<'_>) -> Option<u32>
    ensures { ReadsBudget (rows_of (found_of matches.now)) result }
{
    match matches.get_str("workers") {
        Some(_) => None,
        None => {
            let budget = number_in(matches, "budget", DEFAULT_BUDGET)?;
            Some(budget)
        }
    }
}

// The command `run` with its options.
fn run_with(matches: &ArgMatches<'_>) -> Option<Command>
    ensures { ReadsWithOptions Run (rows_of (found_of matches.now)) result }
{
    let Options { workers, budget } = options_in(matches)?;
    Some(Command::Run { workers, budget })
}

// The command `distinct` with its options.
fn distinct_with(matches: &ArgMatches<'_>) -> Option<Command>
    ensures { ReadsWithOptions Distinct (rows_of (found_of matches.now)) result }
{
    let Options { workers, budget } = options_in(matches)?;
    Some(Command::Distinct { workers, budget })
}

// The command `crew` with its options.
fn crew_with(matches: &ArgMatches<'_>) -> Option<Command>
    ensures { ReadsWithOptions Crew (rows_of (found_of matches.now)) result }
{
    let Options { workers, budget } = options_in(matches)?;
    Some(Command::Crew { workers, budget })
}

// The command `assert` with its budget.
fn assert_with(matches: &ArgMatches<'_>) -> Option<Command>
    ensures { ReadsWithBudget Assert (rows_of (found_of matches.now)) result }
{
    let budget = budget_in(matches)?;
    Some(Command::Assert { budget })
}

// The command `facts` with its budget.
fn facts_with(matches: &ArgMatches<'_>) -> Option<Command>
    ensures { ReadsWithBudget Facts (rows_of (found_of matches.now)) result }
{
    let budget = budget_in(matches)?;
    Some(Command::Facts { budget })
}

// The command `load` with its number and its workers.
fn load_with(matches: &ArgMatches<'_>) -> Option<Command>
    ensures { ReadsLoad (rows_of (found_of matches.now)) result }
{
    let number = number_given(matches, "number")?;
    let workers = workers_in(matches)?;
    Some(Command::Load { number, workers })
}

// The command that was matched.
fn said_by(matches: &ArgMatches<'_>) -> Option<Command>
    ensures { IsReadBy (subcommand_rows_of matches.now) result }
{
    if let Some(options) = matches.subcommand_matches("run") {
        run_with(options)
    } else if let Some(options) = matches.subcommand_matches("distinct") {
        distinct_with(options)
    } else if let Some(options) = matches.subcommand_matches("crew") {
        crew_with(options)
    } else if let Some(options) = matches.subcommand_matches("assert") {
        assert_with(options)
    } else if let Some(options) = matches.subcommand_matches("facts") {
        facts_with(options)
    } else if let Some(words) = matches.subcommand_matches("load") {
        load_with(words)
    } else {
        Some(Command::Check)
    }
}

// A word is `--`, which `clap` would take behind the options.
fn has_escape(words: &[String]) -> bool
    ensures { result ≡ has_escape words.now }
{
    words.iter().any(|word| word.as_str() == "--")
}

/// What the words say: `run`, `distinct` or `crew` with the options `--workers N` and `--budget N` in any order, each at most once,
/// `assert` or `facts` with `--budget N` at most, `load` with a number from 1 to 16 and `--workers N` at most, before or behind
/// it, or `check` alone. A number is one to nine digits, and may stand behind `=` in its option's word. None where the words aren't
/// so, and an error where memory is wanting.
pub fn command_of(alloc: Global, words: &[String]) -> Result<Option<Command>, AllocError>
    ensures none { IfOk result (λ said. IfNone said (SaysNone (texts words.now))) }
    ensures some { IfOk result (λ said. IfSome said (Says (texts words.now))) }
{
    if has_escape(words) {
        return Ok(None);
    }
    match program(alloc)?.try_get_matches_from(words) {
        Ok(matches) => Ok(said_by(&matches)),
        Err(error) if error.kind() == ErrorKind::OutOfMemory => Err(AllocError),
        Err(_) => Ok(None),
    }
}

/// Words say one command at most.
pub fn words_say_one_command()
    ensures { (words : List (List ℕ)) (c d : Said) → Says words c → Says words d → c ≡ d }
{}
