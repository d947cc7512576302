//! The program's command line: its three commands, read by `clap`. Proved: each number of the
//! command line is in its range.
//!
//! [`parse_line`] answers what the words ask for, or clap's own error, which says what is wrong or
//! is the help that was asked for. A number in a [`Line`] is in its range, whoever made the words.
#![tactic(auto)]

ghost use Rattle.std.specs.Prelude.{◌≤◌, IfOk};
ghost use Rattle.command_line.specs.Line.{AsksInRange};

use clap::error::ErrorKind;
use clap::{Arg, ArgAction, ArgMatches, Command, Error};
use std::alloc::Global;

/// What the words of a command line ask for.
#[derive(Drop)]
pub enum Line<'a> {
    /// Run the script in this file.
    Script(&'a str),
    /// Run a job to rest over its inputs, one for each source task in task order.
    Run {
        /// The job's file.
        job: &'a str,
        /// The files of rows.
        inputs: Vec<&'a str>,
        /// How many threads work: 1 to 64.
        workers: u64,
        /// The records worked between two checkpoints, 0 for one checkpoint at the end: up to
        /// 1,000,000.
        every: u64,
        /// The turns after which the run is given up: 1 to 2^40.
        turns: u64,
        /// The records that an operator with states takes at a time, at most: 1 to 1,024.
        batch: u64,
    },
    /// Judge the job in this file.
    Check(&'a str),
}

/// The version that `--version` prints behind the name.
const VERSION: &str = "0.1.0";

const MAX_WORKERS: u64 = 64;

const MAX_EVERY: u64 = 1_000_000;

const MAX_TURNS: u64 = 1_099_511_627_776;

const MAX_BATCH: u64 = 1024;

/// An option with a number, and what `--help` says of it.
struct NumberOption<'a> {
    id: &'a str,
    low: u64,
    high: u64,
    default: &'a str,
    help: &'a str,
}

fn number_option<'a>(alloc: Global, option: &NumberOption<'a>) -> Arg<'a> {
    Arg::new(alloc, option.id)
        .long(option.id)
        .value_name("N")
        .value_parser(clap::builder::ValueParser::unsigned(option.low, option.high))
        .default_value(option.default)
        .help(option.help)
}

fn workers_option<'a>(alloc: Global) -> Arg<'a> {
    number_option(
        alloc,
        &NumberOption {
            id: "workers",
            low: 1,
            high: MAX_WORKERS,
            default: "1",
            help: "Threads that work on the job, 1 to 64",
        },
    )
}

fn every_option<'a>(alloc: Global) -> Arg<'a> {
    number_option(
        alloc,
        &NumberOption {
            id: "every",
            low: 0,
            high: MAX_EVERY,
            default: "100",
            help: "Records worked between two checkpoints, 0 to 1000000; 0 for the last one alone",
        },
    )
}

fn turns_option<'a>(alloc: Global) -> Arg<'a> {
    number_option(
        alloc,
        &NumberOption {
            id: "turns",
            low: 1,
            high: MAX_TURNS,
            default: "1000000000",
            help: "Turns after which the run is given up, 1 to 1099511627776 (2^40)",
        },
    )
}

fn batch_option<'a>(alloc: Global) -> Arg<'a> {
    number_option(
        alloc,
        &NumberOption {
            id: "batch",
            low: 1,
            high: MAX_BATCH,
            default: "1",
            help: "Records that an operator takes at a time at first, 1 to 1024; more while there are more",
        },
    )
}

fn file_argument<'a>(alloc: Global, id: &'a str, help: &'a str) -> Arg<'a> {
    Arg::new(alloc, id).required(true).help(help)
}

fn inputs_argument<'a>(alloc: Global) -> Arg<'a> {
    file_argument(
        alloc,
        "INPUT",
        "Files of rows, one for each source task in task order: one JSON row a line",
    )
    .num_args(1..)
    .action(ArgAction::Append)
}

const JOB_HELP: &str = "The job's file: a JSON object of vertices and edges";

fn run_command<'a>(alloc: Global) -> Result<Command<'a>, Error> {
    Ok(
        Command::new(alloc, "run")
            .about("Runs a job over its inputs until it is at rest, and prints the committed rows")
            .arg(file_argument(alloc, "JOB", JOB_HELP))?
            .arg(inputs_argument(alloc))?
            .arg(workers_option(alloc))?
            .arg(every_option(alloc))?
            .arg(turns_option(alloc))?
            .arg(batch_option(alloc))?,
    )
}

fn check_command<'a>(alloc: Global) -> Result<Command<'a>, Error> {
    Ok(
        Command::new(alloc, "check")
            .about("Judges a job's file: prints what it expands to, or its first fault")
            .arg(file_argument(alloc, "JOB", JOB_HELP))?,
    )
}

fn script_command<'a>(alloc: Global) -> Result<Command<'a>, Error> {
    Ok(
        Command::new(alloc, "script")
            .about("Runs a script: prints an answer for each step, then the committed rows")
            .arg(file_argument(
                alloc,
                "FILE",
                "The script's file: a JSON object of a job, partitions and steps",
            ))?,
    )
}

/// The program's command, with none under it yet.
fn program_command<'a>(alloc: Global) -> Command<'a> {
    Command::new(alloc, "absflow")
        .about(
            "A stream processor with exactly-once output; with no words, the script on standard input is run",
        )
        .version(VERSION)
        .subcommand_required(true)
}

/// The command with one more under it, if that one was made.
fn with_command<'a>(
    command: Command<'a>,
    under: Result<Command<'a>, Error>,
) -> Result<Command<'a>, Error> {
    Ok(command.subcommand(under?)?)
}

fn absflow_command<'a>(alloc: Global) -> Result<Command<'a>, Error> {
    let script = with_command(program_command(alloc), script_command(alloc))?;
    let both = with_command(script, run_command(alloc))?;
    with_command(both, check_command(alloc))
}

/// The error for an argument that clap has judged and that is not there: it comes for no words.
fn missing(alloc: Global, what: &str) -> Result<Error, Error> {
    Ok(Command::new(alloc, "absflow").error(ErrorKind::ValueValidation, what)?)
}

fn text_of<'a>(alloc: Global, matches: &ArgMatches<'a>, id: &str) -> Result<&'a str, Error> {
    match matches.get_str(id) {
        Some(text) => Ok(text),
        None => Err(missing(alloc, id)?),
    }
}

/// The number of this option. clap has judged its range; what clap's contract does not say of a
/// command under another is tested here once more.
fn number_of(
    alloc: Global,
    matches: &ArgMatches<'_>,
    id: &str,
    low: u64,
    high: u64,
) -> Result<u64, Error>
    ensures low { IfOk result (λ n. low ≤ n) }
    ensures high { IfOk result (λ n. n ≤ high) }
{
    match matches.get_one::<u64>(id) {
        Some(n) if low <= n && n <= high => Ok(n),
        _ => Err(missing(alloc, id)?),
    }
}

fn run_line<'a>(alloc: Global, matches: &ArgMatches<'a>) -> Result<Line<'a>, Error>
    ensures { IfOk result AsksInRange }
{
    let inputs = matches.get_strs("INPUT").unwrap_or(&[]);
    Ok(Line::Run {
        job: text_of(alloc, matches, "JOB")?,
        inputs: Vec::from_slice(alloc, inputs)?,
        workers: number_of(alloc, matches, "workers", 1, MAX_WORKERS)?,
        every: number_of(alloc, matches, "every", 0, MAX_EVERY)?,
        turns: number_of(alloc, matches, "turns", 1, MAX_TURNS)?,
        batch: number_of(alloc, matches, "batch", 1, MAX_BATCH)?,
    })
}

/// What the words ask for, the program's own name first. An `Err` is clap's: its `exit_code` is 2
/// for a wrong line and 0 for help, and its `print` writes the text to the right place.
pub fn parse_line<'a>(alloc: Global, words: &'a [&'a str]) -> Result<Line<'a>, Error>
    ensures { IfOk result AsksInRange }
{
    let matches = absflow_command(alloc)?.try_get_matches_from(words)?;
    match matches.subcommand() {
        Some(("script", found)) => Ok(Line::Script(text_of(alloc, found, "FILE")?)),
        Some(("run", found)) => run_line(alloc, found),
        Some(("check", found)) => Ok(Line::Check(text_of(alloc, found, "JOB")?)),
        _ => Err(missing(alloc, "a command")?),
    }
}
