// The words of the command line: which command they ask for.
ghost use Rattle.std.specs.Prelude.{◌≡◌, ◌≤◌, ◌^◌, List, ℕ, Some, None, Ok, Err, true, false, map, codes, IfOk, IfSome, IsErr, string_bytes};
ghost use Rattle.std.specs.Option.{option_and_then};
ghost use Rattle.clap.specs.Words.{app_of, found_of, rows_of, rule_of, subcommand_rows_of, kind_of};
ghost use Rattle.nqthm.specs.Line.{command_line, number_rule, steps_rule};
ghost use Rattle.nqthm.specs.Words.{IsLimited, IsStepLimit, asked_by, command_of, number_at, number_in, sample_at, steps_at};

use clap::error::ErrorKind;
use clap::{Arg, ArgAction, ArgMatches, Error};
use std::alloc::{AllocError, Global};

/// What the words ask for.
#[derive(Clone, Copy, Debug, PartialEq, Eq)]
pub enum Command {
    /// Run an event file, each event within so many steps: from 1 to 50,000,000.
    Run(u64),
    /// The same, and write a log of its proofs.
    Log(u64),
    /// Check a log.
    Check,
    /// Write and run the event file that a seed and a size give: from 1 to 2,000 events.
    Sample(u64, u64),
}

/// Why the words name no command.
#[derive(Clone, Copy, Debug, PartialEq, Eq)]
pub enum WordsFault {
    /// They are not those of a command.
    Refused,
    /// Memory is wanting.
    Memory,
}

/// The steps of an event where no number is given.
const DEFAULT_STEPS: u64 = 2_000_000;

/// The most steps of an event.
const MOST_STEPS: u64 = 50_000_000;

/// The most events of a sample.
const MOST_EVENTS: u64 = 2000;

/// The command that the words ask for, as `clap` reads them. Only want of memory may hide it.
pub fn read_command(alloc: Global, words: &[String]) -> Result<Command, WordsFault>
    ensures read { IfOk result (λ command. command_of (map string_bytes words.now) ≡ Some command) }
    ensures range { IfOk result IsLimited }
    ensures refused { result ≡ Err WordsFault.Refused
        → command_of (map string_bytes words.now) ≡ None }
{
    let command = match whole_command(alloc) {
        Ok(command) => command,
        Err(_) => return Err(WordsFault::Memory),
    };
    match command.try_get_matches_from(words) {
        Ok(matches) => asked(&matches).ok_or(WordsFault::Refused),
        Err(error) => Err(fault_from(&error)),
    }
}

// What the words asked for, where `clap` took them.
fn asked(matches: &ArgMatches<'_>) -> Option<Command>
    ensures range { IfSome result IsLimited }
    ensures value { result ≡ option_and_then (λ p. asked_by p.0 p.1) (subcommand_rows_of matches.now) }
{
    let (name, found) = matches.subcommand()?;
    match name {
        "run" => Some(Command::Run(steps_at(found)?)),
        "log" => Some(Command::Log(steps_at(found)?)),
        "check" => Some(Command::Check),
        "sample" => sample_at(found),
        _ => None,
    }
}

fn steps_at(matches: &ArgMatches<'_>) -> Option<u64>
    ensures value { result ≡ steps_at (rows_of (found_of matches.now)) }
    ensures range { IfSome result IsStepLimit }
{
    match matches.get_str("steps") {
        Some(text) => number_in(text, 1, MOST_STEPS),
        None => Some(DEFAULT_STEPS),
    }
}

// The sample of the seed and the size that were given.
fn sample_at(matches: &ArgMatches<'_>) -> Option<Command>
    ensures value { result ≡ sample_at (rows_of (found_of matches.now)) }
    ensures range { IfSome result IsLimited }
{
    let seed = number_at(matches, "seed", 0, u64::MAX)?;
    let size = number_at(matches, "size", 1, MOST_EVENTS)?;
    Some(Command::Sample(seed, size))
}

// The number that was given as this argument, in its range.
fn number_at(matches: &ArgMatches<'_>, id: &str, least: u64, most: u64) -> Option<u64>
    ensures value { result ≡ number_at id.now least most (rows_of (found_of matches.now)) }
    ensures range { IfSome result (λ n. (least ≤ n) × (n ≤ most)) }
{
    match matches.get_str(id) {
        Some(text) => number_in(text, least, most),
        None => None,
    }
}

// A number in a range.
fn number_in(text: &str, least: u64, most: u64) -> Option<u64>
    ensures value { result ≡ number_in least most text.now }
    ensures range { IfSome result (λ n. (least ≤ n) × (n ≤ most)) }
{
    match text.parse::<u64>() {
        Ok(n) if least <= n && n <= most => Some(n),
        _ => None,
    }
}

fn fault_from(error: &Error) -> WordsFault
    ensures { result ≡ WordsFault.Refused → kind_of error.now ≡ ErrorKind.OutOfMemory → ⊥ }
{
    if error.kind() == ErrorKind::OutOfMemory {
        WordsFault::Memory
    } else {
        WordsFault::Refused
    }
}

// The whole command, with its subcommands.
fn whole_command<'a>(alloc: Global) -> Result<clap::Command<'a>, AllocError>
    ensures { IfOk result (λ command. app_of command ≡ command_line) }
{
    let run = clap::Command::new(alloc, "run").arg(limited(alloc))?;
    let log = clap::Command::new(alloc, "log").arg(limited(alloc))?;
    let with_run = clap::Command::new(alloc, "nqthm")
        .subcommand_required(true)
        .subcommand(run)?;
    let with_log = with_run.subcommand(log)?;
    let with_check = with_log.subcommand(clap::Command::new(alloc, "check"))?;
    let with_seed = clap::Command::new(alloc, "sample").arg(numbered(alloc, "seed"))?;
    let sample = with_seed.arg(numbered(alloc, "size"))?;
    with_check.subcommand(sample)
}

// A number that has to be given, in its place among the words.
fn numbered<'a>(alloc: Global, id: &'a str) -> Arg<'a>
    ensures rule { rule_of result ≡ number_rule id.entry.now }
    ensures local { result.global ≡ false }
{
    Arg::new(alloc, id).required(true).action(ArgAction::Set)
}

fn limited<'a>(alloc: Global) -> Arg<'a>
    ensures rule { rule_of result ≡ steps_rule }
    ensures local { result.global ≡ false }
{
    Arg::new(alloc, "steps")
        .long("steps")
        .action(ArgAction::Set)
}
