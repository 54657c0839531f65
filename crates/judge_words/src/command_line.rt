//! The command line as `clap` reads it.

ghost use Rattle.std.specs.Prelude.{◌≡◌, IfOk, MatchResult, None, true, false, map, option_map, string_bytes};
ghost use Rattle.clap.specs.Words.{app_of, first_of, found_of, is_simple_and_free, rows_of, rule_of, subcommand_rows_of};
ghost use Rattle.clap.specs.declared.builder.command.Command.TheViews.{out-Command};
ghost use Rattle.judge_words.specs.Commands.{IsCommand, command_line, command_entered, values_given_to, files_command, judge_command, make_command, flag_of, is_given, option_of, option_or, required_word, choices_rules, register_rules, sharing_rules, with_rules};
ghost use Rattle.judge_words.specs.declared.job.WordError.TheVariants.{NotAJob};

use crate::job::WordError;
use clap::error::ErrorKind;
use clap::{Arg, ArgAction, ArgMatches, Command};
use std::alloc::{AllocError, Global};

/// `rvjudge judge IMAGE TRACE [--pc A] [--ram B:S] [--io LIST] [--harts H] [--max-image M]
/// [--max-trace M] [--profile NAME] [--misaligned trap|done] [--mtval value|zero|zero:LIST]
/// [--ad fault|set] [--reserve R] [--bits on|off] [--insn full|length] [--io-faults none|row]
/// [--csr LIST] [--pmp N] [--pmp-bits B] [--lines MASK]`, `rvjudge state` with the same, and
/// `rvjudge make NUMBER ROWS`, each with `[--workers N] [--segment K] [--window W]`, and `judge`
/// alone with `[--origin]`.
pub fn command_line<'a>(alloc: Global) -> Result<Command<'a>, AllocError>
    ensures { IfOk result (λ line. app_of line ≡ command_line) }
{
    Command::new(alloc, "rvjudge")
        .subcommand(judge_command(alloc)?)?
        .subcommand(files_command(alloc, "state")?)?
        .subcommand(make_command(alloc)?)
}

/// `judge`, which alone takes the flag `--origin`.
fn judge_command<'a>(alloc: Global) -> Result<Command<'a>, AllocError>
    ensures { IfOk result (IsCommand judge_command) }
{
    files_command(alloc, "judge")?.arg(flag(alloc, "origin"))
}

/// A command with the names of two files.
fn files_command<'a>(alloc: Global, name: &'a str) -> Result<Command<'a>, AllocError>
    ensures { IfOk result (IsCommand (files_command name.entry.now)) }
{
    let files = Command::new(alloc, name)
        .arg(required_word(alloc, "image"))?
        .arg(required_word(alloc, "trace"))?
        .arg(option(alloc, "pc"))?
        .arg(option_or(alloc, "ram", "0x80000000:0x8000000"))?
        .arg(option(alloc, "io"))?
        .arg(option_or(alloc, "harts", "1"))?
        .arg(option_or(alloc, "max-image", "0x40000000"))?
        .arg(option_or(alloc, "max-trace", "0x10000000000"))?;
    with_sharing(alloc, with_registers(alloc, with_choices(alloc, files)?)?)
}

/// `make`, with two numbers.
fn make_command<'a>(alloc: Global) -> Result<Command<'a>, AllocError>
    ensures { IfOk result (IsCommand make_command) }
{
    let make = Command::new(alloc, "make")
        .arg(required_word(alloc, "number"))?
        .arg(required_word(alloc, "rows"))?;
    with_sharing(alloc, make)
}

/// The command, and the options that say the choices of the implementation that is judged, and name
/// a core that has them.
fn with_choices<'a>(alloc: Global, command: Command<'a>) -> Result<Command<'a>, AllocError>
    requires { (out-Command command).has_globals ≡ false }
    ensures { IfOk result (IsCommand (with_rules (app_of command.entry) choices_rules)) }
{
    command
        .arg(option(alloc, "profile"))?
        .arg(option(alloc, "misaligned"))?
        .arg(option(alloc, "mtval"))?
        .arg(option(alloc, "ad"))?
        .arg(option(alloc, "reserve"))?
        .arg(option(alloc, "bits"))
}

/// The command, and the options that say what rows show, and what its control and status registers
/// are.
fn with_registers<'a>(alloc: Global, command: Command<'a>) -> Result<Command<'a>, AllocError>
    requires { (out-Command command).has_globals ≡ false }
    ensures { IfOk result (IsCommand (with_rules (app_of command.entry) register_rules)) }
{
    command
        .arg(option(alloc, "insn"))?
        .arg(option(alloc, "io-faults"))?
        .arg(option(alloc, "csr"))?
        .arg(option(alloc, "pmp"))?
        .arg(option(alloc, "pmp-bits"))?
        .arg(option(alloc, "lines"))
}

/// The command, and the options that say how its work is shared out.
fn with_sharing<'a>(alloc: Global, command: Command<'a>) -> Result<Command<'a>, AllocError>
    requires { (out-Command command).has_globals ≡ false }
    ensures { IfOk result (IsCommand (with_rules (app_of command.entry) sharing_rules)) }
{
    command
        .arg(option_or(alloc, "workers", "4"))?
        .arg(option_or(alloc, "segment", "4096"))?
        .arg(option_or(alloc, "window", "64"))
}

/// A word that must be there.
fn required_word<'a>(alloc: Global, name: &'a str) -> Arg<'a>
    ensures rule { rule_of result ≡ required_word name.entry.now }
    ensures local { result.global ≡ false }
{
    Arg::new(alloc, name).required(true)
}

/// An option with a value, `default` where it is left out.
fn option_or<'a>(alloc: Global, name: &'a str, default: &'a str) -> Arg<'a>
    ensures rule { rule_of result ≡ option_or name.entry.now default.entry.now }
    ensures local { result.global ≡ false }
{
    Arg::new(alloc, name).long(name).default_value(default)
}

/// An option with a value that may be left out.
fn option<'a>(alloc: Global, name: &'a str) -> Arg<'a>
    ensures rule { rule_of result ≡ option_of name.entry.now }
    ensures local { result.global ≡ false }
{
    Arg::new(alloc, name).long(name)
}

/// A flag, which has no value.
fn flag<'a>(alloc: Global, name: &'a str) -> Arg<'a>
    ensures rule { rule_of result ≡ flag_of name.entry.now }
    ensures local { result.global ≡ false }
{
    Arg::new(alloc, name).long(name).action(ArgAction::SetTrue)
}

/// What `line` finds in the words, where it takes them.
pub fn parse<'a>(line: Command<'a>, words: &'a [String]) -> Result<ArgMatches<'a>, WordError>
    requires { is_simple_and_free (app_of line) ≡ true }
    ensures { let texts = map string_bytes words.entry.now in
        let entered = command_entered (app_of line.entry) texts in
        MatchResult result (λ matches. entered ≡ subcommand_rows_of matches)
        (λ e. e ≡ NotAJob → entered ≡ None) }
{
    match line.try_get_matches_from(words) {
        Ok(matches) => Ok(matches),
        Err(error) => match error.kind() {
            ErrorKind::OutOfMemory => Err(WordError::NoMemory),
            _ => Err(WordError::NotAJob),
        },
    }
}

/// What was given to the command of this name.
pub fn given_to<'m, 'a>(matches: &'m ArgMatches<'a>, name: &str) -> Option<&'m ArgMatches<'a>>
    ensures { option_map (λ m. rows_of (found_of m.now)) result
        ≡ values_given_to name.now (subcommand_rows_of matches.now) }
{
    matches.subcommand_matches(name)
}

/// The text that was given under a name.
pub fn text_of<'a>(given: &ArgMatches<'a>, name: &str) -> Option<&'a str>
    ensures { option_map (λ text. text.now) result
        ≡ first_of name.now (rows_of (found_of given.now)) }
{
    given.get_str(name)
}

/// Whether a flag was given. Where it was left out its text is `false`.
pub fn is_given(given: &ArgMatches<'_>, name: &str) -> bool
    ensures { result ≡ is_given name.now (rows_of (found_of given.now)) }
{
    match text_of(given, name) {
        Some(value) => value == "true",
        None => false,
    }
}
