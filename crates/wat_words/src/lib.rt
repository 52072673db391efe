//! The words of a call, read by `clap`.
#![tactic(auto)]

ghost use Rattle.std.specs.Prelude.{string_bytes, codes, ◌≡◌, [], map, true, false, IfOk, OnErr};
ghost use Rattle.std.specs.List.{list_any};
ghost use Rattle.clap.specs.Words.{app_of, rule_of, subcommand_rows_of};
ghost use Rattle.clap.specs.declared.builder.command.Command.TheViews.{out-Command as fields_of};
ghost use Rattle.wat_words.specs.Commands.{command_of, names_of, is_dashed, is_for_clap};
ghost use Rattle.wat_words.specs.Line.{command_named, command_line, empty_line, found_command, leaf_app, run_rules, word_rule};

use clap::error::ErrorKind;
use clap::{Arg, ArgAction, ArgMatches};
use std::alloc::{AllocError, Global};

/// What the program is asked to do.
#[derive(Clone, Copy, Debug, PartialEq, Eq)]
pub enum Command {
    /// `init`: makes an empty database.
    Init,
    /// `run SCRIPT`: runs one script.
    Run,
    /// `translate`: prints the log as SQL.
    Translate,
    /// `dump`: prints the tables as SQL.
    Dump,
}

/// A word that has to be there.
fn word<'a>(alloc: Global, name: &'a str) -> Arg<'a>
    ensures rule { rule_of result ≡ word_rule name.now }
    ensures local { result.global ≡ false }
{
    Arg::new(alloc, name).required(true).action(ArgAction::Set)
}

/// A command with no words after it.
fn alone<'a>(alloc: Global, name: &'a str) -> clap::Command<'a>
    ensures app { app_of result ≡ leaf_app name.now [] }
    ensures local { (fields_of result).has_globals ≡ false }
{
    clap::Command::new(alloc, name)
}

/// `run SCRIPT`
fn run<'a>(alloc: Global) -> Result<clap::Command<'a>, AllocError>
    ensures app { IfOk result (λ c. app_of c ≡ leaf_app (codes "run") run_rules) }
    ensures local { IfOk result (λ c. (fields_of c).has_globals ≡ false) }
{
    clap::Command::new(alloc, "run").arg(word(alloc, "script"))
}

/// The program, with no command yet.
fn empty_line<'a>(alloc: Global) -> clap::Command<'a>
    ensures { app_of result ≡ empty_line }
{
    clap::Command::new(alloc, "watsql")
        .no_binary_name(true)
        .disable_help_flag(true)
        .disable_help_subcommand(true)
        .subcommand_required(true)
}

/// The program with its commands.
fn line<'a>(alloc: Global) -> Result<clap::Command<'a>, AllocError>
    ensures { IfOk result (λ c. app_of c ≡ command_line) }
{
    empty_line(alloc)
        .subcommand(alone(alloc, "init"))?
        .subcommand(run(alloc)?)?
        .subcommand(alone(alloc, "translate"))?
        .subcommand(alone(alloc, "dump"))
}

fn is_dashed(word: &str) -> bool
    ensures { result ≡ is_dashed word.now }
{
    matches!(word.as_bytes(), [b'-', ..])
}

fn any_dashed(words: &[String]) -> bool
    ensures { result ≡ list_any is_dashed (map string_bytes words.now) }
{
    for word in words {
        if is_dashed(word.as_str()) {
            return true;
        }
    }
    false
}

/// The program's own test, before `clap` reads the words.
fn is_for_clap(words: &[String]) -> bool
    ensures { result ≡ is_for_clap (map string_bytes words.now) }
{
    match words {
        [] => true,
        [name, ..] => name.as_str() != "help" && !any_dashed(words),
    }
}

/// The command of this name.
fn command_named(name: &str) -> Option<Command>
    ensures { result ≡ command_named name.now }
{
    match name {
        "init" => Some(Command::Init),
        "run" => Some(Command::Run),
        "translate" => Some(Command::Translate),
        "dump" => Some(Command::Dump),
        _ => None,
    }
}

/// The command whose subcommand `clap` found.
fn found_command(matches: &ArgMatches<'_>) -> Option<Command>
    ensures { result ≡ found_command (subcommand_rows_of matches.now) }
{
    match matches.subcommand() {
        Some((name, _)) => command_named(name),
        None => None,
    }
}

/// The command that the words after the program's name are, or none.
///
/// Where a word begins with `-` or the first is `help`, the words are no command, and no memory is taken.
pub fn read_words(alloc: Global, words: &[String]) -> Result<Option<Command>, AllocError>
    ensures command { IfOk result (λ command. command ≡ command_of (map string_bytes words.now)) }
    // Memory is wanted only for words that `clap` reads.
    ensures memory { OnErr result (is_for_clap (map string_bytes words.now) ≡ true) }
{
    if !is_for_clap(words) {
        return Ok(None);
    }
    let line = line(alloc)?;
    match line.try_get_matches_from(words) {
        Ok(matches) => Ok(found_command(&matches)),
        Err(error) => match error.kind() {
            ErrorKind::OutOfMemory => Err(AllocError),
            _ => Ok(None),
        },
    }
}

/// The words that name the command's scripts.
pub fn script_names(command: Command, words: &[String]) -> &[String]
    ensures { map string_bytes result.now ≡ names_of command (map string_bytes words.now) }
{
    match command {
        Command::Init | Command::Translate | Command::Dump => &words[..0],
        Command::Run => match words {
            [] => words,
            [_, names @ ..] => names,
        },
    }
}
