//! The one command that the words are read by.

ghost use Rattle.std.specs.Prelude.{◌≡◌, ◌≢◌, IfOk, map, false};
ghost use Rattle.std.specs.String.{string_bytes};
ghost use Rattle.clap.specs.Words.{app_of, kind_of, rule_of};
ghost use Rattle.clap.specs.declared.error.kind.ErrorKind.TheVariants.{OutOfMemory};
ghost use Rattle.xc_words.specs.declared.fault.WordsFault.TheVariants.{Words};
ghost use Rattle.clap.specs.Walk.{texts};
ghost use Rattle.xc_words.specs.CommandLine.{IsMatched, bare, command, command_line, files_rule, flag_rule};

use crate::fault::WordsFault;
use clap::error::ErrorKind;
use clap::{Arg, ArgAction, ArgMatches, Command, Error};
use std::alloc::{AllocError, Global};

/// A flag that is written `--` and its name.
fn flag<'a>(alloc: Global, name: &'a str) -> Arg<'a>
    ensures rule { rule_of result ≡ flag_rule name.entry.now }
    ensures local { result.global ≡ false }
{
    Arg::new(alloc, name).long(name).action(ArgAction::SetTrue)
}

/// The command before its arguments, without help and version.
#[tactic(auto, using(crate::proofs::Taking::bare))]
fn bare<'a>(alloc: Global) -> Command<'a>
    ensures { app_of result ≡ bare }
{
    Command::new(alloc, "chichek")
        .disable_help_flag(true)
        .disable_version_flag(true)
}

/// Any number of words.
#[tactic(auto, using(crate::proofs::Taking::any_number))]
fn files<'a>(alloc: Global) -> Arg<'a>
    ensures rule { rule_of result ≡ files_rule }
    ensures local { result.global ≡ false }
{
    Arg::new(alloc, "files").num_args(0..)
}

/// The command: a mode, any number of words after it, and three flags.
fn command<'a>(alloc: Global) -> Result<Command<'a>, AllocError>
    ensures { IfOk result (λ c. app_of c ≡ command) }
{
    bare(alloc)
        .arg(Arg::new(alloc, "mode"))?
        .arg(files(alloc))?
        .arg(flag(alloc, "witness"))?
        .arg(flag(alloc, "plain"))?
        .arg(flag(alloc, "size"))
}

/// The list that the command reads: the program's name, and then the words.
pub(crate) fn command_line<'a>(
    alloc: Global,
    words: &'a [String],
) -> Result<Vec<&'a str>, AllocError>
    ensures { IfOk result (λ all. texts all.items ≡ command_line (map string_bytes words.entry.now)) }
{
    let mut all: Vec<&'a str> = Vec::new(alloc);
    all.push("chichek")?;
    for word in words {
        all.push(word.as_str())?;
    }
    Ok(all)
}

/// Why a parse fails.
fn failure(error: &Error) -> WordsFault
    ensures { result ≡ Words → kind_of error.now ≢ OutOfMemory }
{
    match error.kind() {
        ErrorKind::OutOfMemory => WordsFault::Memory,
        _ => WordsFault::Words,
    }
}

/// What the command finds in a list.
pub(crate) fn matched<'a>(alloc: Global, line: &'a [&'a str]) -> Result<ArgMatches<'a>, WordsFault>
    ensures { IsMatched (texts line.entry.now) result }
{
    match command(alloc)?.try_get_matches_from(line) {
        Ok(matches) => Ok(matches),
        Err(error) => Err(failure(&error)),
    }
}
