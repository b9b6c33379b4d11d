ghost use Rattle.std.specs.Prelude.{◌≡◌, map, Some, false};
ghost use Rattle.std.specs.String.{string_bytes};
ghost use Rattle.clap.specs.Words.{found_of, rows_of};
ghost use Rattle.clap.specs.Walk.{texts};
ghost use Rattle.xc_words.specs.CommandLine.{has_flag};
ghost use Rattle.xc_words.specs.Requests.{Answers, asked_of, gen_of, kind_of, request_in, request_of, show_of, with_one_file, with_two_files};

use crate::asked::{Request, ShowKind};
use crate::command::{command_line, matched};
use crate::fault::WordsFault;
use crate::file_name::FileName;
use crate::number::number_named;
use clap::ArgMatches;
use std::alloc::Global;

/// The kind that a word names.
fn kind_named(word: &str) -> Option<ShowKind>
    ensures { result ≡ kind_of word.now }
{
    if word == "lattice" {
        Some(ShowKind::Lattice)
    } else if word == "view" {
        Some(ShowKind::View)
    } else if word == "map" {
        Some(ShowKind::Map)
    } else {
        None
    }
}

fn show(alloc: Global, kind: &str, file: &str) -> Result<Request, WordsFault>
    ensures { Answers (show_of kind.now file.now) result }
{
    let Some(kind) = kind_named(kind) else {
        return Err(WordsFault::Words);
    };
    let file = FileName::of(alloc, file)?;
    Ok(Request::Show { kind, file })
}

fn generate(number: &str, size: &str) -> Result<Request, WordsFault>
    ensures { Answers (gen_of number.now size.now) result }
{
    let Some(number) = number_named(number) else {
        return Err(WordsFault::Words);
    };
    let Some(size) = number_named(size) else {
        return Err(WordsFault::Words);
    };
    Ok(Request::Gen { number, size })
}

fn with_one_file(alloc: Global, mode: &str, file: &str) -> Result<Request, WordsFault>
    ensures { Answers (with_one_file mode.now file.now) result }
{
    if mode != "lattice" {
        return Err(WordsFault::Words);
    }
    let file = FileName::of(alloc, file)?;
    Ok(Request::Lattice { file })
}

fn check(alloc: Global, sigmap: &str, formulas: &str) -> Result<Request, WordsFault>
    ensures { Answers (Some (Request.Check sigmap.now formulas.now false false false)) result }
{
    Ok(Request::Check {
        map: FileName::of(alloc, sigmap)?,
        formulas: FileName::of(alloc, formulas)?,
        witness: false,
        plain: false,
        size: false,
    })
}

fn with_two_files(
    alloc: Global,
    mode: &str,
    first: &str,
    second: &str,
) -> Result<Request, WordsFault>
    ensures { Answers (with_two_files mode.now first.now second.now) result }
{
    if mode == "check" {
        check(alloc, first, second)
    } else if mode == "show" {
        show(alloc, first, second)
    } else if mode == "gen" {
        generate(first, second)
    } else {
        Err(WordsFault::Words)
    }
}

/// What a mode and the words after it ask for, where no flag is given.
#[tactic(auto, using(crate::proofs::Matching::none_given, crate::proofs::Matching::more_given))]
fn asked(alloc: Global, mode: &str, files: &[&str]) -> Result<Request, WordsFault>
    ensures { Answers (asked_of mode.now (texts files.now)) result }
{
    match files {
        [file] => with_one_file(alloc, mode, file),
        [first, second] => with_two_files(alloc, mode, first, second),
        _ => Err(WordsFault::Words),
    }
}

/// Whether the flag of that name was given.
#[tactic(auto, using(crate::proofs::Matching::first_row))]
fn has_flag(matches: &ArgMatches<'_>, name: &str) -> bool
    ensures { result ≡ has_flag name.now (rows_of (found_of matches.now)) }
{
    match matches.get_str(name) {
        Some(value) => value == "true",
        None => false,
    }
}

/// What the matches ask for.
#[tactic(auto, using(crate::proofs::Matching::first_row, crate::proofs::Matching::all_row))]
fn asked_by(alloc: Global, matches: &ArgMatches<'_>) -> Result<Request, WordsFault>
    ensures { Answers (request_in (rows_of (found_of matches.now))) result }
{
    if has_flag(matches, "witness") || has_flag(matches, "plain") || has_flag(matches, "size") {
        return Err(WordsFault::Words);
    }
    let Some(mode) = matches.get_str("mode") else {
        return Err(WordsFault::Words);
    };
    let Some(files) = matches.get_strs("files") else {
        return Err(WordsFault::Words);
    };
    asked(alloc, mode, files)
}

/// What the words ask for. They are those after the program's name.
///
/// # Errors
///
/// `Words` exactly where the words are no request, and `Memory` where there is no memory to tell.
pub fn request(alloc: Global, words: &Vec<String>) -> Result<Request, WordsFault>
    ensures { Answers (request_of (map string_bytes words.now.items)) result }
{
    let line = command_line(alloc, words.as_slice())?;
    let matches = matched(alloc, line.as_slice())?;
    asked_by(alloc, &matches)
}
