//! The lines that go to err where a request is not served.

ghost use Rattle.std.specs.Prelude.{◌≡◌, ◌∷◌, ◌++◌, IfOk, OnOk};
ghost use Rattle.std.specs.Fmt.{decimal};
ghost use Rattle.std.specs.String.{string_bytes};
ghost use Rattle.xc_base.specs.declared.fault.FileFault.TheVariants.{Count, Missing};
ghost use Rattle.xc_lines.specs.Texts.{line, fault_line, counted_word, part_text, broken_line, states_line, size_line, read_line};
ghost use Rattle.xc_lines.specs.Refusals.{IsMergeLine, IsTextLine};

use crate::text::{push_both, push_names, word_of};
use std::alloc::{AllocError, Global};
use xc_base::{Counted, FileFault, List, Memory as NoMemory, Part, TextFault, Word};
use xc_laws::Law;
use xc_merge::MergeFault;

/// A line of a label and two words, with a blank between these.
fn line_of(alloc: Global, label: &str, first: &str, second: &str) -> Result<String, AllocError>
    ensures { IfOk result (λ t. string_bytes t ≡ line (label.now ++ first.now ++ 32 ∷ second.now)) }
{
    let mut text = String::new(alloc);
    push_both(&mut text, label, first)?;
    push_both(&mut text, " ", second)?;
    text.push_str("\n")?;
    Ok(text)
}

/// A line of a label, a file and the number of one of its lines.
fn line_at(alloc: Global, label: &str, name: &str, number: u32) -> Result<String, AllocError>
    ensures { IfOk result (λ t. string_bytes t ≡ line (label.now ++ name.now ++ 32 ∷ decimal number)) }
{
    let number = format!(in alloc; "{number}")?;
    line_of(alloc, label, name, number.as_str())
}

/// The line for a text that is not cut into lines.
pub fn refused_text(alloc: Global, name: &str, fault: TextFault) -> Result<String, NoMemory>
    ensures { IfOk result (λ t. IsTextLine name.now fault (string_bytes t)) }
{
    let line = match fault {
        TextFault::LongFile => format!(in alloc; "refused longfile {name}\n")?,
        TextFault::BadByte { line } => line_at(alloc, "refused byte ", name, line)?,
        TextFault::LongLine { line } => line_at(alloc, "refused longline ", name, line)?,
        TextFault::Memory => return Err(NoMemory),
    };
    Ok(line)
}

/// The word for what a limit counts.
fn counted_word(what: Counted) -> &'static str
    ensures { result.now ≡ counted_word what }
{
    match what {
        Counted::Elements => "elements",
        Counted::Values => "values",
        Counted::States => "states",
        Counted::Commands => "commands",
        Counted::Props => "props",
        Counted::Uses => "uses",
        Counted::Formulas => "formulas",
        Counted::Nodes => "nodes",
        Counted::Text => "text",
        Counted::Lines => "lines",
    }
}

/// Appends the name of a part that a file may lack.
fn push_part(text: &mut String, part: &Part) -> Result<(), AllocError>
    ensures { OnOk result (string_bytes text.new ≡ string_bytes text.old ++ part_text part.now) }
{
    match part {
        Part::Head => text.push_str("head"),
        Part::Elements => text.push_str("elements"),
        Part::Not(element) => push_both(text, "not ", element.as_str()),
        Part::Lattice => text.push_str("lattice"),
        Part::Var => text.push_str("var"),
        Part::Init => text.push_str("init"),
        Part::Uses => text.push_str("use"),
        Part::Formula => text.push_str("formula"),
        Part::Claim => text.push_str("claim"),
        Part::Root => text.push_str("root"),
        Part::Line => text.push_str("line"),
    }
}

/// The line for a file that lacks a part.
fn refused_missing(alloc: Global, name: &str, part: &Part) -> Result<String, AllocError>
    ensures { IfOk result (λ t. string_bytes t ≡ fault_line name.now (Missing part.now)) }
{
    let mut text = String::new(alloc);
    push_both(&mut text, "refused missing ", name)?;
    text.push_str(" ")?;
    push_part(&mut text, part)?;
    text.push_str("\n")?;
    Ok(text)
}

/// The line for a file that passes a limit.
fn refused_count(
    alloc: Global,
    name: &str,
    line: u32,
    what: Counted,
    found: u64,
) -> Result<String, AllocError>
    ensures { IfOk result (λ t. string_bytes t ≡ fault_line name.now (Count line what found)) }
{
    let line = format!(in alloc; "{line}")?;
    let found = format!(in alloc; "{found}")?;
    let mut text = String::new(alloc);
    push_both(&mut text, "refused count ", name)?;
    push_both(&mut text, " ", line.as_str())?;
    push_both(&mut text, " ", counted_word(what))?;
    push_both(&mut text, " ", found.as_str())?;
    text.push_str("\n")?;
    Ok(text)
}

/// The line for a file whose statements are at fault.
pub fn refused_file(alloc: Global, name: &str, fault: &FileFault) -> Result<String, AllocError>
    ensures { IfOk result (λ t. string_bytes t ≡ fault_line name.now fault.now) }
{
    match fault {
        FileFault::NoStatement { line } => line_at(alloc, "refused grammar ", name, *line),
        FileFault::Repeated { line } => line_at(alloc, "refused repeated ", name, *line),
        FileFault::Unknown { line } => line_at(alloc, "refused unknown ", name, *line),
        FileFault::Count { line, what, found } => refused_count(alloc, name, *line, *what, *found),
        FileFault::Missing { part } => refused_missing(alloc, name, part),
    }
}

/// The line for a lattice that breaks a law, where the request is not to judge it.
pub fn refused_broken(
    alloc: Global,
    name: &str,
    law: Law,
    elements: &List<Word>,
) -> Result<String, AllocError>
    ensures { IfOk result (λ t. string_bytes t ≡ broken_line name.now law elements.now) }
{
    let mut text = String::new(alloc);
    push_both(&mut text, "refused broken ", name)?;
    push_both(&mut text, " ", word_of(law))?;
    push_names(&mut text, elements)?;
    text.push_str("\n")?;
    Ok(text)
}

/// The line for viewpoints that do not merge.
pub fn refused_merge(alloc: Global, fault: &MergeFault) -> Result<String, NoMemory>
    ensures { IfOk result (λ t. IsMergeLine fault.now (string_bytes t)) }
{
    let line = match fault {
        MergeFault::UnknownValue { viewpoint, value } => {
            line_of(alloc, "refused value ", viewpoint.as_str(), value.as_str())?
        }
        MergeFault::UnknownName { viewpoint, name } => {
            line_of(alloc, "refused name ", viewpoint.as_str(), name.as_str())?
        }
        MergeFault::NotTotal { viewpoint, name } => {
            line_of(alloc, "refused total ", viewpoint.as_str(), name.as_str())?
        }
        MergeFault::Elements { count } => format!(in alloc; "refused product {count}\n")?,
        MergeFault::NoInitial => String::from_str(alloc, "refused noinitial\n")?,
        MergeFault::Initial { count } => format!(in alloc; "refused initial {count}\n")?,
        MergeFault::Memory => return Err(NoMemory),
    };
    Ok(line)
}

/// The line for too many states.
pub fn refused_states(alloc: Global, count: u32) -> Result<String, AllocError>
    ensures { IfOk result (λ t. string_bytes t ≡ states_line count) }
{
    format!(in alloc; "refused states {count}\n")
}

/// The line for a size of which no files are generated.
pub fn refused_size(alloc: Global, size: u32) -> Result<String, AllocError>
    ensures { IfOk result (λ t. string_bytes t ≡ size_line size) }
{
    format!(in alloc; "refused size {size}\n")
}

/// The line for a file that was not read.
pub fn fault_read(alloc: Global, name: &str) -> Result<String, AllocError>
    ensures { IfOk result (λ t. string_bytes t ≡ read_line name.now) }
{
    format!(in alloc; "fault read {name}\n")
}
